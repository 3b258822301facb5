//! Values that are copied without memory.

ghost use Rattle.std.specs.Prelude.{◌≡◌};

/// A value that can be made a second time without an allocator, which `Clone` of a bounded list would ask for.
pub trait Duplicate {
    /// The same value again.
    fn duplicate(&self) -> Self
        ensures { result ≡ self.now };
}

impl Duplicate for u16 {
    fn duplicate(&self) -> Self {
        *self
    }
}
