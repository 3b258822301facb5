//! The bits of a number that are set.

ghost use Rattle.std.specs.Prelude.{◌≡◌, ◌<◌};
ghost use Rattle.tpm_types.specs.Tpma.{is_set};

/// Whether this bit of a number is set.
pub(crate) fn is_set(number: u32, bit: u32) -> bool
    requires { bit < 32 }
    ensures { result ≡ is_set bit number }
{
    number & 1 << bit != 0
}
