//! What is handed to C.

ghost use Rattle.std.specs.Prelude.{◌≡◌, ◌≤◌, ◌+◌, ◌++◌, length, take};

/// Writes the bytes behind the first ones, and says how many there are then.
pub(crate) fn append(out: &mut [u8], written: usize, bytes: &[u8]) -> usize
    requires { written + length bytes.now ≤ length out.old }
    ensures count { result ≡ written + length bytes.now }
    ensures bytes { take (written + length bytes.now) out.new ≡ take written out.old ++ bytes.now }
    ensures room { length out.new ≡ length out.old }
{
    out[written..written + bytes.len()].copy_from_slice(bytes);
    written + bytes.len()
}
