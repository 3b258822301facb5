//! What is handed to C.

ghost use Rattle.std.specs.Prelude.{◌≡◌, ◌≤◌, length, nat_le, Some};
ghost use Rattle.std.specs.List.{flat_map};
ghost use Rattle.tpm_c.specs.Written.{in_room, IsIn};

/// No command and no response has more bytes.
pub(crate) const BUFFER_BYTES: usize = 4096;

/// Writes the bytes to the beginning of `out`, and says how many they are.
pub(crate) fn put(out: &mut [u8], bytes: &[u8]) -> usize
    requires { length bytes.now ≤ length out.old }
    ensures { IsIn bytes.now out.old out.new result }
{
    out[..bytes.len()].copy_from_slice(bytes);
    bytes.len()
}

/// Writes the bytes to the beginning of `out`, and says how many they are; or nothing, and answers 0, where there is
/// less room.
pub(crate) fn put_in_room(out: &mut [u8], bytes: &[u8]) -> usize
    ensures { IsIn (in_room (length out.old) (Some bytes.now)) out.old out.new result }
{
    if bytes.len() <= out.len() {
        return put(out, bytes);
    }
    0
}

// Whether the parts have at most so many bytes.
fn have_room(room: usize, parts: &[&[u8]]) -> bool
    ensures { result ≡ nat_le (length (flat_map (λ part. part.now) parts.now)) room }
{
    match parts {
        [] => true,
        [first, others @ ..] => first.len() <= room && have_room(room - first.len(), others),
    }
}

// Writes the parts one behind the other.
fn put_all(out: &mut [u8], parts: &[&[u8]]) -> usize
    requires { length (flat_map (λ part. part.now) parts.now) ≤ length out.old }
    ensures { IsIn (flat_map (λ part. part.now) parts.now) out.old out.new result }
{
    match parts {
        [] => 0,
        [first, others @ ..] => {
            let (front, behind) = out.split_at_mut(first.len());
            front.copy_from_slice(first);
            first.len() + put_all(behind, others)
        }
    }
}

/// Writes the parts, joined, to the beginning of `out`, and says how many bytes they have; or nothing, and answers 0,
/// where there is less room.
pub(crate) fn put_parts(out: &mut [u8], parts: &[&[u8]]) -> usize
    ensures { IsIn (in_room (length out.old) (Some (flat_map (λ part. part.now) parts.now)))
        out.old out.new result }
{
    if have_room(out.len(), parts) {
        return put_all(out, parts);
    }
    0
}
