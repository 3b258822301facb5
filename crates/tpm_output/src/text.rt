//! The program's lines.

ghost use Rattle.std.specs.Prelude.{◌≡◌, ◌++◌, OnOk, string_bytes};
ghost use Rattle.tpm_output.specs.Text.{bytes_line, bytes_text, refusal_line};

use crate::puts::put_bytes;
use std::alloc::AllocError;
use tpm_wire::Refusal;

/// What adding to a text answers: AllocError where a request for memory is refused.
pub type Pushed = Result<(), AllocError>;

/// Adds the line of a refusal: `refused XXX at N`, its code in three hexadecimal digits or more, and how many bytes
/// precede the fault.
///
/// Where a request for memory is refused what was added is left open.
#[tactic(auto, using(crate::proofs::Padded::padded), unfolding(crate::specs::Text::refusal_line))]
pub fn push_refusal(text: &mut String, refusal: &Refusal) -> Pushed
    ensures { OnOk result (string_bytes text.new
        ≡ string_bytes text.old ++ refusal_line refusal.now) }
{
    let Refusal { code, at } = *refusal;
    writeln!(text, "refused {code:03x} at {at}")
}

/// Adds a line of bytes in lower-case hexadecimal digits, two to a byte, and of no bytes `-`.
///
/// Where a request for memory is refused what was added is left open.
#[tactic(auto, unfolding(crate::specs::Text::bytes_line))]
pub fn push_bytes(text: &mut String, bytes: &[u8]) -> Pushed
    ensures { OnOk result (string_bytes text.new ≡ string_bytes text.old ++ bytes_line bytes.now) }
{
    push_shown(text, bytes)?;
    text.push_str("\n")
}

/// Adds bytes in lower-case hexadecimal digits, two to a byte, and of no bytes `-`.
///
/// Where a request for memory is refused what was added is left open.
pub fn push_shown(text: &mut String, bytes: &[u8]) -> Pushed
    ensures { OnOk result (string_bytes text.new ≡ string_bytes text.old ++ bytes_text bytes.now) }
{
    if bytes.is_empty() {
        return text.push_str("-");
    }
    put_bytes(text, bytes).map_err(|_| AllocError)
}
