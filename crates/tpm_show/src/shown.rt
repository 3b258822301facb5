//! The subcommand `show` of a buffer.

ghost use Rattle.std.specs.Prelude.{ℕ, List, IfOk, string_bytes};
ghost use Rattle.std.specs.Io.KnownBytes.{Appends};
ghost use Rattle.tpm_output.specs.Faults.{FailsByMemoryOrWrite};
ghost use Rattle.tpm_show.specs.Digits.{buffer_in};
ghost use Rattle.tpm_show.specs.Show.{Shows, ShowsBuffer, ShowsFields};

use crate::digits::read_buffer;
use crate::told::{answer_to_command, answer_to_reply};
use std::alloc::{AllocError, Global};
use std::io::Write;
use tpm_output::answer::Answer;
use tpm_output::fault::ToolFault;
use tpm_output::status::Status;
use tpm_types::CommandCode;

fn answer<const FIELDS: bool>(
    alloc: Global,
    reply: Option<CommandCode>,
    hex: &str,
) -> Result<Answer, AllocError>
    ensures { IfOk result (λ a.
        ShowsBuffer FIELDS reply (buffer_in hex.now) a.status (string_bytes a.text)) }
{
    let Some(bytes) = read_buffer(alloc, hex.as_bytes())? else {
        return Answer::not_hexadecimal(alloc);
    };
    match reply {
        Some(command) => answer_to_reply::<FIELDS>(alloc, command, bytes.as_slice()),
        None => answer_to_command::<FIELDS>(alloc, bytes.as_slice()),
    }
}

/// Prints the command that hexadecimal digits spell, or the response to the command `reply`, or the refusal.
///
/// For a command the lines are `command NAME size N`, a line `handle I HHHHHHHH` for each handle, a line
/// `session I HHHHHHHH nonce X attributes XX hmac X` for each session, and `parameters X`. For a response of
/// code 0 they are `reply NAME size N`, `handle 1 HHHHHHHH` where it has a handle, `parameters X`, and a line
/// `session I nonce X attributes XX hmac X` for each session; for any other code `reply code XXX` alone.
///
/// Bytes that do not spell what was asked for, a command or with `reply` a response to it, are `refused XXX at N`,
/// the response code and how many bytes precede the fault. Text that is not hexadecimal, two digits to a byte in
/// either case, is `not hexadecimal`. Spaces, tabs and carriage returns count for nothing, and `0x` may stand before
/// the digits. No digits are the empty buffer.
///
/// X is bytes in lower-case hexadecimal digits, or `-` for none. HHHHHHHH, XXX and XX are hexadecimal; N, and I from 1,
/// are decimal.
///
/// Where a request for memory is refused the answer is `Memory`, and where the writer fails it is
/// `Write`. How much of the text was written by then is not said.
pub fn show<W: Write>(
    alloc: Global,
    out: &mut W,
    reply: Option<CommandCode>,
    hex: &str,
) -> Result<Status, ToolFault>
    ensures ok { IfOk result (λ status. (text : List ℕ) × Shows reply hex.now status text
        × Appends (W.contents out.old) (W.contents out.new) text) }
    ensures err { FailsByMemoryOrWrite result }
{
    answer::<false>(alloc, reply, hex)?.print(out)
}

/// Prints what `show` prints, and under the line of the parameters a line `  NAME TYPE X` for each of them, by its
/// name and its type in the tables of the command (Part 3), with the bytes that spell it.
///
/// Behind the number of a handle stands its name (Part 2, 7.4), or that of its kind (7.2), and behind a session's
/// attributes the names of those that are set, with commas between them (8.4). Behind the number of an algorithm, a
/// command, a start-up type and a type of session stands its name (6.3, 6.5.2, 6.10 and 6.11). The name of a response
/// code ends its line (6.6), and what the code is about. Of bytes that do not spell what was asked for it prints what
/// `show_lines` prints of the same frame, without its number and its mark, and the status is that.
///
/// Under the line of a structure its members or entries follow likewise, two more spaces in, by
/// their names and types in Part 2: those of TPM2B_NV_PUBLIC, TPML_PCR_SELECTION, TPML_DIGEST,
/// TPML_DIGEST_VALUES and TPMT_SYM_DEF. Under TPMA_NV stands `TPM_NT N`, and `NAME 1` for each bit
/// that is set; under pcrSelect `PCR N` for each register that is selected. N is decimal.
///
/// Where a request for memory is refused the answer is `Memory`, and where the writer fails it is
/// `Write`. How much of the text was written by then is not said.
pub fn show_fields<W: Write>(
    alloc: Global,
    out: &mut W,
    reply: Option<CommandCode>,
    hex: &str,
) -> Result<Status, ToolFault>
    ensures ok { IfOk result (λ status. (text : List ℕ) × ShowsFields reply hex.now status text
        × Appends (W.contents out.old) (W.contents out.new) text) }
    ensures err { FailsByMemoryOrWrite result }
{
    answer::<true>(alloc, reply, hex)?.print(out)
}
