//! The subcommand `show --nv`.

ghost use Rattle.std.specs.Prelude.{ℕ, List, IfOk, string_bytes};
ghost use Rattle.std.specs.Io.KnownBytes.{Appends};
ghost use Rattle.tpm_output.specs.Faults.{FailsByMemoryOrWrite};
ghost use Rattle.tpm_script.specs.ShowNv.{ShowsNv};

use crate::memory_text::push_memory;
use std::alloc::{AllocError, Global};
use std::io::Write;
use tpm_nv::{Counters, KEPT_BYTES};
use tpm_output::answer::Answer;
use tpm_output::fault::ToolFault;
use tpm_output::status::Status;

/// How many bytes of a file are wanted at most: one more than any NV memory takes.
pub const MOST_READ: usize = KEPT_BYTES + 1;

fn answer(alloc: Global, bytes: &[u8]) -> Result<Answer, AllocError>
    ensures { IfOk result (λ a. ShowsNv bytes.now a.status (string_bytes a.text)) }
{
    match Counters::from_bytes(bytes) {
        Ok(memory) => {
            let mut text = String::new(alloc);
            push_memory(&mut text, &memory)?;
            Ok(Answer::done(text))
        }
        Err(refusal) => Answer::refusal(alloc, &refusal),
    }
}

/// Prints the NV memory that the bytes spell in which a device is kept, or the refusal.
///
/// The first line is `greatest N`, the greatest value that any counter has had. A line `counter I HHHHHHHH hash NAME
/// attributes XXXXXXXX policy X authorization W value N` follows for each counter, in the order of their definitions:
/// its index, the hash of its Name, its attributes and its policy, `-` for none. W is `yes` where it has an
/// authorization value that is not empty, which is not told, else `no`. N is decimal, and `-` before the first
/// increment.
///
/// Other bytes are `refused XXX at N`, the response code and how many bytes precede the fault.
///
/// Where a request for memory is refused the answer is `Memory`, and where the writer fails it is
/// `Write`. What was written before is then left open.
pub fn show_nv<W: Write>(alloc: Global, out: &mut W, bytes: &[u8]) -> Result<Status, ToolFault>
    ensures ok { IfOk result (λ status. (text : List ℕ) × ShowsNv bytes.now status text
        × Appends (W.contents out.old) (W.contents out.new) text) }
    ensures err { FailsByMemoryOrWrite result }
{
    answer(alloc, bytes)?.print(out)
}
