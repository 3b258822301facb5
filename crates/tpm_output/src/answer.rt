//! What a subcommand answers: a status and a text.

ghost use Rattle.std.specs.Prelude.{◌≡◌, IfOk, IsErrOf, OnOk, string_bytes};
ghost use Rattle.std.specs.Io.KnownBytes.{Appends};
ghost use Rattle.tpm_output.specs.declared.status.Status.TheVariants.{Done, Refused};
ghost use Rattle.tpm_output.specs.declared.fault.ToolFault.TheVariants.{Memory};
ghost use Rattle.tpm_output.specs.Faults.{FailsByMemoryOrWrite};
ghost use Rattle.tpm_output.specs.Text.{not_hexadecimal_line};

use crate::fault::ToolFault;
use crate::status::Status;
use crate::text::push_refusal;
use crate::written::put;
use std::alloc::{AllocError, Global};
use std::io::Write;
use tpm_wire::Refusal;

/// A whole text, and the status for it.
#[derive(Drop)]
pub struct Answer {
    pub status: Status,
    pub text: String,
}

impl Answer {
    ghost use Rattle.tpm_output.specs.Text.{refusal_line};

    /// A text of what was asked for.
    pub fn done(text: String) -> Self
        ensures { (result.status ≡ Done) × (result.text ≡ text) }
    {
        Answer {
            status: Status::Done,
            text,
        }
    }

    /// A text of what was refused.
    pub fn refused(text: String) -> Self
        ensures { (result.status ≡ Refused) × (result.text ≡ text) }
    {
        Answer {
            status: Status::Refused,
            text,
        }
    }

    /// The line `refused XXX at N`, with the status `Refused`. AllocError where a request for memory is refused.
    pub fn refusal(alloc: Global, refusal: &Refusal) -> Result<Self, AllocError>
        ensures { IfOk result (λ a. (a.status ≡ Refused)
            × (string_bytes a.text ≡ refusal_line refusal.now)) }
    {
        let mut text = String::new(alloc);
        push_refusal(&mut text, refusal)?;
        Ok(Answer::refused(text))
    }

    /// This text, line feeds and all, with this status. AllocError where a request for memory is refused.
    pub fn of(alloc: Global, status: Status, text: &str) -> Result<Self, AllocError>
        ensures { IfOk result (λ a. (a.status ≡ status) × (string_bytes a.text ≡ text.now)) }
    {
        let text = String::from_str(alloc, text)?;
        Ok(Answer { status, text })
    }

    /// The line `not hexadecimal`, with the status `Refused`. AllocError where a request for memory is refused.
    pub fn not_hexadecimal(alloc: Global) -> Result<Self, AllocError>
        ensures { IfOk result (λ a. (a.status ≡ Refused)
            × (string_bytes a.text ≡ not_hexadecimal_line)) }
    {
        Answer::of(alloc, Status::Refused, "not hexadecimal\n")
    }

    /// Writes the text, and answers the status. Where the writer fails the answer is `Write`, and what was written
    /// before is then left open.
    pub fn print<W: Write>(&self, out: &mut W) -> Result<Status, ToolFault>
        ensures ok { IfOk result (λ status. (status ≡ self.now.status)
            × Appends (W.contents out.old) (W.contents out.new) (string_bytes self.now.text)) }
        ensures err { FailsByMemoryOrWrite result }
    {
        write(out, &self.text)?;
        Ok(self.status)
    }
}

/// Writes a text. Where the writer fails the answer is `Write`, and what was written before is then left open. No
/// memory is asked for.
pub fn write<W: Write>(out: &mut W, text: &String) -> Result<(), ToolFault>
    ensures ok { OnOk result (Appends (W.contents out.old) (W.contents out.new)
        (string_bytes text.now)) }
    ensures err { FailsByMemoryOrWrite result }
    ensures memory { IsErrOf result Memory → ⊥ }
{
    put(out, text.as_str())?;
    Ok(())
}

/// Prints that a word is not hexadecimal.
///
/// Where a request for memory is refused the answer is `Memory`, and where the writer fails it is
/// `Write`. What was written before is then left open.
pub fn not_hexadecimal<W: Write>(alloc: Global, out: &mut W) -> Result<Status, ToolFault>
    ensures ok { IfOk result (λ status. (status ≡ Refused)
        × Appends (W.contents out.old) (W.contents out.new) not_hexadecimal_line) }
    ensures err { FailsByMemoryOrWrite result }
{
    Answer::not_hexadecimal(alloc)?.print(out)
}
