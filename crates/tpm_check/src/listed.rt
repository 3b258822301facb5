//! The subcommand `check` of the registers in the banks that a log's header lists.

ghost use Rattle.std.specs.Prelude.{ℕ, List, IfOk, string_bytes};
ghost use Rattle.std.specs.Io.KnownBytes.{Appends};
ghost use Rattle.tpm_pcr.specs.Registers.{value_in};
ghost use Rattle.tpm_output.specs.declared.status.Status.TheVariants.{Done};
ghost use Rattle.tpm_output.specs.Faults.{FailsByMemoryOrWrite};
ghost use Rattle.tpm_check.specs.CheckAttest.{Says, ended};
ghost use Rattle.tpm_check.specs.CheckJson.{registers_told};
ghost use Rattle.tpm_check.specs.Compare.{printed};
ghost use Rattle.tpm_check.specs.Listed.{TellsListed};
ghost use Rattle.tpm_check.specs.SecureBootLines.{listed_banks};

use crate::check_json::{ended, log_fault_answer};
use crate::registers_told::ToldRegisters;
use crate::renderings::rendered;
use crate::told_secure_boot::listed_banks;
use std::alloc::{AllocError, Global};
use std::io::Write;
use tpm_log::Log;
use tpm_output::answer::Answer;
use tpm_output::fault::ToolFault;
use tpm_output::form::Form;
use tpm_output::status::Status;
use tpm_pcr::Registers;

// What is printed of a log that gives these registers.
fn answer_to_log(
    alloc: Global,
    form: Form,
    found: &Registers,
    log: &Log<'_>,
) -> Result<Answer, AllocError>
    ensures { IfOk result (λ a. Says (ended form (printed Done
        (registers_told form (value_in found.now.banks) (listed_banks log.now.hashes))))
        a.status (string_bytes a.text)) }
{
    let banks = listed_banks(log);
    let registers = ToldRegisters {
        found,
        banks: banks.as_slice(),
        form,
    };
    ended(form, rendered(alloc, form, Status::Done, &registers)?)
}

// What is printed of the log that these bytes are, or its fault.
fn answer(alloc: Global, form: Form, bytes: &[u8]) -> Result<Answer, AllocError>
    ensures { IfOk result (λ a. TellsListed form bytes.now a.status (string_bytes a.text)) }
{
    match Log::replayed(bytes) {
        Ok((log, found)) => answer_to_log(alloc, form, &found, &log),
        Err(fault) => log_fault_answer(alloc, form, &fault),
    }
}

/// Prints the registers that a log gives, as `check_log` does, but those of the banks alone that its header lists: 24
/// lines a bank, or one object.
///
/// A log that has a fault gives that alone, as `check_log` prints it, and the status `Refused`. Where a request for
/// memory is refused the answer is `Memory`, and where the writer fails `Write`. What was written before is then left
/// open.
pub fn check_listed<W: Write>(
    alloc: Global,
    form: Form,
    bytes: &[u8],
    out: &mut W,
) -> Result<Status, ToolFault>
    ensures ok { IfOk result (λ status. (text : List ℕ)
        × TellsListed form bytes.now status text
        × Appends (W.contents out.old) (W.contents out.new) text) }
    ensures err { FailsByMemoryOrWrite result }
{
    answer(alloc, form, bytes)?.print(out)
}
