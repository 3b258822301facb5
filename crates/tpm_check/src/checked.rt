//! The subcommand `check`.

ghost use Rattle.std.specs.Prelude.{◌≡◌, ◌||◌, ◌++◌, ℕ, List, Option, IfOk, IsErrOf, Result, is_some, option_map};
ghost use Rattle.std.specs.Prelude.{string_bytes};
ghost use Rattle.std.specs.Io.KnownBytes.{Appends};
ghost use Rattle.tpm_pcr.specs.Registers.{Registers as RegistersValue};
ghost use Rattle.tpm_output.specs.declared.status.Status.TheVariants.{Refused};
ghost use Rattle.tpm_output.specs.declared.fault.ToolFault.TheVariants.{InputTooLong, Read};
ghost use Rattle.tpm_output.specs.Faults.{FailsByMemoryOrWrite};
ghost use Rattle.tpm_output.specs.InputLines.{CountsRead};
ghost use Rattle.tpm_check.specs.Compare.{printed};
ghost use Rattle.tpm_check.specs.inner.Told.{told};
ghost use Rattle.tpm_check.specs.Asked.{asked_by};
ghost use Rattle.tpm_check.specs.CheckJson.{ok_text};
ghost use Rattle.tpm_check.specs.Check.{CountsReads, FailsLast, ReadsIfList, ReadsTooMuchIfList};
ghost use Rattle.tpm_check.specs.Check.{failures_of, has_stopped};
ghost use Rattle.tpm_check.specs.Checked.{ChecksLog, ChecksSigned, ChecksToEnd, ChecksValues};
ghost use Rattle.tpm_events.specs.LogFaults.{fault_text};
ghost use Rattle.tpm_log.specs.Changes.{AreAfter};
ghost use Rattle.tpm_log.specs.Replays.{ReplaysFrom, ReadsFrom};
ghost use Rattle.tpm_log.specs.declared.fault.LogFault.{LogFault as LogFaultValue};
ghost use Rattle.tpm_wire.specs.Sources.{IsWhereItFailed};

use crate::asked::{Asked, AskedQuote};
use crate::beside::Beside;
use crate::check_json::{ended, log_fault_answer};
use crate::compared::check_list;
use crate::judged::answer_to_attest;
use crate::quoted::answer_to_quote;
use crate::registers_told::ToldRegisters;
use crate::renderings::rendered;
use std::alloc::{AllocError, Global};
use std::io::Write;
use tpm_log::{LogFault, LogFaultKind, replay_from};
use tpm_options::CheckOptions;
use tpm_output::answer::Answer;
use tpm_output::fault::ToolFault;
use tpm_output::form::Form;
use tpm_output::status::Status;
use tpm_types::Alg;
use tpm_wire::Source;

/// Prints the fault of a log, and the status where it is told.
pub(crate) fn tell_fault<W: Write>(
    alloc: Global,
    form: Form,
    fault: &LogFault,
    out: &mut W,
) -> Result<Status, ToolFault>
    ensures ok { IfOk result (λ status. (status ≡ Refused)
        × Appends (W.contents out.old) (W.contents out.new)
        (fault_text form fault.now ++ ok_text form Refused)) }
    ensures err { FailsByMemoryOrWrite result }
{
    log_fault_answer(alloc, form, fault)?.print(out)
}

// Prints the status, where it is told.
fn print_ok<W: Write>(
    alloc: Global,
    form: Form,
    status: Status,
    out: &mut W,
) -> Result<Status, ToolFault>
    ensures ok { IfOk result (λ same. (same ≡ status)
        × Appends (W.contents out.old) (W.contents out.new) (ok_text form status)) }
    ensures err { FailsByMemoryOrWrite result }
{
    let text = String::new(alloc);
    ended(form, Answer { status, text })?.print(out)
}

// What a quote as it was signed says of registers, where there is one.
fn answer_to_signed(
    alloc: Global,
    found: &Beside<'_>,
    asked: &Asked<'_, '_>,
) -> Result<Answer, AllocError>
    ensures { IfOk result (λ a. ChecksSigned (told found.now) (asked_by asked.now)
        (printed a.status (string_bytes a.text))) }
{
    let options = asked.options;
    match asked.attest {
        Some(attest) => {
            let said = answer_to_attest(alloc, found, AskedQuote { options, attest })?;
            Ok(said.answer)
        }
        None => Ok(Answer::done(String::new(alloc))),
    }
}

// What the information of a quote says of registers, where there is one, and else those themselves, if they stand
// beside nothing else.
fn answer_last(
    alloc: Global,
    found: &Beside<'_>,
    options: &CheckOptions<'_>,
    others: bool,
) -> Result<Answer, AllocError>
    ensures { IfOk result (λ a. ChecksValues (told found.now) options.now others
        (printed a.status (string_bytes a.text))) }
{
    let form = found.form;
    match options.quote {
        Some(quote) => answer_to_quote(alloc, found, options.hash, quote),
        None if others => Ok(Answer::done(String::new(alloc))),
        None => {
            let registers = ToldRegisters {
                found: found.registers,
                banks: &Alg::ALL,
                form,
            };
            rendered(alloc, form, Status::Done, &registers)
        }
    }
}

// Whether registers stand beside a quote as it was signed or a list.
fn is_compared<F>(attest: Option<&[u8]>, list: &Option<F>) -> bool
    ensures { result ≡ (is_some (option_map (λ a. a.now) attest.entry) || is_some list.now) }
{
    attest.is_some() || list.is_some()
}

// Compares registers with all that is given, or prints them, and prints the status where it is told.
fn print_to_end<F: Source, W: Write>(
    alloc: Global,
    found: &Beside<'_>,
    asked: &Asked<'_, '_>,
    list: &mut Option<F>,
    out: &mut W,
) -> Result<Status, ToolFault>
    ensures failures { CountsRead
        (failures_of F.failed list.old) (failures_of F.failed list.new) result }
    ensures stop { IsErrOf result Read → IsWhereItFailed (has_stopped F.stopped list.new) }
    ensures ok { IfOk result (λ status. (bytes : Option (List ℕ)) × (text : List ℕ)
        × ReadsIfList (told found.now)
        (option_map F.coming list.old) (option_map F.coming list.new) bytes
        × ChecksToEnd (told found.now) (asked_by asked.now) bytes (printed status text)
        × Appends (W.contents out.old) (W.contents out.new) text) }
    ensures too_long { IsErrOf result InputTooLong
        → ReadsTooMuchIfList (option_map F.coming list.old) (option_map F.coming list.new) }
{
    let others = is_compared(asked.attest, list);
    let first = answer_to_signed(alloc, found, asked)?.print(out)?;
    let Some(second) = check_list(alloc, found, list, out)? else {
        return print_ok(alloc, found.form, Status::Refused, out);
    };
    let third = answer_last(alloc, found, asked.options, others)?.print(out)?;
    print_ok(alloc, found.form, first.both(second.both(third)), out)
}

/// Replays a log of a measured boot, and prints the registers that it gives, or compares them with what is given: a
/// quote as it was signed, a list of registers, and the information of a quote.
///
/// A fault of the log is `log KIND at N`, the kind and how many bytes precede it, and ends the output. Where nothing
/// is given the registers are printed, `sha1 I X` for each of the 24, then `sha256 I X` and `sha384 I X`.
///
/// The quote as it was signed comes first. Where the bytes spell none it is `refused XXX at N`, and behind that
/// `a size stands before it` for a TPM2B_ATTEST, or `it is a signature` for a TPMT_SIGNATURE. Else a line each says
/// what the quote does (TPMS_ATTEST; Part 2, 10.12): `signer`, `nonce`, `clock`, `resets`, `restarts`, `safe`,
/// `firmware`, and `selection` with each bank and its registers. Then come the verdicts: `signer matches` or `signer
/// differs`, where a signer is given; `nonce matches`, `nonce differs`, or without a nonce `nonce not compared`;
/// `selection covers`, or `selection lacks BANK I` for the first register that is required and not selected, or where
/// none is required `selection not compared`, and `selection empty` for a quote that selects none; and `quote matches`
/// or `quote differs`, by its digest under the hash. Where no hash is given it is the one whose digests are as long;
/// where none are it is `quote of no hash`. The signature is not looked at.
///
/// For each line of a list that states a register, in the form of above or as `tpm2_pcrread` prints it below the
/// bank's heading, `match BANK I` or `differs BANK I` is printed, and nothing for a heading and for a register below
/// that of SHA-512, SM3 or SHA-3; any other line is `line N: not a register`, which ends the output. Behind a list of
/// which no line states a register it is `no register`.
///
/// The quote's information comes last: `quote matches`, `quote differs` or `quote of no hash`; where it is not
/// hexadecimal `not hexadecimal`, and where the bytes spell none `refused XXX at N`.
///
/// The status is `Refused` for a fault, for what differs, for what is lacking and for what is refused; where nothing
/// was compared with the nonce or the selection of a quote as it was signed, unless any was asked for; and for a list
/// without a register.
///
/// The objects of JSON say what the lines say. The registers are `registers`, an object by the banks of lists of 24
/// values. The quote as it was signed is `attest`, an object of `signer`, `nonce`, `clock`, `resets`, `restarts`,
/// `safe`, `firmware` and `selection`, a list of `bank` and `registers`; beside it stand `signer`, where one is given,
/// `nonce`, `selection` and `quote`, the verdicts by their words, and behind a `selection` that lacks a register
/// `lacks`, its `bank` and its `register`. A register of a list has `bank`, `register` and `match`, a line that states
/// none `fault` and `line`, and a list without one `fault` alone. The quote's information has `quote`. What is refused
/// has `refused`, `at` and `hint`, what the bytes are, where that is told; and a fault of the log `fault` and `at`. The
/// last object is `ok`, whether the status is `Done`. Bytes are in hexadecimal.
///
/// Where a request for memory is refused the answer is `Memory`, where a read of the log or of the list fails `Read`,
/// where the writer fails `Write`, and where more than 16,777,216 bytes of a list come before its output has ended
/// `InputTooLong`. What was written before is then left open, and a failed read isn't tried again.
pub fn check_log<L: Source, F: Source, W: Write>(
    alloc: Global,
    log: &mut L,
    asked: &Asked<'_, '_>,
    list: &mut Option<F>,
    out: &mut W,
) -> Result<Status, ToolFault>
    ensures failures { CountsReads (record {
      log = L.failed log.old;
      log-behind = L.failed log.new;
      list = failures_of F.failed list.old;
      list-behind = failures_of F.failed list.new;
    }) result }
    ensures stop { IsErrOf result Read → FailsLast (record {
      log = L.failed log.old;
      log-behind = L.failed log.new;
      list = failures_of F.failed list.old;
      list-behind = failures_of F.failed list.new;
    }) (IsWhereItFailed (L.stopped log.new) × (list.new ≡ list.old))
        (IsWhereItFailed (has_stopped F.stopped list.new)) }
    ensures ok { IfOk result (λ status. (found : Result RegistersValue LogFaultValue)
        × (text : List ℕ)
        × ReplaysFrom AreAfter (record {
          coming = L.coming log.old;
          failed = L.failed log.old;
          failed-behind = L.failed log.new;
        }) found
        × ReadsFrom AreAfter (L.coming log.old) (L.coming log.new) found
        × ChecksLog (record {
          asked = asked_by asked.now;
          list = option_map F.coming list.old;
          list-behind = option_map F.coming list.new;
        }) found status text
        × Appends (W.contents out.old) (W.contents out.new) text) }
    ensures too_long { IsErrOf result InputTooLong
        → ReadsTooMuchIfList (option_map F.coming list.old) (option_map F.coming list.new) }
{
    let found = match replay_from(log) {
        Ok(found) => found,
        Err(fault) if fault.kind == LogFaultKind::Device => return Err(ToolFault::Read),
        Err(fault) => return tell_fault(alloc, asked.options.form, &fault, out),
    };
    let found = Beside {
        registers: &found,
        form: asked.options.form,
    };
    print_to_end(alloc, &found, asked, list, out)
}
