//! The subcommands `check` and `events`.

ghost use Rattle.std.specs.Prelude.{◌≡◌, ℕ, List, IfErr, IfOk, IsErrOf, option_map};
ghost use Rattle.std.specs.Io.KnownBytes.{Appends};
ghost use Rattle.tpm_output.specs.declared.fault.ToolFault.TheVariants.{InputTooLong};
ghost use Rattle.tpm_check.specs.Asked.{asked_by};
ghost use Rattle.tpm_check.specs.Check.{CountsReads, ReadsTooMuchIfList, failures_of};
ghost use Rattle.tpm_args.specs.declared.task.Task.TheVariants.{Check, CheckListed, Events, EventsHeader};
ghost use Rattle.tpm_program.specs.Performs.{Performs, PrintsAsked, is_of_boot};
ghost use Rattle.tpm_program.specs.Fails.{Fails};
ghost use Rattle.tpm_program.specs.inner.Fails.{read_last};

use crate::fault::Fault;
use crate::files::{bytes_at, bytes_if, list_if, of_reading, opened, opened_if};
use crate::inputs::Inputs;
use std::alloc::Global;
use std::io::Write;
use tpm_check::{Asked, check_boot, check_extends, check_listed, check_log, list_vouched};
use tpm_events::listed_events::MOST_READ;
use tpm_events::print_header;
use tpm_lists::AllowFile;
use tpm_options::{CheckOptions, CheckTask, EventsTask, LogTask};
use tpm_output::fault::ToolFault;
use tpm_output::status::Status;
use tpm_wire::Source;

/// How many bytes of a quote are read at most, which is more than any has.
const MOST_ATTEST: usize = 4096;

/// Lists the records of a log, beside a quote where there is one.
pub(crate) fn events<'a, I: Inputs, W: Write>(
    alloc: Global,
    inputs: &I,
    out: &mut W,
    task: &EventsTask<'a>,
) -> Result<Status, Fault<'a>>
    ensures ok { IfOk result (λ status. (text : List ℕ)
        × Performs (I.offers inputs.now) (Events task.now) status text
        × Appends (W.contents out.old) (W.contents out.new) text) }
    ensures err { IfErr result (λ fault. Fails (I.offers inputs.now) (Events task.now) fault) }
{
    let mut log = opened(inputs, task.log)?;
    let attest = bytes_if(alloc, inputs, task.attest, MOST_ATTEST)?;
    let allow = None;
    let asked = asked_with(&task.options, &attest, &allow);
    match list_vouched(alloc, &mut log, task.listing, &asked, out) {
        Ok(status) => Ok(status),
        Err(fault) => Err(of_reading(inputs, fault, task.log)),
    }
}

/// Prints what the header of a log says.
pub(crate) fn events_header<'a, I: Inputs, W: Write>(
    alloc: Global,
    inputs: &I,
    out: &mut W,
    task: &LogTask<'a>,
) -> Result<Status, Fault<'a>>
    ensures ok { IfOk result (λ status. (text : List ℕ)
        × Performs (I.offers inputs.now) (EventsHeader task.now) status text
        × Appends (W.contents out.old) (W.contents out.new) text) }
    ensures err { IfErr result (λ fault. Fails (I.offers inputs.now) (EventsHeader task.now) fault) }
{
    let bytes = bytes_at(alloc, inputs, task.log, MOST_READ)?;
    Ok(print_header(alloc, task.form, bytes.as_slice(), out)?)
}

/// Prints the registers that a log gives in the banks that its header lists.
pub(crate) fn check_banks<'a, I: Inputs, W: Write>(
    alloc: Global,
    inputs: &I,
    out: &mut W,
    task: &LogTask<'a>,
) -> Result<Status, Fault<'a>>
    ensures ok { IfOk result (λ status. (text : List ℕ)
        × Performs (I.offers inputs.now) (CheckListed task.now) status text
        × Appends (W.contents out.old) (W.contents out.new) text) }
    ensures err { IfErr result (λ fault. Fails (I.offers inputs.now) (CheckListed task.now) fault) }
{
    let bytes = bytes_at(alloc, inputs, task.log, MOST_READ)?;
    Ok(check_listed(alloc, task.form, bytes.as_slice(), out)?)
}

// Which of a log and a list was read last: the list is read behind the log, where no read of that failed.
fn read_last<'a>(failures: u64, log: &'a str, list: Option<&'a str>) -> &'a str
    ensures { result.now ≡ read_last failures log.now list.entry }
{
    match list {
        Some(list) if failures == 0 => list,
        _ => log,
    }
}

// What a log is held against, by what was read of the files beside it.
fn asked_with<'a, 'o>(
    options: &'a CheckOptions<'o>,
    attest: &'a Option<Vec<u8>>,
    allow: &'a Option<AllowFile>,
) -> Asked<'a, 'o>
    ensures { asked_by result ≡ record {
      options = options.now;
      attest = option_map (λ v. v.items) attest.now;
      allow = allow.now;
    } }
{
    Asked {
        options,
        attest: attest.as_deref(),
        allow: allow.as_ref(),
    }
}

// Whether a list of allowed digests is compared, or Secure Boot told, in place of registers.
fn is_of_boot(asked: &Asked<'_, '_>) -> bool
    ensures { result ≡ is_of_boot (asked_by asked.now) }
{
    asked.options.secure_boot || (asked.allow.is_some() && asked.attest.is_some())
}

// Checks a log that is opened for what is asked of it.
fn check_opened<S: Source, W: Write>(
    alloc: Global,
    log: &mut S,
    asked: &Asked<'_, '_>,
    list: &mut Option<S>,
    out: &mut W,
) -> Result<Status, ToolFault>
    requires { S.failed log.old ≡ 0 }
    ensures failures { CountsReads (record {
      log = S.failed log.old;
      log-behind = S.failed log.new;
      list = failures_of S.failed list.old;
      list-behind = failures_of S.failed list.new;
    }) result }
    ensures ok { IfOk result (λ status. (text : List ℕ)
        × PrintsAsked (record {
          log = S.coming log.old;
          list = option_map S.coming list.old;
          asked = asked_by asked.now;
        }) status text
        × Appends (W.contents out.old) (W.contents out.new) text) }
    ensures too_long { IsErrOf result InputTooLong
        → ReadsTooMuchIfList (option_map S.coming list.old) (option_map S.coming list.new) }
{
    if asked.options.extends {
        check_extends(alloc, log, out)
    } else if is_of_boot(asked) {
        check_boot(alloc, log, asked, out)
    } else {
        check_log(alloc, log, asked, list, out)
    }
}

/// Checks a log beside what is given of lists and of quotes.
pub(crate) fn check<'a, I: Inputs, W: Write>(
    alloc: Global,
    inputs: &I,
    out: &mut W,
    task: &CheckTask<'a>,
) -> Result<Status, Fault<'a>>
    ensures ok { IfOk result (λ status. (text : List ℕ)
        × Performs (I.offers inputs.now) (Check task.now) status text
        × Appends (W.contents out.old) (W.contents out.new) text) }
    ensures err { IfErr result (λ fault. Fails (I.offers inputs.now) (Check task.now) fault) }
{
    let files = &task.files;
    let mut log = opened(inputs, files.log)?;
    let mut list = opened_if(inputs, files.registers)?;
    let attest = bytes_if(alloc, inputs, files.attest, MOST_ATTEST)?;
    let allow = list_if(alloc, inputs, files.allow)?;
    let asked = asked_with(&task.options, &attest, &allow);
    match check_opened(alloc, &mut log, &asked, &mut list, out) {
        Ok(status) => Ok(status),
        Err(fault) => {
            let path = read_last(log.failures(), files.log, files.registers);
            Err(of_reading(inputs, fault, path))
        }
    }
}
