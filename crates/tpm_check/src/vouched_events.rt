//! The subcommand `events`, beside a quote as it was signed.

ghost use Rattle.std.specs.Prelude.{ℕ, List, Some, map, IfOk, IsErrOf, string_bytes};
ghost use Rattle.std.specs.Io.KnownBytes.{Appends};
ghost use Rattle.tpm_log.specs.Events.{shown};
ghost use Rattle.tpm_wire.specs.Sources.{IsWhereItFailed};
ghost use Rattle.tpm_output.specs.declared.fault.ToolFault.TheVariants.{InputTooLong, Read};
ghost use Rattle.tpm_output.specs.declared.status.Status.TheVariants.{Done};
ghost use Rattle.tpm_output.specs.Faults.{FailsByMemoryOrWrite};
ghost use Rattle.tpm_output.specs.InputLines.{CountsRead};
ghost use Rattle.tpm_output.specs.Reads.{ReadsNoMore, ReadsUpTo};
ghost use Rattle.tpm_events.specs.ListEvents.{events_from, most_read};
ghost use Rattle.tpm_check.specs.CheckAttest.{IsFollowed, Selects};
ghost use Rattle.tpm_check.specs.Compare.{printed};
ghost use Rattle.tpm_check.specs.Asked.{asked_by};
ghost use Rattle.tpm_check.specs.VouchedEvents.{ListsBeside, ListsVouched};

use crate::asked::{Asked, AskedQuote};
use crate::beside::Beside;
use crate::check_json::ended;
use crate::checked::tell_fault;
use crate::judged::answer_to_attest;
use std::alloc::Global;
use std::io::Write;
use tpm_events::listed_events::MOST_READ;
use tpm_events::{list_events, print_events};
use tpm_log::Log;
use tpm_options::Listing;
use tpm_output::answer::Answer;
use tpm_output::fault::ToolFault;
use tpm_output::reads::read_up_to;
use tpm_output::status::Status;
use tpm_types::Selection;
use tpm_wire::Source;

// Prints what is said of a quote with these selections, and behind one that is the one asked for the records of a log,
// with what it vouches for in each.
fn print_behind<W: Write>(
    alloc: Global,
    listing: Listing<'_>,
    said: &Answer,
    selections: &[Selection],
    log: &Log<'_>,
    out: &mut W,
) -> Result<Status, ToolFault>
    ensures ok { IfOk result (λ status. (text : List ℕ)
        × ((attest : List ℕ) → Selects attest selections.now → IsFollowed attest
        (λ selections. printed Done
        (events_from listing.entry (Some selections) log.now.size 1 (map shown log.now.records)))
        (printed said.now.status (string_bytes said.now.text)) (printed status text))
        × Appends (W.contents out.old) (W.contents out.new) text) }
    ensures err { FailsByMemoryOrWrite result }
{
    match said.print(out)? {
        Status::Refused => Ok(Status::Refused),
        Status::Done => {
            print_events(alloc, listing, log, Some(selections), out)?;
            Ok(Status::Done)
        }
    }
}

// Prints this of the log that these bytes are, or its fault.
fn print_vouched<W: Write>(
    alloc: Global,
    listing: Listing<'_>,
    quote: AskedQuote<'_, '_>,
    bytes: &[u8],
    out: &mut W,
) -> Result<Status, ToolFault>
    ensures ok { IfOk result (λ status. (text : List ℕ) × ListsVouched (record {
      listing = listing.entry;
      attest = quote.entry.attest.now;
      options = quote.entry.options.now;
    }) bytes.now status text
        × Appends (W.contents out.old) (W.contents out.new) text) }
    ensures err { FailsByMemoryOrWrite result }
{
    let form = listing.form;
    match Log::replayed(bytes) {
        Ok((log, registers)) => {
            let registers = &registers;
            let said = answer_to_attest(alloc, &Beside { registers, form }, quote)?;
            let answer = ended(form, said.answer)?;
            print_behind(
                alloc,
                listing,
                &answer,
                said.selections.as_slice(),
                &log,
                out,
            )
        }
        Err(fault) => tell_fault(alloc, form, &fault, out),
    }
}

/// Prints the records of a log, as `list_events` does; or what the bytes of a quote as it was signed say beside the
/// registers that the log gives, as `check_log` does, and behind a quote that is the one asked for the records, each
/// with what the quote vouches for (`tpm_events::print_events`). Any other ends the output, with the status `Refused`,
/// since it vouches for nothing. The log is read once, so that what is vouched for is told of the very log whose
/// registers were compared.
///
/// What `vouched` means is the law of `tpm_vouched::laws::vouched_of_the_log` with `records_of_the_quote`: of two logs
/// beside which one quote is the one that was asked for, the records of a register that it selects measured the same,
/// one by one, and what both tell as vouched of their data is the same text. So it is not what somebody put into the
/// log behind the measurement. Of `digest` it is the digest alone. No record's type is vouched for.
///
/// As JSON the quote's object comes first, then `ok`, whether it is the one asked for, and then an object for each
/// record, which has the member `vouched`.
///
/// Beside a quote a log that has a fault gives that alone, as `check_log` prints it, and the status `Refused`. Whatever
/// is answered, at most 16,777,217 bytes are read, one more than a log may have. Whether objects are printed is by the
/// listing.
///
/// Where a request for memory is refused the answer is `Memory`, where a read fails `Read`, and where the writer fails
/// `Write`. What was written before is then left open, and a failed read isn't tried again. The whole log is held.
pub fn list_vouched<L: Source, W: Write>(
    alloc: Global,
    log: &mut L,
    listing: Listing<'_>,
    asked: &Asked<'_, '_>,
    out: &mut W,
) -> Result<Status, ToolFault>
    ensures failures { CountsRead (L.failed log.old) (L.failed log.new) result }
    ensures stop { IsErrOf result Read → IsWhereItFailed (L.stopped log.new) }
    ensures most { ReadsNoMore most_read (L.coming log.old) (L.coming log.new) }
    ensures ok { IfOk result (λ status. (bytes : List ℕ) × (text : List ℕ)
        × ReadsUpTo most_read (L.coming log.old) (L.coming log.new) bytes
        × ListsBeside listing.entry (asked_by asked.now) bytes status text
        × Appends (W.contents out.old) (W.contents out.new) text) }
    ensures short { IsErrOf result InputTooLong → ⊥ }
{
    let Some(attest) = asked.attest else {
        return list_events(alloc, log, listing, out);
    };
    let bytes = read_up_to(alloc, log, MOST_READ)?;
    let quote = AskedQuote {
        options: asked.options,
        attest,
    };
    print_vouched(alloc, listing, quote, bytes.as_slice(), out)
}
