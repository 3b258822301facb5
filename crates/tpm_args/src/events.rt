//! The words of the subcommand `events`.

ghost use Rattle.std.specs.Prelude.{◌≡◌, Option, MatchResult, codes, option_map};
ghost use Rattle.clap.specs.Words.{first_value, found_of};
ghost use Rattle.tpm_names.specs.declared.selection.RegisterList.{RegisterList as RegisterListValue};
ghost use Rattle.tpm_names.specs.Selections.{IsRegisterList};
ghost use Rattle.tpm_args.specs.inner.Stop.{IsAsked, IsMemoryOr};
ghost use Rattle.tpm_args.specs.Task.{is_bare, IsListing, IsValueIf};

use crate::check::{log_task, options};
use crate::given::{form_asked, has, is_given};
use crate::invalid::{Usage, check_words, invalid_value, nothing_asked};
use crate::stop::Stop;
use crate::task::{Asked, Task};
use clap::ArgMatches;
use tpm_names::selection::RegisterList;
use tpm_options::{EventsTask, Listing};

/// The task of the words of `events`.
pub(crate) fn events_task<'a>(usage: Usage, words: &ArgMatches<'a>) -> Asked<'a>
    ensures { IsAsked (codes "events") words.now result }
{
    let Some(log) = words.get_str("LOG") else {
        return Err(nothing_asked(usage.alloc)?);
    };
    let registers = registers(usage, words.get_str("register"))?;
    let options = options(usage, words)?;
    if is_given(words, "header") {
        check_words(usage, is_bare(words), "--header goes with --json alone")?;
        return Ok(Task::EventsHeader(log_task(words, log)));
    }
    Ok(Task::Events(EventsTask {
        log,
        attest: words.get_str("attest"),
        listing: listing(words, registers),
        options,
    }))
}

// What is listed of these registers, or of all.
fn listing<'a>(words: &ArgMatches<'_>, registers: Option<RegisterList<'a>>) -> Listing<'a>
    requires { IsValueIf IsRegisterList
        (first_value (found_of words.now) (codes "register")) registers }
    ensures { IsListing (first_value (found_of words.now)) result }
{
    Listing {
        registers,
        places: is_given(words, "places"),
        digests: is_given(words, "digests"),
        event_data: is_given(words, "data"),
        form: form_asked(words),
    }
}

// Whether no registers, no quote and nothing of a record is asked for.
fn is_bare(words: &ArgMatches<'_>) -> bool
    ensures { result ≡ is_bare (first_value (found_of words.now)) }
{
    let unquoted = !has(words, "register") & !has(words, "attest");
    let unplaced = unquoted & !is_given(words, "places");
    unplaced & !is_given(words, "digests") & !is_given(words, "data")
}

// The registers that alone are listed, where they are given. A usage fault where the text lists none.
fn registers<'a>(usage: Usage, text: Option<&'a str>) -> Result<Option<RegisterList<'a>>, Stop>
    ensures { MatchResult result
        (λ registers. IsValueIf IsRegisterList (option_map (λ t. t.now) text.entry) registers)
        (IsMemoryOr ((registers : Option RegisterListValue)
        → IsValueIf IsRegisterList (option_map (λ t. t.now) text.entry) registers → ⊥)) }
{
    let Some(text) = text else {
        return Ok(None);
    };
    match RegisterList::new(text) {
        Some(registers) => Ok(Some(registers)),
        None => {
            let reason = "it is no list of registers, as 7 or 4,7 or 0-7, up to 23";
            Err(invalid_value(usage, text, "--register <LIST>", reason)?)
        }
    }
}
