//! The words that a run was given.

ghost use Rattle.std.specs.Prelude.{◌≡◌, ℕ, List, IfOk, IfErr, MatchResult, codes, is_some, map};
ghost use Rattle.std.specs.Prelude.{string_bytes};
ghost use Rattle.clap.specs.Words.{first_value, found_of, subcommand_of, subcommand_rows_of};
ghost use Rattle.clap.specs.declared.error.kind.ErrorKind.TheVariants.{InvalidValue};
ghost use Rattle.tpm_words.specs.Program.{program_app};
ghost use Rattle.tpm_args.specs.Stop.{StopsFor, Refuses};
ghost use Rattle.tpm_args.specs.inner.Stop.{AsksIfAny, IsAsked, IsMemoryOr};
ghost use Rattle.tpm_args.specs.Task.{is_given as is_given_by, form_asked, Asks, AsksNothing};

use crate::check::check_task;
use crate::events::events_task;
use crate::explain::explain_task;
use crate::invalid::{Usage, no_command, nothing_asked, usage_fault};
use crate::name::{command_named, names_help};
use crate::run::run_task;
use crate::show::show_task;
use crate::stop::Stop;
use crate::task::{Asked, Task};
use clap::ArgMatches;
use clap::error::ErrorKind;
use std::alloc::{AllocError, Global};
use std::marker::Model;
use tpm_output::form::Form;
use tpm_words::{Subcommand, program_words};

/// The words of a run.
#[derive(Drop)]
pub struct Words {
    given: Vec<String>,
    // what help says of the names of commands
    names: String,
}

impl Model for Words {
    ghost Value = { List (List ℕ) };

    ghost view = { λ w. map string_bytes w.given.items };
}

impl Words {
    /// These words, of which the first is the program's name. AllocError where a request for memory is refused.
    pub fn new(alloc: Global, given: Vec<String>) -> Result<Self, AllocError>
        ensures { IfOk result (λ w. w ≡ map string_bytes given.items) }
    {
        Ok(Words {
            given,
            names: names_help(alloc)?,
        })
    }

    /// What they ask for.
    ///
    /// The error is `Help` where they ask for help or for the version, `Memory` where a request for memory is refused,
    /// and else `Usage`. Where the words are those of a subcommand they are refused only for one of these:
    ///
    /// - `show`: more than one of a buffer, a capture, packets and NV memory, or none; a name of `--reply` that no
    ///   command has; a capture with `--reply`, a buffer with `--binary` or `--json`, packets with `--reply` or
    ///   `--binary`, NV memory with any other option, or a port without packets, or above 65535.
    /// - `build`: a name that no command has.
    /// - `run`: an owner value that is not hexadecimal or has more than 48 bytes; a number that is other than decimal
    ///   digits or above 2^64 - 1.
    /// - `explain`: a number above 2^32 - 1 or other digits than those of its radix, where it begins with no letter or
    ///   `--decimal` is given.
    /// - `check`: a hash other than `sha1`, `sha256` and `sha384`; a nonce or a signer that is not hexadecimal; a list
    ///   of no registers; a word whose quote is not given (the hash wants one of `--quote` and `--attest`; the nonce,
    ///   the list, the signer, `--any-nonce`, `--any-selection` and `--allow` want `--attest`); any nonce beside a
    ///   nonce, and any selection beside a list; `--secure-boot` or `--allow` beside `--registers` or `--quote`;
    ///   `--any-state` without `--secure-boot`; `--extends` beside any of `--registers`, `--quote`, `--attest`,
    ///   `--secure-boot` and `--json`; `--listed` beside any of these but `--json`, and beside `--extends`.
    /// - `events`: a list of no registers; of a quote what is refused of `check`; `--header` beside any other word but
    ///   `--json`.
    pub fn task(&self, alloc: Global) -> Result<Task<'_>, Stop>
        ensures ok { IfOk result (λ t. Asks (subcommand_of program_app self.now) t) }
        ensures err { IfErr result (λ stop. Refuses self.now stop) }
    {
        let program = program_words(alloc, self.names.as_str())?;
        match program.try_get_matches_from(self.given.as_slice()) {
            Ok(matches) => asked(alloc, &matches),
            Err(error) => Err(Stop::of(alloc, &error)?),
        }
    }
}

/// Whether the flag of this name is given.
pub(crate) fn is_given(words: &ArgMatches<'_>, name: &str) -> bool
    ensures { result ≡ is_given_by (first_value (found_of words.now) name.now) }
{
    words.get_str(name).unwrap_or("") == "true"
}

/// How what is printed is told.
pub(crate) fn form_asked(words: &ArgMatches<'_>) -> Form
    ensures { result ≡ form_asked (first_value (found_of words.now)) }
{
    if is_given(words, "json") {
        Form::Json
    } else {
        Form::Lines
    }
}

/// Whether the option of this name is given.
pub(crate) fn has(words: &ArgMatches<'_>, name: &str) -> bool
    ensures { result ≡ is_some (first_value (found_of words.now) name.now) }
{
    words.get_str(name).is_some()
}

fn build_task<'a>(words: &ArgMatches<'a>) -> Option<Task<'a>>
    ensures { AsksIfAny (codes "build") words.now result }
{
    Some(Task::Build {
        name: command_named(words.get_str("NAME")?)?,
        handles: words.get_str("HANDLES")?,
        sessions: words.get_str("SESSIONS")?,
        parameters: words.get_str("PARAMETERS")?,
    })
}

// The same, or a usage fault: no command has the name, since clap has seen to it that all words are there.
fn build_asked<'a>(usage: Usage, words: &ArgMatches<'a>) -> Asked<'a>
    ensures { IsAsked (codes "build") words.now result }
{
    match build_task(words) {
        Some(task) => Ok(task),
        None => {
            let name = words.get_str("NAME").unwrap_or("");
            Err(no_command(usage, name, "<NAME>")?)
        }
    }
}

// What the words of the subcommand of this name ask for.
fn asked_of<'a>(alloc: Global, name: &str, words: &ArgMatches<'a>) -> Asked<'a>
    ensures { IsAsked name.now words.now result }
{
    match name {
        "show" => show_task(Usage::new(alloc, Subcommand::Show), words),
        "build" => build_asked(Usage::new(alloc, Subcommand::Build), words),
        "run" => run_task(Usage::new(alloc, Subcommand::Run), words),
        "explain" => explain_task(Usage::new(alloc, Subcommand::Explain), words),
        "check" => check_task(Usage::new(alloc, Subcommand::Check), words),
        "events" => events_task(Usage::new(alloc, Subcommand::Events), words),
        _ => Err(nothing_asked(alloc)?),
    }
}

// What the words that clap takes ask for.
fn asked<'a>(alloc: Global, matches: &ArgMatches<'a>) -> Asked<'a>
    ensures { MatchResult result (λ t. Asks (subcommand_rows_of matches.now) t)
        (λ stop. IsMemoryOr (AsksNothing (subcommand_rows_of matches.now)) stop) }
{
    let Some((name, words)) = matches.subcommand() else {
        return Err(nothing_asked(alloc)?);
    };
    asked_of(alloc, name, words)
}

fn not_text(alloc: Global) -> Result<Stop, AllocError>
    ensures { IfOk result (StopsFor InvalidValue) }
{
    let message = "invalid UTF-8 was detected in one or more arguments";
    usage_fault(alloc, None, ErrorKind::InvalidValue, message)
}

/// The fault of words that are not text, of which no more can be read.
pub fn words_not_text(alloc: Global) -> Stop
    ensures { StopsFor InvalidValue result }
{
    not_text(alloc).unwrap_or(Stop::Memory)
}
