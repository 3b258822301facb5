//! Usage faults of a subcommand's words. An error is want of memory for their text.

ghost use Rattle.std.specs.Prelude.{◌≡◌, IfOk, MatchResult, false, true};
ghost use Rattle.tpm_args.specs.Stop.{StopsFor};
ghost use Rattle.tpm_args.specs.inner.Stop.{IsMemoryOr};

use crate::name::command_names;
use crate::stop::Stop;
use clap::Command;
use clap::error::ErrorKind;
use std::alloc::{AllocError, Global};
use tpm_words::{Subcommand, program_words};

/// What the text of a usage fault wants: a subcommand, whose usage stands behind what is at fault, and memory.
#[derive(Clone, Copy)]
pub(crate) struct Usage {
    pub(crate) of: Subcommand,
    pub(crate) alloc: Global,
}

impl Usage {
    pub(crate) fn new(alloc: Global, of: Subcommand) -> Self {
        Usage { of, alloc }
    }
}

/// The usage fault of words that ask for nothing. clap refuses such words itself.
pub(crate) fn nothing_asked(alloc: Global) -> Result<Stop, AllocError>
    ensures { IfOk result (IsMemoryOr (Unit {0})) }
{
    let text = String::from_str(alloc, "error: a subcommand and its words are wanted\n")?;
    Ok(Stop::Usage(text))
}

// What clap knows of a subcommand, or of the program where none is given.
fn command_of(alloc: Global, of: Option<Subcommand>) -> Result<Command<'static>, AllocError> {
    match of {
        Some(subcommand) => subcommand.words(alloc, ""),
        None => program_words(alloc, ""),
    }
}

/// The fault of this kind for this reason, with the usage of a subcommand, or of the program where none is given.
pub(crate) fn usage_fault(
    alloc: Global,
    of: Option<Subcommand>,
    kind: ErrorKind,
    reason: &str,
) -> Result<Stop, AllocError>
    ensures { IfOk result (StopsFor kind) }
{
    let mut command = command_of(alloc, of)?;
    let error = command.error(kind, reason)?;
    Stop::of(alloc, &error)
}

/// The usage fault of words for this reason, as of words that don't go together.
pub(crate) fn wrong_words(usage: Usage, reason: &str) -> Result<Stop, AllocError>
    ensures { IfOk result (IsMemoryOr (Unit {0})) }
{
    usage_fault(
        usage.alloc,
        Some(usage.of),
        ErrorKind::ValueValidation,
        reason,
    )
}

/// The usage fault of a word's value.
pub(crate) fn invalid_value(
    usage: Usage,
    text: &str,
    word: &str,
    reason: &str,
) -> Result<Stop, AllocError>
    ensures { IfOk result (IsMemoryOr (Unit {0})) }
{
    let message = format!(in usage.alloc; "invalid value '{text}' for '{word}': {reason}")?;
    wrong_words(usage, message.as_str())
}

/// The usage fault of a word that names no command.
pub(crate) fn no_command(usage: Usage, text: &str, word: &str) -> Result<Stop, AllocError>
    ensures { IfOk result (IsMemoryOr (Unit {0})) }
{
    let names = command_names(usage.alloc)?;
    let reason = format!(in usage.alloc; "it is none of {names}")?;
    invalid_value(usage, text, word, reason.as_str())
}

/// A usage fault of words for this reason, where that doesn't hold.
pub(crate) fn check_words(usage: Usage, holds: bool, reason: &str) -> Result<(), Stop>
    ensures { MatchResult result (λ _. holds ≡ true) (IsMemoryOr (holds ≡ false)) }
{
    if holds {
        return Ok(());
    }
    Err(wrong_words(usage, reason)?)
}

/// The same of a word's value.
pub(crate) fn check_value(
    usage: Usage,
    holds: bool,
    text: &str,
    word: &str,
    reason: &str,
) -> Result<(), Stop>
    ensures { MatchResult result (λ _. holds ≡ true) (IsMemoryOr (holds ≡ false)) }
{
    if holds {
        return Ok(());
    }
    Err(invalid_value(usage, text, word, reason)?)
}
