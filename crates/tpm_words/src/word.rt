//! The words of a subcommand, by a table.

ghost use Rattle.std.specs.Prelude.{◌≡◌, IfOk, false, map};
ghost use Rattle.clap.specs.Words.{app_of, rule_of};
ghost use Rattle.tpm_words.specs.Program.{with_rules, IsApp, IsLocal};
ghost use Rattle.tpm_words.specs.inner.Word.{rule_of_word};

use clap::{Arg, ArgAction, Command};
use std::alloc::{AllocError, Global};

/// A word that a subcommand takes.
#[derive(Clone, Copy)]
pub(crate) struct Word<'a> {
    pub(crate) name: &'a str,
    pub(crate) kind: Kind<'a>,
    pub(crate) help: &'a str,
}

/// What kind of word it is.
#[derive(Clone, Copy)]
pub(crate) enum Kind<'a> {
    /// One that has to be there.
    Required,
    /// One that may be there.
    Optional,
    /// A flag, as `--fields`.
    Flag,
    /// An option with a value of this name, as `--owner HEX`.
    Valued(&'a str),
}

// What clap calls the word.
fn arg<'a>(alloc: Global, word: &Word<'a>) -> Arg<'a>
    ensures rule { rule_of result ≡ rule_of_word word.now }
    ensures local { result.global ≡ false }
{
    let arg = Arg::new(alloc, word.name).help(word.help);
    match word.kind {
        Kind::Required => arg.required(true),
        Kind::Optional => arg,
        Kind::Flag => arg.long(word.name).action(ArgAction::SetTrue),
        Kind::Valued(value) => arg.long(word.name).value_name(value),
    }
}

/// The command with these words behind its own. An error is want of memory.
pub(crate) fn with_words<'a>(
    alloc: Global,
    command: Command<'a>,
    words: &[Word<'a>],
) -> Result<Command<'a>, AllocError>
    requires { IsLocal command }
    ensures { IfOk result
        (λ c. IsApp (with_rules (app_of command.entry) (map rule_of_word words.now)) c) }
{
    let mut command = command;
    for word in words {
        command = command.arg(arg(alloc, word))?;
    }
    Ok(command)
}
