//! Names of commands, of response codes and of kinds of faults.

ghost use Rattle.std.specs.Prelude.{◌≡◌};
ghost use Rattle.tpm_args.specs.Names.{command_of_name, same_word, word_in, is_name as is_name_of};

use std::alloc::{AllocError, Global};
use tpm_types::CommandCode;

/// The command of the profile with this name (Part 2, 6.5.2), in any letter case, with `TPM2_` before
/// it or not; none where no command has the name.
pub fn command_named(name: &str) -> Option<CommandCode>
    ensures { result ≡ command_of_name name.now }
{
    let word = word_in(name.as_bytes());
    CommandCode::ALL
        .iter()
        .copied()
        .find(|code| same_word(code.name().as_bytes(), word))
}

/// Whether a text begins as the names of response codes and of the kinds of faults do: with a letter of ASCII.
pub fn is_name(text: &str) -> bool
    ensures { result ≡ is_name_of text.now }
{
    match text.as_bytes() {
        [first, ..] => first.is_ascii_alphabetic(),
        [] => false,
    }
}

// What stands behind `TPM2_`, or all where the name doesn't begin with it.
fn word_in(name: &[u8]) -> &[u8]
    ensures { result.now ≡ word_in name.now }
{
    match name {
        [t, p, m, two, line, word @ ..] if same_word(&[*t, *p, *m, *two, *line], b"TPM2_") => word,
        _ => name,
    }
}

fn same_word(word: &[u8], other: &[u8]) -> bool
    ensures { result ≡ same_word word.now other.now }
{
    word.eq_ignore_ascii_case(other)
}

/// The names of all commands, in the order of their numbers, with a comma between them.
pub(crate) fn command_names(alloc: Global) -> Result<String, AllocError> {
    let mut names = String::new(alloc);
    for code in CommandCode::ALL {
        if !names.is_empty() {
            names.push_str(", ")?;
        }
        names.push_str(code.name())?;
    }
    Ok(names)
}

/// What the help of a subcommand says of them.
pub(crate) fn names_help(alloc: Global) -> Result<String, AllocError> {
    let names = command_names(alloc)?;
    format!(in alloc; "Names, in any letter case, with TPM2_ before them or not: {names}")
}
