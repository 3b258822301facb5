//! The words of the subcommand `explain`.

ghost use Rattle.std.specs.Prelude.{◌≡◌, ℕ, List, IfOk, Some, MatchOption, codes};
ghost use Rattle.tpm_names.specs.Numbers.{IsHexadecimal};
ghost use Rattle.tpm_args.specs.inner.Stop.{AsksIfAny, IsAsked, IsMemoryOr};
ghost use Rattle.tpm_args.specs.Task.{digits_in, IsCode, IsName};

use crate::given::is_given;
use crate::invalid::{Usage, invalid_value};
use crate::name::is_name;
use crate::stop::Stop;
use crate::task::{Asked, Task};
use clap::ArgMatches;
use std::alloc::AllocError;
use tpm_names::number::{hexadecimal, short_decimal};

/// The task of the words of `explain`. A usage fault where the word is no number of the radix below 2^32, and in
/// hexadecimal no name either.
pub(crate) fn explain_task<'a>(usage: Usage, words: &ArgMatches<'a>) -> Asked<'a>
    ensures { IsAsked (codes "explain") words.now result }
{
    match explained(words) {
        Some(task) => Ok(task),
        None => Err(no_code(usage, words)?),
    }
}

// A code, or else a name.
fn explained<'a>(words: &ArgMatches<'a>) -> Option<Task<'a>>
    ensures { AsksIfAny (codes "explain") words.now result }
{
    let text = words.get_str("CODE")?;
    let decimal = is_given(words, "decimal");
    if let Some(code) = number_in(decimal, text) {
        return Some(Task::Explain { code });
    }
    Some(Task::ExplainName {
        name: name_in(decimal, text)?,
    })
}

// The text where it is a name and no number.
fn name_in(decimal: bool, text: &str) -> Option<&str>
    ensures { MatchOption result ((name : List ℕ) → IsName decimal (Some text.now) name → ⊥)
        (λ name. IsName decimal (Some text.now) name.now) }
{
    if decimal || !is_name(text) || number(text).is_some() {
        return None;
    }
    Some(text)
}

// What stands behind `0x` or `0X`, or all where the text begins with neither.
fn digits(text: &str) -> &str
    ensures { result.now ≡ digits_in text.now }
{
    text.strip_prefix("0x")
        .or(text.strip_prefix("0X"))
        .unwrap_or(text)
}

// The number of a text's digits, or none where it has other characters or is not below 2^32.
fn number(text: &str) -> Option<u32>
    ensures { MatchOption result ((number : ℕ) → IsHexadecimal (digits_in text.now) number → ⊥)
        (λ number. IsHexadecimal (digits_in text.now) number) }
{
    hexadecimal(digits(text))
}

// The number of a text in hexadecimal or in decimal, or none where it spells none below 2^32.
fn number_in(decimal: bool, text: &str) -> Option<u32>
    ensures { MatchOption result ((code : ℕ) → IsCode decimal (Some text.now) code → ⊥)
        (λ code. IsCode decimal (Some text.now) code) }
{
    if decimal {
        short_decimal(text)
    } else {
        number(text)
    }
}

fn no_code(usage: Usage, words: &ArgMatches<'_>) -> Result<Stop, AllocError>
    ensures { IfOk result (IsMemoryOr (Unit {0})) }
{
    let text = words.get_str("CODE").unwrap_or("");
    let reason = if is_given(words, "decimal") {
        "it is no decimal number up to 4294967295"
    } else {
        "it is no hexadecimal number up to ffffffff"
    };
    invalid_value(usage, text, "<CODE>", reason)
}
