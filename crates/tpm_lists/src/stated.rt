//! Lines that state a register as its line is printed.

ghost use Rattle.std.specs.Prelude.{◌≡◌, ◌<◌, IfOk, IfSome, Some, position, option_map};
ghost use Rattle.tpm_output.specs.Text.{bytes_in};
ghost use Rattle.tpm_lists.specs.ListLines.{is_space, first_word, behind_word, bank_named, register_named, stated_of};
ghost use Rattle.tpm_lists.specs.ListLines.{stated_as, stated_in};

use std::alloc::{AllocError, Global};
use tpm_output::hexadecimal::decoded;
use tpm_types::{Alg, PcrIndex};

const REGISTERS: [&str; 24] = [
    "0", "1", "2", "3", "4", "5", "6", "7", "8", "9", "10", "11", "12", "13", "14", "15", "16",
    "17", "18", "19", "20", "21", "22", "23",
];

/// What a line states of a register.
#[derive(Drop)]
pub struct Stated {
    /// The bank.
    pub bank: Alg,
    /// The register.
    pub register: PcrIndex,
    /// The value.
    pub value: Vec<u8>,
}

fn first_space(text: &[u8]) -> Option<usize>
    ensures { result ≡ position is_space text.now }
{
    text.iter().position(|byte| *byte == b' ')
}

/// What stands before the first space, or all where there is none; and what stands behind it.
pub(crate) fn cut(text: &[u8]) -> (&[u8], &[u8])
    ensures first { result.0.now ≡ first_word text.now }
    ensures behind { result.1.now ≡ behind_word text.now }
{
    match first_space(text) {
        Some(at) => (&text[..at], &text[at + 1..]),
        None => (text, &[]),
    }
}

/// The bank of this name.
pub(crate) fn bank_named(word: &[u8]) -> Option<Alg>
    ensures { result ≡ bank_named word.now }
{
    Alg::ALL
        .iter()
        .copied()
        .find(|bank| bank.name().as_bytes() == word)
}

// The place of a word in the table of numbers.
fn number_named(word: &[u8]) -> Option<usize>
    ensures place { result ≡ register_named word.now }
    ensures below { IfSome result (λ number. number < 24) }
{
    REGISTERS.iter().position(|name| name.as_bytes() == word)
}

/// The register of this number in decimal.
pub(crate) fn register_named(word: &[u8]) -> Option<PcrIndex>
    ensures { result ≡ register_named word.now }
{
    match number_named(word) {
        Some(number) => PcrIndex::from_number(number as u32),
        None => None,
    }
}

/// What is stated by a value in as many hexadecimal digits as a digest of the bank's hash has. None for any other text.
pub(crate) fn read_value(
    alloc: Global,
    bank: Alg,
    register: PcrIndex,
    value: &[u8],
) -> Result<Option<Stated>, AllocError>
    ensures { IfOk result (λ s. option_map stated_as s
        ≡ stated_of (Some bank) (Some register) (bytes_in value.now)) }
{
    let Some(value) = decoded(alloc, value)? else {
        return Ok(None);
    };
    if value.len() != bank.digest_len() {
        return Ok(None);
    }
    Ok(Some(Stated {
        bank,
        register,
        value,
    }))
}

/// What a line states: its words are a bank, the number of a register in decimal, and a value in as many hexadecimal
/// digits as a digest of the bank's hash has, with one space between them. None for any other line.
pub(crate) fn read_stated(alloc: Global, line: &[u8]) -> Result<Option<Stated>, AllocError>
    ensures { IfOk result (λ s. option_map stated_as s ≡ stated_in line.now) }
{
    let (bank, behind) = cut(line);
    let (register, value) = cut(behind);
    let Some(bank) = bank_named(bank) else {
        return Ok(None);
    };
    let Some(register) = register_named(register) else {
        return Ok(None);
    };
    read_value(alloc, bank, register, value)
}
