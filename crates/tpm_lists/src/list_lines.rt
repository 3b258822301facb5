//! The lines of a list of registers.

ghost use Rattle.std.specs.Prelude.{◌≡◌, ◌≤◌, true, IfOk, length, option_map};
ghost use Rattle.tpm_output.specs.Text.{bytes_in};
ghost use Rattle.tpm_types.specs.Alg.{alg_name};
ghost use Rattle.tpm_lists.specs.ListLines.{heading_line, bank_headed, other_headed, heading_in, is_numbered};
ghost use Rattle.tpm_lists.specs.ListLines.{line_as, line_under, number_in, numbered_under, stated_as, stating};

use crate::stated::{Stated, cut, read_stated, read_value, register_named};
use std::alloc::{AllocError, Global};
use tpm_output::hexadecimal::decoded;
use tpm_types::{Alg, PcrIndex};

/// How many bytes a line has at most: those of a line of SHA-512 that `tpm2_pcrread` prints.
pub const MOST_LINE: usize = 138;

/// Under which bank's heading a line stands.
#[derive(Clone, Copy)]
pub enum Heading {
    /// No heading has come.
    NoBank,
    /// That of a bank.
    Bank(Alg),
    /// That of another bank, whose digests have so many bytes.
    OtherBank(usize),
}

/// What a line says.
#[derive(Drop)]
pub enum ListLine {
    /// The value of a register.
    Stated(Stated),
    /// The bank of the lines behind it.
    Heading(Heading),
    /// The value of a register of another bank.
    Passed,
    /// None of these.
    Wrong,
}

// The heading of a bank, as `tpm2_pcrread` prints it.
fn bank_heading(bank: Alg) -> &'static str
    ensures { result.now ≡ heading_line (alg_name bank) }
{
    match bank {
        Alg::Sha1 => "  sha1:",
        Alg::Sha256 => "  sha256:",
        Alg::Sha384 => "  sha384:",
    }
}

fn bank_headed(text: &[u8]) -> Option<Alg>
    ensures { result ≡ bank_headed text.now }
{
    Alg::ALL
        .iter()
        .copied()
        .find(|bank| bank_heading(*bank).as_bytes() == text)
}

// How many bytes a digest has of the other bank whose heading this is.
fn other_headed(text: &[u8]) -> Option<usize>
    ensures { result ≡ other_headed text.now }
{
    if text == b"  sha512:".as_slice() {
        Some(64)
    } else if text == b"  sm3_256:".as_slice() {
        Some(32)
    } else if text == b"  sha3_256:".as_slice() {
        Some(32)
    } else if text == b"  sha3_384:".as_slice() {
        Some(48)
    } else if text == b"  sha3_512:".as_slice() {
        Some(64)
    } else {
        None
    }
}

fn heading_in(text: &[u8]) -> Option<Heading>
    ensures { result ≡ heading_in text.now }
{
    if let Some(bank) = bank_headed(text) {
        return Some(Heading::Bank(bank));
    }
    match other_headed(text) {
        Some(size) => Some(Heading::OtherBank(size)),
        None => None,
    }
}

// Whether a line has the form of a register's, as `tpm2_pcrread` prints it, up to the value.
fn is_numbered(text: &[u8]) -> bool
    ensures answer { result ≡ is_numbered text.now }
    ensures length { result ≡ true → 10 ≤ length text.now }
{
    text.len() >= 10 && &text[..4] == b"    ".as_slice() && &text[6..10] == b": 0x".as_slice()
}

// The number of such a line, in two places.
fn number_in(text: &[u8]) -> Option<PcrIndex>
    requires { 10 ≤ length text.now }
    ensures { result ≡ number_in text.now }
{
    let (number, _) = cut(&text[4..6]);
    register_named(number)
}

// That a register has the value that is stated, or that the line is wrong.
fn stating(stated: Option<Stated>) -> ListLine
    ensures { line_as result ≡ stating (option_map stated_as stated) }
{
    match stated {
        Some(stated) => ListLine::Stated(stated),
        None => ListLine::Wrong,
    }
}

// A number and a value under a heading.
fn read_numbered(
    alloc: Global,
    heading: Heading,
    register: Option<PcrIndex>,
    value: &[u8],
) -> Result<ListLine, AllocError>
    ensures { IfOk result (λ line. line_as line
        ≡ numbered_under heading register (bytes_in value.now)) }
{
    match (heading, register) {
        (Heading::Bank(bank), Some(register)) => {
            Ok(stating(read_value(alloc, bank, register, value)?))
        }
        (Heading::OtherBank(size), Some(_)) => match decoded(alloc, value)? {
            Some(value) if value.len() == size => Ok(ListLine::Passed),
            _ => Ok(ListLine::Wrong),
        },
        _ => Ok(ListLine::Wrong),
    }
}

/// What a line says under a heading: that a register has a value, as its line is printed or as `tpm2_pcrread` prints
/// it, or under which bank's heading the next lines stand.
#[tactic(auto, unfolding(crate::specs::ListLines::line_under))]
pub fn read_line(alloc: Global, heading: Heading, text: &[u8]) -> Result<ListLine, AllocError>
    ensures { IfOk result (λ line. line_as line ≡ line_under heading text.now) }
{
    if text.len() > MOST_LINE {
        return Ok(ListLine::Wrong);
    }
    if let Some(heading) = heading_in(text) {
        return Ok(ListLine::Heading(heading));
    }
    if is_numbered(text) {
        return read_numbered(alloc, heading, number_in(text), &text[10..]);
    }
    Ok(stating(read_stated(alloc, text)?))
}
