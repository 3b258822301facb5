//! Registers of banks by their text.

ghost use Rattle.std.specs.Prelude.{◌≡◌, ◌<◌, ◌+◌, ℕ, List, MatchOption};
ghost use Rattle.std.specs.List.{list_any};
ghost use Rattle.std.specs.Str.{bytes_eq};
ghost use Rattle.tpm_types.specs.declared.tpms.Selection.{Selection as SelectionValue};
ghost use Rattle.tpm_names.specs.declared.selection.RegisterList.{RegisterList as RegisterListValue};
ghost use Rattle.tpm_types.specs.Alg.{alg_name, all_algs};
ghost use Rattle.tpm_types.specs.Tpma.{is_set};
ghost use Rattle.tpm_types.specs.Tpms.{is_selected};
ghost use Rattle.tpm_names.specs.Selections.{first_in, last_in, register_in, are_registers as are_registers_of};
ghost use Rattle.tpm_names.specs.Selections.{is_range as is_range_of_text, range_names as range_names_of};
ghost use Rattle.tpm_names.specs.Selections.{name_register as name_register_of, is_part as is_part_of};
ghost use Rattle.tpm_names.specs.Selections.{part_names as part_names_of, names as names_of, AreSelections};
ghost use Rattle.tpm_names.specs.Selections.{has_register, IsRegisterList};

use crate::number::decimal;
use tpm_types::{Alg, REGISTERS, Selection, Selections};

/// The registers of banks that this text lists as tpm2-tools do: `sha1:7+sha256:0,1,2`, or
/// `sha256:all` for all 24 of a bank; and `sha256:0-7` for those from one to another.
///
/// The answer has an entry for each bank in the order of their numbers, in which no register is
/// selected where the text doesn't name the bank (TPML_PCR_SELECTION; Part 2, 10.9.7). A bank that
/// is named twice has the registers of both lists. A number may have leading zeros. None is
/// answered for any other text: where a bank is none of `sha1`, `sha256` and `sha384`, or where a
/// number is above 23, has a sign, is above the last of its range, or is left out, as in `sha256:`.
pub fn selections(text: &str) -> Option<Selections>
    ensures { MatchOption result ((selections : List SelectionValue)
        → AreSelections text.now selections → ⊥) (λ selections. AreSelections text.now selections) }
{
    if !text.split('+').all(|part| is_part(part)) {
        return None;
    }
    let mut selections = Selections::default();
    selections.push(selection(text, Alg::Sha1));
    selections.push(selection(text, Alg::Sha256));
    selections.push(selection(text, Alg::Sha384));
    Some(selections)
}

/// Registers by their text, as `4,7`.
#[derive(Clone, Copy, Debug, PartialEq, Eq)]
pub struct RegisterList<'a> {
    text: &'a str,
}

impl<'a> RegisterList<'a> {
    /// The registers that this text lists: numbers with commas between them, as `4,7`, where `0-7` stands for those
    /// from one to another; or `all` for all 24. A number may have leading zeros. None is answered for any other text:
    /// where a number is above 23, has a sign, is above the last of its range, or is left out.
    pub fn new(text: &'a str) -> Option<Self>
        ensures { MatchOption result ((list : RegisterListValue)
            → IsRegisterList text.now list → ⊥) (λ list. IsRegisterList text.now list) }
    {
        if are_registers(text) {
            Some(RegisterList { text })
        } else {
            None
        }
    }

    /// Whether this is one of them, which none above 23 is.
    pub fn has(&self, register: u32) -> bool
        ensures { result ≡ has_register self.now register }
    {
        register < REGISTERS && name_register(self.text, register)
    }
}

// The registers of a bank that the text names.
fn selection(text: &str, bank: Alg) -> Selection
    ensures hash { result.hash ≡ bank }
    ensures select { (register : ℕ)
        → register < 24 → is_selected result.select register ≡ names_of text.now bank register }
{
    Selection {
        hash: bank,
        select: [
            selected(text, bank, 0),
            selected(text, bank, 8),
            selected(text, bank, 16),
        ],
    }
}

// The bits of eight registers from this one on, set for those that the text names. The text is
// short, and is read anew for each.
fn selected(text: &str, bank: Alg, first: u32) -> u8
    requires { first < 24 }
    ensures { (bit : ℕ) → bit < 8 → is_set bit result ≡ names_of text.now bank (first + bit) }
{
    let mut bits = 0;
    for bit in 0..8 {
        if names(text, bank, first + bit) {
            bits |= 1 << bit;
        }
    }
    bits
}

// Whether the text names a register of a bank.
fn names(text: &str, bank: Alg, register: u32) -> bool
    ensures { result ≡ names_of text.now bank register }
{
    text.split('+').any(|part| part_names(part, bank, register))
}

// Whether a part of the text, as `sha1:7`, names it.
fn part_names(part: &str, bank: Alg, register: u32) -> bool
    ensures { result ≡ part_names_of bank register part.now }
{
    match part.split_once(':') {
        Some((name, registers)) => name == bank.name() && name_register(registers, register),
        None => false,
    }
}

// Whether a part of the text is the name of a bank, a colon and registers.
fn is_part(part: &str) -> bool
    ensures { result ≡ is_part_of part.now }
{
    match part.split_once(':') {
        Some((name, registers)) => is_bank(name) && are_registers(registers),
        None => false,
    }
}

// Whether registers, as `0,1,2`, `0-7` or `all`, have this one among them.
fn name_register(text: &str, register: u32) -> bool
    ensures { result ≡ name_register_of register text.now }
{
    text == "all" || text.split(',').any(|range| range_names(range, register))
}

// Whether a text is registers.
fn are_registers(text: &str) -> bool
    ensures { result ≡ are_registers_of text.now }
{
    text == "all" || text.split(',').all(|range| is_range(range))
}

// Whether a text is a register, or the first and the last of several.
fn is_range(text: &str) -> bool
    ensures { result ≡ is_range_of_text text.now }
{
    match (register_in(first_in(text)), register_in(last_in(text))) {
        (Some(first), Some(last)) => first <= last,
        _ => false,
    }
}

// Whether they have this one among them.
fn range_names(text: &str, register: u32) -> bool
    ensures { result ≡ range_names_of register text.now }
{
    match (register_in(first_in(text)), register_in(last_in(text))) {
        (Some(first), Some(last)) => first <= register && register <= last,
        _ => false,
    }
}

// The digits of the first.
fn first_in(text: &str) -> &str
    ensures { result.now ≡ first_in text.now }
{
    match text.split_once('-') {
        Some((first, _)) => first,
        None => text,
    }
}

// The digits of the last.
fn last_in(text: &str) -> &str
    ensures { result.now ≡ last_in text.now }
{
    match text.split_once('-') {
        Some((_, last)) => last,
        None => text,
    }
}

// The register's number that these digits are.
fn register_in(text: &str) -> Option<u32>
    ensures { result ≡ register_in text.now }
{
    match decimal(text) {
        Some(number) if number < u64::from(REGISTERS) => Some(number as u32),
        _ => None,
    }
}

// Whether a bank has this name.
fn is_bank(name: &str) -> bool
    ensures { result ≡ list_any (λ bank. bytes_eq name.now (alg_name bank)) all_algs }
{
    Alg::ALL.iter().any(|bank| name == bank.name())
}
