//! The lines of a list of allowed digests.

ghost use Rattle.std.specs.Prelude.{◌≡◌, ◌<◌, ◌≤◌, ◌^◌, ◌∷◌, if◌then◌else◌, false, IfOk, IfSome, MatchOption};
ghost use Rattle.std.specs.Prelude.{length, option_map, position};
ghost use Rattle.memchr.specs.Find.{is_byte};
ghost use Rattle.std.specs.List.{before_first, list_any, slice_split};
ghost use Rattle.tpm_output.specs.Text.{bytes_in};
ghost use Rattle.tpm_lists.specs.AllowLines.{allow_line, allowed_in, allowing, allowing_in, begins_comment};
ghost use Rattle.tpm_lists.specs.AllowLines.{is_blank, is_feed};
ghost use Rattle.tpm_lists.specs.declared.allow_lines.AllowLine.TheVariants.{Allows, Nothing, Wrong};
ghost use Rattle.tpm_lists.specs.inner.AllowReading.{IsFront, IsFrontOf, ends_word, lines_left};

use crate::digits::decode;
use crate::stated::{bank_named, cut, register_named};
use memchr::memchr;
use tpm_types::{Alg, DIGEST_BYTES, HashedDigest, PcrIndex};
use tpm_vouched::AllowedDigest;

/// What a line says.
#[derive(Drop)]
pub(crate) enum AllowLine {
    /// A digest by which a register may be extended.
    Allows(AllowedDigest),
    /// Nothing: it has no word before a comment.
    Nothing,
    /// None of these.
    Wrong,
}

// What these digits allow, where they spell a digest of the bank.
#[inline(always)]
fn allowed_in(bank: Alg, register: PcrIndex, digits: &[u8]) -> Option<AllowedDigest>
    ensures { MatchOption result (allowing bank register (bytes_in digits.now) ≡ Wrong)
        (λ a. allowing bank register (bytes_in digits.now) ≡ Allows a) }
{
    let len = bank.digest_len();
    if digits.len() != 2 * len {
        return None;
    }
    let mut room = [0; DIGEST_BYTES];
    let bytes = &mut room[..len];
    if !decode(digits, bytes) {
        return None;
    }
    let digest = HashedDigest::new(bank, bytes)?;
    Some(AllowedDigest { register, digest })
}

// The same. Those of SHA-256, whose number is known here, are decoded without a loop.
fn allowed(bank: Alg, register: PcrIndex, digits: &[u8]) -> Option<AllowedDigest>
    ensures { MatchOption result (allowing bank register (bytes_in digits.now) ≡ Wrong)
        (λ a. allowing bank register (bytes_in digits.now) ≡ Allows a) }
{
    match bank {
        Alg::Sha256 => allowed_in(Alg::Sha256, register, digits),
        Alg::Sha1 | Alg::Sha384 => allowed_in(bank, register, digits),
    }
}

// What these digits say.
fn read_digest(bank: Alg, register: PcrIndex, digits: &[u8]) -> AllowLine
    ensures { result ≡ allowing bank register (bytes_in digits.now) }
{
    match allowed(bank, register, digits) {
        Some(digest) => AllowLine::Allows(digest),
        None => AllowLine::Wrong,
    }
}

// The place of the first byte that is this one.
#[tactic(auto, using(crate::proofs::AllowReading::first_byte))]
fn first(byte: u8, bytes: &[u8]) -> Option<usize>
    ensures { result ≡ position (is_byte byte) bytes.now }
{
    memchr(byte, bytes)
}

// What stands before it, or all where there is none.
fn before(byte: u8, bytes: &[u8]) -> &[u8]
    ensures { result.now ≡ before_first (is_byte byte) bytes.now }
{
    match first(byte, bytes) {
        Some(at) => &bytes[..at],
        None => bytes,
    }
}

/// What stands before the digits of a line: a bank and the number of a register, with a space behind each.
#[derive(Clone, Copy)]
pub(crate) struct Front<'a> {
    bank: Alg,
    register: PcrIndex,
    text: &'a [u8],
}

// What stands before the digits of a line, where there are any.
fn front_of(text: &[u8]) -> Option<Front<'_>>
    requires none { list_any begins_comment text.now ≡ false }
    requires line { list_any is_feed text.now ≡ false }
    ensures { IsFrontOf text.now result }
{
    let (bank, behind) = cut(text);
    let (register, digits) = cut(behind);
    if digits.is_empty() {
        return None;
    }
    match (bank_named(bank), register_named(register)) {
        (Some(bank), Some(register)) => Some(Front {
            bank,
            register,
            text: &text[..text.len() - digits.len()],
        }),
        _ => None,
    }
}

// Whether a word of a line ends before these bytes.
fn ends_word(behind: &[u8]) -> bool
    ensures { result ≡ ends_word behind.now }
{
    matches!(behind, [] | [b' ' | b'#', ..])
}

fn is_blank(text: &[u8]) -> bool
    ensures { result ≡ is_blank text.now }
{
    text.iter().all(|byte| *byte == b' ')
}

// What the words of a line say.
fn read_words<'a>(text: &'a [u8], front: &Option<Front<'a>>) -> AllowLine
    requires { IsFrontOf text.now front.now }
    ensures { result ≡ allowing_in text.now }
{
    match front {
        Some(front) => {
            let digits = before(b' ', &text[front.text.len()..]);
            read_digest(front.bank, front.register, digits)
        }
        None => AllowLine::Wrong,
    }
}

// What is said before a comment, and what stands before its digits.
fn read_text<'a>(text: &'a [u8], last: &mut Option<Front<'a>>) -> AllowLine
    requires none { list_any begins_comment text.now ≡ false }
    requires line { list_any is_feed text.now ≡ false }
    requires last { IfSome last.old IsFront }
    ensures said { result ≡ if is_blank text.now then Nothing else allowing_in text.now }
    ensures last { IfSome last.new IsFront }
{
    if is_blank(text) {
        return AllowLine::Nothing;
    }
    let front = front_of(text);
    let said = read_words(text, &front);
    *last = front;
    said
}

// The first line, and what stands behind its line feed, where it has one.
#[tactic(auto, using(crate::proofs::AllowReading::cut_at, crate::proofs::AllowReading::cut_none))]
fn cut_line(bytes: &[u8]) -> (&[u8], Option<&[u8]>)
    ensures line { result.0.now ≡ before_first is_feed bytes.now }
    ensures lines { slice_split is_feed bytes.now
        ≡ before_first is_feed bytes.now ∷ lines_left (option_map (λ b. b.now) result.1) }
    ensures shorter { IfSome result.1 (λ behind. length behind.now < length bytes.now) }
{
    // Behind most digests there is no word.
    if let [b'\n', behind @ ..] = bytes {
        return (&[], Some(behind));
    }
    match first(b'\n', bytes) {
        Some(at) => (&bytes[..at], Some(&bytes[at + 1..])),
        None => (bytes, None),
    }
}

// The digest of the first line, and what stands behind its line feed, where that line begins as the one before, as most
// do. So neither a space nor a comment nor its end is looked for before its digits.
fn take_behind<'a>(bytes: &'a [u8], front: &Front<'_>) -> Option<(AllowedDigest, Option<&'a [u8]>)>
    requires { IsFront front.now }
    ensures line { IfSome result (λ taken.
        allow_line (before_first is_feed bytes.now) ≡ Allows taken.0) }
    ensures lines { IfSome result (λ taken. slice_split is_feed bytes.now
        ≡ before_first is_feed bytes.now ∷ lines_left (option_map (λ b. b.now) taken.1)) }
    ensures shorter { IfSome result (λ taken.
        IfSome taken.1 (λ behind. length behind.now < length bytes.now)) }
{
    let from_digits = bytes.strip_prefix(front.text)?;
    let (digits, rest) = from_digits.split_at_checked(2 * front.bank.digest_len())?;
    let (words, behind) = cut_line(rest);
    if !ends_word(words) {
        return None;
    }
    let allowed = allowed(front.bank, front.register, digits)?;
    Some((allowed, behind))
}

/// What the first line says, and what stands behind its line feed, where it has one.
///
/// A line has a bank, the number of a register in decimal, and a digest in as many hexadecimal digits as those of the
/// bank's hash have, with one space between them. Words behind the digest say nothing. A comment begins with `#`, and a
/// line without words before it says nothing either.
pub(crate) fn take_line<'a>(
    bytes: &'a [u8],
    last: &mut Option<Front<'a>>,
) -> (AllowLine, Option<&'a [u8]>)
    requires { IfSome last.old IsFront }
    ensures said { result.0 ≡ allow_line (before_first is_feed bytes.now) }
    ensures lines { slice_split is_feed bytes.now
        ≡ before_first is_feed bytes.now ∷ lines_left (option_map (λ b. b.now) result.1) }
    ensures shorter { IfSome result.1 (λ behind. length behind.now < length bytes.now) }
    ensures last { IfSome last.new IsFront }
{
    if let Some(front) = last {
        if let Some((allowed, behind)) = take_behind(bytes, front) {
            return (AllowLine::Allows(allowed), behind);
        }
    }
    let (line, behind) = cut_line(bytes);
    let text = before(b'#', line);
    (read_text(text, last), behind)
}
