//! Rows of text. A row asks ` is `: what stands before it is given, and the words behind it are what is told, each
//! checked in its turn. A line that begins with `#` says what the next is about.

use arrayvec::{ArrayString, ArrayVec};
use std::fmt::{Debug, Write};
use std::process::Abort;
use std::test::*;
use tpm_event_data::Event;
use tpm_testing::{bytes, number, word};
use tpm_types::{Alg, PcrIndex};
use tpm_wire::Buffer;

/// What is asked of a row.
pub(crate) trait Asked {
    /// What was given is told in the row's words, which are all taken.
    fn ask(row: &mut Row<'_>);
}

/// Asks each row of these lines. A word that begins a line of the table stands for the bytes behind it.
pub(crate) fn rows<T: Asked>(rt: &impl Abort, table: &str, lines: &str) {
    for line in lines.lines() {
        assert!(rt; is_so::<T>(table, line.trim()), "{line}");
    }
}

fn is_so<T: Asked>(table: &str, line: &str) -> bool {
    match line.split_once(" is ") {
        Some((given, told)) if !line.starts_with('#') => {
            let mut row = Row::new(table, given, told);
            T::ask(&mut row);
            row.is_told()
        }
        _ => line.is_empty() || line.starts_with('#'),
    }
}

// What the line of a table that begins with this word goes on with, and the word itself where there is none.
fn named<'a>(table: &'a str, name: &'a str) -> &'a str {
    for line in table.lines() {
        match line.trim().split_once(' ') {
            Some((known, bytes)) if known == name => return bytes,
            _ => {}
        }
    }
    name
}

fn put_word(table: &str, out: &mut Buffer, word: &str) -> Option<()> {
    if let Some((at, byte)) = word.split_once('=') {
        let place = out.as_mut_slice().get_mut(at.parse::<usize>().ok()?)?;
        *place = u8::from_str_radix(byte, 16).ok()?;
    } else if let Some(size) = word.strip_prefix('<') {
        out.truncate(size.parse().ok()?);
    } else {
        out.try_extend_from_slice(bytes(named(table, word))?.as_slice())
            .ok()?;
    }
    Some(())
}

/// The bytes of words, one behind the other: of a name what the line of the table that begins with it has, and of
/// digits what they are. `-` is no byte. `<SIZE` cuts what there is, and `AT=BYTE` puts a byte in the place of
/// another.
pub(crate) fn made(table: &str, words: &str) -> Option<Buffer> {
    let mut out = Buffer::new();
    for word in words.split_ascii_whitespace() {
        put_word(table, &mut out, word)?;
    }
    Some(out)
}

/// A record of this register and this type, with these digests and these data.
pub(crate) fn event<'a>(
    register: u32,
    kind: u32,
    digests: &[(u16, &'a [u8])],
    event: &'a [u8],
) -> Event<'a> {
    let mut all = ArrayVec::new();
    let _ = all.try_extend_from_slice(digests);
    Event {
        register,
        kind,
        digests: all,
        event,
    }
}

/// The words of a row that are left, and whether all was so until now.
#[derive(Drop)]
pub(crate) struct Row<'a> {
    table: &'a str,
    pub(crate) given: &'a str,
    pub(crate) told: &'a str,
    is_so: bool,
}

impl<'a> Row<'a> {
    /// These words are given and told.
    pub(crate) fn new(table: &'a str, given: &'a str, told: &'a str) -> Self {
        Row {
            table,
            given,
            told,
            is_so: true,
        }
    }

    /// All is so, and no more is told.
    pub(crate) fn is_told(&self) -> bool {
        self.is_so && self.told.is_empty()
    }

    /// It is so.
    pub(crate) fn holds(&mut self, is_so: bool) {
        self.is_so = self.is_so && is_so;
    }

    /// There is such a thing.
    pub(crate) fn known<T: Default + Drop>(&mut self, found: Option<T>) -> T {
        match found {
            Some(found) => found,
            None => {
                self.is_so = false;
                T::default()
            }
        }
    }

    /// The word that is given next.
    pub(crate) fn word(&mut self) -> &'a str {
        word(&mut self.given)
    }

    /// The number of decimal digits that is given next.
    pub(crate) fn number(&mut self) -> u32 {
        let found = self.word().parse().ok();
        self.known(found)
    }

    /// The number of hexadecimal digits that is given next.
    pub(crate) fn code(&mut self) -> u32 {
        let found = number(self.word());
        self.known(found)
    }

    /// The hash whose number is given next.
    pub(crate) fn bank(&mut self) -> Alg {
        let found = match self.code() {
            0x0004 => Some(Alg::Sha1),
            0x000B => Some(Alg::Sha256),
            0x000C => Some(Alg::Sha384),
            _ => None,
        };
        self.known(found)
    }

    /// The register whose number is given next.
    pub(crate) fn register(&mut self) -> PcrIndex {
        let found = PcrIndex::from_number(self.number());
        self.known(found)
    }

    /// The bytes of these words.
    pub(crate) fn of(&mut self, words: &str) -> Buffer {
        let found = made(self.table, words);
        self.known(found)
    }

    /// The bytes of the word that is given next.
    pub(crate) fn bytes(&mut self) -> Buffer {
        let word = self.word();
        self.of(word)
    }

    /// The bytes of all words that are given.
    pub(crate) fn rest(&mut self) -> Buffer {
        self.of(self.given)
    }

    /// The next word is this one.
    pub(crate) fn is(&mut self, name: &str) {
        let next = word(&mut self.told);
        self.holds(next == name);
    }

    /// The next word is what this prints as.
    pub(crate) fn prints(&mut self, value: impl Debug + Drop) {
        let mut text = ArrayString::<20>::new();
        let _ = write!(text, "{value:?}");
        self.is(text.as_str());
    }

    /// The next words are the kind of a fault and its place.
    pub(crate) fn is_fault(&mut self, kind: impl Debug + Drop, at: impl Debug + Drop) {
        self.prints(kind);
        self.prints(at);
    }

    /// The next word is this number in hexadecimal digits.
    pub(crate) fn is_code(&mut self, code: u64) {
        let next = u64::from_str_radix(word(&mut self.told), 16);
        self.holds(next.ok() == Some(code));
    }

    /// The next word stands for these bytes.
    pub(crate) fn has(&mut self, bytes: &[u8]) {
        let word = word(&mut self.told);
        let next = self.of(word);
        self.holds(next.as_slice() == bytes);
    }

    /// The same, or it is `none`.
    pub(crate) fn may_have(&mut self, bytes: Option<&[u8]>) {
        match bytes {
            Some(bytes) => self.has(bytes),
            None => self.is("none"),
        }
    }

    /// The next words are the numbers of these banks, in hexadecimal digits.
    pub(crate) fn are_banks(&mut self, banks: &[Alg]) {
        for bank in banks {
            self.is_code(bank.number() as u64);
        }
    }
}
