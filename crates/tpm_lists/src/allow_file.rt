//! A list of allowed digests, which is read while it comes.

ghost use Rattle.std.specs.Prelude.{◌≡◌, ◌<◌, ◌≤◌, ◌^◌, ◌+◌, ℕ, List, [], length};
ghost use Rattle.std.specs.Prelude.{IfOk, IsErrOf, OnOk};
ghost use Rattle.tpm_wire.specs.Sources.{IsWhereItFailed};
ghost use Rattle.tpm_output.specs.declared.fault.ToolFault.TheVariants.{InputTooLong, Read};
ghost use Rattle.tpm_output.specs.InputLines.{CountsRead, most_bytes};
ghost use Rattle.tpm_output.specs.Reads.{ReadsNoMore, ReadsUpTo};
ghost use Rattle.tpm_lists.specs.AllowFiles.{list_said};
ghost use Rattle.tpm_lists.specs.inner.ListReading.{IsRead, ReadsOn};

use crate::allow_lines::{AllowLine, take_line};
use memchr::memrchr;
use std::alloc::{AllocError, Global};
use std::marker::Model;
use tpm_output::fault::ToolFault;
use tpm_output::reads::{PieceSink, take_pieces};
use tpm_output::text::Pushed;
use tpm_vouched::AllowedDigest;
use tpm_wire::Source;

/// How many bytes a list has at most.
const MOST_LIST: usize = 16_777_216;

/// For how many digests there is room at first. Most lists fit, so that none of their digests are moved.
const ROOM: usize = 16_384;

/// Allowed digests, fewer than 2^32.
#[derive(Drop)]
pub struct AllowedDigests {
    found: Vec<AllowedDigest>,
}

impl Model for AllowedDigests {
    ghost use Rattle.std.specs.Prelude.{◌<◌, ◌^◌, List, length};
    ghost use Rattle.tpm_vouched.specs.declared.allowed.AllowedDigest.{AllowedDigest as Allowed};

    ghost Value = { List Allowed };

    ghost view = { λ d. d.found.items };

    ghost invariant = { λ d. length d.found.items < 2 ^ 32 };
}

impl AllowedDigests {
    /// These, in the order of their list.
    pub fn as_slice(&self) -> &[AllowedDigest]
        ensures value { result.now ≡ self.now }
        ensures few { length result.now < 2 ^ 32 }
    {
        self.found.as_slice()
    }
}

/// What a list of allowed digests says.
#[derive(Drop)]
pub enum AllowFile {
    /// These digests.
    Digests(AllowedDigests),
    /// The line of this number is the first that is wrong.
    Wrong(u64),
    /// It has more than 16,777,216 bytes.
    TooLong,
}

// The digests of lines that have ended, and how many these are, up to the first that is wrong.
#[derive(Drop)]
struct EndedLines {
    found: Vec<AllowedDigest>,
    number: u64,
    is_wrong: bool,
}

impl EndedLines {
    // Reads these lines, the last of which ends with them.
    fn read(&mut self, lines: &[u8]) -> Pushed
        requires { self.old.number + length lines.now + 1 < 2 ^ 64 }
        ensures { OnOk result (ReadsOn self.old self.new lines.now) }
    {
        let mut left = Some(lines);
        let mut front = None;
        while let Some(bytes) = left {
            if self.is_wrong {
                return Ok(());
            }
            let (said, behind) = take_line(bytes, &mut front);
            self.number += 1;
            match said {
                AllowLine::Allows(digest) => self.found.push(digest)?,
                AllowLine::Nothing => {}
                AllowLine::Wrong => self.is_wrong = true,
            }
            left = behind;
        }
        Ok(())
    }
}

// A list of which some bytes have come.
#[derive(Drop)]
struct ListReader {
    ended: EndedLines,
    // What has come of the line behind them.
    held: Vec<u8>,
}

impl ListReader {
    fn new(alloc: Global) -> Result<Self, AllocError>
        ensures { IfOk result (IsRead []) }
    {
        let ended = EndedLines {
            found: Vec::with_capacity(alloc, ROOM)?,
            number: 0,
            is_wrong: false,
        };
        let held = Vec::new(alloc);
        Ok(ListReader { ended, held })
    }

    // What the list says, of which so many bytes have come, where that was all.
    fn end(mut self, given: usize) -> Result<AllowFile, AllocError>
        requires counted { self.ended.number + length self.held.items ≤ given }
        requires few { length self.ended.found.items ≤ self.ended.number }
        ensures { IfOk result (λ file. (bytes : List ℕ)
            → length bytes ≡ given
            → IsRead bytes self
            → file ≡ list_said bytes) }
    {
        if given > MOST_LIST {
            return Ok(AllowFile::TooLong);
        }
        self.ended.read(self.held.as_slice())?;
        if self.ended.is_wrong {
            return Ok(AllowFile::Wrong(self.ended.number));
        }
        Ok(AllowFile::Digests(AllowedDigests {
            found: self.ended.found,
        }))
    }
}

impl PieceSink for ListReader {
    ghost holds = { IsRead };

    fn take(&mut self, alloc: Global, piece: &[u8]) -> Result<(), AllocError> {
        let Some(last) = memrchr(b'\n', piece) else {
            return self.held.extend_from_slice(piece);
        };
        self.held.extend_from_slice(&piece[..last])?;
        self.ended.read(self.held.as_slice())?;
        self.held.clear();
        self.held.extend_from_slice(&piece[last + 1..])
    }
}

/// What the list of allowed digests says that a source gives.
///
/// A line has a bank, the number of a register in decimal, and a digest in as many hexadecimal digits as those of the
/// bank's hash have, with one space between them. Words behind the digest say nothing. A comment begins with `#`, and a
/// line without words before it says nothing either.
///
/// Where a request for memory is refused the answer is `Memory`, and where a read fails `Read`, which isn't tried
/// again. Whatever is answered, at most 16,777,217 bytes are read. Beside the digests no more is held than one line,
/// and 8,192 bytes.
pub fn read_list<L: Source>(alloc: Global, list: &mut L) -> Result<AllowFile, ToolFault>
    ensures failures { CountsRead (L.failed list.old) (L.failed list.new) result }
    ensures stop { IsErrOf result Read → IsWhereItFailed (L.stopped list.new) }
    ensures most { ReadsNoMore (most_bytes + 1) (L.coming list.old) (L.coming list.new) }
    ensures ok { IfOk result (λ file. (bytes : List ℕ)
        × ReadsUpTo (most_bytes + 1) (L.coming list.old) (L.coming list.new) bytes
        × (file ≡ list_said bytes)) }
    ensures short { IsErrOf result InputTooLong → ⊥ }
{
    let mut reader = ListReader::new(alloc)?;
    let given = take_pieces(alloc, list, MOST_LIST + 1, &mut reader)?;
    Ok(reader.end(given)?)
}
