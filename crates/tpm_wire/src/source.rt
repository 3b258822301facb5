//! Where bytes come from.

ghost use Rattle.std.specs.Prelude.{◌≡◌, ℕ, Bool, true, false, min, length, List, Option, Some, None, Ok, IfErr};
ghost use Rattle.std.specs.Io.KnownBytes.{ReadConsumes};
ghost use Rattle.std.specs.Io.{ReadsAtMost};
ghost use Rattle.tpm_wire.specs.Sources.{CountsEnds, CountsFailures, IsWhereItFailed};

use std::io::Read;
use std::marker::Model;

/// A read failed. Nothing is said of why, and it isn't tried again.
#[derive(Clone, Copy, Debug, PartialEq, Eq)]
pub struct ReadFailed;

/// Bytes that come one after the other, and a count of the reads that failed.
pub trait Source {
    /// The bytes that are still to come, where the source tells them. Where it tells none, as of a file, what a
    /// function promises of all its bytes says only that there are such bytes.
    ghost coming: { Self → Option (List ℕ) };

    /// How many reads have failed.
    ghost failed: { Self → ℕ };

    /// Whether the last read failed. It is true after a read that failed; after any other, and where a source doesn't
    /// keep it, nothing is said of it, so that a function over any source which promises it reads no more.
    ghost stopped: { Self → Bool } = { λ _. true };

    /// How many reads have met the end, where the source counts them: those that gave no bytes though there was room.
    /// Where it doesn't, nothing is said of it, so that a function over any source which promises a number reads no
    /// more behind the last of them.
    ghost ends: { Self → Option ℕ } = { λ _. None };

    /// Moves the next bytes to the front of `room` and says how many these are: at most as many as have room, and none
    /// only at their end or where there is no room. A read that failed gives no bytes, and it alone raises the count of
    /// failures, by one; at 2^64 - 1 the count stays.
    fn read(&mut self, room: &mut [u8]) -> Result<usize, ReadFailed>
        ensures bound { ReadsAtMost result room.new }
        ensures bytes { ReadConsumes (coming self.old) (coming self.new) result room.new }
        ensures count { CountsFailures (failed self.old) (failed self.new) result }
        ensures stop { IfErr result (λ _. IsWhereItFailed (stopped self.new)) }
        ensures ends { CountsEnds (ends self.old) (ends self.new) (length room.new) result };

    /// How many reads have failed, up to 2^64 - 1.
    fn failures(&self) -> u64
        ensures { result ≡ failed self.now };
}

/// The bytes of a slice. It tells them, no read of it fails, and each gives as many as there are and have room.
#[derive(Drop)]
pub struct SliceSource<'a> {
    rest: &'a [u8],
}

impl<'a> Model for SliceSource<'a> {
    ghost use Rattle.std.specs.Prelude.{List, ℕ};

    ghost Value = { List ℕ };

    ghost view = { λ s. s.rest.now };
}

impl<'a> SliceSource<'a> {
    /// A source of these bytes.
    pub fn new(bytes: &'a [u8]) -> Self
        ensures { result ≡ bytes.now }
    {
        SliceSource { rest: bytes }
    }
}

impl Source for SliceSource<'_> {
    ghost coming = { λ s. Some s };

    ghost failed = { λ _. 0 };

    ghost stopped = { λ _. false };

    fn read(&mut self, room: &mut [u8]) -> Result<usize, ReadFailed>
        ensures bound { ReadsAtMost result room.new }
        ensures bytes { ReadConsumes (Some self.old) (Some self.new) result room.new }
        ensures count { CountsFailures 0 0 result }
        ensures stop { IfErr result (λ _. IsWhereItFailed false) }
        ensures ends { CountsEnds None None (length room.new) result }
        ensures all { result ≡ Ok (min (length self.old) (length room.old)) }
    {
        let n = self.rest.len().min(room.len());
        let (front, rest) = self.rest.split_at(n);
        room[..n].copy_from_slice(front);
        self.rest = rest;
        Ok(n)
    }

    fn failures(&self) -> u64 {
        0
    }
}

/// The bytes of any reader, with its failures counted.
#[derive(Drop)]
pub struct Reads<R: Read> {
    reader: R,
    failures: u64,
}

/// The bytes that its reader tells, and how many of its reads have failed.
impl<R: Read> Model for Reads<R> {
    ghost use Rattle.std.specs.Prelude.{ℕ, List, Option};

    ghost Value = { Option (List ℕ) × ℕ };

    ghost view = { λ s. (R.remaining s.reader, s.failures) };
}

impl<R: Read> Reads<R> {
    /// A source of what this reader gives, of which no read has failed yet.
    pub fn new(reader: R) -> Self
        ensures { result ≡ (R.remaining reader, 0) }
    {
        Reads {
            reader,
            failures: 0,
        }
    }
}

/// It tells the bytes that its reader tells.
impl<R: Read> Source for Reads<R> {
    ghost coming = { λ s. s.0 };

    ghost failed = { λ s. s.1 };

    fn read(&mut self, room: &mut [u8]) -> Result<usize, ReadFailed> {
        match self.reader.read(room) {
            Ok(n) => Ok(n),
            Err(_) => {
                self.failures = self.failures.saturating_add(1);
                Err(ReadFailed)
            }
        }
    }

    fn failures(&self) -> u64 {
        self.failures
    }
}
