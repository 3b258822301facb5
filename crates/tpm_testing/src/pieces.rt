//! A source that gives its bytes in pieces, fails, or pauses.

ghost use Rattle.std.specs.Prelude.{None};

use tpm_wire::{ReadFailed, Source};

/// Gives a byte so many times, then the bytes, of these so many a read, and then, where it is endless, zeros.
#[derive(Drop)]
pub struct Pieces<'a> {
    byte: u8,
    times: usize,
    bytes: &'a [u8],
    most: usize,
    is_endless: bool,
    /// The number of the read that fails, from 1; 0 for none.
    pub fails_at: usize,
    /// The number of the read that gives no bytes, though more would come; 0 for none.
    pub pauses_at: usize,
    /// How many reads there have been.
    pub reads: usize,
    failures: u64,
    // whether the last read failed
    stopped: bool,
}

impl<'a> Pieces<'a> {
    /// These bytes, at most so many a read.
    pub fn new(bytes: &'a [u8], most: usize) -> Self {
        Pieces {
            byte: 0,
            times: 0,
            bytes,
            most,
            is_endless: false,
            fails_at: 0,
            pauses_at: 0,
            reads: 0,
            failures: 0,
            stopped: false,
        }
    }

    /// The same, and the read with this number fails.
    pub fn failing(bytes: &'a [u8], most: usize, fails_at: usize) -> Self {
        let mut pieces = Pieces::new(bytes, most);
        pieces.fails_at = fails_at;
        pieces
    }

    /// The same, and the read with this number gives no bytes.
    pub fn pausing(bytes: &'a [u8], most: usize, pauses_at: usize) -> Self {
        let mut pieces = Pieces::new(bytes, most);
        pieces.pauses_at = pauses_at;
        pieces
    }

    /// The byte so many times, and the bytes behind it.
    pub fn behind(byte: u8, times: usize, bytes: &'a [u8], most: usize) -> Self {
        let mut pieces = Pieces::new(bytes, most);
        pieces.byte = byte;
        pieces.times = times;
        pieces
    }

    /// The byte, for longer than any test reads.
    pub fn endless(byte: u8) -> Self {
        Pieces::behind(byte, usize::MAX, &[], 0)
    }

    /// The bytes, and zeros without an end.
    pub fn before_zeros(bytes: &'a [u8], most: usize) -> Self {
        let mut pieces = Pieces::new(bytes, most);
        pieces.is_endless = true;
        pieces
    }
}

impl Source for Pieces<'_> {
    ghost coming = { λ _. None };

    ghost failed = { λ s. s.failures };

    ghost stopped = { λ s. s.stopped };

    fn read(&mut self, room: &mut [u8]) -> Result<usize, ReadFailed> {
        self.reads = self.reads.saturating_add(1);
        self.stopped = self.reads == self.fails_at;
        if self.stopped {
            self.failures = self.failures.saturating_add(1);
            return Err(ReadFailed);
        }
        if self.reads == self.pauses_at {
            return Ok(0);
        }
        if self.times > 0 {
            let count = self.times.min(room.len());
            room[..count].fill(self.byte);
            self.times -= count;
            return Ok(count);
        }
        if self.bytes.is_empty() && self.is_endless {
            room.fill(0);
            return Ok(room.len());
        }
        let count = self.bytes.len().min(room.len()).min(self.most);
        let (front, rest) = self.bytes.split_at(count);
        room[..count].copy_from_slice(front);
        self.bytes = rest;
        Ok(count)
    }

    fn failures(&self) -> u64 {
        self.failures
    }
}
