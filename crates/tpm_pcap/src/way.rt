//! One way of a connection.

ghost use Rattle.std.specs.Prelude.{◌≡◌, ◌<◌, ◌==◌, ◌++◌, IfOk, OnOk, length, take, drop, not};
ghost use Rattle.tpm_pcap.specs.Entries.{entry_as, frame_entry};
ghost use Rattle.tpm_pcap.specs.inner.Entries.{Tells};
ghost use Rattle.tpm_pcap.specs.inner.Segments.{segment_as};
ghost use Rattle.tpm_pcap.specs.Ways.{after_byte, after_bytes, after_captured, after_segment, is_before};
ghost use Rattle.tpm_pcap.specs.Ways.{new_way, number_behind, place_of, resumed};
ghost use Rattle.tpm_pcap.specs.inner.Ways.{way_as};

use crate::entry::{Entry, Reason, Stamp};
use crate::message::{Measure, measured};
use crate::segment::{Segment, behind, front};
use std::alloc::{AllocError, Global};

/// Where a segment stands.
#[derive(Clone, Copy)]
pub(crate) enum Placing {
    /// Where the next byte is to come.
    InOrder,
    /// Before it.
    Before,
    /// Past it: bytes between are missing.
    Ahead,
}

/// One way of a connection.
#[derive(Drop)]
pub(crate) struct Way {
    // the sequence number of the next byte, once one is known
    next: Option<u32>,
    // what has come of a message
    held: Vec<u8>,
    // whether the rest of the segment counts for nothing
    lost: bool,
}

fn is_before(number: u32, next: u32) -> bool
    ensures { result ≡ is_before number next }
{
    (next as u64 + 4294967296 - number as u64) % 4294967296 < 2147483648
}

fn place_of(next: Option<u32>, number: u32) -> Placing
    ensures { result ≡ place_of next number }
{
    match next {
        None => Placing::InOrder,
        Some(next) if next == number => Placing::InOrder,
        Some(next) if is_before(number, next) => Placing::Before,
        Some(_) => Placing::Ahead,
    }
}

// The number of the byte behind so many.
fn number_behind(number: u32, size: usize) -> u32
    requires { size < 65536 }
    ensures { result ≡ number_behind number size }
{
    ((number as u64 + size as u64) % 4294967296) as u32
}

impl Way {
    /// A way of which nothing has come.
    pub(crate) fn new(alloc: Global) -> Self
        ensures { way_as result ≡ new_way }
    {
        Way {
            next: None,
            held: Vec::new(alloc),
            lost: false,
        }
    }

    /// Whether bytes are held of a message that is not whole yet.
    pub(crate) fn is_unfinished(&self) -> bool
        ensures { result ≡ not (length (way_as self.now).held == 0) }
    {
        !self.held.is_empty()
    }

    // The frame that is held behind so many bytes.
    fn frame(
        &self,
        alloc: Global,
        to_tpm: bool,
        stamp: Stamp,
        before: usize,
        size: usize,
    ) -> Result<Entry, AllocError>
        ensures { IfOk result (λ entry. entry_as entry
            ≡ frame_entry to_tpm stamp (take size (drop before (way_as self.now).held))) }
    {
        let bytes = Vec::from_slice(alloc, front(behind(self.held.as_slice(), before), size))?;
        if to_tpm {
            Ok(Entry::Command(stamp, bytes))
        } else {
            Ok(Entry::Reply(stamp, bytes))
        }
    }

    // Takes the next byte.
    #[tactic(auto, unfolding(crate::specs::Ways::after_byte))]
    fn take(
        &mut self,
        alloc: Global,
        to_tpm: bool,
        stamp: Stamp,
        byte: u8,
        entries: &mut Vec<Entry>,
    ) -> Result<(), AllocError>
        ensures { OnOk result (Tells (after_byte to_tpm stamp (way_as self.old) byte)
            (way_as self.new) entries.old.items entries.new.items) }
    {
        if self.lost {
            return Ok(());
        }
        self.held.push(byte)?;
        match measured(to_tpm, self.held.as_slice()) {
            Measure::More => Ok(()),
            Measure::Frame(before, size) => {
                let frame = self.frame(alloc, to_tpm, stamp, before, size)?;
                entries.push(frame)?;
                self.held.clear();
                Ok(())
            }
            Measure::Silent => {
                self.held.clear();
                Ok(())
            }
            Measure::Broken => {
                entries.push(Entry::Untold(stamp.packet, Reason::NoMessage))?;
                self.held.clear();
                self.lost = true;
                Ok(())
            }
        }
    }

    // Takes the next bytes.
    fn take_all(
        &mut self,
        alloc: Global,
        to_tpm: bool,
        stamp: Stamp,
        bytes: &[u8],
        entries: &mut Vec<Entry>,
    ) -> Result<(), AllocError>
        ensures { OnOk result (Tells (after_bytes to_tpm stamp (way_as self.old) bytes.now)
            (way_as self.new) entries.old.items entries.new.items) }
    {
        for byte in bytes {
            self.take(alloc, to_tpm, stamp, *byte, entries)?;
        }
        Ok(())
    }

    // Goes on at this byte, with nothing of a message.
    fn resume(&mut self, next: u32)
        ensures { way_as self.new ≡ resumed next }
    {
        self.next = Some(next);
        self.held.clear();
        self.lost = false;
    }

    // Takes a segment that stands where the next byte is to come.
    fn take_captured(
        &mut self,
        alloc: Global,
        stamp: Stamp,
        segment: &Segment<'_>,
        entries: &mut Vec<Entry>,
    ) -> Result<(), AllocError>
        requires { segment.now.size < 65536 }
        ensures { OnOk result (Tells
            (after_captured stamp (way_as self.old) (segment_as segment.now))
            (way_as self.new) entries.old.items entries.new.items) }
    {
        if segment.payload.len() < segment.size {
            self.resume(number_behind(segment.number, segment.size));
            entries.push(Entry::Untold(stamp.packet, Reason::CutShort))?;
            return Ok(());
        }
        self.next = Some(number_behind(segment.number, segment.size));
        self.lost = false;
        self.take_all(alloc, segment.to_tpm, stamp, segment.payload, entries)
    }

    /// Takes a segment.
    #[tactic(auto, unfolding(crate::specs::Ways::after_segment))]
    pub(crate) fn segment(
        &mut self,
        alloc: Global,
        stamp: Stamp,
        segment: &Segment<'_>,
        entries: &mut Vec<Entry>,
    ) -> Result<(), AllocError>
        requires { segment.now.size < 65536 }
        ensures { OnOk result (Tells
            (after_segment stamp (way_as self.old) (segment_as segment.now))
            (way_as self.new) entries.old.items entries.new.items) }
    {
        if segment.opens {
            self.resume(number_behind(segment.number, 1));
            return Ok(());
        }
        match place_of(self.next, segment.number) {
            Placing::InOrder => self.take_captured(alloc, stamp, segment, entries),
            Placing::Before => {
                entries.push(Entry::Untold(stamp.packet, Reason::SentAgain))?;
                Ok(())
            }
            Placing::Ahead => {
                self.resume(number_behind(segment.number, segment.size));
                entries.push(Entry::Untold(stamp.packet, Reason::OutOfOrder))?;
                Ok(())
            }
        }
    }
}
