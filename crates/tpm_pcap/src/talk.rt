//! The connection that is told.

ghost use Rattle.std.specs.Prelude.{◌≡◌, ◌<◌, ◌++◌, IfOk, OnOk};
ghost use Rattle.tpm_pcap.specs.Entries.{entries_as};
ghost use Rattle.tpm_pcap.specs.inner.Entries.{Tells};
ghost use Rattle.tpm_pcap.specs.inner.Segments.{carried_as, segment_as, IsSmall};
ghost use Rattle.tpm_pcap.specs.Talks.{after_carried, after_matter, after_same, is_same, matters};
ghost use Rattle.tpm_pcap.specs.Talks.{new_talk, talk_of, unfinished};
ghost use Rattle.tpm_pcap.specs.inner.Talks.{talk_as};

use crate::entry::{Entry, Reason, Stamp};
use crate::segment::{Carried, Segment};
use crate::way::Way;
use std::alloc::{AllocError, Global};

/// A connection of a client with a simulator.
#[derive(Drop)]
pub(crate) struct Talk {
    client: Vec<u8>,
    simulator: Vec<u8>,
    port: u16,
    to: Way,
    back: Way,
}

// Whether a segment carries bytes, or opens its way.
fn matters(segment: &Segment<'_>) -> bool
    ensures { result ≡ matters (segment_as segment.now) }
{
    segment.opens || segment.size != 0
}

impl Talk {
    /// No connection.
    pub(crate) fn new(alloc: Global) -> Self
        ensures { talk_as result ≡ new_talk }
    {
        Talk {
            client: Vec::new(alloc),
            simulator: Vec::new(alloc),
            port: 0,
            to: Way::new(alloc),
            back: Way::new(alloc),
        }
    }

    // The connection of a segment, of which nothing has come.
    fn begun(alloc: Global, segment: &Segment<'_>) -> Result<Self, AllocError>
        ensures { IfOk result (λ talk. talk_as talk ≡ talk_of (segment_as segment.now)) }
    {
        Ok(Talk {
            client: Vec::from_slice(alloc, segment.client)?,
            simulator: Vec::from_slice(alloc, segment.simulator)?,
            port: segment.port,
            to: Way::new(alloc),
            back: Way::new(alloc),
        })
    }

    fn is_same(&self, segment: &Segment<'_>) -> bool
        ensures { result ≡ is_same (talk_as self.now) (segment_as segment.now) }
    {
        self.client.as_slice() == segment.client
            && self.simulator.as_slice() == segment.simulator
            && self.port == segment.port
    }

    /// Tells that a message did not come whole.
    pub(crate) fn end(&self, packet: u64, entries: &mut Vec<Entry>) -> Result<(), AllocError>
        ensures { OnOk result (entries_as entries.new.items
            ≡ entries_as entries.old.items ++ unfinished packet (talk_as self.now)) }
    {
        if !self.to.is_unfinished() && !self.back.is_unfinished() {
            return Ok(());
        }
        entries.push(Entry::Untold(packet, Reason::Unfinished))?;
        Ok(())
    }

    // Takes a segment of this connection.
    fn take_same(
        &mut self,
        alloc: Global,
        stamp: Stamp,
        segment: &Segment<'_>,
        entries: &mut Vec<Entry>,
    ) -> Result<(), AllocError>
        requires { segment.now.size < 65536 }
        ensures { OnOk result (Tells
            (after_same stamp (talk_as self.old) (segment_as segment.now))
            (talk_as self.new) entries.old.items entries.new.items) }
    {
        if segment.to_tpm {
            self.to.segment(alloc, stamp, segment, entries)
        } else {
            self.back.segment(alloc, stamp, segment, entries)
        }
    }

    // Takes a segment that carries bytes, or opens its way.
    fn take_matter(
        &mut self,
        alloc: Global,
        stamp: Stamp,
        segment: &Segment<'_>,
        entries: &mut Vec<Entry>,
    ) -> Result<(), AllocError>
        requires { segment.now.size < 65536 }
        ensures { OnOk result (Tells
            (after_matter stamp (talk_as self.old) (segment_as segment.now))
            (talk_as self.new) entries.old.items entries.new.items) }
    {
        if self.is_same(segment) {
            return self.take_same(alloc, stamp, segment, entries);
        }
        self.end(stamp.packet, entries)?;
        entries.push(Entry::Connection)?;
        *self = Talk::begun(alloc, segment)?;
        self.take_same(alloc, stamp, segment, entries)
    }

    /// Takes what a packet carries.
    pub(crate) fn take(
        &mut self,
        alloc: Global,
        stamp: Stamp,
        carried: &Carried<'_>,
        entries: &mut Vec<Entry>,
    ) -> Result<(), AllocError>
        requires { IsSmall (carried_as carried.now) }
        ensures { OnOk result (Tells
            (after_carried stamp (talk_as self.old) (carried_as carried.now))
            (talk_as self.new) entries.old.items entries.new.items) }
    {
        match carried {
            Carried::Other => Ok(()),
            Carried::Lacking => {
                entries.push(Entry::Untold(stamp.packet, Reason::CutShort))?;
                Ok(())
            }
            Carried::Fragment => {
                entries.push(Entry::Untold(stamp.packet, Reason::Fragment))?;
                Ok(())
            }
            Carried::UnknownLink => {
                entries.push(Entry::Untold(stamp.packet, Reason::UnknownLink))?;
                Ok(())
            }
            Carried::Segment(segment) => {
                if matters(segment) {
                    self.take_matter(alloc, stamp, segment, entries)
                } else {
                    Ok(())
                }
            }
        }
    }
}
