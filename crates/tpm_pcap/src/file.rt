//! What went over a port, by the blocks of a file of either format.

ghost use Rattle.std.specs.Prelude.{◌≡◌, ◌≤◌, ◌<◌, ◌+◌, ◌^◌, ◌++◌, ℕ, List, length, IfOk, OnOk};
ghost use Rattle.tpm_pcap.specs.inner.Blocks.{block_as, framed_as, packet_as};
ghost use Rattle.tpm_pcap.specs.Entries.{Entry as SpecEntry, entries_as};
ghost use Rattle.tpm_pcap.specs.inner.Entries.{Tells};
ghost use Rattle.tpm_pcap.specs.Files.{after_block, after_packet, ended, most_told, next_in, reader_of};
ghost use Rattle.tpm_pcap.specs.Files.{TakesPiece};
ghost use Rattle.tpm_pcap.specs.inner.Files.{may_go_on, reader_as, TakesBlocks};
ghost use Rattle.tpm_pcap.specs.inner.Numbers.{read_by};
ghost use Rattle.tpm_pcap.specs.inner.Sections.{section_as};

use crate::block::{Block, Packet, Read};
use crate::entry::{Entry, Reason, Stamp};
use crate::numbers::Order;
use crate::pcapng::block_in;
use crate::savefile::record_in;
use crate::section::Section;
use crate::segment::behind;
use crate::talk::Talk;
use std::alloc::{AllocError, Global};
use std::marker::Model;

/// The format of a file.
#[derive(Clone, Copy)]
pub(crate) enum Format {
    /// libpcap's.
    Savefile,
    /// pcapng's.
    Pcapng,
}

/// How far a file has been read.
#[derive(Drop)]
pub(crate) struct Reader {
    // the simulator's port
    port: u16,
    section: Section,
    talk: Talk,
    // the number of the next packet
    packet: u64,
}

/// A file of packets that comes in pieces, of which no more is held than the block that has not come whole, and what
/// has come of a message.
#[derive(Drop)]
pub struct PacketFile {
    format: Format,
    reader: Reader,
    // what has come of the next block
    held: Vec<u8>,
}

impl Model for PacketFile {
    ghost use Rattle.tpm_pcap.specs.Files.{FilePlace};
    ghost use Rattle.tpm_pcap.specs.inner.Files.{reader_as};

    ghost Value = { FilePlace };

    ghost view = { λ f. record {
      format = f.format;
      reader = reader_as f.reader;
      held = f.held.items;
    } };
}

impl Reader {
    // At the first packet.
    fn new(alloc: Global, port: u16, section: Section) -> Self
        ensures { reader_as result ≡ reader_of port (section_as section) }
    {
        Reader {
            port,
            section,
            talk: Talk::new(alloc),
            packet: 1,
        }
    }

    // Takes the next packet.
    fn take_packet(
        &mut self,
        alloc: Global,
        packet: &Packet<'_>,
        entries: &mut Vec<Entry>,
    ) -> Result<(), AllocError>
        requires { self.old.packet + 1 < 2 ^ 64 }
        ensures told { OnOk result (Tells
            (after_packet (reader_as self.old) (packet_as packet.now))
            (reader_as self.new) entries.old.items entries.new.items) }
        ensures few { OnOk result
            (length (after_packet (reader_as self.old) (packet_as packet.now)).1 ≤ most_told) }
    {
        let carried = self.section.carried_of(self.port, packet);
        let stamp = Stamp {
            packet: self.packet,
            time: self.section.time_of(packet),
        };
        self.talk.take(alloc, stamp, &carried, entries)?;
        self.packet += 1;
        Ok(())
    }

    // Takes the next block.
    fn take(
        &mut self,
        alloc: Global,
        block: &Block<'_>,
        entries: &mut Vec<Entry>,
    ) -> Result<(), AllocError>
        requires { self.old.packet + 1 < 2 ^ 64 }
        ensures told { OnOk result (Tells
            (after_block (reader_as self.old) (block_as block.now))
            (reader_as self.new) entries.old.items entries.new.items) }
        ensures few { OnOk result
            (length (after_block (reader_as self.old) (block_as block.now)).1 ≤ most_told) }
    {
        match block {
            Block::Section(order) => {
                self.section = Section::new(*order);
                Ok(())
            }
            Block::Interface(interface) => {
                self.section.describe(*interface);
                Ok(())
            }
            Block::Packet(packet) => self.take_packet(alloc, packet, entries),
            Block::Simple(size, bytes) => {
                let packet = self.section.simple_packet(*size, bytes);
                self.take_packet(alloc, &packet, entries)
            }
            Block::Other => Ok(()),
        }
    }

    // Tells that a message did not come whole.
    fn end(&self, entries: &mut Vec<Entry>) -> Result<(), AllocError>
        ensures { OnOk result (entries_as entries.new.items
            ≡ entries_as entries.old.items ++ ended (reader_as self.now)) }
    {
        self.talk.end(self.packet, entries)
    }
}

// The block with which the bytes begin.
fn next_in<'a>(format: Format, order: Order, bytes: &'a [u8]) -> Read<'a>
    ensures value { read_by framed_as result ≡ next_in format order bytes.now }
    ensures size { IfOk result (λ r. (0 < r.size) × (r.size ≤ length bytes.now)) }
{
    match format {
        Format::Savefile => record_in(order, bytes),
        Format::Pcapng => block_in(order, bytes),
    }
}

// Whether bytes may still come of what the next block lacks.
fn may_go_on(last: bool, reason: Reason) -> bool
    ensures { result ≡ may_go_on last reason }
{
    match reason {
        Reason::CutShort => !last,
        _ => false,
    }
}

// Takes the blocks that have come whole, and answers how many bytes these have, or none where nothing behind them is
// told.
fn take_blocks(
    alloc: Global,
    format: Format,
    reader: &mut Reader,
    bytes: &[u8],
    last: bool,
    entries: &mut Vec<Entry>,
) -> Result<Option<usize>, AllocError>
    requires { reader.old.packet + length bytes.now < 2 ^ 64 }
    ensures { IfOk result (λ used. (told : List SpecEntry)
        × (entries_as entries.new.items ≡ entries_as entries.old.items ++ told)
        × TakesBlocks (record {
          format = format;
          old = reader_as reader.old;
          bytes = bytes.now;
          last = last;
          new = reader_as reader.new;
          told = told;
        }) used) }
{
    let mut used = 0;
    while used < bytes.len() {
        match next_in(format, reader.section.order, behind(bytes, used)) {
            Ok(next) => {
                reader.take(alloc, &next.block, entries)?;
                used += next.size;
            }
            Err(reason) => {
                if may_go_on(last, reason) {
                    return Ok(Some(used));
                }
                entries.push(Entry::Untold(reader.packet, reason))?;
                reader.end(entries)?;
                return Ok(None);
            }
        }
    }
    if !last {
        return Ok(Some(used));
    }
    reader.end(entries)?;
    Ok(None)
}

impl PacketFile {
    /// A file of this format whose blocks begin with these bytes.
    pub(crate) fn new(
        alloc: Global,
        format: Format,
        port: u16,
        section: Section,
        blocks: &[u8],
    ) -> Result<Self, AllocError>
        ensures { IfOk result (λ file. file ≡ record {
          format = format;
          reader = reader_of port (section_as section);
          held = blocks.now;
        }) }
    {
        Ok(PacketFile {
            format,
            reader: Reader::new(alloc, port, section),
            held: Vec::from_slice(alloc, blocks)?,
        })
    }

    /// Takes the next bytes, and adds what went over the port in the packets that have come whole. No bytes are the end
    /// of the file. The answer is whether more may be told: it is not behind the end, nor behind a malformed block.
    ///
    /// The error is that a request for memory was refused. What was added and what is held is then left open.
    pub fn take(
        &mut self,
        alloc: Global,
        piece: &[u8],
        entries: &mut Vec<Entry>,
    ) -> Result<bool, AllocError>
        requires { self.old.reader.packet + length self.old.held + length piece.now < 2 ^ 64 }
        ensures { IfOk result (λ more. (told : List SpecEntry)
            × (entries_as entries.new.items ≡ entries_as entries.old.items ++ told)
            × TakesPiece (record {
              old = self.old;
              piece = piece.now;
              new = self.new;
              told = told;
            }) more) }
    {
        self.held.extend_from_slice(piece)?;
        let held = self.held.as_slice();
        match take_blocks(
            alloc,
            self.format,
            &mut self.reader,
            held,
            piece.is_empty(),
            entries,
        )? {
            Some(used) => {
                self.held.drain(..used);
                Ok(true)
            }
            None => Ok(false),
        }
    }
}
