//! What a file is, by its first bytes.

ghost use Rattle.std.specs.Prelude.{◌≡◌, ◌++◌, ℕ, List, length, IfOk};
ghost use Rattle.tpm_pcap.specs.Files.{on_link, savefile_traffic, traffic_in};
ghost use Rattle.tpm_pcap.specs.Heads.{BeginsFile, head_as, IsHead};
ghost use Rattle.tpm_pcap.specs.inner.Sections.{section_as};

use crate::block::Interface;
use crate::file::{Format, PacketFile};
use crate::link::{Link, link_of};
use crate::section::Section;
use crate::{pcapng, savefile};
use std::alloc::{AllocError, Global};

/// How many bytes say what a file is. In a file of libpcap so many precede the first packet.
pub const HEAD: usize = 24;

/// What a file is, by its first bytes.
#[derive(Drop)]
pub enum FileHead {
    /// No capture.
    NoCapture,
    /// A capture on a kind of link with this number, which is not known.
    OtherLink(u32),
    /// A capture, from here on.
    Packets(PacketFile),
}

// The section that a file of libpcap is.
fn on_link(header: savefile::Header, link: Link) -> Section
    ensures { section_as result ≡ on_link header link }
{
    let mut section = Section::new(header.order);
    section.describe(Interface {
        link: Some(link),
        limit: 0,
        per_second: header.per_second,
    });
    section
}

// What a file is that is no pcapng.
fn savefile_head(alloc: Global, head: &[u8], port: u16) -> Result<FileHead, AllocError>
    ensures told { IfOk result (λ carried. (rest : List ℕ) → IsHead head.now rest
        → head_as carried rest ≡ savefile_traffic port (head.now ++ rest)) }
    ensures few { IfOk result (BeginsFile (length head.now)) }
{
    let Ok((header, packets)) = savefile::header_in(head) else {
        return Ok(FileHead::NoCapture);
    };
    let Some(link) = link_of(header.link) else {
        return Ok(FileHead::OtherLink(header.link));
    };
    let section = on_link(header, link);
    let file = PacketFile::new(alloc, Format::Savefile, port, section, packets)?;
    Ok(FileHead::Packets(file))
}

/// What a file is by its first 24 bytes or more, or by all where it has fewer: of libpcap (pcap-savefile(5)), of pcapng
/// (draft-ietf-opsawg-pcapng), or no capture. `PacketFile::take` tells what went over a TPM simulator's port in its
/// packets, in their order.
///
/// The numbers of a file of libpcap are in either order, and its times in microseconds or nanoseconds. Packets are
/// of IPv4 or IPv6 (RFC 791, RFC 8200) over Ethernet, over Linux's cooked links, over a loopback or over nothing. Those
/// of other protocols and ports are passed over. A packet of IPv6 with another header than a fragment's between its own
/// and TCP's, a frame with a VLAN tag or a malformed TCP header is passed over too, and is not named.
///
/// A file of pcapng begins with a Section Header Block, whose Byte-Order Magic is in either order. Of its blocks those
/// count that begin a section, describe an interface, or have a packet, Enhanced or Simple. Others are passed over. The
/// link of a packet is that of its interface in its section, of which the first 64 are known. A packet on another
/// interface, or on a link of another kind, is named as on a link that is not known. Of a file of libpcap such a link
/// is all that is told.
///
/// mssim's port for commands is 2321, and so is swtpm's for data. A segment of TCP (RFC 9293) counts where it is the
/// next of its way by its number; what it carries may be a part of a message, or several. A message to mssim is
/// TPM_SEND_COMMAND, a locality, a size and a command, or TPM_SESSION_END; one from it is a size, a response and four
/// bytes. One of swtpm is a frame alone, and begins with its tag. One connection is told at a time: where a segment of
/// another comes, that one begins.
///
/// Each other packet of the port that is not told is named with its reason, and so are those of which too few bytes
/// were captured to tell their port, and fragments of TCP. The segments behind it are told on, from the next message
/// that begins with one.
///
/// Where the file ends in a packet or a block, or a block is malformed, the next packet is named, and is the last. A
/// block is malformed where its length is below 12 or no multiple of four, or isn't repeated at its end. So is one in
/// which what it is to tell doesn't fit, and a Section Header Block of another magic or major version than 1.
///
/// A message has the number and the time of the packet in which it ends. Of pcapng, Enhanced Packet Blocks have times;
/// none is told on an interface whose units are not known, or that has an if_tsoffset.
///
/// The error is that a request for memory was refused.
pub fn read_head(alloc: Global, head: &[u8], port: u16) -> Result<FileHead, AllocError>
    ensures told { IfOk result (λ carried. (rest : List ℕ) → IsHead head.now rest
        → head_as carried rest ≡ traffic_in port (head.now ++ rest)) }
    ensures few { IfOk result (BeginsFile (length head.now)) }
{
    match pcapng::order_of(head).unwrap_or(None) {
        Some(order) => {
            let section = Section::new(order);
            let file = PacketFile::new(alloc, Format::Pcapng, port, section, head)?;
            Ok(FileHead::Packets(file))
        }
        None => savefile_head(alloc, head, port),
    }
}
