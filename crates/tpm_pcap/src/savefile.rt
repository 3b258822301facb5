//! The files of libpcap (pcap-savefile(5)).

ghost use Rattle.std.specs.Prelude.{◌≡◌, ◌≤◌, ◌<◌, length, IfOk};
ghost use Rattle.tpm_pcap.specs.inner.Blocks.{framed_as};
ghost use Rattle.tpm_pcap.specs.inner.Numbers.{field_by, read_by};
ghost use Rattle.tpm_pcap.specs.Savefiles.{header_in, record_in, units_of};

use crate::block::{Block, Framed, Packet, Read, Ticks};
use crate::entry::Reason;
use crate::numbers::{Order, cut};

/// How many bytes precede what was captured of a packet.
const PACKET_HEAD: usize = 16;

/// What a file's header tells.
#[derive(Clone, Copy)]
pub(crate) struct Header {
    /// The order of the file's numbers.
    pub(crate) order: Order,
    /// How many units of its times a second has.
    pub(crate) per_second: u64,
    /// The number of its kind of link.
    pub(crate) link: u32,
}

// The order of a file's numbers, and how many units of its times a second has, by the magic number.
fn units_of(magic: u32) -> Result<(Order, u64), Reason>
    ensures { result ≡ units_of magic }
{
    match magic {
        0xa1b2_c3d4 => Ok((Order::Big, 1_000_000)),
        0xa1b2_3c4d => Ok((Order::Big, 1_000_000_000)),
        0xd4c3_b2a1 => Ok((Order::Little, 1_000_000)),
        0x4d3c_b2a1 => Ok((Order::Little, 1_000_000_000)),
        _ => Err(Reason::Malformed),
    }
}

/// What the header tells with which a file begins, and what is behind it; the reason why not is of no account.
#[tactic(auto, unfolding(crate::specs::Savefiles::header_in))]
pub(crate) fn header_in(bytes: &[u8]) -> Result<(Header, &[u8]), Reason>
    ensures value { field_by (λ h. h) result ≡ header_in bytes.now }
    ensures size { IfOk result (λ x. length x.1.now ≤ length bytes.now) }
{
    let (magic, rest) = Order::Big.u32(bytes)?;
    let (order, per_second) = units_of(magic)?;
    let (_, rest) = cut(rest, 16)?;
    let (link, rest) = order.u32(rest)?;
    let header = Header {
        order,
        per_second,
        link: link % 65536,
    };
    Ok((header, rest))
}

/// The packet with which the bytes begin, if all that was captured of it is there.
#[tactic(auto, unfolding(crate::specs::Savefiles::record_in))]
pub(crate) fn record_in<'a>(order: Order, bytes: &'a [u8]) -> Read<'a>
    ensures value { read_by framed_as result ≡ record_in order bytes.now }
    ensures size { IfOk result (λ r. (0 < r.size) × (r.size ≤ length bytes.now)) }
{
    let (seconds, rest) = order.u32(bytes)?;
    let (units, rest) = order.u32(rest)?;
    let (captured, rest) = order.u32(rest)?;
    let (size, rest) = order.u32(rest)?;
    let (bytes, _) = cut(rest, captured as usize)?;
    let packet = Packet {
        interface: 0,
        ticks: Ticks::Seconds(seconds, units),
        size,
        bytes,
    };
    Ok(Framed {
        block: Block::Packet(packet),
        size: PACKET_HEAD + captured as usize,
    })
}
