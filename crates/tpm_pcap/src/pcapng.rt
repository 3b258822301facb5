//! The blocks of a pcapng file (IETF draft-ietf-opsawg-pcapng).

ghost use Rattle.std.specs.Prelude.{◌≡◌, ◌≤◌, ◌<◌, length, IfOk};
ghost use Rattle.tpm_pcap.specs.inner.Blocks.{block_as, framed_as};
ghost use Rattle.tpm_pcap.specs.inner.Numbers.{read_by};
ghost use Rattle.tpm_pcap.specs.Pcapng.{block_by, block_in, enhanced_in, header_in, interface_in, is_length};
ghost use Rattle.tpm_pcap.specs.Pcapng.{order_of, simple_in, told_in};

use crate::block::{Block, Framed, Interface, Packet, Read, Ticks};
use crate::entry::Reason;
use crate::link::link_of;
use crate::numbers::{Order, cut};
use crate::options::per_second_in;

/// The type of a Section Header Block, which is the same in either order.
const HEADER: u32 = 0x0a0d_0d0a;

/// The type of an Interface Description Block.
const INTERFACE: u32 = 1;

/// The type of a Simple Packet Block.
const SIMPLE: u32 = 3;

/// The type of an Enhanced Packet Block.
const ENHANCED: u32 = 6;

/// The fewest bytes of a block: its type, and its length twice.
const LEAST: usize = 12;

/// The order of the numbers of a section that begins with these bytes; none where another block does.
#[tactic(auto, unfolding(crate::specs::Pcapng::order_of))]
pub(crate) fn order_of(bytes: &[u8]) -> Result<Option<Order>, Reason>
    ensures { result ≡ order_of bytes.now }
{
    let (kind, rest) = Order::Big.u32(bytes)?;
    let (_, rest) = Order::Big.u32(rest)?;
    let (magic, _) = Order::Big.u32(rest)?;
    if kind != HEADER {
        return Ok(None);
    }
    match magic {
        0x1a2b_3c4d => Ok(Some(Order::Big)),
        0x4d3c_2b1a => Ok(Some(Order::Little)),
        _ => Err(Reason::Malformed),
    }
}

// ---- what a block tells, if what it is to tell fits

#[tactic(auto, unfolding(crate::specs::Pcapng::header_in))]
fn header_in<'a>(order: Order, body: &'a [u8]) -> Result<Block<'a>, Reason>
    ensures { read_by block_as result ≡ header_in order body.now }
{
    // Byte-Order Magic, and behind the Major Version the Minor one and Section Length
    let (_, rest) = cut(body, 4)?;
    let (major, rest) = order.u16(rest)?;
    cut(rest, 10)?;
    if major == 1 {
        Ok(Block::Section(order))
    } else {
        Err(Reason::Malformed)
    }
}

#[tactic(auto, unfolding(crate::specs::Pcapng::interface_in))]
fn interface_in<'a>(order: Order, body: &'a [u8]) -> Result<Block<'a>, Reason>
    ensures { read_by block_as result ≡ interface_in order body.now }
{
    let (link, rest) = order.u16(body)?;
    let (_, rest) = order.u16(rest)?;
    let (limit, options) = order.u32(rest)?;
    Ok(Block::Interface(Interface {
        link: link_of(link as u32),
        limit,
        per_second: per_second_in(order, options),
    }))
}

#[tactic(auto, unfolding(crate::specs::Pcapng::simple_in))]
fn simple_in<'a>(order: Order, body: &'a [u8]) -> Result<Block<'a>, Reason>
    ensures { read_by block_as result ≡ simple_in order body.now }
{
    let (size, room) = order.u32(body)?;
    Ok(Block::Simple(size, room))
}

#[tactic(auto, unfolding(crate::specs::Pcapng::enhanced_in))]
fn enhanced_in<'a>(order: Order, body: &'a [u8]) -> Result<Block<'a>, Reason>
    ensures { read_by block_as result ≡ enhanced_in order body.now }
{
    let (interface, rest) = order.u32(body)?;
    let (upper, rest) = order.u32(rest)?;
    let (lower, rest) = order.u32(rest)?;
    let (captured, rest) = order.u32(rest)?;
    let (size, rest) = order.u32(rest)?;
    let (bytes, _) = cut(rest, captured as usize)?;
    Ok(Block::Packet(Packet {
        interface,
        ticks: Ticks::Units(upper, lower),
        size,
        bytes,
    }))
}

fn told_in<'a>(order: Order, kind: u32, body: &'a [u8]) -> Result<Block<'a>, Reason>
    ensures { read_by block_as result ≡ told_in order kind body.now }
{
    match kind {
        HEADER => header_in(order, body),
        INTERFACE => interface_in(order, body),
        SIMPLE => simple_in(order, body),
        ENHANCED => enhanced_in(order, body),
        _ => Ok(Block::Other),
    }
}

// ---- a block

fn is_length(size: usize) -> bool
    ensures { result ≡ is_length size }
{
    size >= LEAST && size % 4 == 0
}

// The block with which the bytes begin, whose numbers are in this order.
#[tactic(auto, unfolding(crate::specs::Pcapng::block_by))]
fn block_by<'a>(order: Order, bytes: &'a [u8]) -> Read<'a>
    ensures value { read_by framed_as result ≡ block_by order bytes.now }
    ensures size { IfOk result (λ r. (0 < r.size) × (r.size ≤ length bytes.now)) }
{
    let (kind, rest) = order.u32(bytes)?;
    let (size, rest) = order.u32(rest)?;
    if !is_length(size as usize) {
        return Err(Reason::Malformed);
    }
    let (body, rest) = cut(rest, size as usize - LEAST)?;
    let (again, _) = order.u32(rest)?;
    if again != size {
        return Err(Reason::Malformed);
    }
    match told_in(order, kind, body) {
        Ok(block) => Ok(Framed {
            block,
            size: size as usize,
        }),
        Err(_) => Err(Reason::Malformed),
    }
}

/// The block with which the bytes begin, in a section whose numbers are in this order.
pub(crate) fn block_in<'a>(section: Order, bytes: &'a [u8]) -> Read<'a>
    ensures value { read_by framed_as result ≡ block_in section bytes.now }
    ensures size { IfOk result (λ r. (0 < r.size) × (r.size ≤ length bytes.now)) }
{
    let order = order_of(bytes)?.unwrap_or(section);
    block_by(order, bytes)
}
