//! What stands in a file, one behind the other.

use crate::entry::Reason;
use crate::link::Link;
use crate::numbers::Order;

/// An interface on which packets were captured.
#[derive(Clone, Copy, Default)]
pub(crate) struct Interface {
    /// Its kind of link, where that is known.
    pub(crate) link: Option<Link>,
    /// How many bytes of a packet are captured at most, or 0 for all.
    pub(crate) limit: u32,
    /// How many units of its times a second has, or 0 where that is not known.
    pub(crate) per_second: u64,
}

/// A time, in the units of an interface, since 1970 began (UTC).
#[derive(Clone, Copy)]
pub(crate) enum Ticks {
    /// None.
    Untold,
    /// Seconds, and the units behind them.
    Seconds(u32, u32),
    /// Units, of which the first number is the upper half.
    Units(u32, u32),
}

/// What was captured of a packet.
#[derive(Drop, Clone, Copy)]
pub(crate) struct Packet<'a> {
    /// The number of its interface in the section, from 0.
    pub(crate) interface: u32,
    /// When it was captured.
    pub(crate) ticks: Ticks,
    /// How many bytes it had.
    pub(crate) size: u32,
    /// Those of them that were captured.
    pub(crate) bytes: &'a [u8],
}

/// What a block of a file tells.
#[derive(Drop, Clone, Copy)]
pub(crate) enum Block<'a> {
    /// A section begins, whose numbers are in this order.
    Section(Order),
    /// The section has another interface.
    Interface(Interface),
    /// A packet.
    Packet(Packet<'a>),
    /// A packet of so many bytes on the section's first interface; as many as were captured are the first of these.
    Simple(u32, &'a [u8]),
    /// Nothing of a packet.
    Other,
}

/// A block, and how many bytes it has.
#[derive(Drop, Clone, Copy)]
pub(crate) struct Framed<'a> {
    /// The block.
    pub(crate) block: Block<'a>,
    /// How many bytes it has.
    pub(crate) size: usize,
}

/// A block, or why no more can be told.
pub(crate) type Read<'a> = Result<Framed<'a>, Reason>;
