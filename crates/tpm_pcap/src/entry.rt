//! What went over a simulator's port.

/// Why a packet is not told.
#[derive(Clone, Copy)]
pub enum Reason {
    /// Not all of it was captured.
    CutShort,
    /// The block of the file in which it would stand is not well formed.
    Malformed,
    /// The link that it was captured on is not known.
    UnknownLink,
    /// It is a fragment of a packet of TCP.
    Fragment,
    /// Its bytes, or the first of them, came before.
    SentAgain,
    /// Bytes before it did not come.
    OutOfOrder,
    /// No message begins where one should.
    NoMessage,
    /// A message before it did not come whole.
    Unfinished,
}

/// A packet of a file.
#[derive(Clone, Copy)]
pub struct Stamp {
    /// Its number, from 1.
    pub packet: u64,
    /// How many nanoseconds after 1970 began (UTC) it was captured, where the file tells.
    pub time: Option<u128>,
}

/// What went over a simulator's port, one after the other.
#[derive(Drop)]
pub enum Entry {
    /// What follows went over another connection.
    Connection,
    /// A command, and the packet in which it ends.
    Command(Stamp, Vec<u8>),
    /// A response, likewise.
    Reply(Stamp, Vec<u8>),
    /// The packet with this number, from 1, is not told.
    Untold(u64, Reason),
}
