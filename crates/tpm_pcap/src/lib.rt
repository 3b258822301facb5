//! Captures of a network: the commands and the replies that went over a TPM simulator's port.
#![tactic(auto)]

mod block;
mod entry;
mod file;
mod head;
mod link;
mod message;
mod numbers;
mod options;
mod pcapng;
mod savefile;
mod section;
mod segment;
mod talk;
mod time;
mod way;

pub use entry::{Entry, Reason, Stamp};
pub use file::PacketFile;
pub use head::{FileHead, HEAD, read_head};
pub use segment::behind;
