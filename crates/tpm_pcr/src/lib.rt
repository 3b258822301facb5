//! Platform configuration registers after any changes.
#![tactic(auto)]

mod registers;

pub use registers::{Locality, Registers, event_digests};
