//! What a device keeps: the counters of its NV memory.
#![tactic(auto)]

mod counters;
mod definition;
mod kept;

pub use counters::{By, Counter, Counters, MOST_COUNTERS};
pub use definition::{COUNTER_BYTES, Definition};
pub use kept::KEPT_BYTES;
