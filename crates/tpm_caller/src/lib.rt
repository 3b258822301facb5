//! The caller's end of a session (Part 1, "Session-Based Authorizations").
#![tactic(auto)]

mod caller;
mod laws;
mod pending;
mod plain;
mod waiting;

pub use caller::Caller;
pub use laws::{
    as_many_handles, no_mixed_replies, no_mixed_replies_over_lives, one_key, two_ends_in_step,
    what_is_opened,
};
pub use pending::Pending;
pub use plain::Plain;
pub use waiting::{CallerFault, Waiting};
