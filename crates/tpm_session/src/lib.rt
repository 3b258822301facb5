//! The sessions that a device holds (Part 1, "Session-Based Authorizations").
#![tactic(auto)]

mod authorize;
mod evidence;
mod policy;
mod session;
mod sessions;

pub use authorize::{Authorization, Claim};
pub use evidence::{Answered, Entity, password_reply};
pub use policy::{Assertion, extend_policy};
pub use session::{NONCE_BYTES, Session, empty_policy};
pub use sessions::Sessions;
