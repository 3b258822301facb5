//! Hashes, HMAC and the MACs of sessions (TPM 2.0 Library, Part 1).
#![tactic(auto)]

mod hashing;
mod key;
mod laws;
mod mac;
mod session;

pub use hashing::{extend, hash};
pub use key::{SessionKey, same, trim};
pub use laws::{lengths, trimmed};
pub use mac::{hmac, kdfa};
pub use session::{command_mac, cp_hash, response_mac, rp_hash, session_key};
