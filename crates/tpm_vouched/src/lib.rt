//! What the value of a register vouches for, and a quote of it: which digests extended it, in which order, and which
//! texts were measured.
#![tactic(auto)]

mod allowed;
pub mod laws;
mod measured_parts;
mod record;

pub use allowed::{AllowList, AllowedDigest};
pub use measured_parts::MeasuredParts;
pub use record::{VouchedPart, extending_digest, vouched};
