//! What the tests of several crates share: words of a line and what they stand for, and a
//! source that gives little, fails or ends early.
#![tactic(auto)]

mod pieces;
mod text;

pub use pieces::Pieces;
pub use text::{bytes, is_spelled, next_bytes, next_number, next_value, number, spelled, word};
