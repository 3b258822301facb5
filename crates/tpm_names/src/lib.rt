//! Names: what response codes are called and what they say; numbers, and registers of banks, by their text.
#![tactic(auto)]

pub mod codes;
pub mod meaning;
pub mod number;
pub mod selection;
