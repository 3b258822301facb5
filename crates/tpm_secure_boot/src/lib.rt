//! Secure Boot, as the records of register 7 tell it.
#![tactic(auto)]

pub mod laws;
mod verdict;

pub use verdict::{
    SecureBoot, SecureBootFault, SecureBootFaultKind, SecureBootState, SecurityVariable,
    secure_boot,
};
