//! A log beside the device that it was sent to, and beside the quote of that device.
#![tactic(auto)]

mod laws;

pub use laws::{boot_to_quote, log_against_device};
