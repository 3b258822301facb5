//! The worked log and its faults, from a slice and in pieces, quotes, and event data, beside what is proved of logs.
#![tactic(auto)]

#[cfg(test)]
mod tests;
