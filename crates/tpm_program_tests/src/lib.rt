//! Readers and writers that fail, want of memory, and scripts, captures and logs however they are cut, beside what is
//! proved of the subcommands and what the built program is run on.
#![tactic(auto)]

#[cfg(test)]
mod tests;
