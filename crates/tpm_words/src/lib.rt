//! The words that the program takes: its subcommands and their options, as clap knows them.
#![tactic(auto)]

mod program;
mod subcommand;
mod word;

pub use program::program_words;
pub use subcommand::Subcommand;
