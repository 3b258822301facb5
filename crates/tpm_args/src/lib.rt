//! The words that follow the program's name: what they ask for, or the text of usage or help; and values by their
//! text: an owner's authorization value, bytes, numbers, names of commands, and registers of banks.
#![tactic(auto)]

mod bytes;
mod check;
mod events;
mod explain;
mod given;
mod invalid;
mod name;
mod run;
mod show;
mod stop;
mod task;

pub use given::{Words, words_not_text};
pub use stop::Stop;
pub use task::Task;
