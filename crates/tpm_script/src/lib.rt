//! What the program does with a device: `run`, a script of commands on it, and `show --nv`, the NV memory that it has
//! kept.
#![tactic(auto)]

mod laws;
mod lines;
mod memory_text;
mod script;
mod shown_nv;

pub use laws::no_replay_in_a_script;
pub use script::run_script;
pub use shown_nv::{MOST_READ, show_nv};
