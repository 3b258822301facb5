//! The program behind its words: what it does for a task, over any files, any standard input and any output.
#![tactic(auto)]

mod cause;
mod ended;
mod fault;
mod files;
mod inputs;
mod logs;
mod performed;
mod running;
mod shown_path;
mod shows;

pub use cause::Cause;
pub use ended::Ended;
pub use fault::Fault;
pub use inputs::Inputs;
pub use performed::{Answered, perform};
pub use running::{run, run_without_words};
