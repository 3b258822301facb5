//! Lists of registers and of allowed digests, line by line, and the digests of a log, which are looked up in one.
#![tactic(auto)]

mod allow_file;
mod allow_index;
mod allow_lines;
mod digits;
mod extensions;
mod list_lines;
mod looked_up;
mod sought;
mod stated;

pub use allow_file::{AllowFile, AllowedDigests, read_list};
pub use allow_index::AllowIndex;
pub use extensions::{Extension, extensions_in, unknown_in};
pub use list_lines::{Heading, ListLine, MOST_LINE, read_line};
pub use looked_up::{LookedUp, look_up};
pub use stated::Stated;
