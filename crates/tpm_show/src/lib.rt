//! The subcommands `show`, `build` and `explain`.
#![tactic(auto)]

mod areas;
mod beyond;
mod bits;
mod built;
mod capture;
mod capture_frames;
mod capture_lines;
mod capture_stream;
mod command_names;
mod digits;
mod explained;
mod field;
mod field_names;
mod field_text;
mod fields;
mod frame_header;
mod handle_names;
mod layers;
mod library;
mod lines;
mod object;
mod packets;
mod parts;
mod passage;
mod piece;
mod refused;
mod remark;
mod reports;
mod sessions;
mod shown;
mod teller;
mod telling;
mod told;

pub use built::{Built, build};
pub use capture::show_lines;
pub use capture_stream::show_stream;
pub use explained::explain;
pub use packets::show_packets;
pub use shown::{show, show_fields};
pub use telling::Telling;
