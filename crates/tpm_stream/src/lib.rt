//! Frames of a stream.
#![tactic(auto)]

mod framer;
mod reader;
mod stream_laws;

pub use framer::{Framer, FramerState};
pub use reader::{ReadFault, read_frame, read_frame_into};
pub use stream_laws::{broken_for_ever, frames_of_a_stream, frames_of_pieces, frames_read};
