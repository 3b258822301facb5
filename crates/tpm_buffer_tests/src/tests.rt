//! Tokens, the structures of Part 2, commands, responses and frames.

mod buffer_values;
mod stream_frames;
mod types_checks;
mod types_numbers;
mod types_rows;
mod types_values;
mod wire_sources;
mod wire_tokens;
