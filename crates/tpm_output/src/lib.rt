//! What the parts of the program share: how they end, what is told of a thing and its renderings, the texts that they
//! print, and what they read.
//!
//! A thing is a list of marks, stated once. Its renderings are fields of a line, lines and JSON.
#![tactic(auto)]

pub mod answer;
pub mod as_json;
pub mod escapes;
pub mod fault;
pub mod fields;
pub mod form;
pub mod hexadecimal;
pub mod input_lines;
pub mod lent;
pub mod lines;
pub mod mark;
pub mod named;
pub mod puts;
pub mod reads;
pub mod sink;
pub mod status;
pub mod tell;
pub mod teller;
pub mod text;
pub mod values;
pub mod written;
