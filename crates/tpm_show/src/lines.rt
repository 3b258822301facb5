//! The lines of a frame.

ghost use Rattle.std.specs.Prelude.{◌≡◌, ◌++◌, ℕ, OnOk, [], option_map, string_bytes};
ghost use Rattle.tpm_show.specs.FrameLines.{line_of, said, shown, under};
ghost use Rattle.tpm_show.specs.inner.Pieces.{as_value};
ghost use Rattle.tpm_output.specs.Numbers.{hexadecimal};

use crate::piece::{How, Piece, Value};
use crate::teller::Teller;
use std::alloc::Global;
use tpm_output::text::{Pushed, push_shown};

/// Lines that are told, with the names of numbers behind these or without.
#[derive(Drop)]
pub(crate) struct Lines<const NAMES: bool> {
    pub(crate) alloc: Global,
    pub(crate) text: String,
}

impl<const NAMES: bool> Lines<NAMES> {
    /// No lines.
    pub(crate) fn new(alloc: Global) -> Self
        ensures { string_bytes result.text ≡ [] }
    {
        Lines {
            alloc,
            text: String::new(alloc),
        }
    }

    fn say(&mut self, how: How, name: Option<&str>, value: &Value<'_>) -> Pushed
        ensures { OnOk result (string_bytes self.new.text ≡ string_bytes self.old.text
            ++ said how NAMES (option_map (λ n. n.now) name.entry) (as_value value.now)) }
    {
        let text = &mut self.text;
        match (how, NAMES) {
            (How::Alone, _) => push_value(text, value),
            (How::Behind, _) | (How::Asked, true) => push_behind(text, " ", value),
            (How::FurtherAsked, true) => push_behind(text, ",", value),
            (How::Under, _) => push_under(text, name, value),
            (How::Asked | How::FurtherAsked, false) | (How::Nowhere, _) => Ok(()),
        }
    }
}

/// Adds a response code in its digits.
#[tactic(auto, using(tpm_output::proofs::Padded::padded))]
pub(crate) fn push_code(text: &mut String, code: u32) -> Pushed
    ensures { OnOk result (string_bytes text.new ≡ string_bytes text.old ++ hexadecimal 3 code) }
{
    write!(text, "{code:03x}")
}

fn push_value(text: &mut String, value: &Value<'_>) -> Pushed
    ensures { OnOk result
        (string_bytes text.new ≡ string_bytes text.old ++ shown (as_value value.now)) }
{
    match value {
        Value::Word(word) => text.push_str(word),
        Value::Number(n) => write!(text, "{n}"),
        Value::Code(code) => push_code(text, *code),
        Value::Bytes(bytes) => push_shown(text, bytes),
        Value::Null => Ok(()),
    }
}

// Adds a thing behind this.
fn push_behind(text: &mut String, front: &str, value: &Value<'_>) -> Pushed
    ensures { OnOk result (string_bytes text.new
        ≡ string_bytes text.old ++ (front.now ++ shown (as_value value.now))) }
{
    text.push_str(front)?;
    push_value(text, value)
}

fn push_under(text: &mut String, name: Option<&str>, value: &Value<'_>) -> Pushed
    ensures { OnOk result (string_bytes text.new ≡ string_bytes text.old
        ++ under (option_map (λ n. n.now) name.entry) (shown (as_value value.now))) }
{
    match name {
        Some(name) => {
            text.push_str(" ")?;
            text.push_str(name)?;
            push_behind(text, " ", value)
        }
        None => push_behind(text, " ", value),
    }
}

impl<const NAMES: bool> Teller for Lines<NAMES> {
    ghost Mark = { ℕ };

    ghost told = { λ lines. string_bytes lines.text };

    ghost marks = { line_of NAMES };

    fn alloc(&self) -> Global {
        self.alloc
    }

    fn tell(&mut self, piece: &Piece<'_>) -> Pushed {
        match piece {
            Piece::Says(how, name, value) => self.say(*how, *name, value),
            Piece::InLine(how, value) => self.say(*how, None, value),
            Piece::Opens(_, _) | Piece::Closes(_) => Ok(()),
        }
    }
}
