//! The object of JSON of a frame.

ghost use Rattle.std.specs.Prelude.{◌≡◌, ◌++◌, [], ◌∷◌, ℕ, List, IfOk, OnOk, option_map, string_bytes};
ghost use Rattle.hex.specs.Hex.{encode_lower};
ghost use Rattle.json.specs.Token.{begin_object, end_object, string};
ghost use Rattle.tpm_output.specs.Numbers.{hexadecimal};
ghost use Rattle.tpm_output.specs.Reading.{name_tokens};
ghost use Rattle.tpm_show.specs.FrameJson.{closing, opening, token};
ghost use Rattle.tpm_show.specs.Reports.{IsObjectLine};
ghost use Rattle.tpm_show.specs.inner.Pieces.{as_value};

use crate::lines::push_code;
use crate::piece::{Piece, Shape, Value};
use crate::teller::Teller;
use json::Writer;
use std::alloc::{AllocError, Global};
use tpm_output::text::Pushed;

/// An object that has begun.
#[derive(Drop)]
pub(crate) struct Object {
    pub(crate) alloc: Global,
    pub(crate) writer: Writer,
    ghost fresh: { writer.before ≡ [] },
}

impl Object {
    /// An object without a member.
    pub(crate) fn begin(alloc: Global) -> Result<Self, AllocError>
        ensures { IfOk result (λ object. object.writer.tokens ≡ begin_object ∷ []) }
    {
        let mut writer = Writer::new(Vec::new(alloc));
        writer.begin_object()?;
        Ok(Object { alloc, writer })
    }

    fn put_name(&mut self, name: Option<&str>) -> Pushed
        ensures { OnOk result (self.new.writer.tokens
            ≡ self.old.writer.tokens ++ name_tokens (option_map (λ n. n.now) name.entry)) }
    {
        match name {
            Some(name) => self.writer.key(name),
            None => Ok(()),
        }
    }

    fn put_code(&mut self, code: u32) -> Pushed
        ensures { OnOk result (self.new.writer.tokens
            ≡ self.old.writer.tokens ++ string (hexadecimal 3 code) ∷ []) }
    {
        let mut digits = String::new(self.alloc);
        push_code(&mut digits, code)?;
        self.writer.string(digits.as_str())
    }

    fn put_bytes(&mut self, bytes: &[u8]) -> Pushed
        ensures { OnOk result (self.new.writer.tokens
            ≡ self.old.writer.tokens ++ string (encode_lower bytes.now) ∷ []) }
    {
        let digits = hex::encode(self.alloc, bytes)?;
        self.writer.string(digits.as_str())
    }

    fn put_value(&mut self, value: &Value<'_>) -> Pushed
        ensures { OnOk result (self.new.writer.tokens
            ≡ self.old.writer.tokens ++ token (as_value value.now) ∷ []) }
    {
        match value {
            Value::Word(word) => self.writer.string(word),
            Value::Number(n) => self.writer.u64(*n),
            Value::Code(code) => self.put_code(*code),
            Value::Bytes(bytes) => self.put_bytes(bytes),
            Value::Null => self.writer.null(),
        }
    }

    fn open(&mut self, shape: Shape) -> Pushed
        ensures { OnOk result
            (self.new.writer.tokens ≡ self.old.writer.tokens ++ opening shape ∷ []) }
    {
        match shape {
            Shape::Object => self.writer.begin_object(),
            Shape::List => self.writer.begin_array(),
        }
    }

    fn close(&mut self, shape: Shape) -> Pushed
        ensures { OnOk result
            (self.new.writer.tokens ≡ self.old.writer.tokens ++ closing shape ∷ []) }
    {
        match shape {
            Shape::Object => self.writer.end_object(),
            Shape::List => self.writer.end_array(),
        }
    }

    /// Ends the object, and adds its line.
    pub(crate) fn end_line(self, text: &mut String) -> Pushed
        ensures { OnOk result ((line : List ℕ)
            × IsObjectLine (self.writer.tokens ++ end_object ∷ []) line
            × (string_bytes text.new ≡ string_bytes text.old ++ line)) }
    {
        let mut writer = self.writer;
        writer.end_object()?;
        let object = String::from_utf8(writer.into_inner()).unwrap();
        text.push_str(object.as_str())?;
        text.push_str("\n")
    }
}

impl Teller for Object {
    ghost use Rattle.json.specs.Token.{Token};
    ghost use Rattle.tpm_show.specs.FrameJson.{tokens_of};

    ghost Mark = { Token };

    ghost told = { λ object. object.writer.tokens };

    ghost marks = { tokens_of };

    fn alloc(&self) -> Global {
        self.alloc
    }

    fn tell(&mut self, piece: &Piece<'_>) -> Pushed {
        match piece {
            Piece::Says(_, name, value) => {
                self.put_name(*name)?;
                self.put_value(value)
            }
            Piece::InLine(_, _) => Ok(()),
            Piece::Opens(name, shape) => {
                self.put_name(*name)?;
                self.open(*shape)
            }
            Piece::Closes(shape) => self.close(*shape),
        }
    }
}
