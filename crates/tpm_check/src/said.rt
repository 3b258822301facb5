//! Things that are said one behind the other.

ghost use Rattle.std.specs.Prelude.{◌≡◌, ◌++◌, None, OnOk, map, string_bytes};
ghost use Rattle.tpm_output.specs.Form.{told_by};
ghost use Rattle.tpm_output.specs.Marks.{Says, as_value};
ghost use Rattle.tpm_output.specs.Telling.{says, told};

use tpm_output::form::Form;
use tpm_output::mark::{Mark, Value};
use tpm_output::tell::{Tell, push_line, push_object};
use tpm_output::teller::{Teller, Told, tell_value};
use tpm_output::text::Pushed;

/// Values that are said without names.
#[derive(Clone, Copy)]
pub(crate) struct Words<'a, 'b>(pub(crate) &'b [Value<'a>]);

impl<'a, 'b> Tell for Words<'a, 'b> {
    ghost marks = { λ w. map (Says None) (map as_value w.0.now) };

    fn tell<T: Teller>(&self, out: &mut T) -> Told {
        for value in self.0 {
            out.tell(&Mark::Says(None, *value))?;
        }
        Ok(())
    }
}

/// A value under its name.
pub(crate) type Member<'a> = (&'a str, Value<'a>);

/// Values that are said under their names.
#[derive(Clone, Copy)]
pub(crate) struct Members<'a, 'b>(pub(crate) &'b [Member<'a>]);

impl<'a, 'b> Tell for Members<'a, 'b> {
    ghost marks = { λ m. map (λ one. says one.0.now (as_value one.1)) m.0.now };

    fn tell<T: Teller>(&self, out: &mut T) -> Told {
        for member in self.0 {
            tell_value(out, member.0, member.1)?;
        }
        Ok(())
    }
}

/// Tells values without names, as `tell_words!(out; Word "at", Number 4)`.
macro_rules! tell_words {
    ($out:expr; $($kind:ident $value:expr),*) => {
        $crate::said::Words(&[$(tpm_output::mark::Value::$kind($value)),*]).tell($out)
    };
}

/// Tells values under their names, as `tell_members!(out; Number "at" 4, Word "fault" "Late")`.
macro_rules! tell_members {
    ($out:expr; $($kind:ident $name:literal $value:expr),*) => {
        $crate::said::Members(&[$(($name, tpm_output::mark::Value::$kind($value))),*]).tell($out)
    };
}

pub(crate) use tell_members;
pub(crate) use tell_words;

/// Adds a line of these words, or an object of these members.
pub(crate) fn push_said(
    text: &mut String,
    form: Form,
    words: &[Value<'_>],
    members: &[Member<'_>],
) -> Pushed
    ensures { OnOk result (string_bytes text.new ≡ string_bytes text.old ++ told_by form
        (map (Says None) (map as_value words.now))
        (map (λ one. says one.0.now (as_value one.1)) members.now)) }
{
    match form {
        Form::Lines => push_line(text, &Words(words)),
        Form::Json => push_object(text, &Members(members)),
    }
}
