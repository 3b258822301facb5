//! Marks as JSON.

ghost use Rattle.std.specs.Prelude.{◌≡◌, ◌++◌, [], OnOk, Some, codes, option_map, true};
ghost use Rattle.tpm_output.specs.Fits.{mark_fits, value_fits};
ghost use Rattle.tpm_output.specs.Json.{closing, comma, ends, label, mark_text, opening, separator, units_member};
ghost use Rattle.tpm_output.specs.Marks.{as_mark, as_value};
ghost use Rattle.tpm_output.specs.Values.{in_json};

use crate::escapes::is_whole;
use crate::mark::{Mark, Shape, Value};
use crate::puts::{put, put_bytes};
use crate::sink::Sink;
use crate::teller::{Teller, Told};
use crate::values::{is_string, put_between, put_in_json};

/// Members of an object of JSON that are written.
#[derive(Drop)]
pub struct Json<S: Sink + Drop> {
    pub sink: S,
    /// Whether the text ends with a value or a member.
    pub behind: bool,
}

// Much of the time of a text goes into puts of a character. So what stands together is put together, and each put names
// its text, whose length is known there then.

fn put_opening<S: Sink>(sink: &mut S, shape: Shape) -> Told
    ensures { OnOk result (S.written sink.new ≡ S.written sink.old ++ opening shape) }
{
    match shape {
        Shape::Object => put(sink, "{"),
        Shape::List | Shape::Words => put(sink, "["),
        Shape::Text => put(sink, "\""),
    }
}

fn put_closing<S: Sink>(sink: &mut S, shape: Shape) -> Told
    ensures { OnOk result (S.written sink.new ≡ S.written sink.old ++ closing shape) }
{
    match shape {
        Shape::Object => put(sink, "}"),
        Shape::List | Shape::Words => put(sink, "]"),
        Shape::Text => put(sink, "\""),
    }
}

pub(crate) fn ends(mark: &Mark<'_>) -> bool
    ensures { result ≡ ends (as_mark mark.now) }
{
    match mark {
        Mark::Says(_, _) | Mark::Closes(_) => true,
        Mark::Opens(_, _) | Mark::Part(_) => false,
    }
}

fn put_comma<S: Sink>(sink: &mut S, behind: bool) -> Told
    ensures { OnOk result (S.written sink.new ≡ S.written sink.old ++ comma behind) }
{
    if behind { put(sink, ",") } else { Ok(()) }
}

// Puts that, and the quotation mark of a name.
fn put_before_name<S: Sink>(sink: &mut S, behind: bool) -> Told
    ensures { OnOk result (S.written sink.new ≡ S.written sink.old ++ (comma behind ++ codes "\"")) }
{
    if behind {
        put(sink, ",\"")
    } else {
        put(sink, "\"")
    }
}

// Puts the end of a name, and what is opened.
fn put_named_opening<S: Sink>(sink: &mut S, shape: Shape) -> Told
    ensures { OnOk result (S.written sink.new ≡ S.written sink.old ++ (codes "\":" ++ opening shape)) }
{
    match shape {
        Shape::Object => put(sink, "\":{"),
        Shape::List | Shape::Words => put(sink, "\":["),
        Shape::Text => put(sink, "\":\""),
    }
}

// Puts the end of a name, and what it names.
fn put_named<S: Sink>(sink: &mut S, value: &Value<'_>) -> Told
    ensures text { OnOk result (S.written sink.new
        ≡ S.written sink.old ++ (codes "\":" ++ in_json (as_value value.now))) }
    ensures fits { OnOk result (value_fits (as_value value.now) ≡ true) }
{
    if is_string(value) {
        put(sink, "\":\"")?;
        put_between(sink, value)?;
        return put(sink, "\"");
    }
    put(sink, "\":")?;
    put_between(sink, value)
}

// Puts the bytes of a text in UTF-16 that is none, behind it.
fn put_units<S: Sink>(sink: &mut S, value: &Value<'_>) -> Told
    ensures { OnOk result (S.written sink.new
        ≡ S.written sink.old ++ units_member (Some []) (as_value value.now)) }
{
    let Value::Utf16(text) = value else {
        return Ok(());
    };
    if is_whole(text) {
        return Ok(());
    }
    put(sink, ",\"units\":\"")?;
    put_bytes(sink, text)?;
    put(sink, "\"")
}

fn put_said<S: Sink>(sink: &mut S, behind: bool, name: Option<&str>, value: &Value<'_>) -> Told
    ensures text { OnOk result (S.written sink.new ≡ S.written sink.old ++ (comma behind
        ++ (label (option_map (λ n. n.now) name.entry) ++ (in_json (as_value value.now)
        ++ units_member (option_map (λ n. n.now) name.entry) (as_value value.now))))) }
    ensures fits { OnOk result (value_fits (as_value value.now) ≡ true) }
{
    match name {
        Some(name) => {
            put_before_name(sink, behind)?;
            put(sink, name)?;
            put_named(sink, value)?;
            put_units(sink, value)
        }
        None => {
            put_comma(sink, behind)?;
            put_in_json(sink, value)
        }
    }
}

fn put_opened<S: Sink>(sink: &mut S, behind: bool, name: Option<&str>, shape: Shape) -> Told
    ensures { OnOk result (S.written sink.new ≡ S.written sink.old
        ++ (comma behind ++ (label (option_map (λ n. n.now) name.entry) ++ opening shape))) }
{
    match name {
        Some(name) => {
            put_before_name(sink, behind)?;
            put(sink, name)?;
            put_named_opening(sink, shape)
        }
        None => {
            put_comma(sink, behind)?;
            put_opening(sink, shape)
        }
    }
}

pub(crate) fn put_mark<S: Sink>(sink: &mut S, behind: bool, mark: &Mark<'_>) -> Told
    ensures text { OnOk result (S.written sink.new ≡ S.written sink.old
        ++ (separator behind (as_mark mark.now) ++ mark_text (as_mark mark.now))) }
    ensures fits { OnOk result (mark_fits (as_mark mark.now) ≡ true) }
{
    match mark {
        Mark::Says(name, value) => put_said(sink, behind, *name, value),
        Mark::Opens(name, shape) => put_opened(sink, behind, *name, *shape),
        Mark::Part(value) => put_between(sink, value),
        Mark::Closes(shape) => put_closing(sink, *shape),
    }
}

impl<S: Sink + Drop> Teller for Json<S> {
    ghost use Rattle.std.specs.Prelude.{ℕ, Bool, List, true};
    ghost use Rattle.tpm_output.specs.Json.{add_json};

    ghost State = { List ℕ × Bool × Bool };

    ghost state = { λ json. (S.written json.sink, json.behind, true) };

    ghost tells = { add_json };

    fn tell(&mut self, mark: &Mark<'_>) -> Told {
        put_mark(&mut self.sink, self.behind, mark)?;
        self.behind = ends(mark);
        Ok(())
    }
}
