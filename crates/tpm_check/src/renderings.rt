//! What is told of a thing, in lines or as an object of JSON.

ghost use Rattle.std.specs.Prelude.{◌≡◌, ◌++◌, ℕ, List, IfOk, OnOk, string_bytes};
ghost use Rattle.tpm_output.specs.Form.{told_as};
ghost use Rattle.tpm_check.specs.CheckJson.{rendered};

use std::alloc::{AllocError, Global};
use tpm_output::answer::Answer;
use tpm_output::form::Form;
use tpm_output::status::Status;
use tpm_output::tell::{Tell, push_lines, push_object};
use tpm_output::text::Pushed;

/// A thing that is told in lines by other words than as an object.
pub(crate) trait InLines: Tell {
    ghost lines: { Self → List ℕ };

    /// Adds its lines.
    fn push_lines(&self, text: &mut String) -> Pushed
        ensures { OnOk result (string_bytes text.new ≡ string_bytes text.old ++ lines self.now) };
}

/// Adds a thing in its lines or as an object of JSON.
pub(crate) fn push_told<X: InLines>(text: &mut String, form: Form, thing: &X) -> Pushed
    ensures { OnOk result (string_bytes text.new
        ≡ string_bytes text.old ++ told_as form (X.lines thing.now) (X.marks thing.now)) }
{
    match form {
        Form::Lines => thing.push_lines(text),
        Form::Json => push_object(text, thing),
    }
}

/// Adds a thing in lines or as an object of JSON.
pub(crate) fn push_rendered<X: Tell>(text: &mut String, form: Form, thing: &X) -> Pushed
    ensures { OnOk result (string_bytes text.new
        ≡ string_bytes text.old ++ rendered form (X.marks thing.now)) }
{
    match form {
        Form::Lines => push_lines(text, thing),
        Form::Json => push_object(text, thing),
    }
}

/// A thing in lines or as an object of JSON, with this status. AllocError where a request for memory is refused.
pub(crate) fn rendered<X: Tell>(
    alloc: Global,
    form: Form,
    status: Status,
    thing: &X,
) -> Result<Answer, AllocError>
    ensures { IfOk result (λ a. (a.status ≡ status)
        × (string_bytes a.text ≡ rendered form (X.marks thing.now))) }
{
    let mut text = String::new(alloc);
    push_rendered(&mut text, form, thing)?;
    Ok(Answer { status, text })
}
