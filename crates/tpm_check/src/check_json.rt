//! What `check` refuses, and its status, in lines or as objects of JSON.

ghost use Rattle.std.specs.Prelude.{◌≡◌, ◌++◌, IfOk, OnOk, option_map, string_bytes};
ghost use Rattle.tpm_output.specs.declared.status.Status.TheVariants.{Refused};
ghost use Rattle.tpm_output.specs.Numbers.{hexadecimal};
ghost use Rattle.tpm_events.specs.LogFaults.{fault_text};
ghost use Rattle.tpm_check.specs.CheckAttest.{Says, ended};
ghost use Rattle.tpm_check.specs.CheckJson.{hint_line, is_ok, marks_of_refusal, ok_text, refusal_text};
ghost use Rattle.tpm_check.specs.Compare.{fault_told, printed, refused, status_if};

use crate::said::{Members, push_said, tell_members};
use std::alloc::{AllocError, Global};
use tpm_events::faults::fault_text;
use tpm_log::LogFault;
use tpm_output::answer::Answer;
use tpm_output::form::Form;
use tpm_output::mark::Value;
use tpm_output::status::Status;
use tpm_output::tell::{Tell, push_object};
use tpm_output::teller::{Teller, Told, tell_word};
use tpm_output::text::{Pushed, push_refusal};
use tpm_wire::Refusal;

// ---- what is refused

// A response code in its digits.
#[tactic(auto, using(tpm_output::proofs::Padded::padded))]
fn digits(alloc: Global, code: u32) -> Result<String, AllocError>
    ensures { IfOk result (λ digits. string_bytes digits ≡ hexadecimal 3 code) }
{
    format!(in alloc; "{code:03x}")
}

// A refusal, by the digits of its code.
#[derive(Clone, Copy)]
struct ToldRefusal<'a, 'b> {
    digits: &'a str,
    at: u32,
    hint: Option<&'b str>,
}

impl<'a, 'b> Tell for ToldRefusal<'a, 'b> {
    ghost marks = { λ r. marks_of_refusal r.digits.now r.at (option_map (λ h. h.now) r.hint) };

    fn tell<T: Teller>(&self, out: &mut T) -> Told {
        tell_members!(out; Word "refused" self.digits, Number "at" u64::from(self.at))?;
        match self.hint {
            Some(hint) => tell_word(out, "hint", hint),
            None => Ok(()),
        }
    }
}

fn push_hint_line(text: &mut String, hint: Option<&str>) -> Pushed
    ensures { OnOk result (string_bytes text.new
        ≡ string_bytes text.old ++ hint_line (option_map (λ h. h.now) hint.entry)) }
{
    match hint {
        Some(hint) => writeln!(text, "{hint}"),
        None => Ok(()),
    }
}

/// A refusal, and what the bytes are in place of what they don't spell, where that is known; in lines or as an object,
/// with the status `Refused`. AllocError where a request for memory is refused.
pub(crate) fn refusal_answer(
    alloc: Global,
    form: Form,
    refusal: &Refusal,
    hint: Option<&str>,
) -> Result<Answer, AllocError>
    ensures { IfOk result (λ a. (a.status ≡ Refused)
        × (string_bytes a.text
        ≡ refusal_text form refusal.now (option_map (λ h. h.now) hint.entry))) }
{
    let mut text = String::new(alloc);
    match form {
        Form::Lines => {
            push_refusal(&mut text, refusal)?;
            push_hint_line(&mut text, hint)?;
        }
        Form::Json => {
            let digits = digits(alloc, refusal.code)?;
            let told = ToldRefusal {
                digits: digits.as_str(),
                at: refusal.at,
                hint,
            };
            push_object(&mut text, &told)?;
        }
    }
    Ok(Answer::refused(text))
}

/// Adds what is wrong, in these words.
#[tactic(auto, unfolding(crate::specs::Compare::fault_told))]
pub(crate) fn push_fault(text: &mut String, form: Form, fault: &str) -> Pushed
    ensures { OnOk result (string_bytes text.new
        ≡ string_bytes text.old ++ fault_told form fault.now) }
{
    let fault = Value::Word(fault);
    push_said(text, form, &[fault], &[("fault", fault)])
}

/// The answer that tells this fault, with the status `Refused`. AllocError where a request for memory is refused.
pub(crate) fn fault_answer(alloc: Global, form: Form, fault: &str) -> Result<Answer, AllocError>
    ensures { IfOk result (λ a. (a.status ≡ Refused)
        × (string_bytes a.text ≡ fault_told form fault.now)) }
{
    let mut text = String::new(alloc);
    push_fault(&mut text, form, fault)?;
    Ok(Answer::refused(text))
}

// ---- the status

/// `Done` where this holds.
pub(crate) fn status_if(holds: bool) -> Status
    ensures { result ≡ status_if holds }
{
    if holds { Status::Done } else { Status::Refused }
}

fn is_ok(status: Status) -> bool
    ensures { result ≡ is_ok status }
{
    match status {
        Status::Done => true,
        Status::Refused => false,
    }
}

/// Adds the object of a status, and nothing where lines are told.
#[tactic(auto, unfolding(crate::specs::CheckJson::ok_text))]
pub(crate) fn push_ok(text: &mut String, form: Form, status: Status) -> Pushed
    ensures { OnOk result (string_bytes text.new ≡ string_bytes text.old ++ ok_text form status) }
{
    match form {
        Form::Lines => Ok(()),
        Form::Json => {
            let ok = ("ok", Value::Truth(is_ok(status)));
            push_object(text, &Members(&[ok]))
        }
    }
}

/// An answer, with its status behind it where that is told. AllocError where a request for memory is refused.
pub(crate) fn ended(form: Form, answer: Answer) -> Result<Answer, AllocError>
    ensures { IfOk result (λ a. Says (ended form (printed answer.status (string_bytes answer.text)))
        a.status (string_bytes a.text)) }
{
    let Answer { status, mut text } = answer;
    push_ok(&mut text, form, status)?;
    Ok(Answer { status, text })
}

/// The fault of a log, and the status where it is told. AllocError where a request for memory is refused.
pub(crate) fn log_fault_answer(
    alloc: Global,
    form: Form,
    fault: &LogFault,
) -> Result<Answer, AllocError>
    ensures { IfOk result (λ a. Says (ended form (refused (fault_text form fault.now))) a.status
        (string_bytes a.text)) }
{
    ended(form, Answer::refused(fault_text(alloc, form, fault)?))
}
