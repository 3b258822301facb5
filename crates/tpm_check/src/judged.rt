//! A quote as it was signed, in the subcommand `check`.

ghost use Rattle.std.specs.Prelude.{◌≡◌, IfOk, OnOk, option_map, string_bytes};
ghost use Rattle.std.specs.Str.{bytes_eq};
ghost use Rattle.tpm_output.specs.Telling.{told as told_by};
ghost use Rattle.tpm_check.specs.CheckAttest.{ChecksAttest, Selects, given, hint, is_asked_for, is_done};
ghost use Rattle.tpm_check.specs.CheckAttest.{is_signature, is_sized, judged, marks_of_judged};
ghost use Rattle.tpm_check.specs.CheckAttest.{marks_of_lacks, marks_of_selected, marks_of_signer, selected};
ghost use Rattle.tpm_check.specs.Compare.{printed};
ghost use Rattle.tpm_check.specs.inner.Told.{told};

use crate::asked::AskedQuote;
use crate::beside::Beside;
use crate::check_json::{refusal_answer, status_if};
use crate::quoted::{is_quote, tell_quote, verdict_word};
use crate::renderings::rendered;
use crate::signed_told::tell_attest;
use std::alloc::{AllocError, Global};
use tpm_options::CheckOptions;
use tpm_output::answer::Answer;
use tpm_output::form::Form;
use tpm_output::mark::{Mark, Shape, Value};
use tpm_output::tell::Tell;
use tpm_output::teller::{Teller, Told, tell_all, tell_word};
use tpm_quote::{NotSelected, decode_attest, first_not_selected, selects_none};
use tpm_types::{Attest, Selections};

// ---- verdicts

// What a quote selects, beside what is required.
#[derive(Clone, Copy)]
enum Selected {
    // All that is required.
    Covers,
    // Not this, the first register that is required and not selected.
    Lacks(NotSelected),
    // Nothing is required, and no register is selected.
    Empty,
    // Nothing is required.
    NotCompared,
}

impl Selected {
    fn of(required: &Option<Selections>, quoted: &Selections) -> Selected
        ensures { result ≡ selected required.now quoted.now }
    {
        match required {
            Some(required) => match first_not_selected(quoted, required) {
                Some(missing) => Selected::Lacks(missing),
                None => Selected::Covers,
            },
            None if selects_none(quoted) => Selected::Empty,
            None => Selected::NotCompared,
        }
    }

    // Whether this is what was asked for, where any selection may be.
    fn is_done(self, any: bool) -> bool
        ensures { result ≡ is_done any self }
    {
        match self {
            Selected::Covers => true,
            Selected::Lacks(_) | Selected::Empty => false,
            Selected::NotCompared => any,
        }
    }
}

// Whether bytes are those that are asked for. None where none are.
fn is_given(asked: &Option<Vec<u8>>, bytes: &[u8]) -> Option<bool>
    ensures { result ≡ option_map (bytes_eq bytes.now) (given asked.now) }
{
    match asked {
        Some(asked) => Some(bytes == asked.as_slice()),
        None => None,
    }
}

// What a quote as it was signed is beside what is asked for, and beside registers. None is for what isn't compared.
#[derive(Clone, Copy)]
struct Judged {
    signer: Option<bool>,
    nonce: Option<bool>,
    selection: Selected,
    quote: Option<bool>,
}

impl Judged {
    fn of(found: &Beside<'_>, options: &CheckOptions<'_>, attest: &Attest<'_>) -> Judged
        ensures { result ≡ judged (told found.now) options.now attest.now }
    {
        Judged {
            signer: is_given(&options.signer, attest.signer.as_slice()),
            nonce: is_given(&options.nonce, attest.extra_data.as_slice()),
            selection: Selected::of(&options.required, &attest.quote.selections),
            quote: is_quote(found, &attest.quote, options.hash),
        }
    }

    // Whether it is the quote that was asked for.
    fn is_asked_for(&self, options: &CheckOptions<'_>) -> bool
        ensures { result ≡ is_asked_for options.now self.now }
    {
        self.signer.unwrap_or(true)
            && self.nonce.unwrap_or(options.any_nonce)
            && self.selection.is_done(options.any_selection)
            && self.quote.unwrap_or(false)
    }
}

// ---- what is told

// Tells the verdict on the signer, where one is asked for.
fn tell_signer<T: Teller>(out: &mut T, same: Option<bool>) -> Told
    ensures { OnOk result (T.state out.new
        ≡ told_by T.tells (T.state out.old) (marks_of_signer same)) }
{
    match same {
        Some(_) => tell_word(out, "signer", verdict_word(same, "not compared")),
        None => Ok(()),
    }
}

/// A register that is lacking.
#[derive(Clone, Copy)]
pub(crate) struct Lacks {
    pub(crate) missing: NotSelected,
    /// Whether it is further words, or an object of its own.
    pub(crate) form: Form,
}

impl Tell for Lacks {
    ghost marks = { λ l. marks_of_lacks l.form l.missing };

    fn tell<T: Teller>(&self, out: &mut T) -> Told {
        let bank = Value::Word(self.missing.bank.name());
        let register = Value::Number(u64::from(self.missing.register.number()));
        match self.form {
            Form::Lines => tell_all(
                out,
                &[
                    Mark::Opens(Some("selection"), Shape::List),
                    Mark::Says(None, Value::Word("lacks")),
                    Mark::Says(None, bank),
                    Mark::Says(None, register),
                    Mark::Closes(Shape::List),
                ],
            ),
            Form::Json => tell_all(
                out,
                &[
                    Mark::Says(Some("selection"), Value::Word("lacks")),
                    Mark::Opens(Some("lacks"), Shape::Object),
                    Mark::Says(Some("bank"), bank),
                    Mark::Says(Some("register"), register),
                    Mark::Closes(Shape::Object),
                ],
            ),
        }
    }
}

fn tell_selected<T: Teller>(out: &mut T, form: Form, selected: Selected) -> Told
    ensures { OnOk result (T.state out.new
        ≡ told_by T.tells (T.state out.old) (marks_of_selected form selected)) }
{
    match selected {
        Selected::Lacks(missing) => Lacks { missing, form }.tell(out),
        Selected::Covers => tell_word(out, "selection", "covers"),
        Selected::Empty => tell_word(out, "selection", "empty"),
        Selected::NotCompared => tell_word(out, "selection", "not compared"),
    }
}

// What a quote as it was signed says, and the verdicts.
#[derive(Clone, Copy)]
struct ToldJudged<'a, 'b> {
    attest: &'b Attest<'a>,
    judged: Judged,
    form: Form,
}

impl<'a, 'b> Tell for ToldJudged<'a, 'b> {
    ghost marks = { λ t. marks_of_judged t.form t.attest.now t.judged };

    fn tell<T: Teller>(&self, out: &mut T) -> Told {
        let judged = &self.judged;
        tell_attest(out, self.attest)?;
        tell_signer(out, judged.signer)?;
        tell_word(out, "nonce", verdict_word(judged.nonce, "not compared"))?;
        tell_selected(out, self.form, judged.selection)?;
        tell_quote(out, judged.quote)
    }
}

// ---- what is no quote

// TPM_GENERATED_VALUE (Part 2, 6.2), with which a quote begins.
const GENERATED: [u8; 4] = [0xFF, 0x54, 0x43, 0x47];

// Whether a size stands before a quote, as in a TPM2B_ATTEST (Part 2, 10.12.13).
fn is_sized(bytes: &[u8]) -> bool
    ensures { result ≡ is_sized bytes.now }
{
    bytes.len() >= 6 && &bytes[2..6] == GENERATED.as_slice()
}

// Whether these are RSASSA, RSAPSS or ECDSA, with which a signature begins (TPMT_SIGNATURE; Part 2, 11.3.4).
fn is_signature(bytes: &[u8]) -> bool
    ensures { result ≡ is_signature bytes.now }
{
    bytes.len() >= 2
        && (&bytes[..2] == [0, 0x14].as_slice()
            || &bytes[..2] == [0, 0x16].as_slice()
            || &bytes[..2] == [0, 0x18].as_slice())
}

// What bytes are in place of a quote.
fn hint(bytes: &[u8]) -> Option<&'static str>
    ensures { option_map (λ h. h.now) result ≡ hint bytes.now }
{
    if is_sized(bytes) {
        Some("a size stands before it")
    } else if is_signature(bytes) {
        Some("it is a signature")
    } else {
        None
    }
}

/// What is printed of a quote as it was signed, and what the quote selects: nothing where the bytes spell none.
#[derive(Drop)]
pub(crate) struct SaidOfQuote {
    pub(crate) answer: Answer,
    pub(crate) selections: Selections,
}

/// What is printed of a quote, or of the fault of its bytes, beside registers, and what the quote selects.
pub(crate) fn answer_to_attest(
    alloc: Global,
    found: &Beside<'_>,
    quote: AskedQuote<'_, '_>,
) -> Result<SaidOfQuote, AllocError>
    ensures checks { IfOk result (λ s. ChecksAttest (told found.now) quote.entry.options.now
        quote.entry.attest.now (printed s.answer.status (string_bytes s.answer.text))) }
    ensures selects { IfOk result (λ s. Selects quote.entry.attest.now s.selections) }
{
    let AskedQuote {
        options,
        attest: bytes,
    } = quote;
    match decode_attest(bytes) {
        Ok(attest) => {
            let form = found.form;
            let judged = Judged::of(found, options, &attest);
            let status = status_if(judged.is_asked_for(options));
            let told = ToldJudged {
                attest: &attest,
                judged,
                form,
            };
            let answer = rendered(alloc, form, status, &told)?;
            Ok(SaidOfQuote {
                answer,
                selections: attest.quote.selections,
            })
        }
        Err(refusal) => {
            let answer = refusal_answer(alloc, found.form, &refusal, hint(bytes))?;
            Ok(SaidOfQuote {
                answer,
                selections: Selections::default(),
            })
        }
    }
}
