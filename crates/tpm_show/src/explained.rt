//! The subcommand `explain`.

ghost use Rattle.std.specs.Prelude.{◌≡◌, ◌++◌, IfOk, OnOk, string_bytes};
ghost use Rattle.std.specs.Io.KnownBytes.{Appends};
ghost use Rattle.tpm_output.specs.Faults.{FailsByMemoryOrWrite};
ghost use Rattle.tpm_output.specs.declared.status.Status.TheVariants.{Done, Refused};
ghost use Rattle.tpm_names.specs.Codes.{subject_text};
ghost use Rattle.tpm_names.specs.Meanings.{meaning_as};
ghost use Rattle.tpm_show.specs.Explain.{meaning_line, base_line, layer_line, unknown_line, line_among};
ghost use Rattle.tpm_show.specs.Explain.{line_or_unknown, status_of_line, explanation, explain_status};

use crate::layers::{Codes, base_meaning, codes_of, layer_of};
use std::alloc::{AllocError, Global};
use std::io::Write;
use tpm_names::codes::{code_meaning, code_subject};
use tpm_names::meaning::Meaning;
use tpm_output::answer::write;
use tpm_output::fault::ToolFault;
use tpm_output::status::Status;
use tpm_output::text::Pushed;

/// The bits of a code within its layer (TCG TSS 2.0 Overview and Common Structures, response codes).
const CODE: u32 = 0xFFFF;

/// Adds what the code is about, if it has a number.
pub(crate) fn push_subject(text: &mut String, code: u32) -> Pushed
    ensures { OnOk result (string_bytes text.new ≡ string_bytes text.old ++ subject_text code) }
{
    let subject = code_subject(code);
    text.push_str(subject.words)?;
    text.push_str(subject.number)
}

#[tactic(auto, unfolding(crate::specs::Explain::meaning_line))]
fn push_meaning(text: &mut String, code: u32, meaning: &Meaning) -> Result<Status, AllocError>
    ensures { IfOk result (λ status. (status ≡ Done)
        × (string_bytes text.new
        ≡ string_bytes text.old ++ meaning_line code (meaning_as meaning.now))) }
{
    let name = meaning.name;
    write!(text, "TPM_RC_{name}")?;
    push_subject(text, code)?;
    let words = meaning.words;
    writeln!(text, ": {words}")?;
    Ok(Status::Done)
}

fn push_base(text: &mut String, meaning: &Meaning) -> Result<Status, AllocError>
    ensures { IfOk result (λ status. (status ≡ Done)
        × (string_bytes text.new ≡ string_bytes text.old ++ base_line (meaning_as meaning.now))) }
{
    let name = meaning.name;
    let words = meaning.words;
    writeln!(text, "TSS2_BASE_RC_{name}: {words}")?;
    Ok(Status::Done)
}

fn push_unknown(text: &mut String) -> Result<Status, AllocError>
    ensures { IfOk result (λ status. (status ≡ Refused)
        × (string_bytes text.new ≡ string_bytes text.old ++ unknown_line)) }
{
    text.push_str("unknown response code\n")?;
    Ok(Status::Refused)
}

// Adds what a code says among these.
fn push_code_among(text: &mut String, codes: Codes, code: u32) -> Result<Status, AllocError>
    ensures { IfOk result (λ status. (status ≡ status_of_line (line_among codes code))
        × (string_bytes text.new
        ≡ string_bytes text.old ++ line_or_unknown (line_among codes code))) }
{
    match (codes, base_meaning(code), code_meaning(code)) {
        (Codes::Base | Codes::BaseOrTpm, Some(meaning), _) => push_base(text, &meaning),
        (Codes::BaseOrTpm | Codes::Tpm, _, Some(meaning)) => push_meaning(text, code, &meaning),
        _ => push_unknown(text),
    }
}

#[tactic(auto, unfolding(crate::specs::Explain::layer_line))]
fn push_layer(text: &mut String, layer: &Meaning) -> Pushed
    ensures { OnOk result
        (string_bytes text.new ≡ string_bytes text.old ++ layer_line (meaning_as layer.now)) }
{
    let name = layer.name;
    let words = layer.words;
    writeln!(text, "TSS2_{name}_RC_LAYER: {words}")
}

fn push_code(text: &mut String, code: u32) -> Result<Status, AllocError>
    ensures { IfOk result (λ status. (status ≡ explain_status code)
        × (string_bytes text.new ≡ string_bytes text.old ++ explanation code)) }
{
    let Some(layer) = layer_of(code) else {
        return push_code_among(text, Codes::Tpm, code);
    };
    push_layer(text, &layer)?;
    push_code_among(text, codes_of(layer.number), code & CODE)
}

/// Prints what a response code says: `TPM_RC_NAME: WORDS`, or `TPM_RC_NAME for SUBJECT N: WORDS`
/// where it has the number of a handle, session or parameter (Part 2, 6.6).
///
/// Of a code of the software above a TPM it prints the line of the layer before that,
/// `TSS2_NAME_RC_LAYER: WORDS`, and then `TSS2_BASE_RC_NAME: WORDS`, or the line of the TPM's code
/// that a resource manager answers (TCG TSS 2.0 Overview and Common Structures, response codes). A
/// code that isn't listed is `unknown response code`, with the status `Refused`.
///
/// Where a request for memory is refused the answer is `Memory`, and where the writer fails it is
/// `Write`. What was written before is then left open.
pub fn explain<W: Write>(alloc: Global, out: &mut W, code: u32) -> Result<Status, ToolFault>
    ensures ok { IfOk result (λ status. (status ≡ explain_status code)
        × Appends (W.contents out.old) (W.contents out.new) (explanation code)) }
    ensures err { FailsByMemoryOrWrite result }
{
    let mut text = String::new(alloc);
    let status = push_code(&mut text, code)?;
    write(out, &text)?;
    Ok(status)
}
