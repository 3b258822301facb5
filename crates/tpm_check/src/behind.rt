//! What a quote as it was signed says, and what stands behind it.

ghost use Rattle.std.specs.Prelude.{List, IfOk, string_bytes};
ghost use Rattle.tpm_types.specs.declared.tpms.Selection.{Selection as SelectionValue};
ghost use Rattle.tpm_check.specs.AllowedBoot.{SaysBehind};
ghost use Rattle.tpm_check.specs.Compare.{Verdict, printed};
ghost use Rattle.tpm_check.specs.inner.CheckAttest.{Adds};
ghost use Rattle.tpm_check.specs.inner.Told.{quote_by};

use crate::asked::AskedQuote;
use crate::beside::Beside;
use crate::check_json::ended;
use crate::judged::answer_to_attest;
use std::alloc::{AllocError, Global};
use tpm_output::answer::Answer;
use tpm_output::status::Status;
use tpm_pcr::Registers;
use tpm_types::Selections;

/// What is said behind a quote that is the one asked for.
pub(crate) trait Behind {
    ghost says: { Self → List SelectionValue → Verdict };

    /// Adds what is said of what the quote selects.
    fn push(&self, text: &mut String, quoted: &Selections) -> Result<Status, AllocError>
        ensures { IfOk result (λ status. Adds (says self.now quoted.now) status
            (string_bytes text.old) (string_bytes text.new)) };
}

/// What is printed of a quote beside registers, and of what stands behind it.
pub(crate) fn answer_beside<B: Behind>(
    alloc: Global,
    quote: AskedQuote<'_, '_>,
    registers: &Registers,
    behind: &B,
) -> Result<Answer, AllocError>
    ensures { IfOk result (λ a. SaysBehind (quote_by quote.entry) registers.now (B.says behind.now)
        (printed a.status (string_bytes a.text))) }
{
    let form = quote.options.form;
    let said = answer_to_attest(alloc, &Beside { registers, form }, quote)?;
    match said.answer.status {
        Status::Refused => ended(form, said.answer),
        Status::Done => {
            let mut text = said.answer.text;
            let status = behind.push(&mut text, &said.selections)?;
            ended(form, Answer { status, text })
        }
    }
}
