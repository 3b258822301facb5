//! The subcommand `check` of a list of allowed digests, beside a quote as it was signed.

ghost use Rattle.std.specs.Prelude.{◌≡◌, ℕ, List, Some, false, IfOk, IsErrOf};
ghost use Rattle.std.specs.Prelude.{option_map, string_bytes};
ghost use Rattle.tpm_wire.specs.Sources.{IsWhereItFailed};
ghost use Rattle.tpm_events.specs.ListEvents.{most_read};
ghost use Rattle.tpm_output.specs.declared.fault.ToolFault.TheVariants.{InputTooLong, Read};
ghost use Rattle.tpm_output.specs.InputLines.{CountsRead};
ghost use Rattle.tpm_output.specs.Reads.{ReadsNoMore, ReadsUpTo};
ghost use Rattle.tpm_lists.specs.LookingUp.{IsLookedUp};
ghost use Rattle.tpm_lists.specs.declared.allow_file.AllowFile.TheVariants.{Digests};
ghost use Rattle.tpm_check.specs.AllowedBoot.{ChecksBeside, boot_if, on_boot, on_digests, on_list, on_quoted};
ghost use Rattle.tpm_check.specs.AllowedBoot.{on_selected};
ghost use Rattle.tpm_check.specs.inner.AllowedBoot.{vouched_log};
ghost use Rattle.tpm_check.specs.inner.CheckAttest.{Adds};

use crate::allow_told::AllowTold;
use crate::asked::AskedQuote;
use crate::behind::{Behind, answer_beside};
use crate::check_json::{log_fault_answer, push_fault};
use crate::quoted_boot::quoted_banks;
use crate::register_text::push_not_a_register;
use crate::told_secure_boot::AskedLog;
use std::alloc::{AllocError, Global};
use tpm_events::listed_events::MOST_READ;
use tpm_lists::{AllowFile, AllowIndex, AllowedDigests, LookedUp, look_up, unknown_in};
use tpm_log::Log;
use tpm_options::CheckOptions;
use tpm_output::answer::Answer;
use tpm_output::fault::ToolFault;
use tpm_output::reads::read_up_to;
use tpm_output::status::Status;
use tpm_types::Selections;
use tpm_wire::Source;

// A log beside which a quote is the one asked for, what the quote selects, and what is asked for.
#[derive(Clone, Copy)]
struct VouchedLog<'a, 'b, 'c> {
    options: &'c CheckOptions<'a>,
    quoted: &'c Selections,
    log: &'c Log<'b>,
}

impl<'a, 'b, 'c> VouchedLog<'a, 'b, 'c> {
    // Adds what is said of it beside these digests.
    fn push_digests(
        &self,
        alloc: Global,
        text: &mut String,
        digests: &AllowedDigests,
    ) -> Result<Status, AllocError>
        ensures { IfOk result (λ status. Adds (on_digests (vouched_log self.now) digests.now)
            status (string_bytes text.old) (string_bytes text.new)) }
    {
        let list = AllowIndex::new(alloc, digests)?;
        let found = unknown_in(alloc, &list, self.log)?;
        let told = AllowTold {
            list: &list,
            found: found.as_slice(),
            form: self.options.form,
        };
        told.push(text, self.quoted)
    }

    // Adds what is said of it beside a list.
    fn push_list(
        &self,
        alloc: Global,
        text: &mut String,
        list: &AllowFile,
    ) -> Result<Status, AllocError>
        ensures { IfOk result (λ status. Adds (on_list (vouched_log self.now) list.now)
            status (string_bytes text.old) (string_bytes text.new)) }
    {
        let form = self.options.form;
        match list {
            AllowFile::Digests(digests) => self.push_digests(alloc, text, digests),
            AllowFile::Wrong(number) => {
                push_not_a_register(text, form, *number)?;
                Ok(Status::Refused)
            }
            AllowFile::TooLong => {
                push_fault(text, form, "list too long")?;
                Ok(Status::Refused)
            }
        }
    }

    // Adds whether Secure Boot was on, where that is asked for, in the banks whose register 7 is selected.
    fn push_boot(&self, alloc: Global, text: &mut String, asked: bool) -> Result<Status, AllocError>
        ensures { IfOk result (λ status. Adds (boot_if asked (on_boot (vouched_log self.now)))
            status (string_bytes text.old) (string_bytes text.new)) }
    {
        if !asked {
            return Ok(Status::Done);
        }
        let banks = quoted_banks(self.quoted.as_slice());
        let VouchedLog { options, log, .. } = *self;
        AskedLog { options, log }.push(alloc, text, banks.as_slice())
    }

    // Adds what is said of it, beside a list where there is one.
    fn push(
        &self,
        alloc: Global,
        text: &mut String,
        allow: Option<&AllowFile>,
    ) -> Result<Status, AllocError>
        ensures { IfOk result (λ status. Adds
            (on_selected (option_map (λ a. a.now) allow.entry) (vouched_log self.now))
            status (string_bytes text.old) (string_bytes text.new)) }
    {
        let Some(allow) = allow else {
            return self.push_boot(alloc, text, true);
        };
        let boot = self.push_boot(alloc, text, self.options.secure_boot)?;
        let list = self.push_list(alloc, text, allow)?;
        Ok(boot.both(list))
    }
}

// A log, with a list where there is one.
#[derive(Clone, Copy)]
struct LogBeside<'a, 'b, 'c> {
    alloc: Global,
    options: &'c CheckOptions<'a>,
    log: &'c Log<'b>,
    allow: Option<&'c AllowFile>,
}

impl<'a, 'b, 'c> Behind for LogBeside<'a, 'b, 'c> {
    ghost says = { λ b. on_quoted b.options.now (option_map (λ a. a.now) b.allow) b.log.now };

    fn push(&self, text: &mut String, quoted: &Selections) -> Result<Status, AllocError> {
        let vouched = VouchedLog {
            options: self.options,
            quoted,
            log: self.log,
        };
        vouched.push(self.alloc, text, self.allow)
    }
}

/// What is printed of the log that these bytes are, beside a quote and a list of allowed digests where there is one.
pub(crate) fn answer_to_log(
    alloc: Global,
    quote: AskedQuote<'_, '_>,
    allow: Option<&AllowFile>,
    bytes: &[u8],
) -> Result<Answer, AllocError>
    ensures { IfOk result (λ a. ChecksBeside quote.entry.options.now
        (record { attest = quote.entry.attest.now; allow = option_map (λ a. a.now) allow.entry })
        bytes.now a.status (string_bytes a.text)) }
{
    let options = quote.options;
    match Log::replayed(bytes) {
        Ok((log, registers)) => {
            let log = &log;
            let behind = LogBeside {
                alloc,
                options,
                log,
                allow,
            };
            answer_beside(alloc, quote, &registers, &behind)
        }
        Err(fault) => log_fault_answer(alloc, options.form, &fault),
    }
}

// What is printed of a log that was looked up in these digests, or its fault.
fn answer_to_found(
    alloc: Global,
    quote: AskedQuote<'_, '_>,
    list: &AllowIndex<'_>,
    found: &LookedUp,
) -> Result<Answer, AllocError>
    requires { quote.options.now.secure_boot ≡ false }
    ensures { IfOk result (λ a. (bytes : List ℕ)
        → IsLookedUp list.now found.now bytes
        → ChecksBeside quote.entry.options.now
        (record { attest = quote.entry.attest.now; allow = Some (Digests list.now) })
        bytes a.status (string_bytes a.text)) }
{
    let form = quote.options.form;
    match found.registers() {
        Ok(registers) => {
            let found = found.found.as_slice();
            answer_beside(alloc, quote, registers, &AllowTold { list, found, form })
        }
        Err(fault) => log_fault_answer(alloc, form, &fault),
    }
}

/// The same of the log that a source gives, which isn't held, unless the list has a fault.
pub(crate) fn answer_to_source<L: Source>(
    alloc: Global,
    log: &mut L,
    quote: AskedQuote<'_, '_>,
    allow: &AllowFile,
) -> Result<Answer, ToolFault>
    requires { quote.options.now.secure_boot ≡ false }
    ensures failures { CountsRead (L.failed log.old) (L.failed log.new) result }
    ensures stop { IsErrOf result Read → IsWhereItFailed (L.stopped log.new) }
    ensures most { ReadsNoMore most_read (L.coming log.old) (L.coming log.new) }
    ensures ok { IfOk result (λ a. (bytes : List ℕ)
        × ReadsUpTo most_read (L.coming log.old) (L.coming log.new) bytes
        × ChecksBeside quote.entry.options.now
        (record { attest = quote.entry.attest.now; allow = Some allow.now })
        bytes a.status (string_bytes a.text)) }
    ensures short { IsErrOf result InputTooLong → ⊥ }
{
    match allow {
        AllowFile::Digests(digests) => {
            let list = AllowIndex::new(alloc, digests)?;
            let found = look_up(alloc, log, MOST_READ, &list)?;
            Ok(answer_to_found(alloc, quote, &list, &found)?)
        }
        AllowFile::Wrong(_) | AllowFile::TooLong => {
            let bytes = read_up_to(alloc, log, MOST_READ)?;
            Ok(answer_to_log(alloc, quote, Some(allow), bytes.as_slice())?)
        }
    }
}
