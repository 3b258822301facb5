//! A list of registers in the subcommand `check`.

ghost use Rattle.std.specs.Prelude.{◌≡◌, ℕ, List, Option, IfOk, OnOk, IsErrOf};
ghost use Rattle.std.specs.Prelude.{is_some, option_map, string_bytes};
ghost use Rattle.std.specs.Io.KnownBytes.{Appends};
ghost use Rattle.tpm_wire.specs.Sources.{IsWhereItFailed};
ghost use Rattle.tpm_output.specs.declared.fault.ToolFault.TheVariants.{InputTooLong, Read};
ghost use Rattle.tpm_output.specs.Faults.{FailsByMemoryOrWrite};
ghost use Rattle.tpm_output.specs.InputLines.{AddedTo, CountsRead};
ghost use Rattle.tpm_output.specs.LineSinks.{some_if};
ghost use Rattle.tpm_output.specs.Status.{both};
ghost use Rattle.tpm_lists.specs.ListLines.{line_under, stated_as};
ghost use Rattle.tpm_check.specs.Check.{ReadsIfList, ReadsTooMuchIfList, failures_of, has_stopped};
ghost use Rattle.tpm_check.specs.Compare.{compared, comparison, no_register_text, status_if};
ghost use Rattle.tpm_check.specs.Compare.{ReadsList, ReadsTooMuchList};
ghost use Rattle.tpm_check.specs.inner.Comparing.{finished, line_behind, line_text, stated_behind, stated_text};
ghost use Rattle.tpm_check.specs.inner.Told.{told};

use crate::beside::Beside;
use crate::check_json::status_if;
use crate::register_text::{push_compared, push_no_register, push_not_a_register};
use std::alloc::{AllocError, Global};
use std::io::Write;
use tpm_lists::{Heading, ListLine, MOST_LINE, Stated, read_line};
use tpm_output::answer::write;
use tpm_output::fault::ToolFault;
use tpm_output::input_lines::{LineSink, take_lines};
use tpm_output::status::Status;
use tpm_output::text::Pushed;
use tpm_wire::Source;

/// How many bytes a list has at most.
pub(crate) const MOST_BYTES: usize = 16_777_216;

// A list of registers that is being compared: with which registers, the heading above the next line, and of the lines
// before it whether all match and whether any states a register.
#[derive(Drop)]
struct Comparing<'a> {
    found: &'a Beside<'a>,
    heading: Heading,
    status: Status,
    any: bool,
}

impl Comparing<'_> {
    // Compares the register that a line states.
    fn compare_stated(&mut self, stated: &Stated, text: &mut String) -> Pushed
        ensures { OnOk result ((self.new ≡ stated_behind self.old (stated_as stated.now))
            × AddedTo (string_bytes text.old) (string_bytes text.new)
            (stated_text (told self.old.found.now) (stated_as stated.now))) }
    {
        let found = self.found;
        let value = found.registers.read(stated.bank, stated.register);
        let same = value.as_slice() == stated.value.as_slice();
        push_compared(
            text,
            found.form,
            same,
            stated.bank,
            stated.register.number(),
        )?;
        self.status = self.status.both(status_if(same));
        self.any = true;
        Ok(())
    }

    // Compares the line of this number, and answers whether it is right.
    fn compare_line(
        &mut self,
        alloc: Global,
        number: u64,
        line: &[u8],
        text: &mut String,
    ) -> Result<bool, AllocError>
        ensures { IfOk result (λ goes_on. (some_if goes_on self.new
            ≡ line_behind self.old (line_under self.old.heading line.now))
            × AddedTo (string_bytes text.old) (string_bytes text.new)
            (line_text (told self.old.found.now) number (line_under self.old.heading line.now))) }
    {
        match read_line(alloc, self.heading, line)? {
            ListLine::Stated(stated) => self.compare_stated(&stated, text)?,
            ListLine::Heading(heading) => self.heading = heading,
            ListLine::Passed => {}
            ListLine::Wrong => {
                push_not_a_register(text, self.found.form, number)?;
                return Ok(false);
            }
        }
        Ok(true)
    }
}

impl LineSink for Comparing<'_> {
    ghost use Rattle.std.specs.Prelude.{◌≡◌, ◌+◌, ◌^◌, ◌<◌, true};
    ghost use Rattle.tpm_check.specs.inner.Comparing.{Compares, list_line};

    ghost limits = { list_line };

    ghost takes = { Compares };

    ghost is_at = { λ _ _. Unit {0} };

    fn counts(_byte: u8) -> bool
        ensures { result ≡ true }
    {
        true
    }

    fn most_line() -> usize
        ensures value { result ≡ list_line.most }
        ensures bound { list_line.most + 1 < 2 ^ 64 }
    {
        MOST_LINE
    }

    fn long_ends() -> bool
        ensures { result ≡ list_line.long_ends }
    {
        true
    }

    fn line(
        &mut self,
        alloc: Global,
        number: u64,
        line: &[u8],
        text: &mut String,
    ) -> Result<bool, AllocError> {
        self.compare_line(alloc, number, line, text)
    }
}

impl Comparing<'_> {
    // The status of a whole list. Where no line of it states a register, that is printed.
    fn end<W: Write>(&self, alloc: Global, out: &mut W) -> Result<Status, ToolFault>
        ensures ok { IfOk result (λ status. (status
            ≡ both self.now.status (status_if self.now.any))
            × Appends (W.contents out.old) (W.contents out.new)
            (no_register_text self.now.found.now.form self.now.any)) }
        ensures err { FailsByMemoryOrWrite result }
    {
        let mut text = String::new(alloc);
        push_no_register(&mut text, self.found.form, self.any)?;
        write(out, &text)?;
        Ok(self.status.both(status_if(self.any)))
    }
}

// Compares the lines of a list with registers, and prints of each that states one whether they match. None is answered
// where a line is wrong, which ends the output.
fn compare_lines<'a, F: Source, W: Write>(
    alloc: Global,
    found: &'a Beside<'a>,
    list: &mut F,
    out: &mut W,
) -> Result<Option<Comparing<'a>>, ToolFault>
    ensures failures { CountsRead (F.failed list.old) (F.failed list.new) result }
    ensures stop { IsErrOf result Read → IsWhereItFailed (F.stopped list.new) }
    ensures ok { IfOk result (λ left. (bytes text : List ℕ)
        × ReadsList (told found.now) (F.coming list.old) (F.coming list.new) bytes
        × (finished left text ≡ comparison (told found.now) bytes)
        × Appends (W.contents out.old) (W.contents out.new) text) }
    ensures too_long { IsErrOf result InputTooLong
        → ReadsTooMuchList (F.coming list.old) (F.coming list.new) }
{
    let comparing = Comparing {
        found,
        heading: Heading::NoBank,
        status: Status::Done,
        any: false,
    };
    take_lines(alloc, list, out, comparing, MOST_BYTES)
}

/// Compares a list of registers, where there is one, with those that were found, and prints of each line that states
/// one whether they match, and behind them whether none does. None is answered where a line is wrong, which ends the
/// output.
pub(crate) fn check_list<F: Source, W: Write>(
    alloc: Global,
    found: &Beside<'_>,
    list: &mut Option<F>,
    out: &mut W,
) -> Result<Option<Status>, ToolFault>
    ensures failures { CountsRead
        (failures_of F.failed list.old) (failures_of F.failed list.new) result }
    ensures stop { IsErrOf result Read → IsWhereItFailed (has_stopped F.stopped list.new) }
    ensures ok { IfOk result (λ status. (bytes : Option (List ℕ))
        × ReadsIfList (told found.now)
        (option_map F.coming list.old) (option_map F.coming list.new) bytes
        × (is_some bytes ≡ is_some list.old)
        × (status ≡ (compared (told found.now) bytes).status)
        × Appends (W.contents out.old) (W.contents out.new)
        (compared (told found.now) bytes).text) }
    ensures too_long { IsErrOf result InputTooLong
        → ReadsTooMuchIfList (option_map F.coming list.old) (option_map F.coming list.new) }
{
    let Some(list) = list else {
        return Ok(Some(Status::Done));
    };
    match compare_lines(alloc, found, list, out)? {
        Some(comparing) => Ok(Some(comparing.end(alloc, out)?)),
        None => Ok(None),
    }
}
