//! The subcommand `run`.

ghost use Rattle.std.specs.Prelude.{◌≡◌, ◌+◌, ◌^◌, ◌<◌, ◌≤◌, ◌++◌, ℕ, List, [], ◌∷◌, None, IfOk, OnOk, IsErrOf};
ghost use Rattle.std.specs.Prelude.{string_bytes};
ghost use Rattle.std.specs.Io.KnownBytes.{Appends, Consumes};
ghost use Rattle.tpm_model.specs.Steps.{History, Origin};
ghost use Rattle.tpm_model.specs.Runs.{Given, Cycled};
ghost use Rattle.tpm_device.specs.Stands.{Stands};
ghost use Rattle.tpm_wire.specs.Sources.{IsWhereItFailed};
ghost use Rattle.tpm_output.specs.declared.fault.ToolFault.TheVariants.{InputTooLong, Read};
ghost use Rattle.tpm_output.specs.InputLines.{AddedTo, CountsRead};
ghost use Rattle.tpm_output.specs.LineSinks.{OnTrue, some_if};
ghost use Rattle.tpm_script.specs.Script.{AreAnswered, nonce_of, refused_line, script, script_text, status_for};
ghost use Rattle.tpm_script.specs.Script.{ReadsNoFurther, ReadsScript, ReadsTooMuch};
ghost use Rattle.tpm_script.specs.inner.Progress.{GoesThrough, Runs};

use crate::lines::{MOST_DIGITS, ScriptLine, nonce, read_line};
use std::alloc::{AllocError, Global};
use std::io::Write;
use tpm_device::Device;
use tpm_output::fault::ToolFault;
use tpm_output::input_lines::{LineSink, take_lines};
use tpm_output::status::Status;
use tpm_output::text::{Pushed, push_bytes};
use tpm_wire::Source;

/// How many bytes a script has at most.
const MOST_BYTES: usize = 16_777_216;

// A script that is being run: its device, and the number of the next command.
#[derive(Drop)]
struct Run {
    device: Device,
    command: u64,
}

// Executes the k-th command, and adds the line of its response.
fn push_response(text: &mut String, device: &mut Device, k: u64, bytes: &[u8]) -> Pushed
    ensures { OnOk result ((added : List ℕ)
        × AddedTo (string_bytes text.old) (string_bytes text.new) added
        × GoesThrough (record { stimuli = Given bytes.now (nonce_of k) ∷ []; refused = None })
        device.old device.new added) }
{
    let response = device.execute(bytes, &nonce(k));
    push_bytes(text, response.as_slice())?;
    Ok(())
}

// Cycles the power, and adds the line of it.
#[tactic(auto, unfolding(crate::specs::inner::Progress::StandsAt))]
fn push_power(text: &mut String, device: &mut Device) -> Pushed
    ensures { OnOk result ((added : List ℕ)
        × AddedTo (string_bytes text.old) (string_bytes text.new) added
        × GoesThrough (record { stimuli = Cycled ∷ []; refused = None })
        device.old device.new added) }
{
    device.power_cycle();
    text.push_str("power\n")?;
    Ok(())
}

#[tactic(auto, unfolding(crate::specs::Script::refused_line))]
fn push_refused(text: &mut String, number: u64) -> Pushed
    ensures { OnOk result (string_bytes text.new ≡ string_bytes text.old ++ refused_line number) }
{
    writeln!(text, "line {number}: not hexadecimal")
}

impl Run {
    // Runs the line of this number, and answers whether it is accepted.
    fn perform(
        &mut self,
        alloc: Global,
        number: u64,
        line: &[u8],
        text: &mut String,
    ) -> Result<bool, AllocError>
        requires at { self.old.command ≤ number }
        requires number { number + 1 < 2 ^ 64 }
        ensures { IfOk result (λ goes_on. (added : List ℕ)
            × AddedTo (string_bytes text.old) (string_bytes text.new) added
            × Runs (record {
              number = number;
              old = self.old;
              line = line.now;
              new = some_if goes_on self.new;
              text = added;
            })
            × OnTrue goes_on (self.new.command ≤ number + 1)) }
    {
        match read_line(alloc, line)? {
            ScriptLine::Blank => {}
            ScriptLine::Power => push_power(text, &mut self.device)?,
            ScriptLine::Command(bytes) => {
                let command = self.command;
                push_response(text, &mut self.device, command, bytes.as_slice())?;
                self.command += 1;
            }
            ScriptLine::NotHexadecimal => {
                push_refused(text, number)?;
                return Ok(false);
            }
        }
        Ok(true)
    }
}

impl LineSink for Run {
    ghost use Rattle.tpm_script.specs.inner.Progress.{Runs, digits};

    ghost limits = { digits };

    ghost takes = { Runs };

    ghost is_at = { λ number run. run.command ≤ number };

    fn counts(_byte: u8) -> bool {
        true
    }

    fn most_line() -> usize {
        MOST_DIGITS
    }

    fn long_ends() -> bool {
        true
    }

    fn line(
        &mut self,
        alloc: Global,
        number: u64,
        line: &[u8],
        text: &mut String,
    ) -> Result<bool, AllocError> {
        self.perform(alloc, number, line, text)
    }
}

/// Runs a script on the device, and prints what it answers.
///
/// A line of hexadecimal digits, two to a byte and in either case, is a command, and its response is
/// printed likewise. `power` cycles the device's power and is printed itself. The empty line is
/// skipped, and so is one that begins with `#`. The nonce of the k-th command, from 1, is the number k
/// in sixteen bytes, most significant first, four times. Any other line, and one of more than 8,192
/// bytes, a comment among them, ends the script: `line N: not hexadecimal` is printed, where N counts
/// every line from 1, and the status is `Refused`; a command that the device refuses is no reason for
/// that. A line ends with a line feed alone, and the last may do without.
///
/// What a read gave is answered before the next read, and no more than one line and one piece is held.
/// So whatever is answered, what was read behind the end of a refused line came in one read of at most
/// 4,096 bytes with it.
///
/// Where a request for memory is refused the answer is `Memory`, where a read fails `Read`, where the
/// writer fails `Write`, and where more than 16,777,216 bytes come before the script has ended
/// `InputTooLong`. What was written before is then left open, and a failed read isn't tried again.
pub fn run_script<R: Source, W: Write>(
    alloc: Global,
    input: &mut R,
    out: &mut W,
    device: Device,
) -> Result<Status, ToolFault>
    ensures failures { CountsRead (R.failed input.old) (R.failed input.new) result }
    ensures stop { IsErrOf result Read → IsWhereItFailed (R.stopped input.new) }
    ensures further { (IsErrOf result InputTooLong → ⊥)
        → ReadsNoFurther (R.coming input.old) (R.coming input.new) }
    ensures answered { IsErrOf result Read → (lines line : List ℕ)
        × Consumes (R.coming input.old) (R.coming input.new) (lines ++ line)
        × AreAnswered lines line
        × ((o : Origin) (h : History) → Stands o h device →
        Appends (W.contents out.old) (W.contents out.new) (script_text o h (script lines))) }
    ensures ok { IfOk result (λ status. (bytes : List ℕ)
        × ReadsScript (R.coming input.old) (R.coming input.new) bytes
        × (status ≡ status_for (script bytes).refused)
        × ((o : Origin) (h : History) → Stands o h device →
        Appends (W.contents out.old) (W.contents out.new) (script_text o h (script bytes)))) }
    ensures too_long { IsErrOf result InputTooLong
        → ReadsTooMuch (R.coming input.old) (R.coming input.new) }
{
    let run = Run { device, command: 1 };
    match take_lines(alloc, input, out, run, MOST_BYTES)? {
        Some(_) => Ok(Status::Done),
        None => Ok(Status::Refused),
    }
}
