//! A run of the program, from its words to its status.

ghost use Rattle.std.specs.Prelude.{◌≡◌, OnOk, map, string_bytes};
ghost use Rattle.std.specs.Io.KnownBytes.{Appends};
ghost use Rattle.tpm_args.specs.declared.stop.Stop.TheVariants.{Help};
ghost use Rattle.tpm_output.specs.Status.{status_number};
ghost use Rattle.tpm_program.specs.Ends.{Ends, EndsBy, EndsFor, EndsUnread, IsRemarked, fault_line};

use crate::ended::Ended;
use crate::fault::Fault;
use crate::inputs::Inputs;
use crate::performed::{Answered, perform};
use std::alloc::Global;
use std::io::{ErrorKind, Write};
use tpm_args::{Stop, Task, Words, words_not_text};
use tpm_output::fault::ToolFault;
use tpm_output::written::{WriteFailed, put, put_line};

/// The status of words at fault.
const USAGE: u8 = 2;

/// The status of a reading or writing fault, of want of memory and of input too long.
const FAULT: u8 = 3;

// Tells a fault.
fn tells<E: Write>(errors: &mut E, fault: Fault<'_>) -> Result<(), WriteFailed>
    ensures { OnOk result
        (Appends (E.contents errors.old) (E.contents errors.new) (fault_line fault.entry)) }
{
    put_line(errors, fault)
}

fn failed<E: Write>(errors: &mut E, fault: Fault<'_>) -> Ended
    ensures status { result.status ≡ 3 }
    ensures written { OnOk result.written
        (Appends (E.contents errors.old) (E.contents errors.new) (fault_line fault.entry)) }
{
    Ended {
        status: FAULT,
        written: tells(errors, fault),
    }
}

fn helped<W: Write, E: Write>(out: &mut W, errors: &mut E, text: &String) -> Ended
    ensures { EndsBy (Help text.now) (record {
      out = W.contents out.old;
      out-behind = W.contents out.new;
      errors = E.contents errors.old;
      errors-behind = E.contents errors.new;
    }) result }
{
    match put(out, text.as_str()) {
        Ok(()) => Ended {
            status: 0,
            written: Ok(()),
        },
        Err(unwritten) => failed(errors, Fault::Tool(ToolFault::Write(unwritten))),
    }
}

// Ends where the words ask for nothing to be done.
fn stopped<W: Write, E: Write>(out: &mut W, errors: &mut E, stop: &Stop) -> Ended
    ensures { EndsBy stop.now (record {
      out = W.contents out.old;
      out-behind = W.contents out.new;
      errors = E.contents errors.old;
      errors-behind = E.contents errors.new;
    }) result }
{
    match stop {
        Stop::Help(text) => helped(out, errors, text),
        Stop::Usage(text) => Ended {
            status: USAGE,
            written: put(errors, text.as_str()),
        },
        Stop::Memory => failed(errors, Fault::Tool(ToolFault::Memory)),
    }
}

// Tells a remark, where there is one.
fn remarks<E: Write>(errors: &mut E, remark: &String) -> Result<(), WriteFailed>
    ensures { IsRemarked (string_bytes remark.now) result (E.contents errors.old) (E.contents errors.new) }
{
    if remark.is_empty() {
        return Ok(());
    }
    put(errors, remark.as_str())
}

// Ends with a task's answer.
fn ends_with<E: Write>(errors: &mut E, answered: &Answered) -> Ended
    ensures status { result.status ≡ status_number answered.now.status }
    ensures remark { IsRemarked (string_bytes answered.now.remark) result.written
        (E.contents errors.old) (E.contents errors.new) }
{
    Ended {
        status: answered.status.number(),
        written: remarks(errors, &answered.remark),
    }
}

// Performs a task, and ends.
fn performed_for<I: Inputs, W: Write, E: Write>(
    alloc: Global,
    inputs: &I,
    out: &mut W,
    errors: &mut E,
    task: Task<'_>,
) -> Ended
    ensures { EndsFor (I.offers inputs.now) task.entry (record {
      out = W.contents out.old;
      out-behind = W.contents out.new;
      errors = E.contents errors.old;
      errors-behind = E.contents errors.new;
    }) result }
{
    match perform(alloc, inputs, out, task) {
        Ok(answered) => ends_with(errors, &answered),
        Err(fault) => failed(errors, fault),
    }
}

/// Runs the program on its words, of which the first is its name.
///
/// What the words ask for (`Words::task`) is performed, as `perform` says: what it prints is written to `out`, and the
/// status is 0, or 1 where something was refused or differs. What `build` refuses is told on `errors`, and so is what
/// keeps it from its answer, in a line, where the status is 3. Where help is asked for the text goes to `out`, and the
/// status is 0; where the words are at fault it goes to `errors`, and the status is 2.
pub fn run<I: Inputs, W: Write, E: Write>(
    alloc: Global,
    words: Vec<String>,
    inputs: &I,
    out: &mut W,
    errors: &mut E,
) -> Ended
    ensures { Ends (I.offers inputs.now) (map string_bytes words.items) (record {
      out = W.contents out.old;
      out-behind = W.contents out.new;
      errors = E.contents errors.old;
      errors-behind = E.contents errors.new;
    }) result }
{
    let words = match Words::new(alloc, words) {
        Ok(words) => words,
        Err(_) => return stopped(out, errors, &Stop::Memory),
    };
    match words.task(alloc) {
        Ok(task) => performed_for(alloc, inputs, out, errors, task),
        Err(stop) => stopped(out, errors, &stop),
    }
}

/// Ends where the words can't be read, by this kind of error: memory is wanted, or they are not text.
pub fn run_without_words<W: Write, E: Write>(
    alloc: Global,
    kind: ErrorKind,
    out: &mut W,
    errors: &mut E,
) -> Ended
    ensures { EndsUnread kind (record {
      out = W.contents out.old;
      out-behind = W.contents out.new;
      errors = E.contents errors.old;
      errors-behind = E.contents errors.new;
    }) result }
{
    let stop = match kind {
        ErrorKind::OutOfMemory => Stop::Memory,
        _ => words_not_text(alloc),
    };
    stopped(out, errors, &stop)
}
