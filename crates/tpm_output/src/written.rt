//! Texts that are written, and writes that fail.

ghost use Rattle.std.specs.Prelude.{IfSome, OnOk};
ghost use Rattle.std.specs.Io.KnownBytes.{Appends};
ghost use Rattle.std.specs.Fmt.{with_newline};

use std::fmt::Display;
use std::io::Write;

/// A write failed. Only `put` and `put_line` make one: whoever has it has met a writer that failed.
#[derive(Debug, PartialEq, Eq, Drop)]
pub struct WriteFailed(());

/// Writes a text. Where the writer fails, what was written before is left open. No memory is asked for.
pub fn put<W: Write>(out: &mut W, text: &str) -> Result<(), WriteFailed>
    ensures { OnOk result (Appends (W.contents out.old) (W.contents out.new) text.now) }
{
    match out.write_all(text.as_bytes()) {
        Ok(()) => Ok(()),
        Err(_) => Err(WriteFailed(())),
    }
}

/// Writes what is displayed, and a line feed. Where the writer fails, what was written before is left open.
pub fn put_line<W: Write, D: Display + Drop>(out: &mut W, text: D) -> Result<(), WriteFailed>
    ensures { OnOk result (IfSome (with_newline (D.output text))
        (Appends (W.contents out.old) (W.contents out.new))) }
{
    match out.writeln(text) {
        Ok(()) => Ok(()),
        Err(_) => Err(WriteFailed(())),
    }
}
