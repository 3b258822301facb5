//! Inputs that are read line by line: pieces, their lines with their numbers, and the end.

ghost use Rattle.std.specs.Prelude.{◌≡◌, ◌+◌, ◌^◌, ◌<◌, ◌≤◌, ℕ, true, List, [], ◌∷◌};
ghost use Rattle.std.specs.Prelude.{false, IfOk, IsErrOf, length, nat_eq, string_bytes};
ghost use Rattle.std.specs.Io.KnownBytes.{Appends, Consumes};
ghost use Rattle.tpm_wire.specs.Sources.{IsWhereItFailed};
ghost use Rattle.tpm_output.specs.declared.fault.ToolFault.TheVariants.{InputTooLong, Read};
ghost use Rattle.tpm_output.specs.Faults.{FailsByMemoryOrWrite};
ghost use Rattle.tpm_output.specs.InputLines.{AddedTo, CountsRead};
ghost use Rattle.tpm_output.specs.inner.InputLines.{room_behind};
ghost use Rattle.tpm_output.specs.LineSinks.{GoesOn, IsWhole, Limits, OnTrue, ReadsLines, ReadsOneMore, LineStep};
ghost use Rattle.tpm_output.specs.LineSinks.{TakesBuffered, some_if};
ghost use Rattle.tpm_output.specs.inner.LineReading.{EndsLine, EndsAll, Feeds};

use crate::answer::write;
use crate::fault::ToolFault;
use std::alloc::{AllocError, Global};
use std::io::Write;
use tpm_wire::Source;

/// How many bytes are asked for at a time.
const PIECE: usize = 4096;

/// What the lines of an input are given to, one after the other.
pub trait LineSink {
    /// Which bytes count in a line, how many it has of them at most, and whether one that has more ends what is
    /// printed.
    ghost limits: { Limits };

    /// What comes of a line.
    ghost takes: { LineStep Self → Type 0 };

    /// It may be given the line of this number.
    ghost is_at: { ℕ → Self → Type 0 };

    /// Whether a byte counts in a line.
    fn counts(byte: u8) -> bool
        ensures { result ≡ limits.counts byte };

    /// How many bytes that count a line has at most.
    fn most_line() -> usize
        ensures value { result ≡ limits.most }
        ensures bound { limits.most + 1 < 2 ^ 64 };

    /// Whether a line that has more ends what is printed, as soon as it does.
    fn long_ends() -> bool
        ensures { result ≡ limits.long_ends };

    /// Takes the line of this number, of which there are the bytes that count, and one too many of them at most. It
    /// adds what is to be printed, and answers whether it goes on.
    fn line(
        &mut self,
        alloc: Global,
        number: u64,
        line: &[u8],
        text: &mut String,
    ) -> Result<bool, AllocError>
        requires at { is_at number self.old }
        requires number { number + 1 < 2 ^ 64 }
        ensures { IfOk result (λ goes_on. (added : List ℕ)
            × AddedTo (string_bytes text.old) (string_bytes text.new) added
            × TakesBuffered limits takes (record {
              number = number;
              old = self.old;
              line = line.now;
              new = some_if goes_on self.new;
              text = added;
            })
            × OnTrue goes_on (is_at (number + 1) self.new)
            × OnTrue goes_on (limits.long_ends ≡ true → length line.now ≤ limits.most)) };
}

// An input of which some lines were taken.
#[derive(Drop)]
struct LineReader<S: LineSink + Drop> {
    sink: S,
    // what is buffered of the present line, whether any byte of it has come, and its number
    line: Vec<u8>,
    begun: bool,
    number: u64,
}

impl<S: LineSink + Drop> LineReader<S> {
    // Gives the present line to the sink, and answers whether it goes on.
    fn end_line(&mut self, alloc: Global, text: &mut String) -> Result<bool, AllocError>
        requires at { S.is_at self.old.number self.old.sink }
        requires number { self.old.number + 1 < 2 ^ 64 }
        ensures { IfOk result (λ goes_on. (added : List ℕ)
            × AddedTo (string_bytes text.old) (string_bytes text.new) added
            × EndsLine S.limits S.takes S.is_at goes_on self.old self.new added) }
    {
        if !self
            .sink
            .line(alloc, self.number, self.line.as_slice(), text)?
        {
            return Ok(false);
        }
        self.line.clear();
        self.begun = false;
        self.number += 1;
        Ok(true)
    }

    // Takes a byte of a line, and answers whether it goes on.
    fn keep(&mut self, alloc: Global, byte: u8, text: &mut String) -> Result<bool, AllocError>
        requires at { S.is_at self.old.number self.old.sink }
        requires number { self.old.number + 1 < 2 ^ 64 }
        requires other { nat_eq byte 10 ≡ false }
        ensures { IfOk result (λ goes_on. (added : List ℕ)
            × AddedTo (string_bytes text.old) (string_bytes text.new) added
            × Feeds S.limits S.takes S.is_at goes_on self.old self.new (byte ∷ []) added) }
    {
        self.begun = true;
        if !S::counts(byte) {
            return Ok(true);
        }
        if self.line.len() > S::most_line() {
            return Ok(true);
        }
        self.line.push(byte)?;
        if S::long_ends() && self.line.len() > S::most_line() {
            self.end_line(alloc, text)?;
            return Ok(false);
        }
        Ok(true)
    }

    // Takes the next byte, and answers whether it goes on.
    fn take(&mut self, alloc: Global, byte: u8, text: &mut String) -> Result<bool, AllocError>
        requires at { S.is_at self.old.number self.old.sink }
        requires number { self.old.number + 1 < 2 ^ 64 }
        ensures { IfOk result (λ goes_on. (added : List ℕ)
            × AddedTo (string_bytes text.old) (string_bytes text.new) added
            × Feeds S.limits S.takes S.is_at goes_on self.old self.new (byte ∷ []) added) }
    {
        if byte == b'\n' {
            return self.end_line(alloc, text);
        }
        self.keep(alloc, byte, text)
    }

    // Takes the next bytes, and answers whether it goes on.
    fn feed(&mut self, alloc: Global, piece: &[u8], text: &mut String) -> Result<bool, AllocError>
        requires at { S.is_at self.old.number self.old.sink }
        requires number { self.old.number + length piece.now < 2 ^ 64 }
        ensures { IfOk result (λ goes_on. (added : List ℕ)
            × AddedTo (string_bytes text.old) (string_bytes text.new) added
            × Feeds S.limits S.takes S.is_at goes_on self.old self.new piece.now added) }
    {
        for byte in piece {
            if !self.take(alloc, *byte, text)? {
                return Ok(false);
            }
        }
        Ok(true)
    }

    // Takes the next bytes, prints what comes of them, and answers whether it goes on.
    fn print<W: Write>(
        &mut self,
        alloc: Global,
        piece: &[u8],
        out: &mut W,
    ) -> Result<bool, ToolFault>
        requires at { S.is_at self.old.number self.old.sink }
        requires number { self.old.number + length piece.now < 2 ^ 64 }
        ensures ok { IfOk result (λ goes_on. (added : List ℕ)
            × Appends (W.contents out.old) (W.contents out.new) added
            × Feeds S.limits S.takes S.is_at goes_on self.old self.new piece.now added) }
        ensures err { FailsByMemoryOrWrite result }
    {
        let mut text = String::new(alloc);
        let goes_on = self.feed(alloc, piece, &mut text)?;
        write(out, &text)?;
        Ok(goes_on)
    }

    // Gives the last line to the sink, where there is one, and answers whether it goes on.
    fn end(&mut self, alloc: Global, text: &mut String) -> Result<bool, AllocError>
        requires at { S.is_at self.old.number self.old.sink }
        requires number { self.old.number + 1 < 2 ^ 64 }
        ensures { IfOk result (λ goes_on. (added : List ℕ)
            × AddedTo (string_bytes text.old) (string_bytes text.new) added
            × EndsAll S.limits S.takes goes_on self.old self.new added) }
    {
        if !self.begun {
            return Ok(true);
        }
        self.end_line(alloc, text)
    }

    // Gives the last line to the sink, prints what comes of it, and answers whether it goes on.
    fn print_end<W: Write>(&mut self, alloc: Global, out: &mut W) -> Result<bool, ToolFault>
        requires at { S.is_at self.old.number self.old.sink }
        requires number { self.old.number + 1 < 2 ^ 64 }
        ensures ok { IfOk result (λ goes_on. (added : List ℕ)
            × Appends (W.contents out.old) (W.contents out.new) added
            × EndsAll S.limits S.takes goes_on self.old self.new added) }
        ensures err { FailsByMemoryOrWrite result }
    {
        let mut text = String::new(alloc);
        let goes_on = self.end(alloc, &mut text)?;
        write(out, &text)?;
        Ok(goes_on)
    }

    // The sink as the lines leave it, or none where it doesn't go on.
    fn left(self, goes_on: bool) -> Option<S>
        ensures { result ≡ some_if goes_on self.sink }
    {
        if goes_on { Some(self.sink) } else { None }
    }
}

// How many bytes are asked for where so many were read. Up to the limit no byte is read together with one behind it.
fn room_behind(most: usize, read: usize) -> usize
    requires { read ≤ most }
    ensures { result ≡ room_behind most read }
{
    (most - read).clamp(1, PIECE)
}

/// Gives the lines of an input to a sink, one after the other, and prints what it adds. It answers the sink as they
/// leave it, or none where one of them ended what is printed.
///
/// A line ends with a line feed, which is no part of it, and the last may do without. What a read gave is printed
/// before the next read: where that fails, what was written is the text of the lines that had ended. No more than one
/// line and one piece of 4,096 bytes is held.
///
/// Where a request for memory is refused the answer is `Memory`, where a read fails `Read`, where the writer fails
/// `Write`, and where more than so many bytes come before the output has ended `InputTooLong`. What was written before
/// is then left open, and a failed read isn't tried again.
pub fn take_lines<R: Source, W: Write, S: LineSink + Drop>(
    alloc: Global,
    input: &mut R,
    out: &mut W,
    sink: S,
    most: usize,
) -> Result<Option<S>, ToolFault>
    requires at { S.is_at 1 sink }
    requires most { most ≤ 2 ^ 62 }
    ensures failures { CountsRead (R.failed input.old) (R.failed input.new) result }
    ensures stop { IsErrOf result Read → IsWhereItFailed (R.stopped input.new) }
    ensures further { (IsErrOf result InputTooLong → ⊥) → (bytes : List ℕ)
        × ReadsLines most (GoesOn S.limits S.takes sink) (record {
          old = R.coming input.old;
          new = R.coming input.new;
          bytes = bytes;
        }) }
    ensures answered { IsErrOf result Read → (bytes : List ℕ)
        × (goes : GoesOn S.limits S.takes sink bytes)
        × Consumes (R.coming input.old) (R.coming input.new) bytes
        × Appends (W.contents out.old) (W.contents out.new) goes.text }
    ensures ok { IfOk result (λ left. (bytes text : List ℕ)
        × ReadsLines most (GoesOn S.limits S.takes sink) (record {
          old = R.coming input.old;
          new = R.coming input.new;
          bytes = bytes;
        })
        × IsWhole S.limits S.takes (R.coming input.new)
        (record { first = sink; bytes = bytes; left = left; text = text })
        × Appends (W.contents out.old) (W.contents out.new) text) }
    ensures too_long { IsErrOf result InputTooLong
        → ReadsOneMore most (GoesOn S.limits S.takes sink) (R.coming input.old)
        (R.coming input.new) }
{
    let mut lines = LineReader {
        sink,
        line: Vec::new(alloc),
        begun: false,
        number: 1,
    };
    let mut piece = [0; PIECE];
    let mut read = 0;
    loop {
        let room = room_behind(most, read);
        let count = input.read(&mut piece[..room])?;
        read += count;
        if read > most {
            return Err(ToolFault::InputTooLong);
        }
        if count == 0 {
            let goes_on = lines.print_end(alloc, out)?;
            return Ok(lines.left(goes_on));
        }
        if !lines.print(alloc, &piece[..count], out)? {
            return Ok(None);
        }
    }
}
