//! Calls that read in pieces, reads and writes that fail, and want of memory.

use crate::tests::output_calls::CALLS;
use crate::tests::output_cases::Case;
use crate::tests::output_runs::run;
use std::alloc::Global;
use std::io;
use std::io::{ErrorKind, Write};
use std::process::Abort;
use std::test::*;
use tpm_output::fault::ToolFault;
use tpm_output::status::Status;
use tpm_testing::Pieces;
use tpm_wire::Source;

type Answered = (Result<Status, ToolFault>, Vec<u8>);

fn answered(alloc: Global, case: &Case<'_>, input: &mut Pieces<'_>) -> Answered {
    let mut out = Vec::new(alloc);
    (run(alloc, case.call, input, &mut out), out)
}

// How many bytes a read gives at most.
const PIECES: [usize; 10] = [1, 4096, 2, 3, 5, 7, 25, 48, 64, 215];

// It holds of this call.
fn holds(rt: &impl Abort, case: &Case<'_>, is_so: bool) {
    assert!(rt; is_so, "{}", case.call);
}

// The call is answered alike, in whatever pieces it is read.
fn is_alike(rt: &(impl AllocGlobal + Abort), case: &Case<'_>) {
    let count = if case.is_long() { 2 } else { PIECES.len() };
    for most in &PIECES[..count] {
        let (answer, out) = answered(rt.alloc(), case, &mut case.input(*most));
        holds(rt, case, case.is_answer(&answer));
        holds(rt, case, out.as_slice() == case.text.as_slice());
    }
}

#[test]
fn a_call_is_answered_alike_in_any_pieces(rt: HostRuntime) {
    for lines in CALLS.split('%') {
        is_alike(&rt, &Case::of(&rt, lines));
    }
}

// Whichever read fails, that is answered and not tried again, and what was written is the text up to its last line that
// is told by then.
fn reads_fail(rt: &(impl AllocGlobal + Abort), case: &Case<'_>) {
    if case.reads == 0 {
        return;
    }
    let mut input = case.input(1);
    let _ = answered(rt.alloc(), case, &mut input);
    holds(rt, case, input.reads == case.reads);
    if !case.is_long() {
        for done in 0..case.reads {
            read_fails(rt, case, done);
        }
    }
}

fn read_fails(rt: &(impl AllocGlobal + Abort), case: &Case<'_>, done: usize) {
    let mut input = case.input(1);
    input.fails_at = done.saturating_add(1);
    let (answer, out) = answered(rt.alloc(), case, &mut input);
    let out = out.as_slice();
    holds(rt, case, answer == Err(ToolFault::Read));
    holds(
        rt,
        case,
        input.reads == input.fails_at && input.failures() == 1,
    );
    holds(rt, case, case.text.as_slice().starts_with(out));
    holds(rt, case, out.is_empty() || out.ends_with(b"\n"));
    holds(rt, case, lines_in(out) == case.lines_told(done));
}

fn lines_in(text: &[u8]) -> usize {
    let mut lines = 0usize;
    for byte in text {
        if *byte == b'\n' {
            lines = lines.saturating_add(1);
        }
    }
    lines
}

#[test]
fn each_read_that_fails_is_answered(rt: HostRuntime) {
    for lines in CALLS.split('%') {
        reads_fail(&rt, &Case::of(&rt, lines));
    }
}

// A writer that takes a byte at a time, as long as it is the next of a text, and so many of them. It asks for no
// memory.
#[derive(Drop)]
struct Expecting<'a> {
    rest: &'a [u8],
    writes: usize,
}

impl Write for Expecting<'_> {
    fn write(&mut self, buf: &[u8]) -> io::Result<usize> {
        let (Some(byte), Some((next, rest))) = (buf.first(), self.rest.split_first()) else {
            return Err(io::Error::from(ErrorKind::InvalidInput));
        };
        if self.writes == 0 || byte != next {
            return Err(io::Error::from(ErrorKind::Other));
        }
        self.writes -= 1;
        self.rest = rest;
        Ok(1)
    }

    fn flush(&mut self) -> io::Result<()> {
        Ok(())
    }
}

// Each write that fails is answered.
fn writes_fail(rt: &(impl AllocGlobal + Abort), case: &Case<'_>) {
    let rest = case.text.as_slice();
    let count = if case.is_long() { 0 } else { rest.len() };
    for writes in 0..count {
        let mut out = Expecting { rest, writes };
        let answer = run(rt.alloc(), case.call, &mut case.input(4096), &mut out);
        holds(rt, case, matches!(answer, Err(ToolFault::Write(_))));
    }
}

#[test]
fn each_write_that_fails_is_answered(rt: HostRuntime) {
    for lines in CALLS.split('%') {
        writes_fail(&rt, &Case::of(&rt, lines));
    }
}

// Run with a request for memory that is refused, this shows that such a one is answered, and never another text.
fn is_whole(rt: &(impl AllocGlobal + Abort), case: &Case<'_>) {
    let mut out = Expecting {
        rest: case.text.as_slice(),
        writes: case.text.len(),
    };
    let answer = run(rt.alloc(), case.call, &mut case.input(4096), &mut out);
    let is_printed = case.is_answer(&answer) && out.rest.is_empty();
    holds(rt, case, is_printed || answer == Err(ToolFault::Memory));
}

#[test]
fn all_is_printed_or_memory_is_wanting(rt: HostRuntime) {
    for lines in CALLS.split('%') {
        is_whole(&rt, &Case::of(&rt, lines));
    }
}
