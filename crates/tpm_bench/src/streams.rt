//! Frames of a stream.

ghost use Rattle.std.specs.Prelude.{◌≡◌, ◌≤◌, ◌+◌, ◌++◌, ℕ, List, [], true, Some, None, IsOk, IfErr, length, take};
ghost use Rattle.std.specs.List.{concat};
ghost use Rattle.std.specs.Io.KnownBytes.{ReadConsumes};
ghost use Rattle.std.specs.Io.{ReadsAtMost};
ghost use Rattle.tpm_wire.specs.Sources.{CountsEnds, CountsFailures, IsWhereItFailed};
ghost use Rattle.tpm_stream.specs.Frames.{IsFrame, Frames};

use crate::out::append;
use tpm_stream::{Framer, FramerState, read_frame, read_frame_into};
use tpm_wire::{Buffer, ReadFailed, Source};

/// Writes the frames of the stream one after the other, and answers how many bytes they have. The
/// stream comes to a framer in pieces of at most so many bytes, and of at least one.
#[unsafe(no_mangle)]
pub extern "C" fn tpm_bench_push_frames(stream: &[u8], most: usize, out: &mut [u8]) -> usize
    requires { length stream.now ≤ length out.old }
    ensures { (frames : List (List ℕ)) × (rest : List ℕ) × Frames stream.now frames rest
        × (result ≡ length (concat frames))
        × (take result out.new ≡ concat frames) }
{
    let most = most.max(1);
    let mut framer = Framer::new();
    let mut rest = stream;
    let mut written = 0;
    while rest.len() > 0 {
        let (piece, _) = rest.split_at(most.min(rest.len()));
        let (taken, status) = framer.push(piece);
        let (_, left) = rest.split_at(taken);
        rest = left;
        match status {
            FramerState::More => {}
            FramerState::Ready => written = take_frame(&mut framer, out, written),
            FramerState::Broken(_) => return written,
        }
    }
    written
}

// Writes the frame that the framer holds behind the first bytes, drops it, and says how many bytes there are then.
fn take_frame(framer: &mut Framer, out: &mut [u8], written: usize) -> usize
    requires frame { IsFrame framer.old }
    requires room { written + length framer.old ≤ length out.old }
    ensures count { result ≡ written + length framer.old }
    ensures bytes { take (written + length framer.old) out.new
        ≡ take written out.old ++ framer.old }
    ensures room { length out.new ≡ length out.old }
    ensures next { framer.new ≡ [] }
{
    let written = match framer.frame() {
        Some(frame) => append(out, written, frame),
        None => unreachable!(),
    };
    framer.next();
    written
}

// The bytes of a slice, at most so many at a time, and at least one.
#[derive(Drop)]
struct Pieces<'a> {
    rest: &'a [u8],
    most: usize,
}

impl Source for Pieces<'_> {
    ghost coming = { λ s. Some s.rest.now };

    ghost failed = { λ _. 0 };

    fn read(&mut self, room: &mut [u8]) -> Result<usize, ReadFailed>
        ensures bound { ReadsAtMost result room.new }
        ensures bytes { ReadConsumes
            (Some self.old.rest.now) (Some self.new.rest.now) result room.new }
        ensures count { CountsFailures 0 0 result }
        ensures stop { IfErr result (λ _. IsWhereItFailed true) }
        ensures ends { CountsEnds None None (length room.new) result }
        ensures never_fails { IsOk result }
    {
        let n = self.most.max(1).min(self.rest.len()).min(room.len());
        let (front, rest) = self.rest.split_at(n);
        room[..n].copy_from_slice(front);
        self.rest = rest;
        Ok(n)
    }

    fn failures(&self) -> u64 {
        0
    }
}

/// The same of a reader that gives the stream in pieces of at most so many bytes, and of at least one.
#[unsafe(no_mangle)]
pub extern "C" fn tpm_bench_read_frames(stream: &[u8], most: usize, out: &mut [u8]) -> usize
    requires { length stream.now ≤ length out.old }
    ensures { (frames : List (List ℕ)) × (rest : List ℕ) × Frames stream.now frames rest
        × (result ≡ length (concat frames))
        × (take result out.new ≡ concat frames) }
{
    let mut source = Pieces { rest: stream, most };
    let mut written = 0;
    while let Ok(Some(frame)) = read_frame(&mut source) {
        written = append(out, written, frame.as_slice());
    }
    written
}

/// The same with one buffer, which each frame is read into.
#[unsafe(no_mangle)]
pub extern "C" fn tpm_bench_read_frames_into(stream: &[u8], most: usize, out: &mut [u8]) -> usize
    requires { length stream.now ≤ length out.old }
    ensures { (frames : List (List ℕ)) × (rest : List ℕ) × Frames stream.now frames rest
        × (result ≡ length (concat frames))
        × (take result out.new ≡ concat frames) }
{
    let mut source = Pieces { rest: stream, most };
    let mut frame = Buffer::new();
    let mut written = 0;
    while let Ok(true) = read_frame_into(&mut source, &mut frame) {
        written = append(out, written, frame.as_slice());
    }
    written
}
