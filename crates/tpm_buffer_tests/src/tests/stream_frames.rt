//! Frames of pieces, and of readers.

use std::process::Abort;
use std::test::*;
use tpm_stream::{Framer, FramerState, ReadFault, read_frame, read_frame_into};
use tpm_testing::{Pieces, bytes, is_spelled, spelled};
use tpm_wire::{Buffer, Reads, Refusal, SliceSource, Source};

/// PCR_Read of register 0 in SHA-256, of 20 bytes.
const READ: &str = "8001 00000014 0000017e 00000001 000b 03 010000";

const BAD_SIZE: Refusal = Refusal { code: 0x142, at: 2 };

// What comes of a framer: a piece, how many of its bytes are taken, and the status; the frame that is held; `next`; and
// `new` for another framer. A frame comes byte by byte; no byte behind it is taken; the size is judged with its last
// byte; the tag is not looked at; part of a frame wants more.
const STEPS: &str = "\
new
80 -> 1 more
01 -> 1 more
00 -> 1 more
00 -> 1 more
00 -> 1 more
14 -> 1 more
00 -> 1 more
00 -> 1 more
01 -> 1 more
7e -> 1 more
00 -> 1 more
00 -> 1 more
00 -> 1 more
01 -> 1 more
00 -> 1 more
0b -> 1 more
03 -> 1 more
01 -> 1 more
00 -> 1 more
frame -> -
00 -> 1 ready
frame -> 8001 00000014 0000017e 00000001 000b 03 010000
new
8001 00000014 0000017e 00000001 000b 03 010000 eeeeee -> 20 ready
eeeeee -> 0 ready
frame -> 8001 00000014 0000017e 00000001 000b 03 010000
next
frame -> -
eeeeee -> 3 more
next
- -> 0 more
000000 -> 3 broken
new
8001 ffffff -> 5 more
8001 00000014 0000017e 00000001 000b 03 010000 -> 1 broken
new
0000 0000000a 00000000 -> 10 ready
next
8003 0000000c 00000144 0000 8001 00000014 0000017e 00000001 000b 03 010000 -> 12 ready
frame -> 8003 0000000c 00000144 0000
next
8001 00000014 0000017e 00000001 000b 03 010000 -> 20 ready
frame -> 8001 00000014 0000017e 00000001 000b 03 010000
new
8001 000000 -> 5 more
frame -> -
new
8001 0000000a 000001 -> 9 more
frame -> -";

// Beginnings with a size outside of the bounds.
const BROKEN: [&str; 4] = [
    "8001 00000009 -> 6 broken",
    "8001 00001001 -> 6 broken",
    "0000 00000000 -> 6 broken",
    "ffff ffffffff -> 6 broken",
];

// What comes of a framer behind each of them.
const BEHIND: &str = "\
8001 00000014 0000017e 00000001 000b 03 010000 -> 0 broken
frame -> -
next
- -> 0 broken
next
80 -> 0 broken
next
8001 00000014 0000017e 00000001 000b 03 010000 -> 0 broken";

fn status(text: &str) -> FramerState {
    match text {
        "more" => FramerState::More,
        "ready" => FramerState::Ready,
        _ => FramerState::Broken(BAD_SIZE),
    }
}

// Whether the line comes true.
fn step(framer: &mut Framer, line: &str) -> bool {
    match line.split_once(" -> ") {
        Some(("frame", wanted)) => is_spelled(framer.frame().unwrap_or(&[]), wanted),
        Some((piece, wanted)) => {
            let Some(piece) = bytes(piece) else {
                return false;
            };
            let (taken, said) = wanted.split_once(' ').unwrap_or(("", ""));
            let (count, answer) = framer.push(piece.as_slice());
            taken.parse() == Ok(count) && answer == status(said)
        }
        None => {
            if line == "new" {
                *framer = Framer::new();
            }
            framer.next();
            true
        }
    }
}

fn takes_steps(rt: &impl Abort, framer: &mut Framer, steps: &str) {
    for line in steps.lines() {
        assert!(rt; step(framer, line), "{line}");
    }
}

#[test]
fn frames_come_in_pieces_and_a_bad_size_breaks_the_framer_for_ever(rt: HostRuntime) {
    takes_steps(&rt, &mut Framer::new(), STEPS);
    for line in BROKEN {
        let mut framer = Framer::new();
        takes_steps(&rt, &mut framer, line);
        takes_steps(&rt, &mut framer, BEHIND);
    }
}

#[test]
fn the_greatest_size_is_framed(rt: HostRuntime) {
    let mut most = [0; 4097];
    most[4] = 0x10;
    let mut framer = Framer::new();
    assert!(&rt; framer.push(&most[..4095]) == (4095, FramerState::More));
    assert!(&rt; framer.push(&most[4095..]) == (1, FramerState::Ready));
    assert!(&rt; framer.frame().unwrap_or(&[]) == &most[..4096]);
}

// Whether the next frame of the source is this one, and none where it is empty; or the fault.
fn gives<R: Source>(source: &mut R, wanted: Result<&[u8], ReadFault>) -> bool {
    match (read_frame(source), wanted) {
        (Ok(Some(read)), Ok(frame)) => read.as_slice() == frame,
        (Ok(None), Ok(frame)) => frame.is_empty(),
        (Err(fault), Err(wanted)) => fault == wanted,
        _ => false,
    }
}

// The same of these bytes: from a source that tells them, from one that gives one byte a read, and from a reader.
fn all_give(bytes: &[u8], wanted: Result<&[u8], ReadFault>) -> bool {
    gives(&mut SliceSource::new(bytes), wanted)
        && gives(&mut Pieces::new(bytes, 1), wanted)
        && gives(&mut Reads::new(bytes), wanted)
}

#[test]
fn frames_are_read(rt: HostRuntime) {
    let whole = spelled(READ);
    let whole = whole.as_slice();
    // An end is none before the first byte, and inside after it.
    assert!(rt; all_give(&[], Ok(&[])) && all_give(whole, Ok(whole)));
    for k in 1..whole.len() {
        assert!(rt; all_give(&whole[..k], Err(ReadFault::EndInside)), "{k}");
    }
    for text in ["8001 00000009", "8001 00001001", "8001 00000009 01"] {
        let fault = Err(ReadFault::Broken(BAD_SIZE));
        assert!(rt; all_give(spelled(text).as_slice(), fault), "{text}");
    }
}

// Startup with the tag 8003, and PCR_Read behind it.
const SHORTER: &str = "8003 0000000c 00000144 0000";

const BOTH: &str = "8003 0000000c 00000144 0000 8001 00000014 0000017e 00000001 000b 03 010000";

// PCR_Read, Startup, and the beginning of another.
const THREE: &str =
    "8001 00000014 0000017e 00000001 000b 03 010000 8003 0000000c 00000144 0000 8001 0000000c 0000";

#[test]
fn frames_are_read_one_after_the_other(rt: HostRuntime) {
    let longer = spelled(READ);
    let shorter = spelled(SHORTER);
    let (longer, shorter) = (longer.as_slice(), shorter.as_slice());
    let both = spelled(BOTH);
    let mut source = SliceSource::new(both.as_slice());
    assert!(rt; gives(&mut source, Ok(shorter)) && gives(&mut source, Ok(longer)));
    assert!(rt; gives(&mut source, Ok(&[])));
    // The longer frame comes first, so that nothing of it may be left; and where there is none the buffer is empty.
    let three = spelled(THREE);
    let mut source = SliceSource::new(three.as_slice());
    let mut frame = Buffer::new();
    let first = read_frame_into(&mut source, &mut frame);
    assert!(rt; first == Ok(true) && frame.as_slice() == longer);
    let second = read_frame_into(&mut source, &mut frame);
    assert!(rt; second == Ok(true) && frame.as_slice() == shorter);
    let third = read_frame_into(&mut source, &mut frame);
    assert!(rt; third == Err(ReadFault::EndInside) && frame.is_empty());
    let last = read_frame_into(&mut source, &mut frame);
    assert!(rt; last == Ok(false) && frame.is_empty());
}

// Whether this comes first of a source, in so many reads.
fn reads(mut source: Pieces<'_>, wanted: Result<&[u8], ReadFault>, reads: usize) -> bool {
    gives(&mut source, wanted) && source.reads == reads
}

#[test]
fn no_read_is_tried_again_and_there_are_as_many_as_bytes_at_most(rt: HostRuntime) {
    let whole = spelled(READ);
    let frame = whole.as_slice();
    // The first read that fails, or gives no bytes, which are the end, though more would come.
    for k in 1..21 {
        let wanted = if k == 1 {
            Ok([].as_slice())
        } else {
            Err(ReadFault::EndInside)
        };
        assert!(rt;
            reads(Pieces::failing(frame, 1, k), Err(ReadFault::Device), k),
            "{k}"
        );
        assert!(rt; reads(Pieces::pausing(frame, 1, k), wanted, k), "{k}");
    }
    assert!(rt; reads(Pieces::failing(frame, 1, 21), Ok(frame), 20));
    assert!(rt; reads(Pieces::pausing(frame, 1, 21), Ok(frame), 20));
    let mut most = [0; 4100];
    most[4] = 0x10;
    assert!(rt; reads(Pieces::new(&most, 1), Ok(&most[..4096]), 4096));
    // A bad size is refused after six, whatever follows.
    let fault = ReadFault::Broken(BAD_SIZE);
    assert!(rt; reads(Pieces::new(&[0x00; 100], 1), Err(fault), 6));
    assert!(rt; reads(Pieces::new(&[0xFF; 100], 1), Err(fault), 6));
}
