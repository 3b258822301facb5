//! Where bytes come from.

use std::io;
use std::io::Read;
use std::test::*;
use tpm_wire::{ReadFailed, Reads, SliceSource, Source};

// Gives its bytes one at a time, and fails in place of each zero.
#[derive(Drop)]
struct FailsAtZero {
    bytes: &'static [u8],
}

impl Read for FailsAtZero {
    fn read(&mut self, room: &mut [u8]) -> io::Result<usize> {
        match self.bytes {
            [first, rest @ ..] if !room.is_empty() => {
                room[0] = *first;
                self.bytes = rest;
                if *first == 0 {
                    return Err(io::ErrorKind::Other.into());
                }
                Ok(1)
            }
            _ => Ok(0),
        }
    }
}

// What a read answers, what is in room for three bytes after it, and how many reads have failed.
type Given = (Result<usize, ReadFailed>, [u8; 3], u64);

fn given(source: &mut impl Source, room: usize) -> Given {
    let mut bytes = [b'.'; 3];
    let answer = source.read(&mut bytes[..room.min(3)]);
    (answer, bytes, source.failures())
}

const IN_TURN: [Given; 4] = [
    (Ok(0), *b"...", 0),
    (Ok(3), *b"abc", 0),
    (Ok(2), *b"de.", 0),
    (Ok(0), *b"...", 0),
];

fn given_in_turn(source: &mut impl Source) -> [Given; 4] {
    [
        given(source, 0),
        given(source, 3),
        given(source, 3),
        given(source, 3),
    ]
}

#[test]
fn a_slice_and_a_reader_give_their_bytes_in_turn(rt: HostRuntime) {
    assert!(rt; given_in_turn(&mut SliceSource::new(b"abcde")) == IN_TURN);
    assert!(rt; given_in_turn(&mut Reads::new(b"abcde".as_slice())) == IN_TURN);
}

// Each failure is told at once, and the read that failed isn't tried again.
#[test]
fn failures_of_a_reader_are_counted(rt: HostRuntime) {
    let mut source = Reads::new(FailsAtZero { bytes: b"a\0b\0" });
    let first = [given(&mut source, 2), given(&mut source, 2)];
    let later = [
        given(&mut source, 2),
        given(&mut source, 2),
        given(&mut source, 2),
    ];
    assert!(rt; first == [(Ok(1), *b"a..", 0), (Err(ReadFailed), *b"\0..", 1)]);
    assert!(rt;
        later
            == [
                (Ok(1), *b"b..", 1),
                (Err(ReadFailed), *b"\0..", 2),
                (Ok(0), *b"...", 2),
            ]
    );
}
