//! Readers of a log: that fail, that pause, and that never end.

ghost use Rattle.std.specs.Prelude.{None};

use crate::tests::log_parsed::{LOGS, is_answer};
use crate::tests::log_pieces::has_fault;
use crate::tests::rows::{Asked, Row, made, rows};
use std::test::*;
use tpm_log::{LogFaultKind, replay_from};
use tpm_testing::Pieces;
use tpm_wire::{ReadFailed, SliceSource, Source};

// Where the read with this number fails, no registers are answered, and no other fault; and no read is tried again.
fn fails_at(log: &[u8], number: usize) -> bool {
    let mut reader = Pieces::failing(log, 1, number);
    match replay_from(&mut reader) {
        Ok(_) => false,
        Err(fault) => {
            fault.kind == LogFaultKind::Device
                && fault.at as usize == number.saturating_sub(1)
                && reader.reads == number
        }
    }
}

// It is taken for the end, and no read comes behind it.
fn pauses_at(log: &[u8], number: usize) -> bool {
    let mut reader = Pieces::pausing(log, 32, number);
    match replay_from(&mut reader) {
        Ok(_) => false,
        Err(fault) => fault.kind == LogFaultKind::Truncated && reader.reads == number,
    }
}

#[test]
fn a_read_that_fails_is_answered_and_one_that_gives_no_bytes_is_the_last(rt: HostRuntime) {
    let log = made(LOGS, "WORKED").expect(&rt, "a log");
    let log = log.as_slice();
    let reads = log.len().saturating_add(2);
    for number in 1..reads {
        assert!(rt; fails_at(log, number), "{number}");
    }
    for number in 1..5 {
        assert!(rt; pauses_at(log, number), "{number}");
    }
    let told = "0004 7 b2a83b0ebf2f8374299a5b2bdfc31ea955ad7236";
    assert!(rt; is_answer(told, replay_from(&mut Pieces::failing(log, 1, reads))));
}

#[test]
fn a_reader_that_never_ends_is_refused(rt: HostRuntime) {
    let none = replay_from(&mut Pieces::before_zeros(&[], 4096));
    assert!(rt; has_fault(none, "NotCryptoAgile 4"));
    // Behind the header zeros are records of 16 bytes, at register 0 and of type 0.
    let header = made(LOGS, "HEADER").expect(&rt, "a log");
    let zeros = replay_from(&mut Pieces::before_zeros(header.as_slice(), 4096));
    assert!(rt; has_fault(zeros, "TooLong 16777209"));
}

// The record of an event of 4 MiB up to its event, behind a header of three algorithms; and a separator.
const PARTS: &str = "
    FRONT 000000000300000000000000000000000000000000000000000000002900000053706563204944204576656e74303300000000000002000203000000040014000b0020000c00300000050000000d000000030000000400077c791119e055e7a0ae5e507089a3f9114836f50b00a117210941a0b00dcb2d8577e680d84b6fa0eaf760d2afc654c953b9859d54fa0c005511f2c17b5c7562000acf25d84e9b93d3477a1bb4ba74ea05287fbd775d2d79ba91f1911a279f9ead2969538627654e00004000
    SEPARATOR 05000000040000000300000004009069ca78e7450a285173431b3e52c5c25299e4730b00df3f619804a92fdb4057192dc43dd748ea778adc52bc498ce80524c014b811190c00394341b7182cd227c5c6b07ef8000cdfd86136c4292b8e576573ad7ed9ae41019f5818b4b971c9effc60e1ad9f1289f00400000000000000
";

// Makes the bytes of an event, which count from 0 to 250 again and again, between a front and a back.
#[derive(Drop)]
struct Large<'a> {
    front: SliceSource<'a>,
    made: u32,
    size: u32,
    back: SliceSource<'a>,
}

impl Source for Large<'_> {
    ghost coming = { λ _. None };

    ghost failed = { λ _. 0 };

    fn read(&mut self, room: &mut [u8]) -> Result<usize, ReadFailed> {
        let given = self.front.read(room)?;
        if given > 0 {
            return Ok(given);
        }
        if self.made >= self.size {
            return self.back.read(room);
        }
        let count = room.len().min((self.size - self.made) as usize);
        for byte in &mut room[..count] {
            *byte = (self.made % 251) as u8;
            self.made = self.made.saturating_add(1);
        }
        Ok(count)
    }

    fn failures(&self) -> u64 {
        0
    }
}

// What registers are told after the event.
struct Over;

impl Asked for Over {
    fn ask(row: &mut Row<'_>) {
        let front = row.bytes();
        let back = row.bytes();
        let mut source = Large {
            front: SliceSource::new(front.as_slice()),
            made: 0,
            size: 4_194_304,
            back: SliceSource::new(back.as_slice()),
        };
        row.holds(is_answer(row.told, replay_from(&mut source)));
        row.told = "";
    }
}

#[test]
fn an_event_of_4_mib_is_stepped_over(rt: HostRuntime) {
    rows::<Over>(
        &rt,
        PARTS,
        "
        FRONT SEPARATOR is 0004 5 9401dfc2f702ed0388fc14c68a5108d35ac7d600
        FRONT SEPARATOR is 000b 5 cf4bd6f9d7676c4539e7685760c67ece0ec7598e0f616e32ed1f9abdfcde7906
        FRONT SEPARATOR is 000c 5 1ca531a3038b1a039832a7bb93d87ef28a623b55bdaadf36facb08a3e42eb32a3504050df4bb650b2671570ae4771106
        ",
    );
}
