//! Logs that are fed in pieces.

use crate::tests::log_parsed::{LOGS, have, is_fault};
use crate::tests::rows::{Asked, Row, made, rows};
use std::test::*;
use tpm_log::{LogFault, LogReplay, replay_into};
use tpm_pcr::Registers;
use tpm_types::{Alg, register};

// What is answered to a log that is fed in pieces of so many bytes, and to nothing behind each.
pub(crate) fn fed(log: &[u8], most: usize) -> Result<Registers, LogFault> {
    let mut replay = LogReplay::new();
    for piece in log.chunks(most.max(1)) {
        let _ = replay.feed(piece);
        let _ = replay.feed(&[]);
    }
    replay.end()
}

// The same in two pieces.
pub(crate) fn fed_in_two(log: &[u8], at: usize) -> Result<Registers, LogFault> {
    let (front, back) = log.split_at(at.min(log.len()));
    let mut replay = LogReplay::new();
    let _ = replay.feed(front);
    let _ = replay.feed(back);
    replay.end()
}

// Whether the answer is the fault that is told.
pub(crate) fn has_fault<T: Drop>(answer: Result<T, LogFault>, told: &str) -> bool {
    match answer {
        Ok(_) => false,
        Err(fault) => is_fault(told, fault),
    }
}

// What is done with a replay, in turn, and then its end; and what each answers. To `registers` and to the end that is
// the value of register 7 of SHA-256, or a fault; to a piece `ok`, or a fault. `N*SIZE` are N pieces of so many zeros,
// of which the last one is answered.
struct Replays;

impl Asked for Replays {
    fn ask(row: &mut Row<'_>) {
        let mut replay = LogReplay::new();
        for step in row.given.split(';') {
            is_stepped(row, &mut replay, step.trim());
        }
        match replay.end() {
            Ok(registers) => has_seventh(row, &registers),
            Err(fault) => row.is_fault(fault.kind, fault.at),
        }
    }
}

fn has_seventh(row: &mut Row<'_>, registers: &Registers) {
    row.has(registers.read(Alg::Sha256, register(7)).as_slice());
}

fn is_stepped(row: &mut Row<'_>, replay: &mut LogReplay, step: &str) {
    match step {
        "restart" => replay.restart(),
        "registers" => match replay.registers() {
            Ok(registers) => has_seventh(row, registers),
            Err(fault) => row.is_fault(fault.kind, fault.at),
        },
        _ => match feed(row, replay, step) {
            Ok(()) => row.is("ok"),
            Err(fault) => row.is_fault(fault.kind, fault.at),
        },
    }
}

fn feed(row: &mut Row<'_>, replay: &mut LogReplay, step: &str) -> Result<(), LogFault> {
    match step.split_once('*') {
        Some((count, size)) => {
            let count = row.known(count.parse().ok());
            let size = row.known(size.parse().ok());
            feed_zeros(replay, count, size)
        }
        None => replay.feed(row.of(step).as_slice()),
    }
}

fn feed_zeros(replay: &mut LogReplay, count: usize, size: usize) -> Result<(), LogFault> {
    let mut last = Ok(());
    for _ in 0..count {
        last = replay.feed(&[0; 4096][..size.min(4096)]);
    }
    last
}

#[test]
fn a_replay_answers_to_each_piece(rt: HostRuntime) {
    rows::<Replays>(
        &rt,
        LOGS,
        "
        # It is used again, whatever it was fed.
        WORKED; registers; restart; WORKED <214; registers is ok SEVENTH ok Truncated 211 Truncated 211
        WORKED <214; restart; 01000000; registers is ok NotCryptoAgile 0 NotCryptoAgile 0 NotCryptoAgile 0
        01000000; restart; WORKED; registers is NotCryptoAgile 0 ok SEVENTH SEVENTH
        01000000; restart; WORKED <214; restart; WORKED is NotCryptoAgile 0 ok ok SEVENTH
        # The first record behind the header names register 17, and this is answered as soon as that is read, and from
        # then on.
        HEADER; 11000000040000; -; 00; -; 1*600 is ok ok ok BadRegister 73 BadRegister 73 BadRegister 73 BadRegister 73
        # Behind the header zeros are records of 16 bytes, at register 0 and of type 0: 73 + 4,095 * 4,096 + 4,016 =
        # 16,777,209, where a record could end the log.
        HEADER; 4095*4096; 1*4016; 00 is ok ok ok TooLong 16777209 TooLong 16777209
        # A header's event that is longer than any, of 1,000 bytes, where its list ends behind 41, has its fault only
        # where all of it came; where the bytes end before, that is the fault.
        HEADER 28=e8 29=03; 1*958; 00 is ok ok BadHeader 73 BadHeader 73
        HEADER 28=e8 29=03; 958*1 is ok ok Truncated 32
        HEADER 28=e8 29=03; 959*1 is ok BadHeader 73 BadHeader 73
        HEADER 28=e8 29=03; 960*1 is ok BadHeader 73 BadHeader 73
        ",
    );
}

#[test]
fn registers_are_used_again(rt: HostRuntime) {
    let log = made(LOGS, "WORKED").expect(&rt, "a log");
    let (cut, _) = log.as_slice().split_at(log.len().min(214));
    let mut registers = Registers::new();
    for _ in 0..2 {
        assert!(rt; replay_into(log.as_slice(), &mut registers).is_ok());
        assert!(rt;
            have(
                "000b 7 3d458cfe55cc03ea1f443f1562beec8df51c75e14a9fcf9a7234a13f198e7969",
                &registers
            )
        );
        assert!(rt; has_fault(replay_into(cut, &mut registers), "Truncated 211"));
    }
}

// The fault of this log is told as soon as so many bytes of it came.
struct InTime;

impl Asked for InTime {
    fn ask(row: &mut Row<'_>) {
        let shown = row.number() as usize;
        let bytes = row.rest();
        for cut in 0..bytes.len().saturating_add(1) {
            let is_so = in_two(bytes.as_slice(), cut, shown, row.told);
            row.holds(is_so);
        }
        row.holds(by_bytes(bytes.as_slice(), shown, row.told));
        row.told = "";
    }
}

fn is_shown(answer: Result<(), LogFault>, shown: bool, told: &str) -> bool {
    match answer {
        Ok(()) => !shown,
        Err(fault) => shown && is_fault(told, fault),
    }
}

fn in_two(bytes: &[u8], cut: usize, shown: usize, told: &str) -> bool {
    let (front, back) = bytes.split_at(cut.min(bytes.len()));
    let mut replay = LogReplay::new();
    is_shown(replay.feed(front), shown <= cut, told) && is_shown(replay.feed(back), true, told)
}

fn by_bytes(bytes: &[u8], shown: usize, told: &str) -> bool {
    let mut replay = LogReplay::new();
    let mut fed: usize = 0;
    let mut is_so = true;
    for byte in bytes {
        fed = fed.saturating_add(1);
        is_so = is_so && is_shown(replay.feed(&[*byte]), shown <= fed, told);
    }
    is_so
}

// Each fault is that of the longer log from the last byte of its token on, and one of the header's event from
// the last byte of that.
#[test]
fn a_fault_is_told_with_the_piece_that_shows_it(rt: HostRuntime) {
    rows::<InTime>(
        &rt,
        LOGS,
        "
        8 WORKED 4=04 is NotCryptoAgile 4
        72 WORKED 28=28 is BadHeader 72
        74 WORKED 28=2a is BadHeader 73
        73 WORKED 56=00 is BadHeader 56
        73 WORKED 64=04 is DuplicateAlgorithm 64
        73 WORKED 66=21 is WrongDigestSize 66
        97 WORKED 89=11 is BadRegister 89
        103 WORKED 101=0d is UnknownAlgorithm 101
        125 WORKED 123=04 is RepeatedDigest 123
        211 WORKED 210=ff is TooLong 211
        106 HEADER LOCALITY LOCALITY 105=02 is BadLocality 89
        139 HEADER LOCALITY LOCALITY is LateLocality 122
        ",
    );
}
