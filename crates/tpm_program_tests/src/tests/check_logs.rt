//! A log whose read fails beside a list that isn't read, and a list that is too long.

use crate::tests::output_runs::{LOG, check_beside, check_list};
use std::process::Abort;
use std::test::Fail;
use tpm_output::fault::ToolFault;
use tpm_output::status::Status;
use tpm_testing::{Pieces, spelled};

// This is answered to the log, and nothing is read of a list.
fn answers(
    rt: &(impl AllocGlobal + Abort),
    log: &mut Pieces<'_>,
    wanted: Result<Status, ToolFault>,
) {
    let mut list = Some(Pieces::endless(b'\n'));
    let answer = check_beside(rt.alloc(), log, &mut list, &mut Vec::new(rt.alloc()));
    assert!(rt; answer == wanted && matches!(list, Some(Pieces { reads: 0, .. })));
}

#[test]
fn a_list_is_read_behind_the_log_alone(rt: HostRuntime) {
    let log = spelled(LOG);
    for done in 0..=log.len() {
        let input = &mut Pieces::failing(log.as_slice(), 1, done + 1);
        answers(&rt, input, Err(ToolFault::Read));
    }
    answers(&rt, &mut Pieces::endless(0x00), Ok(Status::Refused));
    answers(&rt, &mut Pieces::endless(0xFF), Ok(Status::Refused));
}

// What the log leaves as it was, in a line of 48 bytes and in one of 49.
const LINE: &str = "sha1 0 0000000000000000000000000000000000000000\n";

const LONGER_LINE: &str = "sha1 10 0000000000000000000000000000000000000000\n";

// 349,509 of the one and 16 of the other are 16,777,216 bytes, which are all answered; a line feed behind them is one
// too many.
#[test]
fn a_list_with_a_byte_too_many_is_answered_to_it(rt: HostRuntime) -> Result<(), Fail> {
    let mut lines = LINE.repeat(rt.alloc(), 349_509)?;
    lines.push_str(LONGER_LINE.repeat(rt.alloc(), 16)?.as_str())?;
    lines.push_str("\n")?;
    let mut out = Vec::new(rt.alloc());
    let answer = check_list(
        rt.alloc(),
        &mut Pieces::new(lines.as_bytes(), 4096),
        &mut out,
    );
    assert!(rt; answer == Err(ToolFault::InputTooLong));
    assert_eq!(rt; lines.len(), 16_777_217);
    assert_eq!(rt; out.len(), 4_543_841);
    Ok(())
}
