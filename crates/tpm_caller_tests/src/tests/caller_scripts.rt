//! Scripts: what a device and two ends of sessions with it do.
//!
//! Each line is a word and what it is about; one that begins with `#` says what the next are about.
//! Numbers and bytes are hexadecimal, and `-` is no byte.
//!
//! - `device`: from here on, a new device, and `tpm`: one that is started. Each byte of the nonce for what it executes
//!   is how many lines were done, comments aside, modulo 256, which `count NUMBER` sets.
//! - `execute COMMAND REPLY`: what the device answers.
//! - `reply BYTES`: what the ends open from here on. `answers-with BYTES`: how it begins.
//! - `a ..` and `b ..`: what one end of a session does, as `caller_ends` tells.
//!
//! `device_kept` tells the other lines.

use crate::tests::caller_ends::End;
use crate::tests::device_kept::is_asked;
use crate::tests::session_calls::OWNER;
use std::process::Abort;
use std::test::*;
use tpm_device::{Device, ResponseBuffer};
use tpm_testing::{bytes, is_spelled, next_bytes, next_value, spelled, word};
use tpm_types::AuthValue;

// TPM2_Startup with TPM_SU_CLEAR.
static STARTUP: [u8; 12] = [
    0x80, 0x01, 0x00, 0x00, 0x00, 0x0C, 0x00, 0x00, 0x01, 0x44, 0x00, 0x00,
];

/// The owner's authorization value.
pub fn owner() -> AuthValue {
    AuthValue::new(OWNER).unwrap_or_default()
}

/// A device, its last reply, how many lines were done with it, comments aside, modulo 256, and two ends of sessions.
#[derive(Drop)]
struct Bench {
    device: Device,
    reply: ResponseBuffer,
    count: u8,
    a: End,
    b: End,
}

/// Goes through a script.
pub fn run(rt: &impl Abort, script: &str) {
    let mut bench = Bench {
        device: Device::new(&owner(), 0),
        reply: ResponseBuffer::new(),
        count: 0,
        a: End::new(),
        b: End::new(),
    };
    for line in script.lines() {
        let line = line.trim();
        let is_said = line.is_empty() || line.starts_with('#');
        assert!(rt; is_said || step(&mut bench, line), "{line}");
    }
}

// Does what the line says, and answers whether all of it is so.
fn step(bench: &mut Bench, line: &str) -> bool {
    bench.count = bench.count.wrapping_add(1);
    let nonce = [bench.count; 64];
    let mut rest = line;
    match word(&mut rest) {
        "a" => bench
            .a
            .step(&mut bench.device, &nonce, &mut bench.reply, rest),
        "b" => bench
            .b
            .step(&mut bench.device, &nonce, &mut bench.reply, rest),
        "tpm" => {
            bench.device = Device::new(&owner(), 0);
            let answer = bench.device.execute(&STARTUP, &nonce);
            is_spelled(answer.as_slice(), "80010000000a00000000")
        }
        "count" => match next_value::<u8>(&mut rest) {
            Some(count) => {
                bench.count = count;
                true
            }
            None => false,
        },
        "reply" => match bytes(rest) {
            Some(reply) => {
                bench.reply.clear();
                bench.reply.try_extend_from_slice(reply.as_slice()).is_ok()
            }
            None => false,
        },
        "answers-with" => {
            let front = spelled(rest);
            !front.is_empty() && bench.reply.as_slice().starts_with(front.as_slice())
        }
        "execute" => {
            let command = next_bytes(&mut rest);
            let reply = bench.device.execute(command.as_slice(), &nonce);
            is_spelled(reply.as_slice(), rest)
        }
        asked => is_asked(&mut bench.device, asked, rest),
    }
}
