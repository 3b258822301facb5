//! A device that is handed the same nonce twice accepts a buffer again: the nonces' part of the promise is needed.

use std::process::Abort;
use std::test::*;
use tpm_device::Device;
use tpm_testing::{bytes, is_spelled, spelled, word};
use tpm_types::AuthValue;

// The empty buffer, for which a script has no line, and Startup.
const STARTUP: &str = "00 - 80010000000a0000009a
    01 80010000000c000001440000 80010000000a00000000";

// The byte of the nonce, a command, and its answer, or, before `..`, how it begins: an HMAC session of SHA-256 with a
// nonce of 16 bytes; PCR_Extend of register 0, sealed in that session while its nonce is sixteen zeros, where the HMAC
// is that of Python's hmac; the same again; and the end of the session.
const SESSION: &str =
    "00 80010000002b0000017640000007400000070010c1c1c1c1c1c1c1c1c1c1c1c1c1c1c1c10000000010000b 8001000000200000000002000000001000000000000000000000000000000000
    01 800200000071000001820000000000000039020000000010cacacacacacacacacacacacacacacaca010020f56014059f06f5a87d5027f06a49379681cda64ec9adcf5cbb303d9bce839ecd00000001000b0000000000000000000000000000000000000000000000000000000000000000 800200000043000000000000000000100101..
    01 800200000071000001820000000000000039020000000010cacacacacacacacacacacacacacacaca010020f56014059f06f5a87d5027f06a49379681cda64ec9adcf5cbb303d9bce839ecd00000001000b0000000000000000000000000000000000000000000000000000000000000000 80010000000a000009a2
    01 80010000000e0000016502000000 80010000000a00000000";

// The update counter is 2, and register 0 was extended twice.
const READ: &str =
    "01 8001000000140000017e00000001000b03010000 80010000003e000000000000000200000001000b030100000000000100207a0501f5957bdf9cb3a8ff4966f02265f968658b7a9c62642cba1165e86642f5";

fn answers(rt: &impl Abort, device: &mut Device, lines: &str) {
    for line in lines.lines() {
        assert!(rt; is_answered(device, line.trim()), "{line}");
    }
}

fn is_answered(device: &mut Device, mut line: &str) -> bool {
    let nonce = spelled(word(&mut line));
    let command = bytes(word(&mut line));
    match (nonce.as_slice(), command) {
        ([nonce], Some(command)) => {
            let answer = device.execute(command.as_slice(), &[*nonce; 64]);
            is_told(answer.as_slice(), line)
        }
        _ => false,
    }
}

fn is_told(answer: &[u8], line: &str) -> bool {
    match line.strip_suffix("..") {
        Some(front) => {
            let front = spelled(front);
            !front.is_empty() && answer.starts_with(front.as_slice())
        }
        None => is_spelled(answer, line),
    }
}

#[test]
fn a_nonce_that_comes_twice_is_a_buffer_that_comes_twice(rt: HostRuntime) {
    let mut device = Device::new(&AuthValue::default(), 0);
    answers(&rt, &mut device, STARTUP);
    answers(&rt, &mut device, SESSION);
    answers(&rt, &mut device, SESSION);
    answers(&rt, &mut device, READ);
}
