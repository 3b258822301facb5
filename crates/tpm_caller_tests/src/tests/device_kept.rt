//! A device that is kept: what tells that its NV memory was changed, and the device that is made of it again. The
//! expected bytes are those of Python's struct and hashlib. The lines of a script:
//!
//! - `same COMMAND -> REPLY` and `changed ..`: what the device answers with a nonce of zeros, and whether NV memory
//!   changes. `changing COMMAND REPLY` and `changing-not ..`: whether they tell a change.
//! - `kept BYTES`: NV memory. `greatest VALUE`: the greatest value that a counter has had.
//! - `counter INDEX VALUE`: the first counter. `session HANDLE HASH`: the hash of a session, `-` where there is none.
//! - `made BYTES`: from here on, the device that is made of this NV memory, and `made-not CODE POSITION BYTES`: no
//!   device is made of it, with this fault.
//!
//! Other lines are told in `caller_scripts`.

use crate::tests::caller_scripts::{owner, run};
use std::test::*;
use tpm_device::{Device, changes_nv};
use tpm_testing::{bytes, is_spelled, next_number, next_value, spelled, word};
use tpm_types::{Alg, SessionHandle};
use tpm_wire::{Buffer, Refusal};

/// Whether what the line says of a device is so.
pub fn is_asked(device: &mut Device, asked: &str, mut rest: &str) -> bool {
    match asked {
        "device" => {
            *device = Device::new(&owner(), 0);
            true
        }
        "made" => is_made(device, rest),
        "made-not" => is_not_made(rest),
        "same" => is_told(device, rest) == Some(false),
        "changed" => is_told(device, rest) == Some(true),
        "changing" => changes(rest) == Some(true),
        "changing-not" => changes(rest) == Some(false),
        "kept" => is_spelled(kept(device).as_slice(), rest),
        "greatest" => device.greatest() == next_number(&mut rest) as u64,
        "counter" => is_first(device, rest),
        "session" => has_hash(device, rest),
        _ => false,
    }
}

// The bytes of its NV memory.
fn kept(device: &Device) -> Buffer {
    let mut out = Buffer::new();
    device.put_nv(&mut out);
    out
}

// Whether NV memory is another behind the command, as the call says too, where the device answers it as the line says.
fn is_told(device: &mut Device, line: &str) -> Option<bool> {
    let (command, expected) = line.split_once(" -> ").unwrap_or((line, ""));
    let command = spelled(command);
    let before = kept(device);
    let response = device.execute(command.as_slice(), &[0; 64]);
    let is_changed = kept(device).as_slice() != before.as_slice();
    let is_so = is_spelled(response.as_slice(), expected)
        && changes_nv(command.as_slice(), response.as_slice()) == is_changed;
    if is_so { Some(is_changed) } else { None }
}

// Whether the call tells a change, of a command and a response. It is none where a word is misspelled.
fn changes(mut rest: &str) -> Option<bool> {
    match (bytes(word(&mut rest)), bytes(rest)) {
        (Some(command), Some(response)) => {
            Some(changes_nv(command.as_slice(), response.as_slice()))
        }
        _ => None,
    }
}

fn has_hash(device: &Device, mut rest: &str) -> bool {
    match next_value::<SessionHandle>(&mut rest) {
        Some(session) => match device.session_hash(session) {
            Some(hash) => next_value::<Alg>(&mut rest) == Some(hash),
            None => rest == "-",
        },
        None => false,
    }
}

fn is_first(device: &Device, mut rest: &str) -> bool {
    match device.counters().first() {
        Some(counter) => {
            counter.public().index.number() == next_number(&mut rest)
                && counter.value().is_some()
                && counter.value() == next_value::<u64>(&mut rest)
        }
        None => false,
    }
}

fn is_made(device: &mut Device, rest: &str) -> bool {
    match Device::from_nv(&owner(), spelled(rest).as_slice()) {
        Ok(made) => {
            *device = made;
            true
        }
        Err(_) => false,
    }
}

fn is_not_made(mut rest: &str) -> bool {
    let code = next_number(&mut rest);
    let at = next_number(&mut rest);
    Device::from_nv(&owner(), spelled(rest).as_slice()).err() == Some(Refusal { code, at })
}

#[test]
fn a_device_tells_changes_of_its_nv_memory_and_is_made_of_it_again(rt: HostRuntime) {
    run(
        &rt,
        "
        device
        # TPM2_NV_DefineSpace of the counter 01800001 before TPM2_Startup, behind it, and again
        same 8002 00000033 0000012a 400000010000000e4000000900000100056f776e6572000161000e01800001000b0206001600000008 -> 8001 0000000a 00000100
        same 8001 0000000c 00000144 0000 -> 8001 0000000a 00000000
        changed 8002 00000033 0000012a 400000010000000e4000000900000100056f776e6572000161000e01800001000b0206001600000008 -> 8002 00000013 00000000 00000000 0000010000
        same 8002 00000033 0000012a 400000010000000e4000000900000100056f776e6572000161000e01800001000b0206001600000008 -> 8001 0000000a 0000014c
        # TPM2_NV_Increment with another password, and with the index's own
        same 8002 00000020 00000134 01800001018000010000000a40000009000001000162 -> 8001 0000000a 000009a2
        changed 8002 00000020 00000134 01800001018000010000000a40000009000001000161 -> 8002 00000013 00000000 00000000 0000010000
        # TPM2_NV_Read of its value, and an HMAC session
        same 8002 00000028 0000014e 40000001018000010000000e4000000900000100056f776e657200080000 -> 8002 0000001d 00000000 0000000a 0008 0000000000000001 0000010000
        same 8001 0000002b 00000176 40000007400000070010000000000000000000000000000000000000000010000b -> 8001 00000020 00000000 02000000 0010 00000000000000000000000000000000
        # TPM2_NV_UndefineSpace, and again
        changed 8002 00000024 00000122 40000001018000010000000e4000000900000100056f776e6572 -> 8002 00000013 00000000 00000000 0000010000
        same 8002 00000024 00000122 40000001018000010000000e4000000900000100056f776e6572 -> 8001 0000000a 0000028b
        # another counter of the index, whose first value is above those before
        changed 8002 00000033 0000012a 400000010000000e4000000900000100056f776e6572000161000e01800001000b0206001600000008 -> 8002 00000013 00000000 00000000 0000010000
        changed 8002 00000020 00000134 01800001018000010000000a40000009000001000161 -> 8002 00000013 00000000 00000000 0000010000
        # NV memory behind them
        kept 564a4e560001000000000000000200000001000e01800001000b220600160000000800016100000000000000028590bea566 e84e0a8e27eb40c0e9075a240f1190bc4c28f35a7c7078796a254a
        greatest 2
        session 02000000 000b
        # What is no command or no response changes nothing.
        changing 80010000000a00000134 80010000000a00000000
        changing-not 80010000000a000001 80010000000a00000000
        changing-not 80010000000b00000134 80010000000a00000000
        changing-not - 80010000000a00000000
        changing-not 80010000000a00000134 80010000000a000000
        changing-not 80010000000a00000134 -
        # The device that is made again has the counter and its value, and none of the sessions.
        made 564a4e560001000000000000000200000001000e01800001000b220600160000000800016100000000000000028590bea566 e84e0a8e27eb40c0e9075a240f1190bc4c28f35a7c7078796a254a
        kept 564a4e560001000000000000000200000001000e01800001000b220600160000000800016100000000000000028590bea566 e84e0a8e27eb40c0e9075a240f1190bc4c28f35a7c7078796a254a
        session 02000000 -
        greatest 2
        counter 01800001 0000000000000002
        same 8002000000280000014e40000001018000010000000e4000000900000100056f776e657200080000 -> 80010000000a00000100
        same 80010000000c000001440000 -> 80010000000a00000000
        same 8002000000280000014e40000001018000010000000e4000000900000100056f776e657200080000 -> 8002 0000001d 00000000 0000000a 0008 0000000000000002 0000010000
        same 80010000000e0000016502000000 -> 80010000000a000001cb
        changed 8002000000200000013401800001018000010000000a40000009000001000161 -> 80020000001300000000000000000000010000
        greatest 3
        # Other bytes make no device.
        made-not 9a 2d 564a4e560001000000000000000200000001000e01800001000b220600160000000800016100000000000000028590bea566 e84e0a8e27eb40c0e9075a240f1190bc4c28f35a7c7078796a25
        ",
    );
}
