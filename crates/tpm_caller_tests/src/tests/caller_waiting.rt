//! What waits for a reply: the bytes that are sent, and how it is opened or given up. The expected bytes are those of
//! Python's hmac module. The sessions are those of `caller_sealed`.

use crate::tests::caller_ends::{is_done, is_fault, started};
use crate::tests::hmac_macs::name;
use arrayvec::ArrayVec;
use std::process::Abort;
use std::test::*;
use tpm_caller::{Caller, Waiting};
use tpm_commands::{CommandBody, Event};
use tpm_testing::{bytes, is_spelled, next_bytes, next_value, spelled};
use tpm_types::{
    DigestValues, Nonce, NvAuthHandle, NvIndex, PcrIndex, PcrOrNull, name_of_handle, register,
};

// The TPM2_StartAuthSession and its reply of each session: bound to the owner, bound to none, and of SHA-1.
const BOUND: &str =
    "80010000002b0000017640000007400000010010000000000000000000000000000000000000000010000b 8001000000200000000002000000001000000000000000000000000000000002";

const UNBOUND: &str =
    "80010000002b0000017640000007400000070010000000000000000000000000000000000000000010000b 8001000000200000000002000001001000000000000000000000000000000005";

const BOUND_BY_SHA1: &str =
    "80010000002b00000176400000074000000100100000000000000000000000000000000000000000100004 8001000000200000000002000002001000000000000000000000000000000007";

// TPM2_PCR_Extend of register 0 in the bound session, and of register 17.
const EXTEND: &str =
    "80020000007500000182000000000000003d020000000014111111111111111111111111111111111111111101002079df63402b6c1827c2516bb8981631618188a33766cc909d3748f9ff5dfe254000000001000b0000000000000000000000000000000000000000000000000000000000000000";

const EXTEND_17: &str =
    "80020000007500000182000000110000003d02000000001411111111111111111111111111111111111111110100202d4f9bf2fb328e99c5ed2797eca125438bed7b9d01010283f9f168eb0529e2e900000001000b0000000000000000000000000000000000000000000000000000000000000000";

// The reply to the extend of register 0, with the number 3 in 16 bytes as the new nonceTPM; with no attribute, too.
const EXTENDED: &str =
    "80020000004300000000000000000010000000000000000000000000000000030100207602838bd1a611f89bad7b1054b31038ec991e993a4c407319b295f3ef50487b";

const EXTENDED_WITHOUT_ATTRIBUTES: &str =
    "80020000004300000000000000000010000000000000000000000000000000030000201a9c016db4d7da829f87a73dd970915dcbc969f25c0f5337eb68f7987ed7b089";

// TPM2_PCR_Reset of register 16 under the new nonceTPM, and its reply: the session is not kept.
const RESET: &str =
    "80020000004b0000013d00000010000000390200000000102222222222222222222222222222222200002001e926ecdff9791337b1df38d69279fcf772128fbe9c12308d2417e48054c530";

const IS_RESET: &str =
    "800200000043000000000000000000100000000000000000000000000000000400002047f6d7d5f06a4f7bc908cd6c41674dfd820cbe3a6c3e87dd3057b1bfa7c9d2b0";

// The same in the session of SHA-1, with seventy bytes 61 behind the session key: the key is longer than a block.
const UNDER_A_LONG_KEY: &str =
    "80020000003f0000013d000000100000002d02000002001022222222222222222222222222222222010014de77263757b4310213c568396f6ce73f9ae0e54e";

// TPM2_PCR_Event of register 0 with four zeros in the session of SHA-1.
const EVENT: &str =
    "8002000000450000013c000000000000002d020000020010222222222222222222222222222222220100143f03f49eaac4f6f2dff77ce7b5696b961b51fde2000400000000";

// The Name of the index 01800001, and TPM2_NV_Increment of it by itself in the session that is not bound, with the
// value 61.
const COUNTER_NAME: &str = "000b6cc3923be0a3f8fb590381ef572345c85bdc934addbf43f628136f1405b85fd6";

const INCREMENT: &str =
    "8002000000530000013401800001018000010000003d020000010014111111111111111111111111111111111111111101002022f63486c79cf74a2a26e998f668fe82519b794e2ee9c4c576f27166a46accbc";

// The response code of a wrong HMAC.
const BAD_AUTH: &str = "80010000000a000009a2";

fn caller(rt: &impl Abort, mut texts: &str) -> Caller {
    let start = next_bytes(&mut texts);
    match started(start.as_slice(), spelled(texts).as_slice()) {
        Some(caller) => caller.expect(rt, "a caller"),
        None => panic!(rt; "no start of a session"),
    }
}

// The nonceCallers of two commands.
fn first() -> Nonce {
    Nonce::new(&[0x11; 20]).unwrap_or_default()
}

fn second() -> Nonce {
    Nonce::new(&[0x22; 16]).unwrap_or_default()
}

// TPM2_PCR_Extend of a register with 32 zeros for SHA-256.
fn extend(caller: Caller, register: PcrIndex) -> Waiting {
    let mut zeros = "00000001000b0000000000000000000000000000000000000000000000000000000000000000";
    let mut names = ArrayVec::new();
    names.push(name_of_handle(register.number()));
    caller.seal(
        CommandBody::PcrExtend {
            register: PcrOrNull::Pcr(register),
            digests: next_value::<DigestValues>(&mut zeros).unwrap_or_default(),
        },
        names,
        &[],
        first(),
        true,
    )
}

// TPM2_PCR_Reset of register 16.
fn reset(caller: Caller, auth: &[u8], keep: bool) -> Waiting {
    let mut names = ArrayVec::new();
    names.push(name_of_handle(16));
    caller.seal(
        CommandBody::PcrReset {
            register: register(16),
        },
        names,
        auth,
        second(),
        keep,
    )
}

// TPM2_PCR_Event of register 0 with four zeros.
fn event(rt: &impl Abort, caller: Caller) -> Waiting {
    let mut names = ArrayVec::new();
    names.push(name_of_handle(0));
    caller.seal(
        CommandBody::PcrEvent {
            register: PcrOrNull::Pcr(PcrIndex::default()),
            event: Event::new(&[0; 4]).expect(rt, "an event"),
        },
        names,
        &[],
        second(),
        true,
    )
}

// TPM2_NV_Increment of the counter by itself.
fn increment(rt: &impl Abort, caller: Caller, auth: &[u8]) -> Waiting {
    let index = NvIndex::from_number(0x0180_0001).expect(rt, "an index");
    let mut names = ArrayVec::new();
    names.push(name(COUNTER_NAME).unwrap_or_default());
    names.push(name(COUNTER_NAME).unwrap_or_default());
    caller.seal(
        CommandBody::NvIncrement {
            by: NvAuthHandle::Index(index),
            index,
        },
        names,
        auth,
        first(),
        true,
    )
}

// The caller after a reply that is opened, where the session is kept.
fn opened(rt: &impl Abort, waiting: Waiting, reply: &str) -> Option<Caller> {
    match waiting.open(spelled(reply).as_slice()) {
        Ok(opened) => {
            let (caller, response) = opened;
            assert!(rt; is_done(&response));
            caller
        }
        Err(_) => panic!(rt; "not opened"),
    }
}

// What still waits after bytes that are not opened, with this fault.
fn unopened(rt: &impl Abort, waiting: Waiting, reply: &str, expected: &str) -> Waiting {
    let reply = bytes(reply).expect(rt, "bytes");
    match waiting.open(reply.as_slice()) {
        Ok(_) => panic!(rt; "opened"),
        Err(unopened) => {
            let (waiting, fault) = unopened;
            assert!(rt; is_fault(&fault, expected), "{expected}");
            waiting
        }
    }
}

// The caller that the refusal of a wrong HMAC gives back.
fn given_up(rt: &impl Abort, waiting: Waiting) -> Caller {
    let waiting = unopened(rt, waiting, BAD_AUTH, "9a2");
    let caller = waiting.give_up(spelled(BAD_AUTH).as_slice());
    caller.ok().expect(rt, "given up")
}

#[test]
fn the_bytes_of_what_waits_are_sealed_as_python_does(rt: HostRuntime) {
    let waiting = extend(caller(&rt, BOUND), register(17));
    assert!(rt; is_spelled(waiting.bytes(), EXTEND_17));
    // A trailing zero is no part of a value.
    let waiting = increment(&rt, caller(&rt, UNBOUND), b"a");
    assert!(rt; is_spelled(waiting.bytes(), INCREMENT));
    let waiting = increment(&rt, caller(&rt, UNBOUND), b"a\0");
    assert!(rt; is_spelled(waiting.bytes(), INCREMENT));
    let waiting = reset(caller(&rt, BOUND_BY_SHA1), &[0x61; 70], true);
    assert!(rt; is_spelled(waiting.bytes(), UNDER_A_LONG_KEY));
    let waiting = event(&rt, caller(&rt, BOUND_BY_SHA1));
    assert!(rt; is_spelled(waiting.bytes(), EVENT));
    given_up(&rt, waiting);
}

#[test]
fn what_waits_is_opened_or_given_up(rt: HostRuntime) {
    let waiting = extend(caller(&rt, BOUND), register(0));
    // Each fault leaves it: a reply that is shorter than it says, one without a session, another's.
    let waiting = unopened(&rt, waiting, "8002000000420000000000000000", "142 2");
    let waiting = unopened(&rt, waiting, "80010000000a00000000", "NotExpected");
    let waiting = unopened(&rt, waiting, IS_RESET, "WrongMac");
    assert!(rt; is_spelled(waiting.bytes(), EXTEND));
    let waiting = extend(given_up(&rt, waiting), register(0));
    // A success is not given up.
    let waiting = match waiting.give_up(spelled(EXTENDED).as_slice()) {
        Ok(_) => panic!(rt; "given up"),
        Err(waiting) => waiting,
    };
    let kept = opened(&rt, waiting, EXTENDED).expect(&rt, "a caller that is kept");
    // The next command is sealed with the new nonce.
    let waiting = reset(kept, &[], false);
    assert!(rt; is_spelled(waiting.bytes(), RESET));
    assert!(rt; opened(&rt, waiting, IS_RESET).is_none());
    // The attributes are in the text.
    let waiting = extend(caller(&rt, BOUND), register(0));
    assert!(rt; opened(&rt, waiting, EXTENDED_WITHOUT_ATTRIBUTES).is_some());
}
