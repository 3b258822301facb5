//! What is asked of a number, and of so many bytes or entries. A line is a word, a number
//! and the answer in hexadecimal, `-` for none.

use arrayvec::ArrayVec;
use std::test::*;
use tpm_testing::number;
use tpm_types::{
    Alg, BindHandle, Digest, Digests, HashedDigest, Name, NvAttrs, NvAuthHandle, OrDigests,
    PcrIndex, PcrOrNull, SessionAttrs, StartupType,
};
use tpm_wire::Counted;
use tpm_wire::response_code::{of_handle, of_parameter, of_session};

// Whether a line is so, or none where it has another form.
fn is_so(line: &str) -> Option<bool> {
    let (word, rest) = line.split_once(' ')?;
    let (text, expected) = rest.split_once(' ')?;
    let answer = asked(word, number(text)?);
    match expected {
        "-" => Some(answer.is_none()),
        _ => Some(answer == Some(u64::from_str_radix(expected, 16).ok()?)),
    }
}

// The answer to this word.
fn asked(word: &str, number: u32) -> Option<u64> {
    match word {
        "nv" => Some(bits(&nv_queries(NvAttrs::from_number(number)?))),
        "written" => Some(NvAttrs::from_number(number)?.with_written().number() as u64),
        "pcr" => Some(PcrIndex::from_number(number)?.number() as u64),
        "pcr-or-null" => Some(PcrOrNull::from_number(number)?.number() as u64),
        "nv-auth" => Some(NvAuthHandle::from_number(number)?.number() as u64),
        "bind" => Some(BindHandle::from_number(number)?.number() as u64),
        _ => asked_short(word, u16::try_from(number).ok()?),
    }
}

fn asked_short(word: &str, number: u16) -> Option<u64> {
    match word {
        "hash" => Some(Alg::from_number(number)?.number() as u64),
        "digest" => Some(Alg::from_number(number)?.digest_len() as u64),
        "block" => Some(Alg::from_number(number)?.block_len() as u64),
        "startup" => Some(StartupType::from_number(number)?.number() as u64),
        "lengths" => Some(lengths(Alg::from_number(number)?)),
        _ => asked_small(word, u8::try_from(number).ok()?),
    }
}

fn asked_small(word: &str, number: u8) -> Option<u64> {
    match word {
        "handle" if number < 4 => Some(of_handle(number as u32) as u64),
        "parameter" if number < 4 => Some(of_parameter(number as u32) as u64),
        "session" if number < 4 => Some(of_session(number as u32) as u64),
        "attributes" => {
            let attrs = SessionAttrs::from_number(number)?;
            Some(bits(&[attrs.continues(), attrs.audits_or_encrypts()]))
        }
        "sized" if number <= 51 => Some(bits(&sized(&[0x5A; 51][..number as usize]))),
        "listed" => Some(bits(&listed(number as usize))),
        _ => None,
    }
}

// A bit for each, the highest for the first.
fn bits(answers: &[bool]) -> u64 {
    let mut bits = 0;
    for &answer in answers {
        bits = bits << 1 | answer as u64;
    }
    bits
}

fn nv_queries(attrs: NvAttrs) -> [bool; 12] {
    [
        attrs.is_counter(),
        attrs.owner_writes(),
        attrs.auth_writes(),
        attrs.policy_writes(),
        attrs.owner_reads(),
        attrs.auth_reads(),
        attrs.policy_reads(),
        attrs.no_da(),
        attrs.is_written(),
        attrs.is_writable(),
        attrs.is_readable(),
        attrs.is_undefinable(),
    ]
}

// Whether the bytes are a digest, and whether they are a Name.
fn sized(bytes: &[u8]) -> [bool; 2] {
    [Digest::new(bytes).is_some(), Name::new(bytes).is_some()]
}

// Whether so many digests are a list of TPM2_PCR_Read, whether they are one of TPM2_PolicyOR,
// and whether so many numbers are one to three.
fn listed(count: usize) -> [bool; 3] {
    let mut entries = ArrayVec::<Digest, 9>::new();
    let mut numbers = ArrayVec::<u16, 9>::new();
    for _ in 0..count {
        let _ = entries.try_push(Digest::default());
        let _ = numbers.try_push(1);
    }
    [
        Digests::new(entries.as_slice()).is_some(),
        OrDigests::new(entries.as_slice()).is_some(),
        Counted::<u16, 1, 3>::new(numbers.as_slice()).is_some(),
    ]
}

// The lengths below 50 that are those of a digest of the hash: a bit for each.
fn lengths(hash: Alg) -> u64 {
    let mut bits = 0;
    for count in 0..50 {
        if HashedDigest::new(hash, &[0x11; 50][..count]).is_some() {
            bits |= 1 << count;
        }
    }
    bits
}

#[test]
fn numbers_are_answered(rt: HostRuntime) {
    let lines = "
        # Of handle, parameter and session 1 to 3.
        handle 1 100
        handle 2 200
        handle 3 300
        parameter 1 140
        parameter 2 240
        parameter 3 340
        session 1 900
        session 2 a00
        session 3 b00
        # The bytes of a digest and of a block, and a bit for each length of digests that is taken.
        hash 0004 0004
        digest 0004 14
        block 0004 40
        lengths 0004 100000
        hash 000b 000b
        digest 000b 20
        block 000b 40
        lengths 000b 100000000
        hash 000c 000c
        digest 000c 30
        block 000c 80
        lengths 000c 1000000000000
        hash 000d -
        startup 0001 0001
        pcr 17 17
        pcr 18 -
        # Handles of one kind or another.
        pcr-or-null 00000010 10
        pcr-or-null 40000007 40000007
        pcr-or-null 00000018 -
        pcr-or-null 40000001 -
        nv-auth 40000001 40000001
        nv-auth 01800001 1800001
        nv-auth 4000000c -
        nv-auth 40000007 -
        nv-auth 02000000 -
        bind 40000001 40000001
        bind 40000007 40000007
        bind 01800001 -
        bind 40000009 -
        # `nv`: a bit for each, the highest for counter; writes: owner, auth, policy; reads: owner, auth, policy; no_da,
        # written; writable, readable, undefinable.
        nv 00000000 000
        # PPWRITE, OWNERWRITE, AUTHWRITE, POLICYWRITE
        nv 00000001 004
        nv 00000002 404
        nv 00000004 204
        nv 00000008 104
        # TPM_NT: counter, bits, extend, pin fail
        nv 00000010 800
        nv 00000020 000
        nv 00000040 000
        nv 00000090 000
        # POLICY_DELETE, WRITELOCKED, WRITEALL to GLOBALLOCK
        nv 00000400 001
        nv 00000800 001
        nv 0000f000 000
        # PPREAD, OWNERREAD, AUTHREAD, POLICYREAD
        nv 00010000 002
        nv 00020000 082
        nv 00040000 042
        nv 00080000 022
        # NO_DA, ORDERLY, CLEAR_STCLEAR, READLOCKED, WRITTEN, PLATFORMCREATE, READ_STCLEAR
        nv 02000000 010
        nv 04000000 001
        nv 08000000 001
        nv 10000000 001
        nv 20000000 009
        nv 40000000 001
        nv 80000000 000
        # a counter of the owner and its own value, before and after its first increment
        nv 02060016 ed6
        nv 22060016 edf
        written 02060016 22060016
        written 20000010 20000010
        # `attributes`: a bit for continueSession, and one for what audits or encrypts.
        attributes 00 0
        attributes 01 2
        attributes 02 1
        attributes 04 1
        attributes 20 1
        attributes 41 3
        attributes 80 1
        # `sized`: a bit for a digest and one for a Name. `listed`: for the digests of TPM2_PCR_Read, for those of
        # TPM2_PolicyOR, and for one to three numbers.
        sized 00 3
        sized 30 3
        sized 31 1
        sized 32 1
        sized 33 0
        listed 0 4
        listed 1 5
        listed 2 7
        listed 3 7
        listed 4 6
        listed 8 6
        listed 9 0
    ";
    for line in lines.lines() {
        let line = line.trim();
        let is_said = line.is_empty() || line.starts_with('#');
        assert!(rt; is_said || is_so(line) == Some(true), "{line}");
    }
}
