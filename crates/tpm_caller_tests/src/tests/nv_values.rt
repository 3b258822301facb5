//! What counters do and hold, and NV memory as the bytes in which it is kept. Those bytes are of Python's struct and
//! hashlib.
//!
//! - `counters GREATEST`: from here on, no counters where this is the greatest value that one has had.
//! - `define PUBLIC AUTH CODE` and `undefine INDEX CODE`: this TPM2B_NV_PUBLIC is defined with this authorization
//!   value, or an index undefined, with this code, 0 where it is done.
//! - `increment INDEX TIMES CODE VALUE`: the last of so many increments by the owner has this code or this value.
//! - `read INDEX BY SIZE OFFSET BYTES`: what the `owner` or the `index` reads, or `refused`.
//! - `auth INDEX BYTES`, `name INDEX BYTES`, `attributes INDEX NUMBER`: what an index has.
//! - `first VALUE ATTRIBUTES`: what the first counter has beside an authorization value.
//! - `keeps BYTES`: the bytes of NV memory, and of what is read of them.
//! - `refused CODE POSITION BYTES`: these bytes are no NV memory, with this fault.
//!
//! Other lines are told in `session_scripts`.

use crate::tests::session_calls::code;
use crate::tests::session_scripts::run;
use std::test::*;
use tpm_nv::{By, Counters, KEPT_BYTES};
use tpm_testing::{bytes, is_spelled, next_number, next_value, spelled, word};
use tpm_types::{NvIndex, NvPublic};
use tpm_wire::response_code::INTEGRITY;
use tpm_wire::{Buffer, Refusal, Wire};

/// Whether what the line says of counters is so.
pub fn are_counters(counters: &mut Counters, asked: &str, mut rest: &str) -> bool {
    match asked {
        "counters" => match next_value::<u64>(&mut rest) {
            Some(greatest) => {
                *counters = Counters::new(greatest);
                true
            }
            None => false,
        },
        "define" => is_defined(counters, rest),
        "first" => is_first(counters, rest),
        "keeps" => is_kept_as(counters, spelled(rest).as_slice()),
        "refused" => is_refused(rest),
        _ => match next_value::<NvIndex>(&mut rest) {
            Some(index) => is_counter(counters, index, asked, rest),
            None => false,
        },
    }
}

fn is_defined(counters: &mut Counters, mut rest: &str) -> bool {
    match (next_value::<NvPublic>(&mut rest), bytes(word(&mut rest))) {
        (Some(public), Some(auth)) => {
            let defined = counters.define(&public, auth.as_slice());
            code(defined) == next_number(&mut rest)
        }
        _ => false,
    }
}

fn is_first(counters: &Counters, mut rest: &str) -> bool {
    match counters.as_slice().first() {
        Some(counter) => {
            counter.has_auth()
                && counter.value().is_some()
                && counter.value() == next_value::<u64>(&mut rest)
                && counter.public().attrs.number() == next_number(&mut rest)
        }
        None => false,
    }
}

fn is_counter(counters: &mut Counters, index: NvIndex, asked: &str, mut rest: &str) -> bool {
    match asked {
        "undefine" => code(counters.undefine(index)) == next_number(&mut rest),
        "increment" => is_incremented(counters, index, rest),
        "read" => is_read(counters, index, rest),
        "auth" => match counters.auth(index) {
            Some(auth) => is_spelled(auth, rest),
            None => false,
        },
        "name" => is_spelled(counters.name(index).unwrap_or_default().as_slice(), rest),
        "attributes" => match counters.public(index) {
            Some(public) => public.attrs.number() == next_number(&mut rest),
            None => false,
        },
        _ => false,
    }
}

fn is_incremented(counters: &mut Counters, index: NvIndex, mut rest: &str) -> bool {
    let mut last = Ok(0);
    for _ in 0..next_number(&mut rest) {
        last = counters.increment(index, By::Owner);
    }
    let code = next_number(&mut rest);
    match last {
        Ok(value) => code == 0 && value == next_number(&mut rest) as u64,
        Err(refused) => code == refused,
    }
}

fn is_read(counters: &Counters, index: NvIndex, mut rest: &str) -> bool {
    let by = match word(&mut rest) {
        "owner" => By::Owner,
        "index" => By::Index(index),
        _ => return false,
    };
    let size = next_value::<u16>(&mut rest).unwrap_or(0);
    let offset = next_value::<u16>(&mut rest).unwrap_or(0);
    match counters.read(index, by, size, offset) {
        Ok(bytes) => is_spelled(bytes.as_slice(), rest),
        Err(_) => rest == "refused",
    }
}

// The bytes of NV memory.
fn kept(memory: &Counters) -> Buffer {
    let mut out = Buffer::new();
    prove!(memory.len() <= KEPT_BYTES);
    memory.put(&mut out);
    out
}

// Whether these counters are kept as the bytes, which are read back and kept so again.
fn is_kept_as(memory: &Counters, expected: &[u8]) -> bool {
    match Counters::from_bytes(expected) {
        Ok(again) => {
            kept(memory).as_slice() == expected
                && kept(&again).as_slice() == expected
                && again.greatest() == memory.greatest()
                && again.as_slice().len() == memory.as_slice().len()
        }
        Err(_) => false,
    }
}

fn is_refused(mut rest: &str) -> bool {
    let code = next_number(&mut rest);
    let at = next_number(&mut rest);
    let found = Counters::from_bytes(spelled(rest).as_slice()).err();
    found == Some(Refusal { code, at })
}

#[test]
fn counters_are_defined_incremented_and_kept(rt: HostRuntime) {
    run(
        &rt,
        "
        # No counter
        keeps 564a4e5600010000000000000000000000002c920380d3669758ecb9ec35f4462026eabd9150cc121a316513eca5b2efe9e1
        counters ffffffffffffffff
        keeps 564a4e560001ffffffffffffffff00000000cd135684a425dfd3abded7c9ecbc6deb93c2851b2eda9f053e6ff010e1c06161
        # A counter before and after its first increment
        counters 0000000000000007
        define 000e01800001000b0206001600000008 6b657900 0
        keeps 564a4e560001000000000000000700000001000e01800001000b020600160000000800036b657965b8a14e1d38158b3bebf399de09fe0c6a5d46bf46034ecc93afc746ed3290cc
        increment 01800001 1 0 8
        keeps 564a4e560001000000000000000800000001000e01800001000b220600160000000800036b65790000000000000008d07ce11e424ba005478e47421b6265c7c619f13eb1663d1ddb14e6766bcedb53
        first 0000000000000008 22060016
        # Eight counters are defined once, and no ninth. The k-th is incremented k times, and has an authorization value
        # of k bytes.
        counters 0000000000000064
        define 000e01800000000b0206001600000008 - 0
        define 000e01800000000b0206001600000008 - 14c
        define 000e01800001000b0206001600000008 61 0
        define 000e01800001000b0206001600000008 - 14c
        increment 01800001 1 0 65
        define 000e01800002000b0206001600000008 6161 0
        define 000e01800002000b0206001600000008 - 14c
        increment 01800002 2 0 67
        define 000e01800003000b0206001600000008 616161 0
        define 000e01800003000b0206001600000008 - 14c
        increment 01800003 3 0 6a
        define 000e01800004000b0206001600000008 61616161 0
        define 000e01800004000b0206001600000008 - 14c
        increment 01800004 4 0 6e
        define 000e01800005000b0206001600000008 6161616161 0
        define 000e01800005000b0206001600000008 - 14c
        increment 01800005 5 0 73
        define 000e01800006000b0206001600000008 616161616161 0
        define 000e01800006000b0206001600000008 - 14c
        increment 01800006 6 0 79
        define 000e01800007000b0206001600000008 61616161616161 0
        define 000e01800007000b0206001600000008 - 14c
        increment 01800007 7 0 80
        define 000e01800008000b0206001600000008 - 14b
        keeps 564a4e560001000000000000008000000008000e01800000000b02060016000000080000000e01800001000b22060016000000080001610000000000000065000e01800002000b2206001600000008000261610000000000000067000e018000 03000b22060016000000080003616161000000000000006a000e01800004000b2206001600000008000461616161000000000000006e000e01800005000b2206001600000008000561616161610000000000000073000e01800006000b220600 160000000800066161616161610000000000000079000e01800007000b22060016000000080007616161616161610000000000000080ffc35a005b262a86750a9fc8c6bf31075ae05abb326024610e7720d276c88884
        # A counter that is defined again goes on.
        counters 0000000000000000
        increment 01800001 1 8b
        define 000e01800001000b0206001600000008 6100 0
        auth 01800001 61
        increment 01800001 1 0 1
        increment 01800001 1 0 2
        increment 01800001 1 0 3
        undefine 01800001 0
        define 000e01800001000b0206001600000008 - 0
        increment 01800001 1 0 4
        read 01800001 index 0002 0006 0004
        read 01800001 owner 0008 0001 refused
        # A Name changes with the first increment: the SHA-256 of 01800001 000B 02060016 0000 0008 behind 000B, and then
        # with WRITTEN set, 22060016.
        counters 0000000000000029
        name 01800001 -
        define 000e01800001000b0206001600000008 - 0
        name 01800001 000b6cc3923be0a3f8fb590381ef572345c85bdc934addbf43f628136f1405b85fd6
        increment 01800001 1 0 2a
        name 01800001 000b07ee786a71c60bb938983992b82875024062d8448ca92c1ceac2c7956b686103
        increment 01800001 1 0 2b
        name 01800001 000b07ee786a71c60bb938983992b82875024062d8448ca92c1ceac2c7956b686103
        attributes 01800001 22060016
        ",
    );
}

#[test]
fn other_bytes_are_refused_with_the_first_fault(rt: HostRuntime) {
    assert!(rt; INTEGRITY == 0x09F);
    run(
        &rt,
        "
        # another magic number
        refused 84 0 564a4e570001000000000000000800000000a9cca351f1ae943f3c5e9fb65fd5d99b7568c3e4887ed7600dad20917f9e54b2
        # another version
        refused 84 4 564a4e56000200000000000000080000000052ed838c61b48bfef3201bc02af3fecd657777347cbbe698ec4ac538120f6320
        # nine counters
        refused 95 e 564a4e56000100000000000000080000000968eba09177df6b10c390cae312d8338aecf3285ea724112e64032fa05955b08a
        # an attribute that is reserved
        refused a1 1a 564a4e560001000000000000000800000001000e01800001000b220601160000000800036b65790000000000000008d5558692486f671a6b17308b57dbca0b77 94491907cb2be5ed37a72f68871df3
        # POLICY_DELETE
        refused 82 22 564a4e560001000000000000000800000001000e01800001000b220604160000000800036b65790000000000000008308016b7d339eef2a5c1fa0c5256b21e7d f8270cb3dfd59c1d648018822e8adf
        # no counter
        refused 82 22 564a4e560001000000000000000800000001000e01800001000b220600060000000800036b657900000000000000088816b90fd95b011c113012008c6b8a2247 388f7b5dbe7b012412296b2abf759e
        # a policy of five bytes
        refused 95 27 564a4e560001000000000000000800000001001301800001000b2206001600050101010101000800036b65790000000000000008275194af37fb6c86010a0c39 e098c7fc30978f3885df4287b1a134d620ac1ea2
        # a value of nine bytes
        refused 95 22 564a4e560001000000000000000800000001000e01800001000b220600160000000900036b657900000000000000089a0cf04358284cb3640a94ee04dad5b14d c204cc3a57c56082d019965a39b1c6
        # an authorization value of 33 bytes
        refused 95 45 564a4e560001000000000000000800000001000e01800001000b220600160000000800216b6b6b6b6b6b6b6b6b6b6b6b6b6b6b6b6b6b6b6b6b6b6b6b6b6b6b6b 6b6b6b6b6b00000000000000083fea1f8e7c113fb2b7ebb995c1c9c415d874ef1f71e3fabc14f2588c35a42290
        # trailing zeros
        refused 84 26 564a4e560001000000000000000800000001000e01800001000b220600160000000800026b000000000000000008662367003fb976bdeccc87cbee25dfa98627 e6191d17ff6d46acc2d9b974fb07
        # WRITTEN and a value of 0
        refused 84 27 564a4e560001000000000000000800000001000e01800001000b220600160000000800036b6579000000000000000009a6011a9b558bc074615d8a34cf64e171 d7088a5326c69b08995918648fa2cb
        # a value without WRITTEN
        refused 9f 27 564a4e560001000000000000000800000001000e01800001000b020600160000000800036b65790000000000000008b7b3e1a1974e7fc3a13a150a2691db0e51 8c59fb7035dcf6034f687f95eb0288
        # WRITTEN without a value, which are then bytes of the digest
        refused 146 2f 564a4e560001000000000000000800000001000e01800001000b220600160000000800036b657902b4b580c6a4a949b88ee880d39a53d16164df3610f7d0e0be 3045dfb683a4db
        # a value above the greatest
        refused 146 2f 564a4e560001000000000000000700000001000e01800001000b220600160000000800036b657900000000000000089a739ad86111b1dd5c857d8148b2016fe8 ad7ca62d64304c701a406c22dcd5be
        # an index that is there twice
        refused 14c 41 564a4e560001000000000000000800000002000e01800001000b220600160000000800036b65790000000000000008000e01800001000b020600160000000800 007e6d4c8a4a9d587ca61ada0d15aebe5981c3fcbdbfba449e1e0313f211e90b97
        # a digest with its last bit changed
        refused 9f 2f 564a4e560001000000000000000800000001000e01800001000b220600160000000800036b65790000000000000008d07ce11e424ba005478e47421b6265c7c6 19f13eb1663d1ddb14e6766bcedb52
        # a greatest value that was changed
        refused 9f 2f 564a4e560001000000000000000900000001000e01800001000b220600160000000800036b65790000000000000008d07ce11e424ba005478e47421b6265c7c6 19f13eb1663d1ddb14e6766bcedb53
        # one byte less
        refused 9a 2f 564a4e560001000000000000000800000001000e01800001000b220600160000000800036b65790000000000000008d07ce11e424ba005478e47421b6265c7c6 19f13eb1663d1ddb14e6766bcedb
        # one byte more
        refused 95 4f 564a4e560001000000000000000800000001000e01800001000b220600160000000800036b65790000000000000008d07ce11e424ba005478e47421b6265c7c6 19f13eb1663d1ddb14e6766bcedb5300
        # no byte
        refused 9a 0 -
        ",
    );
}

#[test]
fn more_bytes_than_any_has_are_refused_behind_the_digest(rt: HostRuntime) {
    let memory = kept(&Counters::new(5));
    let mut long = [0; 5000];
    let front = &mut long[..50];
    if memory.as_slice().len() == 50 {
        front.copy_from_slice(memory.as_slice());
    }
    let found = Counters::from_bytes(&long).err();
    assert!(rt; found == Some(Refusal { code: 0x95, at: 50 }));
}
