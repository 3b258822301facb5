//! What registers do and hold.
//!
//! - `event REGISTER BYTES DIGESTS`: the digests of the event with these bytes, with which the register is extended.
//! - `reset REGISTER CODE`: a register is reset with this code, 0 where it is done.
//! - `starts-at-3`: the locality of the start is 3.
//! - `register HASH REGISTER BYTES`: the value of a register, and `updates COUNT` the update counter.
//! - `composite HASH SELECTIONS BYTES`: the digest over selected registers.
//! - `select SELECTIONS READ COUNT`: which of them are read, and how many values there are.
//!
//! Other lines are told in `session_scripts`.

use crate::tests::session_calls::code;
use crate::tests::session_scripts::run;
use std::test::*;
use tpm_pcr::{Locality, Registers};
use tpm_testing::{is_spelled, next_bytes, next_number, next_value};
use tpm_types::{Alg, PcrIndex, Selections};
use tpm_wire::Buffer;

/// Whether what the line says of registers is so.
pub fn are_registers(registers: &mut Registers, asked: &str, mut rest: &str) -> bool {
    match asked {
        "starts-at-3" => {
            registers.start_at(Locality::Three);
            true
        }
        "updates" => registers.update_counter() == next_number(&mut rest),
        "event" => is_measured(registers, rest),
        "reset" => match next_value::<PcrIndex>(&mut rest) {
            Some(register) => code(registers.reset(register)) == next_number(&mut rest),
            None => false,
        },
        "register" => match (
            next_value::<Alg>(&mut rest),
            next_value::<PcrIndex>(&mut rest),
        ) {
            (Some(alg), Some(register)) => {
                is_spelled(registers.read(alg, register).as_slice(), rest)
            }
            _ => false,
        },
        _ => are_selected(registers, asked, rest),
    }
}

fn is_measured(registers: &mut Registers, mut rest: &str) -> bool {
    let Some(register) = next_value::<PcrIndex>(&mut rest) else {
        return false;
    };
    let mut all = Buffer::new();
    if let Ok(digests) = registers.event(register, next_bytes(&mut rest).as_slice()) {
        for digest in digests.as_slice() {
            let _ = all.try_extend_from_slice(digest.digest());
        }
    }
    is_spelled(all.as_slice(), rest)
}

fn are_selected(registers: &Registers, asked: &str, mut rest: &str) -> bool {
    match asked {
        "composite" => {
            let Some(alg) = next_value::<Alg>(&mut rest) else {
                return false;
            };
            let selections = next_value::<Selections>(&mut rest).unwrap_or_default();
            is_spelled(registers.composite(alg, &selections).as_slice(), rest)
        }
        "select" => {
            let selections = next_value::<Selections>(&mut rest).unwrap_or_default();
            let expected = next_value::<Selections>(&mut rest).unwrap_or_default();
            let (read, values) = registers.select(&selections);
            read.as_slice() == expected.as_slice()
                && values.as_slice().len() == next_number(&mut rest) as usize
        }
        _ => false,
    }
}

#[test]
fn registers_are_extended_reset_and_selected(rt: HostRuntime) {
    run(
        &rt,
        "
        # An event is hashed and extended in each bank. The digests of SHA-384 are those of Python's hashlib.
        new
        event 00000000 00000000 9069ca78e7450a285173431b3e52c5c25299e473 df3f619804a92fdb4057192dc43dd748ea778adc52bc498ce80524c014b81119 394341b7182cd227c5c6b07ef8000cdfd86136c4292b8e576573ad7ed9ae41019f5818b4b971c9effc60e1ad9f1289f0
        register 0004 00000000 b2a83b0ebf2f8374299a5b2bdfc31ea955ad7236
        register 000b 00000000 3d458cfe55cc03ea1f443f1562beec8df51c75e14a9fcf9a7234a13f198e7969
        register 000c 00000000 518923b0f955d08da077c96aaba522b9decede61c599cea6c41889cfbea4ae4d50529d96fe4d1afdafb65e7f95bf23c4
        updates 1
        # A digest leaves the other banks and the other registers. The value of the second bank is the SHA-256 of 64
        # zero bytes.
        new
        command 0 8002 00000041 00000182 00000000 00000009 40000009 0000 01 0000 00000001 000b 0000000000000000000000000000000000000000000000000000000000000000
        command 907 8002 00000041 00000182 00000011 00000009 40000009 0000 01 0000 00000001 000b 0000000000000000000000000000000000000000000000000000000000000000
        updates 1
        register 0004 00000000 0000000000000000000000000000000000000000
        register 000b 00000000 f5a5fd42d16a20302798ef6ed309979b43003d2320d9f0e8ea9831a92759fb4b
        register 000c 00000000 000000000000000000000000000000000000000000000000000000000000000000000000000000000000000000000000
        register 000b 00000016 ffffffffffffffffffffffffffffffffffffffffffffffffffffffffffffffff
        # A register that may be reset alone is.
        new
        reset 00000000 907
        reset 00000010 0
        updates 1
        # A start-up locality is the last byte in each bank.
        new
        starts-at-3
        register 0004 00000000 0000000000000000000000000000000000000003
        register 000b 00000000 0000000000000000000000000000000000000000000000000000000000000003
        register 000c 00000000 000000000000000000000000000000000000000000000000000000000000000000000000000000000000000000000003
        # A selection of each bank. The composite is that of Python's hashlib.
        new
        event 00000000 00000000 9069ca78e7450a285173431b3e52c5c25299e473 df3f619804a92fdb4057192dc43dd748ea778adc52bc498ce80524c014b81119 394341b7182cd227c5c6b07ef8000cdfd86136c4292b8e576573ad7ed9ae41019f5818b4b971c9effc60e1ad9f1289f0
        composite 000b 00000003000403010000000b03010000000c03010000 dcf7a2fedc937c122345a606a75b90a7151545b6ba2efb80e72c2deed383b2b5
        # No more than eight registers are read.
        select 00000002000b0301ffff00040301ffff 00000002000b03017f00000403000000 8
        ",
    );
}
