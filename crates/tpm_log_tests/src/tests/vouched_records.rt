//! What a quote vouches for in a record, and lists of allowed digests. The digests are those of Python's hashlib.

use crate::tests::log_parsed::LOGS;
use crate::tests::quote_attests::lacks;
use crate::tests::rows::{Asked, Row, event, made, rows};
use std::test::*;
use tpm_event_data::Event;
use tpm_log::Log;
use tpm_testing::word;
use tpm_types::{Alg, HashedDigest, PcrIndex, Selections, register};
use tpm_vouched::laws::{allowed_by_the_log, allowed_by_the_quote, vouched_of_the_log};
use tpm_vouched::{AllowList, AllowedDigest, VouchedPart, vouched};
use tpm_wire::{Cursor, Wire};

// COMMAND is "grub_cmd: set root" and a zero. SHA1 is of what is behind the prefix, SHA256 of all of it, and SHA384 of
// "else". SEPARATOR is SHA-256's of four zeros.
const BYTES: &str = "
    COMMAND 677275625f636d643a2073657420726f6f7400
    SHA1 371a26dd159e7cb0f928b1422d08217f73229581
    SHA256 373def3256a71795fccf7a3e228b3b8ddf8a89752c4bf8ac7caee56444370385
    SHA384 325fafd93828f9401f7e58092a925559712c06671f8c8bdbee044dbb8af6014cc8f46e0a1b2cede32178d33d90ba1a3a
    ZEROS 0000000000000000000000000000000000000000000000000000000000000000
    SEPARATOR df3f619804a92fdb4057192dc43dd748ea778adc52bc498ce80524c014b81119
";

// The selections that the bytes left spell.
fn selections(row: &mut Row<'_>) -> Selections {
    let bytes = row.rest();
    let read = Selections::take(&mut Cursor::new(bytes.as_slice()));
    row.known(read.ok())
}

// The register and the type of a record, with the command and digests of SHA-384, SHA-1 and SHA-256; and what is
// quoted, where it is told what is vouched: each part is a bank, and what its digest is of. Else the banks are told of
// which its digest isn't allowed.
struct Records;

impl Asked for Records {
    fn ask(row: &mut Row<'_>) {
        let command = row.of("COMMAND");
        let sha384 = row.of("SHA384");
        let sha1 = row.of("SHA1");
        let sha256 = row.of("SHA256");
        let digests = [
            (0x000C, sha384.as_slice()),
            (0x0004, sha1.as_slice()),
            (0x000B, sha256.as_slice()),
        ];
        let register = row.number();
        let kind = row.code();
        is_known(row, &event(register, kind, &digests, command.as_slice()));
    }
}

fn is_known(row: &mut Row<'_>, event: &Event<'_>) {
    match word(&mut row.told) {
        "vouched" => {
            let quoted = selections(row);
            are_vouched(row, vouched(quoted.as_slice(), event).as_slice());
        }
        _ => {
            let mut digests = digests(row);
            row.are_banks(AllowList::new(&mut digests).unknown(event).as_slice());
        }
    }
}

fn are_vouched(row: &mut Row<'_>, parts: &[VouchedPart]) {
    for part in parts {
        row.is_code(part.bank.number() as u64);
        row.prints(part.part);
    }
}

fn allowed(row: &mut Row<'_>, bank: Alg, register: PcrIndex, digest: &str) -> AllowedDigest {
    let bytes = row.of(digest);
    AllowedDigest {
        register,
        digest: row.known(HashedDigest::new(bank, bytes.as_slice())),
    }
}

// The digests that are allowed.
fn digests(row: &mut Row<'_>) -> [AllowedDigest; 6] {
    [
        allowed(row, Alg::Sha256, register(9), "ZEROS"),
        allowed(row, Alg::Sha256, register(8), "ZEROS"),
        allowed(row, Alg::Sha256, register(8), "SHA256"),
        allowed(row, Alg::Sha1, register(8), "SHA1"),
        allowed(row, Alg::Sha256, register(8), "ZEROS"),
        allowed(row, Alg::Sha1, register(4), "SHA1"),
    ]
}

// What is quoted, and the first register of the list that isn't.
struct Lacks;

impl Asked for Lacks {
    fn ask(row: &mut Row<'_>) {
        let mut digests = digests(row);
        let quoted = selections(row);
        match AllowList::new(&mut digests).first_not_selected(&quoted) {
            Some(found) => lacks(row, found),
            None => row.is("none"),
        }
    }
}

// A list of one digest of SHA-256, for this register, beside the log that extends register 7 by SEPARATOR alone.
struct OfLog;

impl Asked for OfLog {
    fn ask(row: &mut Row<'_>) {
        let register = row.register();
        let mut digests = [allowed(row, Alg::Sha256, register, row.given)];
        let bytes = row.known(made(LOGS, "WORKED"));
        match Log::parse(bytes.as_slice()) {
            Ok(log) => row.prints(AllowList::new(&mut digests).allows_log(&log)),
            Err(_) => row.holds(false),
        }
    }
}

// A hash and a register, and a digest; whether the list names the first two, and whether it allows them all. Then its
// digests are told in their order, each by its bank and register.
struct Named;

impl Asked for Named {
    fn ask(row: &mut Row<'_>) {
        let bank = row.bank();
        let register = row.register();
        let digest = row.rest();
        let mut digests = digests(row);
        let list = AllowList::new(&mut digests);
        row.prints(list.names(bank, register));
        row.prints(list.allows(bank, register, digest.as_slice()));
        for found in list.digests() {
            row.is_code(found.digest.hash().number() as u64);
            row.prints(found.register.number());
        }
    }
}

#[test]
fn each_bank_vouches_for_its_digests_and_a_list_allows_those_of_its_registers_alone(
    rt: HostRuntime,
) {
    rows::<Records>(
        &rt,
        BYTES,
        "
        8 d 00000003 0004 03000100 000b 03000100 000c 03000100 is vouched 4 Text b Data c Other
        8 d 00000002 000c 03000100 000b 03000300 is vouched b Data c Other
        9 d 00000002 000c 03000100 000b 03000300 is vouched b Data
        9 d 00000003 0004 03000100 000b 03000100 000c 03000100 is vouched
        0 d 00000002 000c 03000100 000b 03000300 is vouched
        32 d 00000003 0004 03000100 000b 03000100 000c 03000100 is vouched
        8 3 00000003 0004 03000100 000b 03000100 000c 03000100 is vouched
        8 d 00000000 is vouched
        ",
    );
    vouched_of_the_log();
    rows::<Records>(
        &rt,
        BYTES,
        "
        8 d is unknown
        9 d is unknown b
        4 d is unknown
        7 d is unknown
        9 3 is unknown
        ",
    );
    rows::<Lacks>(
        &rt,
        BYTES,
        "
        00000001 0004 03000100 is 4 4
        00000002 000b 03000100 0004 03100100 is b 9
        00000002 0004 03100100 000b 03000300 is none
        ",
    );
    allowed_by_the_log();
    allowed_by_the_quote();
    rows::<OfLog>(
        &rt,
        BYTES,
        "
        7 SEPARATOR is true
        7 ZEROS is false
        8 ZEROS is true
        ",
    );
    rows::<Named>(
        &rt,
        BYTES,
        "
        000b 9 ZEROS is true true 4 4 4 8 b 8 b 8 b 8 b 9
        0004 9 SHA1 is false false 4 4 4 8 b 8 b 8 b 8 b 9
        000b 8 SHA256 is true true 4 4 4 8 b 8 b 8 b 8 b 9
        # a digest of another register, and of another bank
        000b 9 SHA256 is true false 4 4 4 8 b 8 b 8 b 8 b 9
        000c 8 ZEROS is false false 4 4 4 8 b 8 b 8 b 8 b 9
        ",
    );
}
