//! Quotes from their bytes, beside the registers after a log.

use crate::tests::log_parsed::LOGS;
use crate::tests::rows::{Asked, Row, made, rows};
use std::test::*;
use tpm_log::replay;
use tpm_quote::{check_quote, decode_quote};
use tpm_types::QuoteInfo;
use tpm_wire::Refusal;

// QUOTE is pcrSelect, of which the one entry has register 23 of SHA-256, and pcrDigest, of its value after the log
// ORDER: that of Python's hashlib.
const BYTES: &str = "
    QUOTE 00000001000b030000800020bb5c9868d7d8a015741984a3fbc8292faf5870e68ad369ca4e54c08d1ebba050
    DIGEST bb5c9868d7d8a015741984a3fbc8292faf5870e68ad369ca4e54c08d1ebba050
";

// A code, and its place.
pub(crate) fn is_refusal(row: &mut Row<'_>, refusal: Refusal) {
    row.is("refused");
    row.is_code(refusal.code as u64);
    row.prints(refusal.at);
}

// Each selection, and the digest.
pub(crate) fn is_quote(row: &mut Row<'_>, quote: &QuoteInfo) {
    for selection in quote.selections.as_slice() {
        row.is_code(selection.hash.number() as u64);
        row.has(&selection.select);
    }
    row.has(quote.digest.as_slice());
}

struct Quotes;

impl Asked for Quotes {
    fn ask(row: &mut Row<'_>) {
        match decode_quote(row.rest().as_slice()) {
            Ok(quote) => is_quote(row, &quote),
            Err(refusal) => is_refusal(row, refusal),
        }
    }
}

// No entry and an empty digest, and more behind it than a buffer has.
#[test]
fn more_than_a_buffer_has_is_refused(rt: HostRuntime) {
    let zeros = decode_quote(&[0; 5000]).err();
    let ones = decode_quote(&[0xff; 5000]).err();
    assert!(rt; zeros == Some(Refusal { code: 0x95, at: 6 }));
    assert!(rt; ones == Some(Refusal { code: 0x95, at: 0 }));
}

// A log, a hash, and a quote.
struct Beside;

impl Asked for Beside {
    fn ask(row: &mut Row<'_>) {
        let log = made(LOGS, row.word());
        let log = row.known(log);
        let bank = row.bank();
        let bytes = row.rest();
        match (replay(log.as_slice()), decode_quote(bytes.as_slice())) {
            (Ok(registers), Ok(quote)) => row.prints(check_quote(&registers, &quote, bank)),
            _ => row.holds(false),
        }
    }
}

#[test]
fn a_quote_is_decoded_and_matches_the_registers_after_its_log(rt: HostRuntime) {
    rows::<Quotes>(
        &rt,
        BYTES,
        "
        QUOTE is b 000080 DIGEST
        - is refused 9a 0
        # four entries
        00000004 is refused 95 0
        # an unknown hash, and four bytes of bits
        000000010010 is refused 83 4
        00000001000b04 is refused 84 6
        # a digest that is not there, that has more than 48 bytes, and of which one is not there
        00000001000b03000080 is refused 9a 10
        000000000031 is refused 95 4
        000000000002aa is refused 9a 6
        # a byte behind it
        000000000002aabb00 is refused 95 8
        ",
    );
    rows::<Beside>(
        &rt,
        BYTES,
        "
        ORDER 000b QUOTE is true
        ORDER 000c QUOTE is false
        HEADER 000b QUOTE is false
        # another register, and another digest
        ORDER 000b QUOTE 9=40 is false
        ORDER 000b QUOTE 43=51 is false
        ",
    );
}
