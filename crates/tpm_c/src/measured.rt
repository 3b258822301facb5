//! Which part of a record's data was measured (PC Client Platform Firmware Profile, "Event Types").

ghost use Rattle.std.specs.Prelude.{◌≡◌};
ghost use Rattle.tpm_types.specs.Alg.{alg_of};
ghost use Rattle.tpm_c.specs.Measured.{part_number, measured_number};

use crate::quote::NO_BANK;
use arrayvec::ArrayVec;
use tpm_event_data::{Event, MeasuredPart};
use tpm_types::Alg;

/// The number of a part.
pub(crate) fn part_number(part: MeasuredPart) -> u32
    ensures { result ≡ part_number part }
{
    match part {
        MeasuredPart::Data => 36,
        MeasuredPart::Variable => 37,
        MeasuredPart::Text => 38,
        MeasuredPart::Cut => 39,
        MeasuredPart::Other => 40,
    }
}

/// Tells which part of these bytes, the data of a record of this type, this digest is of, in the bank of this hash
/// (`Event::measured_part`): 36 for all of them, 37 for the value of the variable that they are, 38 for the text behind
/// a prefix of GRUB, 39 for all but the last byte, and 40 for none of these. It answers 18 for a hash that has no bank.
#[unsafe(no_mangle)]
pub extern "C" fn tpm_log_measured(kind: u32, bytes: &[u8], hash: u16, digest: &[u8]) -> u32
    ensures { result ≡ measured_number (alg_of hash) kind digest.now bytes.now }
{
    let Some(bank) = Alg::from_number(hash) else {
        return NO_BANK;
    };
    let mut digests = ArrayVec::new();
    digests.push((hash, digest));
    let event = Event {
        register: 0,
        kind,
        digests,
        event: bytes,
    };
    part_number(event.measured_part(&[bank]))
}
