//! What a quote vouches for in a record of a log.

ghost use Rattle.std.specs.Prelude.{◌≡◌, [], ◌∷◌};
ghost use Rattle.tpm_wire.specs.Reading.{read_all};
ghost use Rattle.tpm_types.specs.Alg.{alg_of};
ghost use Rattle.tpm_types.specs.Tpml.{selections as selections_layout};
ghost use Rattle.tpm_c.specs.Vouched.{first_number, vouched_number};

use crate::attest::REQUIREMENT;
use crate::measured::part_number;
use crate::policy::selections_in;
use crate::quote::NO_BANK;
use arrayvec::ArrayVec;
use tpm_event_data::Event;
use tpm_types::Alg;
use tpm_vouched::{VouchedPart, vouched};

fn first_number(found: &[VouchedPart]) -> u32
    ensures { result ≡ first_number found.now }
{
    match found {
        [] => 0,
        [first, ..] => part_number(first.part),
    }
}

/// Tells what a quote with these selections, a TPML_PCR_SELECTION (Part 2, 10.9.7), vouches for in a record of this
/// register and type, of these data, by its digest in the bank of this hash (`tpm_vouched::vouched`): the part of the
/// data that the digest is of, 36 to 40 as `tpm_log_measured` tells it, where 40 is the digest alone. It answers 0
/// where the quote vouches for nothing of it: the register isn't selected in the bank, or the type is EV_NO_ACTION. 18
/// is for a hash that has no bank, and then 22 for bytes that are no selection.
#[unsafe(no_mangle)]
pub extern "C" fn tpm_log_vouched(
    selections: &[u8],
    pcr: u32,
    kind: u32,
    bytes: &[u8],
    hash: u16,
    digest: &[u8],
) -> u32
    ensures { result ≡ vouched_number (alg_of hash) (read_all selections_layout selections.now) (record {
      register = pcr;
      kind = kind;
      digests = (hash, digest.now) ∷ [];
      event = bytes.now;
    }) }
{
    if Alg::from_number(hash).is_none() {
        return NO_BANK;
    }
    let Ok(quoted) = selections_in(selections) else {
        return REQUIREMENT;
    };
    let mut digests = ArrayVec::new();
    digests.push((hash, digest));
    let event = Event {
        register: pcr,
        kind,
        digests,
        event: bytes,
    };
    first_number(vouched(quoted.as_slice(), &event).as_slice())
}
