//! A quote as it was signed: its parts, and beside the registers after a log.

ghost use Rattle.std.specs.Prelude.{◌≡◌, Ok};
ghost use Rattle.tpm_types.specs.Alg.{alg_of};
ghost use Rattle.tpm_pcr.specs.Registers.{value_in};
ghost use Rattle.tpm_log.specs.Changes.{AreAfter};
ghost use Rattle.tpm_log.specs.Replays.{Replays};
ghost use Rattle.tpm_c.specs.Logs.{kind_number as kind_number_of};
ghost use Rattle.tpm_c.specs.Attests.{attest_view as attest_view_of, ViewsAttest, fault_at, TellsJudged};
ghost use Rattle.tpm_c.specs.Attests.{IsAttestCompared};
ghost use Rattle.tpm_c.specs.Attests.{required_in, IsRequired, asked_for, IsAttestChecked};

use crate::log::kind_number;
use crate::part::{DONE, TpmPart, TpmRefusal, refuse};
use crate::quote::{DIFFERS, NO_BANK, REFUSED};
use tpm_log::{LogFault, replay_into};
use tpm_pcr::Registers;
use tpm_quote::{AttestFault, check_attest, decode_attest, selects_none};
use tpm_types::{Alg, Attest, Selections};
use tpm_wire::{Refusal, Wire, take_whole};

/// A quote as it was signed: what has a length of its own lies in its bytes.
#[repr(C)]
#[derive(Clone, Copy)]
pub struct TpmAttest {
    pub signer: TpmPart,
    pub nonce: TpmPart,
    pub clock: u64,
    pub reset_count: u32,
    pub restart_count: u32,
    pub safe: u8,
    pub firmware_version: u64,
    pub selections: TpmPart,
    pub digest: TpmPart,
}

/// What is wrong: the response code of refused bytes, where the fault is, and the bank and the
/// register that are not selected. What does not apply is 0.
#[repr(C)]
#[derive(Clone, Copy)]
pub struct TpmAttestFault {
    pub code: u32,
    pub at: u32,
    pub hash: u16,
    pub pcr: u32,
}

// The magic, the type and the size of the signer's Name.
const SIGNER_AT: usize = 4 + 2 + 2;

// The size of a sized buffer.
const SIZE_BYTES: usize = 2;

// The clock and the firmware's version.
const BETWEEN: usize = 17 + 8;

fn attest_view(attest: &Attest<'_>) -> TpmAttest
    ensures { result ≡ attest_view_of attest.now }
{
    let signer = TpmPart {
        at: SIGNER_AT,
        len: attest.signer.as_slice().len(),
    };
    let nonce = TpmPart {
        at: signer.at + signer.len + SIZE_BYTES,
        len: attest.extra_data.as_slice().len(),
    };
    let selections = TpmPart {
        at: nonce.at + nonce.len + BETWEEN,
        len: attest.quote.selections.len(),
    };
    let digest = TpmPart {
        at: selections.at + selections.len + SIZE_BYTES,
        len: attest.quote.digest.as_slice().len(),
    };
    TpmAttest {
        signer,
        nonce,
        clock: attest.clock_info.clock,
        reset_count: attest.clock_info.reset_count,
        restart_count: attest.clock_info.restart_count,
        safe: if attest.clock_info.safe { 1 } else { 0 },
        firmware_version: attest.firmware_version,
        selections,
        digest,
    }
}

/// Tells the parts of the quote that the bytes spell as it was signed (TPMS_ATTEST of type
/// TPM_ST_ATTEST_QUOTE; Part 2, 10.12), and answers 0; or answers 1, and `refusal` is their first
/// fault. What isn't written so stays as it was.
#[unsafe(no_mangle)]
pub extern "C" fn tpm_attest_decode(
    attest: &[u8],
    view: &mut TpmAttest,
    refusal: &mut TpmRefusal,
) -> u32
    ensures { ViewsAttest attest.now (record {
      answer = result;
      old = record { view = view.old; refusal = refusal.old };
      new = record { view = view.new; refusal = refusal.new };
    }) }
{
    match decode_attest(attest) {
        Ok(attest) => {
            *view = attest_view(&attest);
            DONE
        }
        Err(fault) => refuse(refusal, fault),
    }
}

fn tell_refusal(fault: &mut TpmAttestFault, refusal: Refusal)
    ensures { fault.new ≡ fault_at refusal.code refusal.at }
{
    *fault = TpmAttestFault {
        code: refusal.code,
        at: refusal.at,
        hash: 0,
        pcr: 0,
    };
}

fn tell_log(fault: &mut TpmAttestFault, found: LogFault) -> u32
    ensures number { result ≡ kind_number_of found.kind }
    ensures at { fault.new ≡ fault_at 0 found.at }
{
    *fault = TpmAttestFault {
        code: 0,
        at: found.at,
        hash: 0,
        pcr: 0,
    };
    kind_number(found.kind)
}

/// extraData is another nonce.
const NONCE: u32 = 19;

/// A required register is not selected.
const LACKS: u32 = 20;

/// No register is selected.
const EMPTY: u32 = 21;

/// What is required is no selection.
pub(crate) const REQUIREMENT: u32 = 22;

fn tell(found: Result<(), AttestFault>, quoted: &Selections, fault: &mut TpmAttestFault) -> u32
    ensures { TellsJudged quoted.now found
        (record { answer = result; old = fault.old; new = fault.new }) }
{
    match found {
        Ok(()) => { if selects_none(quoted) { EMPTY } else { 0 } }
        Err(AttestFault::Nonce) => NONCE,
        Err(AttestFault::NotSelected(missing)) => {
            *fault = TpmAttestFault {
                code: 0,
                at: 0,
                hash: missing.bank.number(),
                pcr: missing.register.number(),
            };
            LACKS
        }
        Err(AttestFault::Digest) => DIFFERS,
    }
}

fn compare(
    found: &Registers,
    attest: &[u8],
    hash: Alg,
    nonce: &[u8],
    required: &Selections,
    fault: &mut TpmAttestFault,
) -> u32
    ensures { IsAttestCompared (value_in found.now.banks)
        (record { bytes = attest.now; hash = hash; nonce = nonce.now }) required.now
        (record { answer = result; old = fault.old; new = fault.new }) }
{
    match decode_attest(attest) {
        Ok(attest) => tell(
            check_attest(found, &attest, hash, nonce, required),
            &attest.quote.selections,
            fault,
        ),
        Err(refusal) => {
            tell_refusal(fault, refusal);
            REFUSED
        }
    }
}

fn required_in(required: &[u8]) -> Result<Selections, Refusal>
    ensures { result ≡ required_in required.now }
{
    if required.is_empty() {
        return Ok(Selections::default());
    }
    take_whole::<Selections>(required)
}

fn check_required(
    log: &[u8],
    attest: &[u8],
    hash: Alg,
    nonce: &[u8],
    required: &Selections,
    fault: &mut TpmAttestFault,
) -> u32
    ensures { IsRequired (Replays AreAfter log.now)
        (record { bytes = attest.now; hash = hash; nonce = nonce.now }) (Ok required.now)
        (record { answer = result; old = fault.old; new = fault.new }) }
{
    let mut found = Registers::new();
    match replay_into(log, &mut found) {
        Ok(()) => compare(&found, attest, hash, nonce, required, fault),
        Err(found) => tell_log(fault, found),
    }
}

fn check(
    log: &[u8],
    attest: &[u8],
    hash: Alg,
    nonce: &[u8],
    required: &[u8],
    fault: &mut TpmAttestFault,
) -> u32
    ensures { IsRequired (Replays AreAfter log.now)
        (record { bytes = attest.now; hash = hash; nonce = nonce.now }) (required_in required.now)
        (record { answer = result; old = fault.old; new = fault.new }) }
{
    match required_in(required) {
        Ok(required) => check_required(log, attest, hash, nonce, &required, fault),
        Err(refusal) => {
            tell_refusal(fault, refusal);
            REQUIREMENT
        }
    }
}

/// Replays a log as `tpm_log_replay`, and answers 0 where a quote as it was signed is the one that
/// was asked for: extraData is the nonce, each required register is selected, and the digest is
/// that of the values of the selected registers under this hash (Part 1, "Selecting Multiple PCR").
/// `required` is a TPML_PCR_SELECTION (Part 2, 10.9.7), or no bytes where nothing is required. The
/// first of these is answered otherwise: 18 for a hash that has no bank; 22 where what is required
/// is no selection; the number of the log's first fault; 17 where the bytes of the quote are none;
/// 19 for another nonce; 20 where a required register is not selected; 16 for another digest; 21
/// where no register is selected. For 22, 17, 20 and the log's fault `fault` says where and what;
/// else it stays.
#[unsafe(no_mangle)]
pub extern "C" fn tpm_log_check_attest(
    log: &[u8],
    attest: &[u8],
    hash: u16,
    nonce: &[u8],
    required: &[u8],
    fault: &mut TpmAttestFault,
) -> u32
    ensures { IsAttestChecked (Replays AreAfter log.now)
        (asked_for (alg_of hash) attest.now nonce.now) (required_in required.now)
        (record { answer = result; old = fault.old; new = fault.new }) }
{
    match Alg::from_number(hash) {
        Some(hash) => check(log, attest, hash, nonce, required, fault),
        None => NO_BANK,
    }
}
