//! Whether Secure Boot was on, as a log tells it (PC Client Platform Firmware Profile, "PCR[7]").

ghost use Rattle.std.specs.Prelude.{◌≡◌, map, option_map};
ghost use Rattle.tpm_types.specs.Alg.{alg_of};
ghost use Rattle.tpm_log.specs.Events.{shown};
ghost use Rattle.tpm_secure_boot.specs.SecureBoot.{sayings};
ghost use Rattle.tpm_secure_boot.specs.BootPolicy.{value_at};
ghost use Rattle.tpm_log.specs.Authorities.{authority_places};
ghost use Rattle.tpm_c.specs.SecureBoots.{state_number, fault_number, place_of};
ghost use Rattle.tpm_c.specs.inner.SecureBoots.{found_view};
ghost use Rattle.tpm_c.specs.SecureBoots.{IsBootSaid, IsBootIn, IsBootChecked};

use crate::log::tell;
use crate::quote::NO_BANK;
use tpm_log::Log;
use tpm_secure_boot::{
    SecureBoot, SecureBootFault, SecureBootFaultKind, SecureBootState, SecurityVariable,
    secure_boot,
};
use tpm_types::Alg;

/// There are more authorities than the room has places.
const NO_ROOM: u32 = 51;

/// What is told of Secure Boot: 1 where DMA protection was disabled, else 0; and how many bytes of the log precede the
/// records of PK, KEK, db and dbx, or 0 where one was not measured.
#[repr(C)]
#[derive(Clone, Copy)]
pub struct TpmSecureBoot {
    pub dma_protection_disabled: u32,
    pub pk: u32,
    pub kek: u32,
    pub db: u32,
    pub dbx: u32,
}

fn state_number(state: SecureBootState) -> u32
    ensures { result ≡ state_number state }
{
    match state {
        SecureBootState::On => 48,
        SecureBootState::Off => 49,
        SecureBootState::Unset => 50,
    }
}

fn fault_number(kind: SecureBootFaultKind) -> u32
    ensures { result ≡ fault_number kind }
{
    match kind {
        SecureBootFaultKind::NotMeasured => 64,
        SecureBootFaultKind::OtherType => 65,
        SecureBootFaultKind::NoVariable => 66,
        SecureBootFaultKind::Twice => 67,
        SecureBootFaultKind::OtherValue => 68,
        SecureBootFaultKind::Debugger => 69,
        SecureBootFaultKind::BadSeparator => 70,
        SecureBootFaultKind::NoSeparator => 71,
        SecureBootFaultKind::Late => 72,
        SecureBootFaultKind::NoKey => 73,
        SecureBootFaultKind::NoAuthority => 74,
        SecureBootFaultKind::NoSecureBoot => 75,
    }
}

fn place_of(variable: Option<SecurityVariable<'_>>) -> u32
    ensures { result ≡ place_of (option_map value_at variable.entry) }
{
    match variable {
        Some(variable) => variable.at,
        None => 0,
    }
}

fn boot_view(found: &SecureBoot<'_>) -> TpmSecureBoot
    ensures { result ≡ found_view found.now }
{
    TpmSecureBoot {
        dma_protection_disabled: if found.dma_protection_disabled { 1 } else { 0 },
        pk: place_of(found.pk),
        kek: place_of(found.kek),
        db: place_of(found.db),
        dbx: place_of(found.dbx),
    }
}

/// Says what the fault is and where it is.
fn tell_boot(fault: SecureBootFault, at: &mut u32) -> u32
    ensures number { result ≡ fault_number fault.kind }
    ensures at { at.new ≡ fault.at }
{
    *at = fault.at;
    fault_number(fault.kind)
}

fn boot_of(
    log: &Log<'_>,
    bank: Alg,
    view: &mut TpmSecureBoot,
    authorities: &mut [u32],
    count: &mut usize,
    at: &mut u32,
) -> u32
    ensures { IsBootSaid (sayings bank log.now.size (map shown log.now.records))
        (authority_places log.now.size (map shown log.now.records)) (record {
          answer = result;
          old = record {
            view = view.old;
            authorities = authorities.old;
            count = count.old;
            at = at.old;
          };
          new = record {
            view = view.new;
            authorities = authorities.new;
            count = count.new;
            at = at.new;
          };
        }) }
{
    match secure_boot(log, bank) {
        Ok(found) => {
            *count = log.authorities(&mut []);
            if *count > authorities.len() {
                return NO_ROOM;
            }
            log.authorities(authorities);
            *view = boot_view(&found);
            state_number(found.state)
        }
        Err(fault) => tell_boot(fault, at),
    }
}

fn boot_in(
    log: &[u8],
    bank: Alg,
    view: &mut TpmSecureBoot,
    authorities: &mut [u32],
    count: &mut usize,
    at: &mut u32,
) -> u32
    ensures { IsBootIn log.now bank (record {
      answer = result;
      old = record {
        view = view.old;
        authorities = authorities.old;
        count = count.old;
        at = at.old;
      };
      new = record {
        view = view.new;
        authorities = authorities.new;
        count = count.new;
        at = at.new;
      };
    }) }
{
    match Log::parse(log) {
        Ok(log) => boot_of(&log, bank, view, authorities, count, at),
        Err(fault) => tell(&fault, at),
    }
}

/// Tells whether Secure Boot was on, by the records of register 7 in the bank of this hash
/// (`tpm_secure_boot::secure_boot`): 48 on, 49 off, 50 where SecureBoot has no byte.
/// `view` then has the rest, and `authorities` at its beginning how many bytes of the log precede
/// each authority, as many as `count` says. Where it has less room 51 is answered, and `count`
/// alone is written. Otherwise the first of these is answered: 18 for a hash that has no bank; the
/// number of the log's first fault; 64 to 75 for the first fault of what the records tell. `at`
/// then says how many bytes of the log precede what is at fault, but for 18. What isn't written so
/// stays as it was.
#[unsafe(no_mangle)]
pub extern "C" fn tpm_log_secure_boot(
    log: &[u8],
    hash: u16,
    view: &mut TpmSecureBoot,
    authorities: &mut [u32],
    count: &mut usize,
    at: &mut u32,
) -> u32
    ensures { IsBootChecked log.now (alg_of hash) (record {
      answer = result;
      old = record {
        view = view.old;
        authorities = authorities.old;
        count = count.old;
        at = at.old;
      };
      new = record {
        view = view.new;
        authorities = authorities.new;
        count = count.new;
        at = at.new;
      };
    }) }
{
    match Alg::from_number(hash) {
        Some(bank) => boot_in(log, bank, view, authorities, count, at),
        None => NO_BANK,
    }
}
