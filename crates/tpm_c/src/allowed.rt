//! A list of digests by which registers may be extended.

ghost use Rattle.std.specs.Prelude.{◌≡◌};
ghost use Rattle.std.specs.List.{list_any};
ghost use Rattle.tpm_types.specs.Alg.{alg_of};
ghost use Rattle.tpm_vouched.specs.Allowed.{allows, names};
ghost use Rattle.tpm_c.specs.Allowed.{allowed_number, list_of};
ghost use Rattle.tpm_c.specs.inner.Allowed.{entry_allows, entry_names};

use crate::quote::NO_BANK;
use tpm_types::Alg;

/// The digest is on the list.
const ALLOWED: u32 = 41;

/// It isn't, and the list has others for the register.
const NOT_ALLOWED: u32 = 42;

/// EV_NO_ACTION, which extends nothing.
const NO_ACTION: u32 = 3;

/// A digest by which a register may be extended: its register, its hash, and its bytes, of which as many count as the
/// digests of the hash have. One of a hash without a bank says nothing.
#[repr(C)]
#[derive(Clone, Copy)]
pub struct TpmAllowed {
    pub pcr: u32,
    pub hash: u16,
    pub digest: [u8; 48],
}

// Whether the entry is for this register of the bank.
fn entry_names(entry: &TpmAllowed, bank: Alg, pcr: u32) -> bool
    ensures { result ≡ entry_names bank pcr entry.now }
{
    entry.hash == bank.number() && entry.pcr == pcr
}

// Whether it has this digest for it.
fn entry_allows(entry: &TpmAllowed, bank: Alg, pcr: u32, digest: &[u8]) -> bool
    ensures { result ≡ entry_allows bank pcr digest.now entry.now }
{
    entry_names(entry, bank, pcr) && &entry.digest[..bank.digest_len()] == digest
}

fn is_named(list: &[TpmAllowed], bank: Alg, pcr: u32) -> bool
    ensures { result ≡ list_any (entry_names bank pcr) list.now }
{
    list.iter().any(|entry| entry_names(entry, bank, pcr))
}

// Whether the list has a digest for this register of the bank.
fn names(list: &[TpmAllowed], bank: Alg, pcr: u32) -> bool
    ensures { result ≡ names (list_of list.now) bank pcr }
{
    is_named(list, bank, pcr)
}

fn is_listed(list: &[TpmAllowed], bank: Alg, pcr: u32, digest: &[u8]) -> bool
    ensures { result ≡ list_any (entry_allows bank pcr digest.now) list.now }
{
    list.iter()
        .any(|entry| entry_allows(entry, bank, pcr, digest))
}

// Whether it has this one for it.
fn allows(list: &[TpmAllowed], bank: Alg, pcr: u32, digest: &[u8]) -> bool
    ensures { result ≡ allows (list_of list.now) bank pcr digest.now }
{
    is_listed(list, bank, pcr, digest)
}

/// Tells whether a list allows the digest by which a record of this register and type extends its register in the bank
/// of this hash (`tpm_vouched::AllowList`): 41 where it is on the list, 42 where it isn't, though the list names that
/// register of the bank, and 0 where the list doesn't, or the type is EV_NO_ACTION, which extends nothing. It answers
/// 18 for a hash that has no bank. Each call goes through the list.
#[unsafe(no_mangle)]
pub extern "C" fn tpm_log_allowed(
    list: &[TpmAllowed],
    pcr: u32,
    kind: u32,
    hash: u16,
    digest: &[u8],
) -> u32
    ensures { result ≡ allowed_number (alg_of hash) (list_of list.now) pcr kind digest.now }
{
    let Some(bank) = Alg::from_number(hash) else {
        return NO_BANK;
    };
    if kind == NO_ACTION {
        return 0;
    }
    if allows(list, bank, pcr, digest) {
        return ALLOWED;
    }
    if names(list, bank, pcr) {
        NOT_ALLOWED
    } else {
        0
    }
}
