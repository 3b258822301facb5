//! Lists of signatures, as PK, KEK, db and dbx have them (UEFI Specification, "Signature Database").

ghost use Rattle.std.specs.Prelude.{◌≡◌};
ghost use Rattle.tpm_event_data.specs.SignatureLists.{as_list, as_signature, lists_in};
ghost use Rattle.tpm_c.specs.SignatureLists.{list_view, owned_in, owned_view, IsListTold, IsOwnedTold};

use crate::part::TpmPart;
use tpm_event_data::{Signature, SignatureList, signature_lists};

/// A list was told.
const SIGNATURE_LIST: u32 = 92;

/// A signature was told.
const OWNED: u32 = 93;

/// A list of signatures: the GUID of their type, a header, how many they are, how many bytes each has, and the
/// signatures.
#[repr(C)]
#[derive(Clone, Copy)]
pub struct TpmSignatureList {
    pub kind: TpmPart,
    pub header: TpmPart,
    pub count: usize,
    pub entry_size: usize,
    pub entries: TpmPart,
}

/// A signature: the GUID of its owner, and its data.
#[repr(C)]
#[derive(Clone, Copy)]
pub struct TpmOwned {
    pub owner: TpmPart,
    pub value: TpmPart,
}

fn list_view(list: &SignatureList<'_>) -> TpmSignatureList
    ensures { result ≡ list_view (as_list list.now) }
{
    let len = list.header.len();
    TpmSignatureList {
        kind: TpmPart {
            at: 0,
            len: list.kind.len(),
        },
        header: TpmPart { at: 28, len },
        count: list.count(),
        entry_size: list.size,
        entries: TpmPart {
            at: 28 + len,
            len: list.signatures.len(),
        },
    }
}

/// Tells the first of the lists of signatures that these bytes, the value of a variable, are, and answers 92; or
/// answers 0 where it has a fault, or there are no bytes. `view` is then as it was. The next list is behind its
/// entries.
#[unsafe(no_mangle)]
pub extern "C" fn tpm_log_signature_list(bytes: &[u8], view: &mut TpmSignatureList) -> u32
    ensures { IsListTold (lists_in bytes.now) bytes.now
        (record { answer = result; old = view.old; new = view.new }) }
{
    match signature_lists(bytes).next() {
        Some(Ok(list)) => {
            *view = list_view(&list);
            SIGNATURE_LIST
        }
        _ => 0,
    }
}

fn owned_view(signature: &Signature<'_>) -> TpmOwned
    ensures { result ≡ owned_view (as_signature signature.now) }
{
    TpmOwned {
        owner: TpmPart {
            at: 0,
            len: signature.owner.len(),
        },
        value: TpmPart {
            at: 16,
            len: signature.value.len(),
        },
    }
}

/// Tells the signature that these bytes, an entry of a list, or the value of a variable that holds one, are, and
/// answers 93; or answers 0 where they are fewer than 16. `view` is then as it was.
#[unsafe(no_mangle)]
pub extern "C" fn tpm_log_owned(bytes: &[u8], view: &mut TpmOwned) -> u32
    ensures { IsOwnedTold (owned_in bytes.now) bytes.now
        (record { answer = result; old = view.old; new = view.new }) }
{
    let alone = SignatureList {
        kind: &[],
        header: &[],
        size: bytes.len(),
        signatures: bytes,
    };
    match alone.get(0) {
        Some(signature) => {
            *view = owned_view(&signature);
            OWNED
        }
        None => 0,
    }
}
