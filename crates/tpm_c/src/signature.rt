//! The signature of a quote, by its parts.

ghost use Rattle.std.specs.Prelude.{◌≡◌};
ghost use Rattle.tpm_c.specs.Signatures.{rsa_view as rsa_view_of, ecc_view as ecc_view_of};
ghost use Rattle.tpm_c.specs.Signatures.{signature_view as signature_view_of, ViewsSignature};

use crate::part::{DONE, NO_PART, TpmPart, TpmRefusal, refuse};
use tpm_quote::{EccSignature, RsaSignature, Signature, decode_signature};

/// TPM_ALG_RSASSA, TPM_ALG_RSAPSS and TPM_ALG_ECDSA (Part 2, 6.3).
const RSASSA: u16 = 0x0014;

const RSAPSS: u16 = 0x0016;

const ECDSA: u16 = 0x0018;

/// A signature, by its parts in its bytes: the number of its scheme, that of its hash, the signature by an RSA key, and
/// the numbers r and s of one by a key on a curve. What is not there is 0.
#[repr(C)]
#[derive(Clone, Copy)]
pub struct TpmSignature {
    pub scheme: u16,
    pub hash: u16,
    pub sig: TpmPart,
    pub r: TpmPart,
    pub s: TpmPart,
}

// The scheme, the hash and the size of what follows.
const FIRST_AT: usize = 2 + 2 + 2;

// The size of a sized buffer.
const SIZE_BYTES: usize = 2;

fn rsa_view(scheme: u16, found: &RsaSignature<'_>) -> TpmSignature
    ensures { result ≡ rsa_view_of scheme found.now }
{
    TpmSignature {
        scheme,
        hash: found.hash.number(),
        sig: TpmPart {
            at: FIRST_AT,
            len: found.sig.as_slice().len(),
        },
        r: NO_PART,
        s: NO_PART,
    }
}

fn ecc_view(found: &EccSignature<'_>) -> TpmSignature
    ensures { result ≡ ecc_view_of found.now }
{
    let r = TpmPart {
        at: FIRST_AT,
        len: found.r.as_slice().len(),
    };
    TpmSignature {
        scheme: ECDSA,
        hash: found.hash.number(),
        sig: NO_PART,
        r,
        s: TpmPart {
            at: r.at + r.len + SIZE_BYTES,
            len: found.s.as_slice().len(),
        },
    }
}

fn signature_view(found: &Signature<'_>) -> TpmSignature
    ensures { result ≡ signature_view_of found.now }
{
    match found {
        Signature::RsaSsa(found) => rsa_view(RSASSA, found),
        Signature::RsaPss(found) => rsa_view(RSAPSS, found),
        Signature::Ecdsa(found) => ecc_view(found),
    }
}

/// Tells the parts of the signature that the bytes spell (TPMT_SIGNATURE; Part 2, 11.3.4), as `tpm2_quote -s` writes
/// it, and answers 0; or answers 1, and `refusal` is their first fault. What isn't written so stays as it was. Whether
/// the signature is right is not asked.
#[unsafe(no_mangle)]
pub extern "C" fn tpm_signature_decode(
    signature: &[u8],
    view: &mut TpmSignature,
    refusal: &mut TpmRefusal,
) -> u32
    ensures { ViewsSignature signature.now (record {
      answer = result;
      old = record { view = view.old; refusal = refusal.old };
      new = record { view = view.new; refusal = refusal.new };
    }) }
{
    match decode_signature(signature) {
        Ok(found) => {
            *view = signature_view(&found);
            DONE
        }
        Err(fault) => refuse(refusal, fault),
    }
}
