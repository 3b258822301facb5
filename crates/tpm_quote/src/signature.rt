//! The signature of a quote, by its parts.

ghost use Rattle.std.specs.Prelude.{◌≡◌, ◌++◌, IfOk};
ghost use Rattle.tpm_wire.specs.Buffers.{Takes};
ghost use Rattle.tpm_wire.specs.Path.{Decodes};
ghost use Rattle.tpm_wire.specs.Spelling.{spelling};
ghost use Rattle.tpm_quote.specs.Signatures.{rsa_signature, ecc_signature, signature as signature_layout};

use tpm_types::{Alg, Lent};
use tpm_wire::{Cursor, Refusal, Wire};

/// TPM_RC_SCHEME (Part 2, 6.6.3): the scheme is none of those below.
const SCHEME: u32 = 0x092;

/// TPM_ALG_RSASSA, TPM_ALG_RSAPSS and TPM_ALG_ECDSA (Part 2, 6.3).
const RSASSA: u16 = 0x0014;

const RSAPSS: u16 = 0x0016;

const ECDSA: u16 = 0x0018;

/// How many bytes a signature by an RSA key has at most (TPM2B_PUBLIC_KEY_RSA; Part 2, 11.2.4.5): those of a key of
/// 4,096 bits.
pub const RSA_BYTES: usize = 512;

/// How many bytes a number of an elliptic curve has at most (TPM2B_ECC_PARAMETER; Part 2, 11.2.5.1): those of P-521.
pub const ECC_BYTES: usize = 66;

/// A signature by an RSA key: TPMS_SIGNATURE_RSA (Part 2, 11.3.1).
#[derive(Drop)]
pub struct RsaSignature<'a> {
    /// The hash that was signed.
    pub hash: Alg,
    /// The signature.
    pub sig: Lent<'a, RSA_BYTES>,
}

/// A signature by a key on an elliptic curve: TPMS_SIGNATURE_ECC (Part 2, 11.3.2).
#[derive(Drop)]
pub struct EccSignature<'a> {
    /// The hash that was signed.
    pub hash: Alg,
    /// The number r.
    pub r: Lent<'a, ECC_BYTES>,
    /// The number s.
    pub s: Lent<'a, ECC_BYTES>,
}

/// A signature by one of the schemes by which tpm2_quote signs: TPMT_SIGNATURE (Part 2, 11.3.4).
#[derive(Drop)]
pub enum Signature<'a> {
    /// RSASSA, of PKCS #1 version 1.5.
    RsaSsa(RsaSignature<'a>),
    /// RSAPSS.
    RsaPss(RsaSignature<'a>),
    /// ECDSA.
    Ecdsa(EccSignature<'a>),
}

#[tactic(auto, unfolding(crate::specs::Signatures::rsa_signature))]
impl<'a> RsaSignature<'a> {
    // The fields in their order.
    fn take(cursor: &mut Cursor<'a>) -> Result<Self, Refusal>
        ensures reads { Takes rsa_signature cursor.old cursor.new result }
        ensures spelled { IfOk result
            (λ s. cursor.old.here.rest ≡ spelling rsa_signature s ++ cursor.new.here.rest) }
    {
        Ok(RsaSignature {
            hash: Alg::take(cursor)?,
            sig: Lent::take(cursor)?,
        })
    }
}

#[tactic(auto, unfolding(crate::specs::Signatures::ecc_signature))]
impl<'a> EccSignature<'a> {
    // The fields in their order.
    fn take(cursor: &mut Cursor<'a>) -> Result<Self, Refusal>
        ensures reads { Takes ecc_signature cursor.old cursor.new result }
        ensures spelled { IfOk result
            (λ s. cursor.old.here.rest ≡ spelling ecc_signature s ++ cursor.new.here.rest) }
    {
        Ok(EccSignature {
            hash: Alg::take(cursor)?,
            r: Lent::take(cursor)?,
            s: Lent::take(cursor)?,
        })
    }
}

#[tactic(auto, unfolding(crate::specs::Signatures::signature, crate::specs::Signatures::scheme))]
impl<'a> Signature<'a> {
    // The scheme, else SCHEME; and the signature by it.
    fn take(cursor: &mut Cursor<'a>) -> Result<Self, Refusal>
        ensures reads { Takes signature_layout cursor.old cursor.new result }
        ensures spelled { IfOk result
            (λ s. cursor.old.here.rest ≡ spelling signature_layout s ++ cursor.new.here.rest) }
    {
        let refusal = cursor.refusal(SCHEME);
        match u16::take(cursor)? {
            RSASSA => Ok(Signature::RsaSsa(RsaSignature::take(cursor)?)),
            RSAPSS => Ok(Signature::RsaPss(RsaSignature::take(cursor)?)),
            ECDSA => Ok(Signature::Ecdsa(EccSignature::take(cursor)?)),
            _ => Err(refusal),
        }
    }
}

/// The signature that the bytes spell, all of them, as `tpm2_quote -s` writes it (TPMT_SIGNATURE; Part 2, 11.3.4), or
/// the response code and the position of their first fault: SCHEME of a scheme other than RSASSA, RSAPSS and ECDSA;
/// HASH; SIZE of a part that is too long, and of bytes behind the end; INSUFFICIENT. Whether it is right is not asked.
pub fn decode_signature(bytes: &[u8]) -> Result<Signature<'_>, Refusal>
    ensures decodes { Decodes signature_layout (λ s. s) bytes.now result }
    ensures spelled { IfOk result (λ s. bytes.now ≡ spelling signature_layout s) }
{
    let mut cursor = Cursor::of_whole(bytes);
    let signature = Signature::take(&mut cursor)?;
    cursor.end_of_whole(bytes)?;
    Ok(signature)
}
