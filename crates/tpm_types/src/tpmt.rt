//! Structures by a choice: TPMT (Part 2, 10.3 and 11.1).

ghost use Rattle.std.specs.Prelude.{◌≡◌, ◌≢◌, length, replicate, MatchOption};
ghost use Rattle.tpm_types.specs.Alg.{digest_len};
ghost use Rattle.tpm_types.specs.Limits.{digest_bytes};

use crate::alg::Alg;
use crate::constants::KeyBits;
use crate::limits::DIGEST_BYTES;
use std::marker::Model;
use tpm_wire::response_code::{INSUFFICIENT, MODE, SYMMETRIC};
use tpm_wire::{Cursor, Duplicate, Refusal, Room, Wire, put_bytes};

/// A hash, and a digest of as many bytes as it gives: TPMT_HA (Part 2, 10.3.2).
#[derive(Drop)]
pub struct HashedDigest {
    hash: Alg,
    // The digest, and behind it bytes without a meaning.
    bytes: [u8; DIGEST_BYTES],
}

impl Model for HashedDigest {
    ghost use Rattle.std.specs.Prelude.{ℕ, List, take};
    ghost use Rattle.tpm_types.specs.declared.alg.Alg.{Alg};
    ghost use Rattle.tpm_types.specs.Alg.{digest_len};

    ghost Value = { Alg × List ℕ };

    ghost view = { λ d. (d.hash, take (digest_len d.hash) d.bytes) };
}

impl HashedDigest {
    /// A copy of this digest under its hash, if it is as long as the digests of that.
    pub fn new(hash: Alg, digest: &[u8]) -> Option<Self>
        ensures { MatchOption result (length digest.now ≢ digest_len hash)
            (λ d. (d ≡ (hash, digest.now)) × (length digest.now ≡ digest_len hash)) }
    {
        if digest.len() != hash.digest_len() {
            return None;
        }
        let mut bytes = [0; DIGEST_BYTES];
        bytes[..digest.len()].copy_from_slice(digest);
        Some(HashedDigest { hash, bytes })
    }

    /// The hash.
    pub fn hash(&self) -> Alg
        ensures { result ≡ self.now.0 }
    {
        self.hash
    }

    /// The digest.
    pub fn digest(&self) -> &[u8]
        ensures value { result.now ≡ self.now.1 }
        ensures whole { length result.now ≡ digest_len self.now.0 }
    {
        &self.bytes[..self.hash.digest_len()]
    }
}

impl Duplicate for HashedDigest {
    fn duplicate(&self) -> Self {
        HashedDigest {
            hash: self.hash,
            bytes: self.bytes,
        }
    }
}

/// Zeros under SHA-1.
impl Default for HashedDigest {
    fn default() -> Self
        ensures { result ≡ (Alg.Sha1, replicate (digest_len Alg.Sha1) 0) }
    {
        HashedDigest {
            hash: Alg::Sha1,
            bytes: [0; DIGEST_BYTES],
        }
    }
}

/// The hash, else HASH; the bytes of the digest.
#[tactic(auto, unfolding(crate::specs::Tpmt::digest_value))]
impl Wire for HashedDigest {
    ghost use Rattle.std.specs.Prelude.{◌+◌};
    ghost use Rattle.tpm_types.specs.Limits.{digest_bytes};
    ghost use Rattle.tpm_types.specs.Tpmt.{digest_value};

    ghost layout = { digest_value };

    ghost most = { 2 + digest_bytes };

    fn has_spelling(&self) {
        self.hash.has_spelling();
        prove!(self.digest().len() == self.hash.digest_len());
    }

    fn len(&self) -> usize {
        self.hash.len() + self.hash.digest_len()
    }

    fn put<R: Room>(&self, out: &mut R) {
        self.hash.put(out);
        put_bytes(out, self.digest());
    }

    fn take(cursor: &mut Cursor<'_>) -> Result<Self, Refusal> {
        let mut found = HashedDigest::default();
        found.read(cursor)?;
        Ok(found)
    }

    fn read(&mut self, cursor: &mut Cursor<'_>) -> Result<(), Refusal>
    where
        Self: Drop,
    {
        let hash = Alg::take(cursor)?;
        let len = hash.digest_len();
        match cursor.front(len) {
            Some(digest) => {
                self.hash = hash;
                self.bytes[..len].copy_from_slice(digest);
                Ok(())
            }
            None => Err(cursor.refusal(INSUFFICIENT)),
        }
    }
}

const AES: u16 = 0x0006;

const XOR: u16 = 0x000A;

const NULL: u16 = 0x0010;

const CFB: u16 = 0x0043;

/// How parameters are encrypted: TPMT_SYM_DEF (Part 2, 11.1.6). It is read and never used.
#[derive(Clone, Copy, Debug, PartialEq, Eq)]
pub enum SymDef {
    /// TPM_ALG_NULL: not at all.
    Null,
    /// TPM_ALG_AES in CFB mode, with a key of so many bits.
    Aes(KeyBits),
    /// TPM_ALG_XOR, with a mask by this hash.
    Xor(Alg),
}

/// The algorithm, else SYMMETRIC; of AES the bits of the key, else VALUE, and the
/// mode, else MODE; of XOR the hash, else HASH.
#[tactic(auto, unfolding(crate::specs::Tpmt::sym_def, crate::specs::Tpmt::algorithm, crate::specs::Tpmt::mode))]
impl Wire for SymDef {
    ghost use Rattle.tpm_types.specs.Tpmt.{sym_def};

    ghost layout = { sym_def };

    ghost most = { 6 };

    fn has_spelling(&self) {
        match self {
            SymDef::Null => {}
            SymDef::Aes(bits) => bits.has_spelling(),
            SymDef::Xor(alg) => alg.has_spelling(),
        }
    }

    fn len(&self) -> usize {
        match self {
            SymDef::Null => 2,
            SymDef::Aes(bits) => 2 + bits.len() + 2,
            SymDef::Xor(alg) => 2 + alg.len(),
        }
    }

    fn put<R: Room>(&self, out: &mut R) {
        match self {
            SymDef::Null => NULL.put(out),
            SymDef::Aes(bits) => {
                AES.put(out);
                bits.put(out);
                CFB.put(out);
            }
            SymDef::Xor(alg) => {
                XOR.put(out);
                alg.put(out);
            }
        }
    }

    fn take(cursor: &mut Cursor<'_>) -> Result<Self, Refusal> {
        let refusal = cursor.refusal(SYMMETRIC);
        match u16::take(cursor)? {
            NULL => Ok(SymDef::Null),
            AES => {
                let bits = KeyBits::take(cursor)?;
                let refusal = cursor.refusal(MODE);
                if u16::take(cursor)? != CFB {
                    return Err(refusal);
                }
                Ok(SymDef::Aes(bits))
            }
            XOR => Ok(SymDef::Xor(Alg::take(cursor)?)),
            _ => Err(refusal),
        }
    }
}
