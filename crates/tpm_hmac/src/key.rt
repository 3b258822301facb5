//! A key that is hashed once for many HMACs (RFC 2104, section 4); authorization values, trimmed and compared.
#![tactic(auto, using(crate::proofs::Precomputed::changed))]

ghost use Rattle.std.specs.Prelude.{◌≡◌, ◌↔◌, ℕ, List, ◌++◌, length, take, IsTrue, ◌≤◌};
ghost use Rattle.std.specs.List.{flat_map};
ghost use Rattle.tpm_types.specs.Alg.{digest_len, block_len};
ghost use Rattle.tpm_types.specs.declared.alg.Alg.TheVariants as algs;
ghost use Rattle.tpm_hmac.specs.Hmac.{hmac as hmac_of, xored as xored_bytes};
ghost use Rattle.tpm_hmac.specs.Keys.{IsPrecomputed};
ghost use Rattle.sha1.specs.Sha1.{Holds, sha1};
ghost use Rattle.sha2.specs.Hashers.{Holds256};
ghost use Rattle.sha2.specs.Sha256.{sha256};
ghost use Rattle.tpm_hmac.specs.Sessions.{trim as trim_of};

use crate::hashing::{Hasher, finish_sha1, finish_sha256};
use crate::mac::{INNER_PAD, OUTER_PAD, hmac, key_block, keyed};
use sha2::Digest as _;
use std::marker::Model;
use tpm_types::{Alg, BLOCK_BYTES, DIGEST_BYTES, Digest, Packed};

/// What is precomputed of a key: the hashers that have taken in its block, changed for the inner and for the
/// outer hash.
#[derive(Drop)]
pub(crate) enum Precomputed {
    Nothing,
    Sha1(sha1::Sha1, sha1::Sha1),
    Sha256(sha2::Sha256, sha2::Sha256),
}

/// A key, for HMACs by a session's hash. It is hashed once, where it is made, for SHA-1
/// and SHA-256; the empty key is hashed where `keep` says so, and one for SHA-384 for each HMAC,
/// since its states would take twice the room (RFC 2104, section 4).
#[derive(Drop)]
pub struct SessionKey {
    hash: Alg,
    bytes: Packed<DIGEST_BYTES>,
    precomputed: Precomputed,
}

impl Model for SessionKey {
    ghost use Rattle.tpm_hmac.specs.Keys as keys;

    ghost Value = { keys.Key };

    ghost view = { λ k. record { hash = k.hash; bytes = k.bytes } };

    ghost invariant = { λ k. keys.IsPrecomputed k.hash k.bytes k.precomputed };
}

#[inline(never)]
fn states_of(hash: Alg, key: &[u8]) -> Precomputed
    ensures { IsPrecomputed hash key.now result }
{
    if hash == Alg::Sha384 {
        return Precomputed::Nothing;
    }
    let block = key_block(hash, key, &[]);
    match (
        keyed(hash, &block, INNER_PAD),
        keyed(hash, &block, OUTER_PAD),
    ) {
        (Hasher::Sha1(inner), Hasher::Sha1(outer)) => Precomputed::Sha1(inner, outer),
        (Hasher::Sha256(inner), Hasher::Sha256(outer)) => Precomputed::Sha256(inner, outer),
        _ => Precomputed::Nothing,
    }
}

// The HMACs are out of line, so that only the hashers that are used are on the stack.
#[inline(never)]
fn mac_sha1(inner: &sha1::Sha1, outer: &sha1::Sha1, parts: &[&[u8]]) -> Digest
    ensures { (i o : List ℕ) →
        Holds inner.now i →
        Holds outer.now o →
        result ≡ sha1 (o ++ sha1 (i ++ flat_map (λ p. p.now) parts.now)) }
{
    let Ok(mut hasher) = inner.clone() else {
        unreachable!()
    };
    for part in parts {
        hasher.update(part);
    }
    let Ok(mut behind) = outer.clone() else {
        unreachable!()
    };
    behind.update(&hasher.finalize());
    finish_sha1(&behind)
}

#[inline(never)]
fn mac_sha256(inner: &sha2::Sha256, outer: &sha2::Sha256, parts: &[&[u8]]) -> Digest
    ensures { (i o : List ℕ) →
        Holds256 inner.now i →
        Holds256 outer.now o →
        result ≡ sha256 (o ++ sha256 (i ++ flat_map (λ p. p.now) parts.now)) }
{
    let Ok(mut hasher) = inner.clone() else {
        unreachable!()
    };
    for part in parts {
        hasher.update(*part);
    }
    let Ok(mut behind) = outer.clone() else {
        unreachable!()
    };
    behind.update(&hasher.finalize());
    finish_sha256(&behind)
}

impl SessionKey {
    /// The key of these bytes.
    pub fn new(hash: Alg, bytes: Digest) -> Self
        ensures { result ≡ record { hash = hash; bytes = bytes } }
    {
        let precomputed = if bytes.as_slice().is_empty() {
            Precomputed::Nothing
        } else {
            states_of(hash, bytes.as_slice())
        };
        SessionKey {
            hash,
            bytes: Packed::new(bytes.as_slice()),
            precomputed,
        }
    }

    /// Hashes the key now, where that was not done.
    pub fn keep(&mut self)
        ensures { self.new ≡ self.old }
    {
        if let Precomputed::Nothing = self.precomputed {
            self.precomputed = states_of(self.hash, self.bytes.as_slice());
        }
    }

    /// Whether it is the key of these bytes, for HMACs by this hash. It takes as long wherever the bytes differ.
    pub fn is_of(&self, hash: Alg, bytes: &[u8]) -> bool
        ensures { IsTrue result ↔ (self.now ≡ record { hash = hash; bytes = bytes.now }) }
    {
        self.hash == hash && same(self.bytes.as_slice(), bytes)
    }

    /// The hash.
    pub fn hash(&self) -> Alg
        ensures { result ≡ self.now.hash }
    {
        self.hash
    }

    /// The bytes of the key.
    pub fn bytes(&self) -> &[u8]
        ensures { result.now ≡ self.now.bytes }
    {
        self.bytes.as_slice()
    }

    /// The HMAC of the parts, joined (RFC 2104).
    #[tactic(auto, using(crate::proofs::DigestLengths::lengths))]
    pub fn mac(&self, parts: &[&[u8]]) -> Digest
        ensures value { result ≡
            hmac_of self.now.hash self.now.bytes (flat_map (λ p. p.now) parts.now) }
        ensures len { length result ≡ digest_len self.now.hash }
    {
        match &self.precomputed {
            Precomputed::Nothing => hmac(self.hash, self.bytes.as_slice(), parts),
            Precomputed::Sha1(inner, outer) => mac_sha1(inner, outer, parts),
            Precomputed::Sha256(inner, outer) => mac_sha256(inner, outer, parts),
        }
    }
}

/// The bytes without trailing zeros, as an authorization value is used (Part 1, "Authorization Values").
pub fn trim(bytes: &[u8]) -> &[u8]
    ensures value { result.now ≡ trim_of bytes.now }
    ensures shorter { length result.now ≤ length bytes.now }
{
    let mut len = bytes.len();
    while len > 0 && bytes[len - 1] == 0 {
        len -= 1;
    }
    &bytes[..len]
}

/// Whether both are the same list of bytes. It looks at every byte of two lists of one length, wherever they differ.
pub fn same(a: &[u8], b: &[u8]) -> bool
    ensures { IsTrue result ↔ (a.now ≡ b.now) }
{
    if a.len() != b.len() {
        return false;
    }
    let mut differences = 0;
    for (&x, &y) in a.iter().zip(b) {
        differences |= x ^ y;
    }
    differences == 0
}
