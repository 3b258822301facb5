//! HMAC (RFC 2104), and KDFa, which is made of HMACs (Part 1, "KDFa()").

ghost use Rattle.std.specs.Prelude.{◌≡◌, ℕ, ◌+◌, ◌≤◌, List, [], ◌++◌, length, take};
ghost use Rattle.std.specs.List.{flat_map};
ghost use Rattle.tpm_types.specs.declared.alg.Alg.{Alg};
ghost use Rattle.tpm_types.specs.Alg.{digest_len, block_len};
ghost use Rattle.tpm_types.specs.Limits.{block_bytes};
ghost use Rattle.tpm_hmac.specs.Hmac.{filled, block_key, xored as xored_bytes, hmac as hmac_of, kdfa as kdfa_of};
ghost use Rattle.tpm_hmac.specs.Hmac.{kdfa_block as kdfa_block_of, kdfa_text};
ghost use Rattle.tpm_hmac.specs.inner.Hashers.{Holding, MacHolds};

use crate::hashing::{Hasher, hash, put};
use tpm_types::{Alg, BLOCK_BYTES, Digest};

// The bytes that the key's block is changed by, for the inner and for the outer hash.
pub(crate) const INNER_PAD: u8 = 0x36;

pub(crate) const OUTER_PAD: u8 = 0x5C;

pub(crate) fn xored(block: &[u8; BLOCK_BYTES], with: u8) -> [u8; BLOCK_BYTES]
    ensures { result ≡ xored_bytes with block.now }
{
    let mut out = *block;
    for byte in out.iter_mut() {
        *byte ^= with;
    }
    out
}

// Both parts, joined, and zeros behind them.
fn fill(front: &[u8], back: &[u8]) -> [u8; BLOCK_BYTES]
    requires { length front.now + length back.now ≤ block_bytes }
    ensures { result ≡ filled block_bytes (front.now ++ back.now) }
{
    let mut block = [0; BLOCK_BYTES];
    put(&mut block, 0, front);
    put(&mut block, front.len(), back);
    block
}

// The key, of which both parts are one, as a block.
#[tactic(auto, unfolding(crate::specs::Hmac::block_key))]
#[inline(never)]
pub(crate) fn key_block(alg: Alg, front: &[u8], back: &[u8]) -> [u8; BLOCK_BYTES]
    ensures { take (block_len alg) result ≡ block_key alg (front.now ++ back.now) }
{
    if front.len() + back.len() > alg.block_len() {
        fill(hash(alg, &[front, back]).as_slice(), &[])
    } else {
        fill(front, back)
    }
}

// A hasher that has taken in the key's block, changed by the pad.
#[tactic(auto, using(crate::proofs::Precomputed::changed))]
#[inline(never)]
pub(crate) fn keyed(alg: Alg, block: &[u8; BLOCK_BYTES], pad: u8) -> Hasher
    ensures { Holding alg result (xored_bytes pad (take (block_len alg) block.now)) }
{
    let mut hasher = Hasher::new(alg);
    hasher.update(&xored(block, pad)[..alg.block_len()]);
    hasher
}

/// An HMAC of a text that comes piece by piece.
#[derive(Drop)]
pub(crate) struct Mac {
    inner: Hasher,
    outer: Hasher,
}

impl Mac {
    /// The HMAC of the empty text, under both parts of the key, joined.
    #[inline(never)]
    pub(crate) fn new(alg: Alg, front: &[u8], back: &[u8]) -> Self
        ensures { MacHolds alg (front.now ++ back.now) result [] }
    {
        let block = key_block(alg, front, back);
        Mac {
            inner: keyed(alg, &block, INNER_PAD),
            outer: keyed(alg, &block, OUTER_PAD),
        }
    }

    pub(crate) fn update(&mut self, bytes: &[u8])
        ensures { (a : Alg) (k m : List ℕ) →
            MacHolds a k self.old m →
            MacHolds a k self.new (m ++ bytes.now) }
    {
        self.inner.update(bytes);
    }

    pub(crate) fn update_all(&mut self, parts: &[&[u8]])
        ensures { (a : Alg) (k m : List ℕ) →
            MacHolds a k self.old m →
            MacHolds a k self.new (m ++ flat_map (λ p. p.now) parts.now) }
    {
        self.inner.update_all(parts);
    }

    /// The HMAC of the text. It takes in nothing more; that it is not moved here spares the stack two hashers.
    #[tactic(auto, unfolding(crate::specs::Hmac::hmac))]
    #[inline(never)]
    pub(crate) fn finish(&mut self) -> Digest
        ensures { (a : Alg) (k m : List ℕ) → MacHolds a k self.old m → result ≡ hmac_of a k m }
    {
        self.outer.update(self.inner.digest().as_slice());
        self.outer.digest()
    }
}

/// The HMAC under the key of the parts, joined (RFC 2104). A key longer than the hash's block is hashed first.
#[tactic(auto, using(crate::proofs::DigestLengths::lengths))]
#[inline(never)]
pub fn hmac(alg: Alg, key: &[u8], parts: &[&[u8]]) -> Digest
    ensures value { result ≡ hmac_of alg key.now (flat_map (λ p. p.now) parts.now) }
    ensures len { length result ≡ digest_len alg }
{
    let mut mac = Mac::new(alg, key, &[]);
    mac.update_all(parts);
    mac.finish()
}

// One block of the key.
#[tactic(auto, using(crate::proofs::DigestLengths::lengths))]
fn kdfa_block(
    alg: Alg,
    key: &[u8],
    label: &[u8],
    context_u: &[u8],
    context_v: &[u8],
    bits: u32,
    counter: u32,
) -> Digest
    ensures value { result ≡
        kdfa_block_of alg key.now (kdfa_text label.now context_u.now context_v.now bits) counter }
    ensures len { length result ≡ digest_len alg }
{
    let mut mac = Mac::new(alg, key, &[]);
    mac.update(&counter.to_be_bytes());
    mac.update(label);
    mac.update(&[0]);
    mac.update(context_u);
    mac.update(context_v);
    mac.update(&bits.to_be_bytes());
    mac.finish()
}

/// Fills `out`, at most 8,192 bytes, with a key that is derived from this one: KDFa in as many bits
/// as `out` has, of whose last block as much is taken as is wanted (Part 1, "KDFa()").
pub fn kdfa(alg: Alg, key: &[u8], label: &[u8], context_u: &[u8], context_v: &[u8], out: &mut [u8])
    requires { length out.old ≤ 8192 }
    ensures { out.new ≡ kdfa_of alg key.now label.now context_u.now context_v.now (length out.old) }
{
    let bits = 8 * out.len() as u32;
    let mut done = 0;
    let mut counter = 0;
    while done < out.len() {
        counter += 1;
        let block = kdfa_block(alg, key, label, context_u, context_v, bits, counter);
        let len = alg.digest_len().min(out.len() - done);
        put(out, done, &block.as_slice()[..len]);
        done += len;
    }
}
