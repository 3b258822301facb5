//! A digest that is looked for, beside one that is allowed.

ghost use Rattle.std.specs.Prelude.{◌≡◌, ◌<◌, nat_eq};
ghost use Rattle.std.specs.Cmp.Lexicographic.{pointwise};
ghost use Rattle.tpm_vouched.specs.Allowed.{is_for};
ghost use Rattle.tpm_lists.specs.inner.AllowIndex.{bucket, is_this};

use tpm_types::Alg;
use tpm_vouched::AllowedDigest;

/// How many buckets digests lie in.
pub(crate) const BUCKETS: usize = 16384;

// How many bytes a digest of SHA-256 has. Most have so many, which are compared without a loop.
const SHA256_BYTES: usize = 32;

/// The bucket of a digest.
pub(crate) fn bucket(digest: &[u8]) -> usize
    ensures value { result ≡ bucket digest.now }
    ensures below { result < 16384 }
{
    match digest {
        [first, second, ..] => (usize::from(*first) * 256 + usize::from(*second)) % BUCKETS,
        _ => 0,
    }
}

// Whether an allowed digest is for this register of the bank.
#[inline(always)]
fn is_for(allowed: &AllowedDigest, bank: Alg, register: u32) -> bool
    ensures { result ≡ is_for bank register allowed.now }
{
    allowed.digest.hash().number() == bank.number() && allowed.register.number() == register
}

// Whether these are the same bytes.
#[inline(always)]
fn are_same(bytes: &[u8], others: &[u8]) -> bool
    ensures { result ≡ pointwise nat_eq bytes.now others.now }
{
    match (
        bytes.as_array::<SHA256_BYTES>(),
        others.as_array::<SHA256_BYTES>(),
    ) {
        (Some(bytes), Some(others)) => *bytes == *others,
        _ => bytes == others,
    }
}

/// A digest that is looked for, and the register of a bank that it extends.
#[derive(Clone, Copy)]
pub(crate) struct Sought<'a> {
    pub(crate) bank: Alg,
    pub(crate) register: u32,
    pub(crate) digest: &'a [u8],
}

impl<'a> Sought<'a> {
    /// Whether it is this one, which is allowed for its register.
    #[inline(always)]
    pub(crate) fn is_this(&self, allowed: &AllowedDigest) -> bool
        ensures { result
            ≡ is_this self.now.bank self.now.register self.now.digest.now allowed.now }
    {
        is_for(allowed, self.bank, self.register) && are_same(allowed.digest.digest(), self.digest)
    }
}
