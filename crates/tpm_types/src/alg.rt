//! Hash algorithms: TPMI_ALG_HASH (Part 2, 9.27).

ghost use Rattle.std.specs.Prelude.{◌≡◌, ◌≤◌};
ghost use Rattle.tpm_types.specs.Limits.{digest_bytes, block_bytes};
ghost use Rattle.tpm_types.specs.Alg.{alg_of, alg_number, alg_name, digest_len, block_len, hash};

use crate::limits::BANKS;
use tpm_wire::response_code::HASH;
use tpm_wire::{Cursor, Duplicate, Refusal, Room, Wire};

/// A hash algorithm, which has a bank of registers.
#[derive(Clone, Copy, Debug, PartialEq, Eq)]
pub enum Alg {
    Sha1,
    Sha256,
    Sha384,
}

/// SHA-256.
impl Default for Alg {
    fn default() -> Self
        ensures { result ≡ Alg.Sha256 }
    {
        Alg::Sha256
    }
}

impl Duplicate for Alg {
    fn duplicate(&self) -> Self {
        *self
    }
}

impl Alg {
    /// The hash algorithms in the order of their numbers, one for each bank.
    pub const ALL: [Alg; BANKS] = [Alg::Sha1, Alg::Sha256, Alg::Sha384];

    /// The hash of this number, if it is one of this profile.
    pub fn from_number(n: u16) -> Option<Self>
        ensures { result ≡ alg_of n }
    {
        match n {
            0x0004 => Some(Alg::Sha1),
            0x000B => Some(Alg::Sha256),
            0x000C => Some(Alg::Sha384),
            _ => None,
        }
    }

    /// Its number: TPM_ALG_ID (Part 2, 6.3).
    pub fn number(self) -> u16
        ensures { result ≡ alg_number self }
    {
        match self {
            Alg::Sha1 => 0x0004,
            Alg::Sha256 => 0x000B,
            Alg::Sha384 => 0x000C,
        }
    }

    /// Its name, and that of its bank, as tpm2-tools spell it: `sha1`, `sha256` or `sha384` (this profile).
    pub fn name(self) -> &'static str
        ensures { result.now ≡ alg_name self }
    {
        match self {
            Alg::Sha1 => "sha1",
            Alg::Sha256 => "sha256",
            Alg::Sha384 => "sha384",
        }
    }

    /// How many bytes its digests have.
    pub fn digest_len(self) -> usize
        ensures value { result ≡ digest_len self }
        ensures fits { result ≤ digest_bytes }
    {
        match self {
            Alg::Sha1 => 20,
            Alg::Sha256 => 32,
            Alg::Sha384 => 48,
        }
    }

    /// How many bytes it takes at a time, which are those of the padded key of an HMAC (FIPS 198-1, section 3).
    pub fn block_len(self) -> usize
        ensures value { result ≡ block_len self }
        ensures fits { result ≤ block_bytes }
    {
        match self {
            Alg::Sha1 => 64,
            Alg::Sha256 => 64,
            Alg::Sha384 => 128,
        }
    }
}

#[tactic(auto, unfolding(crate::specs::Alg::hash))]
impl Wire for Alg {
    ghost layout = { hash };

    ghost most = { 2 };

    fn has_spelling(&self) {}

    fn len(&self) -> usize {
        2
    }

    fn put<R: Room>(&self, out: &mut R) {
        self.number().put(out);
    }

    fn take(cursor: &mut Cursor<'_>) -> Result<Self, Refusal> {
        let refusal = cursor.refusal(HASH);
        Alg::from_number(u16::take(cursor)?).ok_or(refusal)
    }
}
