//! Sized buffers: TPM2B (Part 2, 10.4), also as they are lent, and packed as they are kept.

ghost use Rattle.std.specs.Prelude.{◌≡◌, ◌≤◌, ◌<◌, ◌+◌, ◌^◌, ◌++◌, ℕ, IfOk, MatchOption, length, []};
ghost use Rattle.std.specs.Int.{to_be_bytes, w32};
ghost use Rattle.tpm_wire.specs.Spelling.{spelling, Fits};
ghost use Rattle.tpm_wire.specs.Structures.{sized_bytes};
ghost use Rattle.tpm_wire.specs.Buffers.{Takes};

use crate::limits::{DIGEST_BYTES, NAME_BYTES};
use std::marker::Model;
use tpm_wire::response_code::{INSUFFICIENT, VALUE};
use tpm_wire::{Bounded, Cursor, Refusal, Room, Wire, put_bytes, take_size};

/// A digest: TPM2B_DIGEST (Part 2, 10.4.2), at most as many bytes as the longest digest of a bank.
pub type Digest = Bounded<DIGEST_BYTES>;

/// A nonce: TPM2B_NONCE (Part 2, 10.4.4).
pub type Nonce = Bounded<DIGEST_BYTES>;

/// An authorization value, or what proves it: TPM2B_AUTH (Part 2, 10.4.5).
pub type AuthValue = Bounded<DIGEST_BYTES>;

/// The Name of an entity: TPM2B_NAME (Part 2, 10.5.3), the number of a hash and a digest, or 4 bytes of a handle.
pub type Name = Bounded<NAME_BYTES>;

/// The Name of a register, a session or a permanent handle: the 4 bytes of its handle (Part 1, Names).
pub fn name_of_handle(handle: u32) -> Name
    ensures { result ≡ to_be_bytes w32 handle }
{
    Name::of(&handle.to_be_bytes())
}

/// The salt of a session, TPM2B_ENCRYPTED_SECRET (Part 2, 11.4.3): in this profile there is none.
#[derive(Clone, Copy, Debug, PartialEq, Eq)]
pub enum EncryptedSalt {
    /// No bytes.
    Empty,
}

/// A size of 0 in 2 bytes, else VALUE.
#[tactic(auto, unfolding(crate::specs::Tpm2b::encrypted_salt))]
impl Wire for EncryptedSalt {
    ghost use Rattle.tpm_types.specs.Tpm2b.{encrypted_salt};

    ghost layout = { encrypted_salt };

    ghost most = { 2 };

    fn has_spelling(&self) {}

    fn len(&self) -> usize {
        2
    }

    fn put<R: Room>(&self, out: &mut R) {
        0u16.put(out);
    }

    fn take(cursor: &mut Cursor<'_>) -> Result<Self, Refusal> {
        let refusal = cursor.refusal(VALUE);
        if u16::take(cursor)? != 0 {
            return Err(refusal);
        }
        Ok(EncryptedSalt::Empty)
    }
}

/// At most `N` bytes, lent from where they are. In a buffer their number lies before them, in 2 bytes.
#[derive(Drop)]
pub struct Lent<'a, const N: usize> {
    bytes: &'a [u8],
}

impl<'a, const N: usize> Model for Lent<'a, N> {
    ghost use Rattle.std.specs.Prelude.{◌≤◌, ◌<◌, ◌^◌, ℕ, List, length};

    ghost Value = { List ℕ };

    ghost view = { λ l. l.bytes.now };

    ghost invariant = { λ l. (length l.bytes.now ≤ N) × (length l.bytes.now < 2 ^ 16) };
}

impl<'a, const N: usize> Lent<'a, N> {
    /// These bytes, if they are at most `N`.
    pub fn new(bytes: &'a [u8]) -> Option<Self>
        requires { N < 2 ^ 16 }
        ensures { MatchOption result (N < length bytes.now)
            (λ l. (l ≡ bytes.now) × (length bytes.now ≤ N)) }
    {
        if bytes.len() > N {
            return None;
        }
        Some(Lent { bytes })
    }

    /// The bytes.
    pub fn as_slice(&self) -> &'a [u8]
        ensures value { result.now ≡ self.now }
        ensures fits { length result.now ≤ N }
    {
        self.bytes
    }

    /// The bytes that begin here: their number in two bytes, at most `N`, else SIZE, and the bytes. INSUFFICIENT where
    /// fewer are left in the area.
    #[tactic(auto, unfolding(tpm_wire::specs::Structures::sized_bytes))]
    pub fn take(cursor: &mut Cursor<'a>) -> Result<Self, Refusal>
        ensures reads { Takes (sized_bytes N) cursor.old cursor.new result }
        ensures spelled { IfOk result
            (λ l. cursor.old.here.rest ≡ spelling (sized_bytes N) l ++ cursor.new.here.rest) }
    {
        let n = take_size(cursor, N)?;
        match cursor.front(n) {
            Some(bytes) => Ok(Lent { bytes }),
            None => Err(cursor.refusal(INSUFFICIENT)),
        }
    }

    /// The bytes have a spelling. It does nothing, and is called for what it ensures.
    #[tactic(auto, unfolding(tpm_wire::specs::Structures::sized_bytes))]
    pub fn has_spelling(&self)
        ensures { (left : ℕ) → Fits left (sized_bytes N) self.now }
    {
        prove!(self.bytes.len() <= N);
    }

    /// How many bytes the spelling has.
    #[tactic(auto, unfolding(tpm_wire::specs::Structures::sized_bytes))]
    pub fn len(&self) -> usize
        ensures value { result ≡ length (spelling (sized_bytes N) self.now) }
        ensures fits { result ≤ 2 + N }
    {
        2 + self.bytes.len()
    }

    /// Adds the spelling at the end.
    #[tactic(auto, unfolding(tpm_wire::specs::Structures::sized_bytes))]
    pub fn put<R: Room>(&self, out: &mut R)
        requires { length (R.written out.old)
            + length (spelling (sized_bytes N) self.now)
            ≤ R.size }
        ensures { R.written out.new ≡ R.written out.old ++ spelling (sized_bytes N) self.now }
    {
        (self.bytes.len() as u16).put(out);
        put_bytes(out, self.bytes);
    }
}

/// At most `N` bytes, with their number in one more: what is kept for long, as a device's nonces and digests, takes no
/// room that it does not need.
#[derive(Drop)]
pub struct Packed<const N: usize> {
    len: u8,
    bytes: [u8; N],
}

impl<const N: usize> Model for Packed<N> {
    ghost use Rattle.std.specs.Prelude.{◌≤◌, ℕ, List, take};

    ghost Value = { List ℕ };

    ghost view = { λ p. take p.len p.bytes };

    ghost invariant = { λ p. p.len ≤ N };
}

impl<const N: usize> Packed<N> {
    /// A copy of these bytes, fewer than 256.
    pub fn new(bytes: &[u8]) -> Self
        requires short { length bytes.now ≤ N }
        requires counted { length bytes.now < 2 ^ 8 }
        ensures { result ≡ bytes.now }
    {
        let mut room = [0; N];
        room[..bytes.len()].copy_from_slice(bytes);
        Packed {
            len: bytes.len() as u8,
            bytes: room,
        }
    }

    /// Makes it these bytes, fewer than 256.
    pub fn set(&mut self, bytes: &[u8])
        requires short { length bytes.now ≤ N }
        requires counted { length bytes.now < 2 ^ 8 }
        ensures { self.new ≡ bytes.now }
    {
        self.bytes[..bytes.len()].copy_from_slice(bytes);
        self.len = bytes.len() as u8;
    }

    /// The bytes.
    pub fn as_slice(&self) -> &[u8]
        ensures value { result.now ≡ self.now }
        ensures fits { length result.now ≤ N }
    {
        &self.bytes[..self.len as usize]
    }
}

/// No bytes.
impl<const N: usize> Default for Packed<N> {
    fn default() -> Self
        ensures { result ≡ [] }
    {
        Packed {
            len: 0,
            bytes: [0; N],
        }
    }
}
