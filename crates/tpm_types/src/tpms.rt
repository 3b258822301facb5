//! Structures of several fields: TPMS (Part 2, 10 to 13).

ghost use Rattle.std.specs.Prelude.{◌≡◌, ◌++◌, OnOk};
ghost use Rattle.tpm_wire.specs.Buffers.{TakesAs};
ghost use Rattle.tpm_wire.specs.Spelling.{spelling};
ghost use Rattle.tpm_types.specs.Tpms.{select_bytes};
ghost use Rattle.tpm_types.specs.inner.Tpms.{select_size};

use crate::alg::Alg;
use crate::handles::{AuthSession, NvIndex, PcrIndex};
use crate::limits::PUBLIC_BYTES;
use crate::tpm2b::{AuthValue, Digest, Nonce};
use crate::tpma::{NvAttrs, SessionAttrs};
use tpm_wire::response_code::{INSUFFICIENT, VALUE};
use tpm_wire::{Cursor, Duplicate, Refusal, Room, Wire, put_bytes, take_size};

/// How many bytes of bits a selection has, one bit for each register.
pub const SELECT_BYTES: usize = 3;

/// Registers of one bank: TPMS_PCR_SELECTION (Part 2, 10.6.2).
#[derive(Clone, Copy, Debug, PartialEq, Eq, Default)]
pub struct Selection {
    /// The hash of the bank.
    pub hash: Alg,
    /// Register i is selected where bit `i % 8` of byte `i / 8` is set.
    pub select: [u8; SELECT_BYTES],
}

impl Duplicate for Selection {
    fn duplicate(&self) -> Self {
        *self
    }
}

impl Selection {
    ghost use Rattle.std.specs.Prelude.{◌≡◌};
    ghost use Rattle.tpm_types.specs.Tpms.{is_selected};

    /// Whether the register is selected.
    pub fn is_selected(&self, register: PcrIndex) -> bool
        ensures { result ≡ is_selected self.now.select register }
    {
        let i = register.number() as usize;
        self.select[i / 8] & (1 << (i % 8)) != 0
    }
}

/// Reads the number of a selection's bytes, which is 3, else VALUE.
#[inline(always)]
fn take_select_size(cursor: &mut Cursor<'_>) -> Result<(), Refusal>
    ensures reads { TakesAs (λ _. select_bytes) select_size cursor.old cursor.new result }
    ensures spelled { OnOk result
        (cursor.old.here.rest ≡ spelling select_size select_bytes ++ cursor.new.here.rest) }
{
    let refusal = cursor.refusal(VALUE);
    if u8::take(cursor)? as usize != SELECT_BYTES {
        return Err(refusal);
    }
    Ok(())
}

/// A hash, else HASH; the number of bytes, 3, else VALUE; the bytes.
#[tactic(auto, unfolding(crate::specs::Tpms::selection))]
impl Wire for Selection {
    ghost use Rattle.tpm_types.specs.Tpms.{selection};

    ghost layout = { selection };

    ghost most = { 6 };

    fn has_spelling(&self) {
        self.hash.has_spelling();
    }

    fn len(&self) -> usize {
        self.hash.len() + 1 + SELECT_BYTES
    }

    fn put<R: Room>(&self, out: &mut R) {
        self.hash.put(out);
        (SELECT_BYTES as u8).put(out);
        put_bytes(out, &self.select);
    }

    fn take(cursor: &mut Cursor<'_>) -> Result<Self, Refusal> {
        let mut found = Selection::default();
        found.read(cursor)?;
        Ok(found)
    }

    fn read(&mut self, cursor: &mut Cursor<'_>) -> Result<(), Refusal>
    where
        Self: Drop,
    {
        self.hash = Alg::take(cursor)?;
        take_select_size(cursor)?;
        match cursor.array() {
            Some(select) => {
                self.select = select;
                Ok(())
            }
            None => Err(cursor.refusal(INSUFFICIENT)),
        }
    }
}

/// A session in a command: TPMS_AUTH_COMMAND (Part 2, 10.13.2).
#[derive(Debug, Default, Drop, PartialEq, Eq)]
pub struct Auth {
    /// The session, or the password.
    pub session: AuthSession,
    /// The caller's nonce, nonceCaller.
    pub nonce: Nonce,
    /// sessionAttributes.
    pub attrs: SessionAttrs,
    /// The HMAC, or the password.
    pub hmac: AuthValue,
}

/// The fields in their order.
#[tactic(auto, unfolding(crate::specs::Tpms::auth_command))]
impl Wire for Auth {
    ghost use Rattle.std.specs.Prelude.{◌+◌};
    ghost use Rattle.tpm_types.specs.Limits.{digest_bytes};
    ghost use Rattle.tpm_types.specs.Tpms.{auth_command};

    ghost layout = { auth_command };

    ghost most = { 4 + (2 + digest_bytes) + 1 + (2 + digest_bytes) };

    fn has_spelling(&self) {
        self.session.has_spelling();
        self.nonce.has_spelling();
        self.attrs.has_spelling();
        self.hmac.has_spelling();
    }

    fn len(&self) -> usize {
        self.session.len() + self.nonce.len() + self.attrs.len() + self.hmac.len()
    }

    fn put<R: Room>(&self, out: &mut R) {
        self.session.put(out);
        self.nonce.put(out);
        self.attrs.put(out);
        self.hmac.put(out);
    }

    fn take(cursor: &mut Cursor<'_>) -> Result<Self, Refusal> {
        let mut found = Auth::default();
        found.read(cursor)?;
        Ok(found)
    }

    fn read(&mut self, cursor: &mut Cursor<'_>) -> Result<(), Refusal>
    where
        Self: Drop,
    {
        self.session = AuthSession::take(cursor)?;
        self.nonce.read(cursor)?;
        self.attrs = SessionAttrs::take(cursor)?;
        self.hmac.read(cursor)
    }
}

/// A session in a response: TPMS_AUTH_RESPONSE (Part 2, 10.13.3).
#[derive(Debug, Default, Drop, PartialEq, Eq)]
pub struct AuthReply {
    /// The device's nonce, nonceTPM.
    pub nonce: Nonce,
    /// sessionAttributes.
    pub attrs: SessionAttrs,
    /// The HMAC.
    pub hmac: AuthValue,
}

/// The fields in their order.
#[tactic(auto, unfolding(crate::specs::Tpms::auth_response))]
impl Wire for AuthReply {
    ghost use Rattle.std.specs.Prelude.{◌+◌};
    ghost use Rattle.tpm_types.specs.Limits.{digest_bytes};
    ghost use Rattle.tpm_types.specs.Tpms.{auth_response};

    ghost layout = { auth_response };

    ghost most = { (2 + digest_bytes) + 1 + (2 + digest_bytes) };

    fn has_spelling(&self) {
        self.nonce.has_spelling();
        self.attrs.has_spelling();
        self.hmac.has_spelling();
    }

    fn len(&self) -> usize {
        self.nonce.len() + self.attrs.len() + self.hmac.len()
    }

    fn put<R: Room>(&self, out: &mut R) {
        self.nonce.put(out);
        self.attrs.put(out);
        self.hmac.put(out);
    }

    fn take(cursor: &mut Cursor<'_>) -> Result<Self, Refusal> {
        let mut found = AuthReply::default();
        found.read(cursor)?;
        Ok(found)
    }

    fn read(&mut self, cursor: &mut Cursor<'_>) -> Result<(), Refusal>
    where
        Self: Drop,
    {
        self.nonce.read(cursor)?;
        self.attrs = SessionAttrs::take(cursor)?;
        self.hmac.read(cursor)
    }
}

/// What is public of an NV index: TPMS_NV_PUBLIC (Part 2, 13.5), in buffers with its size before it, TPM2B_NV_PUBLIC.
#[derive(Debug, Drop, PartialEq, Eq)]
pub struct NvPublic {
    /// nvIndex.
    pub index: NvIndex,
    /// nameAlg: the hash of its Name and its policy.
    pub alg: Alg,
    /// Its attributes.
    pub attrs: NvAttrs,
    /// authPolicy.
    pub policy: Digest,
    /// How many bytes its data have.
    pub data_size: u16,
}

#[tactic(auto, unfolding(crate::specs::Tpms::nv_public_area))]
impl NvPublic {
    ghost use Rattle.std.specs.Prelude.{◌≡◌, ℕ, ◌+◌, ◌++◌, ◌≤◌, length, IfOk};
    ghost use Rattle.tpm_wire.specs.Buffers.{Takes};
    ghost use Rattle.tpm_wire.specs.Spelling.{spelling, Fits};
    ghost use Rattle.tpm_types.specs.Limits.{public_bytes};
    ghost use Rattle.tpm_types.specs.Tpms.{nv_public_area};

    /// How many bytes the area has, TPMS_NV_PUBLIC.
    pub fn area_len(&self) -> usize
        ensures value { result ≡ length (spelling nv_public_area self.now) }
        ensures fits { result ≤ public_bytes }
    {
        self.index.len()
            + self.alg.len()
            + self.attrs.len()
            + self.policy.len()
            + self.data_size.len()
    }

    /// Adds the area at the end, TPMS_NV_PUBLIC: the bytes that the Name of the index is made of (Part 1, Names).
    pub fn put_area<R: Room>(&self, out: &mut R)
        requires { length (R.written out.old) + length (spelling nv_public_area self.now) ≤ R.size }
        ensures { R.written out.new ≡ R.written out.old ++ spelling nv_public_area self.now }
    {
        self.index.put(out);
        self.alg.put(out);
        self.attrs.put(out);
        self.policy.put(out);
        self.data_size.put(out);
    }

    /// The area has a spelling.
    fn known_area(&self)
        ensures { (left : ℕ) → Fits left nv_public_area self.now }
    {
        self.index.has_spelling();
        self.alg.has_spelling();
        self.attrs.has_spelling();
        self.policy.has_spelling();
        self.data_size.has_spelling();
    }

    fn take_area(cursor: &mut Cursor<'_>) -> Result<Self, Refusal>
        ensures reads { Takes nv_public_area cursor.old cursor.new result }
        ensures spelled { IfOk result
            (λ p. cursor.old.here.rest ≡ spelling nv_public_area p ++ cursor.new.here.rest) }
    {
        Ok(NvPublic {
            index: NvIndex::take(cursor)?,
            alg: Alg::take(cursor)?,
            attrs: NvAttrs::take(cursor)?,
            policy: Digest::take(cursor)?,
            data_size: u16::take(cursor)?,
        })
    }
}

/// The size of the area, else SIZE; the area, of that many bytes: bytes left in it are SIZE.
#[tactic(auto, unfolding(crate::specs::Tpms::nv_public, tpm_wire::specs::Structures::sized))]
impl Wire for NvPublic {
    ghost use Rattle.std.specs.Prelude.{◌+◌};
    ghost use Rattle.tpm_types.specs.Limits.{public_bytes};
    ghost use Rattle.tpm_types.specs.Tpms.{nv_public};

    ghost layout = { nv_public };

    ghost most = { 2 + public_bytes };

    fn has_spelling(&self) {
        prove!(self.area_len() <= PUBLIC_BYTES);
        self.known_area();
    }

    fn len(&self) -> usize {
        2 + self.area_len()
    }

    #[inline(never)]
    fn put<R: Room>(&self, out: &mut R) {
        (self.area_len() as u16).put(out);
        self.put_area(out);
    }

    fn take(cursor: &mut Cursor<'_>) -> Result<Self, Refusal> {
        let size = take_size(cursor, PUBLIC_BYTES)?;
        let outer = cursor.enter(size)?;
        let public = NvPublic::take_area(cursor)?;
        cursor.leave(outer)?;
        Ok(public)
    }
}
