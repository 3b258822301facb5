//! Attributes: TPMA_SESSION and TPMA_NV (Part 2, 8.4 and 13.4).

ghost use Rattle.std.specs.Prelude.{◌≡◌, ℕ, true, Some, None, if◌then◌else◌};
ghost use Rattle.tpm_types.specs.Tpma.{is_session_attrs, session_attrs, continues, audits_or_encrypts, is_nv_attrs};
ghost use Rattle.tpm_types.specs.Tpma.{nv_attrs, is_counter, owner_writes, auth_writes, policy_writes, owner_reads};
ghost use Rattle.tpm_types.specs.Tpma.{auth_reads, policy_reads, no_da, is_written, with_written, is_writable};
ghost use Rattle.tpm_types.specs.Tpma.{is_readable, is_undefinable};

use std::marker::Model;
use tpm_wire::response_code::RESERVED_BITS;
use tpm_wire::{Cursor, Refusal, Room, Wire};

const CONTINUE_SESSION: u8 = 1 << 0;

const AUDIT_EXCLUSIVE: u8 = 1 << 1;

const AUDIT_RESET: u8 = 1 << 2;

const SESSION_RESERVED: u8 = 3 << 3;

const DECRYPT: u8 = 1 << 5;

const ENCRYPT: u8 = 1 << 6;

const AUDIT: u8 = 1 << 7;

/// The attributes of a session, TPMA_SESSION (Part 2, 8.4): one byte, whose bits 3 and 4 are clear.
#[derive(Clone, Copy, Debug, PartialEq, Eq)]
pub struct SessionAttrs {
    byte: u8,
}

impl Model for SessionAttrs {
    ghost Value = { ℕ };

    ghost view = { λ a. a.byte };

    ghost invariant = { λ a. is_session_attrs a.byte ≡ true };

    ghost inverse = { λ n. record { byte = n } };
}

/// No attribute is set.
impl Default for SessionAttrs {
    fn default() -> Self
        ensures { result ≡ 0 }
    {
        SessionAttrs { byte: 0 }
    }
}

impl SessionAttrs {
    /// The attributes of this number, where its reserved bits are clear.
    pub fn from_number(n: u8) -> Option<Self>
        ensures { result ≡ (if is_session_attrs n then Some n else None) }
    {
        if n & SESSION_RESERVED == 0 {
            Some(SessionAttrs { byte: n })
        } else {
            None
        }
    }

    /// Their number.
    pub fn number(self) -> u8
        ensures value { result ≡ self }
        ensures in_set { is_session_attrs result ≡ true }
    {
        self.byte
    }

    /// continueSession: the session goes on after the command.
    pub fn continues(self) -> bool
        ensures { result ≡ continues self }
    {
        self.number() & CONTINUE_SESSION != 0
    }

    /// Whether any attribute of auditing and of encrypted parameters is set.
    pub fn audits_or_encrypts(self) -> bool
        ensures { result ≡ audits_or_encrypts self }
    {
        self.number() & (AUDIT_EXCLUSIVE | AUDIT_RESET | DECRYPT | ENCRYPT | AUDIT) != 0
    }
}

/// 1 byte, else RESERVED_BITS.
#[tactic(auto, unfolding(crate::specs::Tpma::session_attrs))]
impl Wire for SessionAttrs {
    ghost layout = { session_attrs };

    ghost most = { 1 };

    fn has_spelling(&self) {
        prove!(self.number() <= u8::MAX);
    }

    fn len(&self) -> usize {
        1
    }

    fn put<R: Room>(&self, out: &mut R) {
        self.number().put(out);
    }

    fn take(cursor: &mut Cursor<'_>) -> Result<Self, Refusal> {
        let refusal = cursor.refusal(RESERVED_BITS);
        SessionAttrs::from_number(u8::take(cursor)?).ok_or(refusal)
    }
}

const PP_WRITE: u32 = 1 << 0;

const OWNER_WRITE: u32 = 1 << 1;

const AUTH_WRITE: u32 = 1 << 2;

const POLICY_WRITE: u32 = 1 << 3;

const POLICY_DELETE: u32 = 1 << 10;

const WRITE_LOCKED: u32 = 1 << 11;

const PP_READ: u32 = 1 << 16;

const OWNER_READ: u32 = 1 << 17;

const AUTH_READ: u32 = 1 << 18;

const POLICY_READ: u32 = 1 << 19;

const NV_RESERVED: u32 = 3 << 8 | 31 << 20;

const NO_DA: u32 = 1 << 25;

const ORDERLY: u32 = 1 << 26;

const CLEAR_STCLEAR: u32 = 1 << 27;

const READ_LOCKED: u32 = 1 << 28;

const WRITTEN: u32 = 1 << 29;

const PLATFORM_CREATE: u32 = 1 << 30;

/// TPM_NT_COUNTER (Part 2, 13.2).
const COUNTER: u32 = 1;

/// The attributes of an NV index, TPMA_NV (Part 2, 13.4): 4 bytes, whose bits 8, 9 and 20 to 24 are clear.
#[derive(Clone, Copy, Debug, PartialEq, Eq)]
pub struct NvAttrs {
    bits: u32,
}

impl Model for NvAttrs {
    ghost Value = { ℕ };

    ghost view = { λ a. a.bits };

    ghost invariant = { λ a. is_nv_attrs a.bits ≡ true };

    ghost inverse = { λ n. record { bits = n } };
}

impl NvAttrs {
    /// The attributes of this number, where its reserved bits are clear.
    pub fn from_number(n: u32) -> Option<Self>
        ensures { result ≡ (if is_nv_attrs n then Some n else None) }
    {
        if n & NV_RESERVED == 0 {
            Some(NvAttrs { bits: n })
        } else {
            None
        }
    }

    /// Their number.
    pub fn number(self) -> u32
        ensures value { result ≡ self }
        ensures in_set { is_nv_attrs result ≡ true }
    {
        self.bits
    }

    /// Whether the index is a counter: bits 7 to 4 are TPM_NT_COUNTER.
    pub fn is_counter(self) -> bool
        ensures { result ≡ is_counter self }
    {
        self.number() >> 4 & 15 == COUNTER
    }

    /// OWNERWRITE: the owner's authorization lets it be written.
    pub fn owner_writes(self) -> bool
        ensures { result ≡ owner_writes self }
    {
        self.number() & OWNER_WRITE != 0
    }

    /// AUTHWRITE: its own authorization value lets it be written.
    pub fn auth_writes(self) -> bool
        ensures { result ≡ auth_writes self }
    {
        self.number() & AUTH_WRITE != 0
    }

    /// POLICYWRITE: its policy lets it be written.
    pub fn policy_writes(self) -> bool
        ensures { result ≡ policy_writes self }
    {
        self.number() & POLICY_WRITE != 0
    }

    /// OWNERREAD: the owner's authorization lets it be read.
    pub fn owner_reads(self) -> bool
        ensures { result ≡ owner_reads self }
    {
        self.number() & OWNER_READ != 0
    }

    /// AUTHREAD: its own authorization value lets it be read.
    pub fn auth_reads(self) -> bool
        ensures { result ≡ auth_reads self }
    {
        self.number() & AUTH_READ != 0
    }

    /// POLICYREAD: its policy lets it be read.
    pub fn policy_reads(self) -> bool
        ensures { result ≡ policy_reads self }
    {
        self.number() & POLICY_READ != 0
    }

    /// NO_DA: failed authorizations of the index don't count towards a lockout.
    pub fn no_da(self) -> bool
        ensures { result ≡ no_da self }
    {
        self.number() & NO_DA != 0
    }

    /// WRITTEN: the index has a value.
    pub fn is_written(self) -> bool
        ensures { result ≡ is_written self }
    {
        self.number() & WRITTEN != 0
    }

    /// The same attributes, with WRITTEN set.
    pub fn with_written(self) -> Self
        ensures { result ≡ with_written self }
    {
        NvAttrs {
            bits: self.number() | WRITTEN,
        }
    }

    /// Whether any of PPWRITE, OWNERWRITE, AUTHWRITE and POLICYWRITE is set.
    pub fn is_writable(self) -> bool
        ensures { result ≡ is_writable self }
    {
        self.number() & (PP_WRITE | OWNER_WRITE | AUTH_WRITE | POLICY_WRITE) != 0
    }

    /// Whether any of PPREAD, OWNERREAD, AUTHREAD and POLICYREAD is set.
    pub fn is_readable(self) -> bool
        ensures { result ≡ is_readable self }
    {
        self.number() & (PP_READ | OWNER_READ | AUTH_READ | POLICY_READ) != 0
    }

    /// Whether any attribute is set that no definition may set: POLICY_DELETE, WRITELOCKED, ORDERLY, CLEAR_STCLEAR,
    /// READLOCKED, WRITTEN and PLATFORMCREATE.
    pub fn is_undefinable(self) -> bool
        ensures { result ≡ is_undefinable self }
    {
        let undefinable = POLICY_DELETE
            | WRITE_LOCKED
            | ORDERLY
            | CLEAR_STCLEAR
            | READ_LOCKED
            | WRITTEN
            | PLATFORM_CREATE;
        self.number() & undefinable != 0
    }
}

/// 4 bytes, else RESERVED_BITS.
#[tactic(auto, unfolding(crate::specs::Tpma::nv_attrs))]
impl Wire for NvAttrs {
    ghost layout = { nv_attrs };

    ghost most = { 4 };

    fn has_spelling(&self) {
        prove!(self.number() <= u32::MAX);
    }

    fn len(&self) -> usize {
        4
    }

    fn put<R: Room>(&self, out: &mut R) {
        self.number().put(out);
    }

    fn take(cursor: &mut Cursor<'_>) -> Result<Self, Refusal> {
        let refusal = cursor.refusal(RESERVED_BITS);
        NvAttrs::from_number(u32::take(cursor)?).ok_or(refusal)
    }
}
