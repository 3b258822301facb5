//! Numbers that stand for a choice (Part 2, 6 and 11.1).

ghost use Rattle.std.specs.Prelude.{◌≡◌, Some};

use tpm_wire::response_code::VALUE;
use tpm_wire::{Cursor, Refusal, Room, Wire};

/// How a device starts: TPM_SU (Part 2, 6.10).
#[derive(Clone, Copy, Debug, PartialEq, Eq)]
pub enum StartupType {
    /// TPM_SU_CLEAR: anew.
    Clear,
    /// TPM_SU_STATE: from a saved state.
    State,
}

impl StartupType {
    ghost use Rattle.tpm_types.specs.Constants.{startup_of, startup_number};

    /// The value of this number, if it is one.
    pub fn from_number(n: u16) -> Option<Self>
        ensures { result ≡ startup_of n }
    {
        match n {
            0 => Some(StartupType::Clear),
            1 => Some(StartupType::State),
            _ => None,
        }
    }

    /// Its number.
    pub fn number(self) -> u16
        ensures value { result ≡ startup_number self }
        ensures in_set { startup_of result ≡ Some self }
    {
        match self {
            StartupType::Clear => 0,
            StartupType::State => 1,
        }
    }
}

/// 2 bytes, else VALUE.
#[tactic(auto, unfolding(crate::specs::Constants::startup_type))]
impl Wire for StartupType {
    ghost use Rattle.tpm_types.specs.Constants.{startup_type};

    ghost layout = { startup_type };

    ghost most = { 2 };

    fn has_spelling(&self) {
        prove!(self.number() <= u16::MAX);
    }

    fn len(&self) -> usize {
        2
    }

    fn put<R: Room>(&self, out: &mut R) {
        self.number().put(out);
    }

    fn take(cursor: &mut Cursor<'_>) -> Result<Self, Refusal> {
        let refusal = cursor.refusal(VALUE);
        StartupType::from_number(u16::take(cursor)?).ok_or(refusal)
    }
}

/// What a session is for: TPM_SE (Part 2, 6.11).
#[derive(Clone, Copy, Debug, PartialEq, Eq)]
pub enum SessionType {
    /// TPM_SE_HMAC: authorization by HMAC.
    Hmac,
    /// TPM_SE_POLICY: authorization by policy.
    Policy,
    /// TPM_SE_TRIAL: the digest of a policy.
    Trial,
}

impl SessionType {
    ghost use Rattle.tpm_types.specs.Constants.{session_type_of, session_type_number};

    /// The value of this number, if it is one.
    pub fn from_number(n: u8) -> Option<Self>
        ensures { result ≡ session_type_of n }
    {
        match n {
            0 => Some(SessionType::Hmac),
            1 => Some(SessionType::Policy),
            3 => Some(SessionType::Trial),
            _ => None,
        }
    }

    /// Its number.
    pub fn number(self) -> u8
        ensures value { result ≡ session_type_number self }
        ensures in_set { session_type_of result ≡ Some self }
    {
        match self {
            SessionType::Hmac => 0,
            SessionType::Policy => 1,
            SessionType::Trial => 3,
        }
    }
}

/// 1 byte, else VALUE.
#[tactic(auto, unfolding(crate::specs::Constants::session_type))]
impl Wire for SessionType {
    ghost use Rattle.tpm_types.specs.Constants.{session_type};

    ghost layout = { session_type };

    ghost most = { 1 };

    fn has_spelling(&self) {
        prove!(self.number() <= u8::MAX);
    }

    fn len(&self) -> usize {
        1
    }

    fn put<R: Room>(&self, out: &mut R) {
        self.number().put(out);
    }

    fn take(cursor: &mut Cursor<'_>) -> Result<Self, Refusal> {
        let refusal = cursor.refusal(VALUE);
        SessionType::from_number(u8::take(cursor)?).ok_or(refusal)
    }
}

/// How many bits an AES key has: TPMI_AES_KEY_BITS (Part 2, 11.1.2), without 192 (this profile).
#[derive(Clone, Copy, Debug, PartialEq, Eq)]
pub enum KeyBits {
    /// 128 bits.
    Bits128,
    /// 256 bits.
    Bits256,
}

impl KeyBits {
    ghost use Rattle.tpm_types.specs.Constants.{key_bits_of, key_bits_number};

    /// The size of this number of bits, if it is one.
    pub fn from_number(n: u16) -> Option<Self>
        ensures { result ≡ key_bits_of n }
    {
        match n {
            128 => Some(KeyBits::Bits128),
            256 => Some(KeyBits::Bits256),
            _ => None,
        }
    }

    /// The number of bits.
    pub fn number(self) -> u16
        ensures value { result ≡ key_bits_number self }
        ensures in_set { key_bits_of result ≡ Some self }
    {
        match self {
            KeyBits::Bits128 => 128,
            KeyBits::Bits256 => 256,
        }
    }
}

/// 2 bytes, else VALUE.
#[tactic(auto, unfolding(crate::specs::Constants::key_bits))]
impl Wire for KeyBits {
    ghost use Rattle.tpm_types.specs.Constants.{key_bits};

    ghost layout = { key_bits };

    ghost most = { 2 };

    fn has_spelling(&self) {
        prove!(self.number() <= u16::MAX);
    }

    fn len(&self) -> usize {
        2
    }

    fn put<R: Room>(&self, out: &mut R) {
        self.number().put(out);
    }

    fn take(cursor: &mut Cursor<'_>) -> Result<Self, Refusal> {
        let refusal = cursor.refusal(VALUE);
        KeyBits::from_number(u16::take(cursor)?).ok_or(refusal)
    }
}
