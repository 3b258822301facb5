//! A response as a value.

ghost use Rattle.std.specs.Prelude.{◌≡◌, ◌<◌, ℕ, Some, None, nat_lt, if◌then◌else◌};

use crate::command::ReplyBody;
use arrayvec::ArrayVec;
use std::marker::Model;
use tpm_types::{
    AuthReply, Digest, DigestValues, Digests, Name, Nonce, NvPublic, Selections, SessionHandle,
};
use tpm_wire::Bounded;

/// What a counter's bytes are read into: TPM2B_MAX_NV_BUFFER of this profile, 0 to 8 bytes (Part 2, 10.4.9).
pub type NvData = Bounded<8>;

/// A response code that is not TPM_RC_SUCCESS: any 32-bit number but 0 (Part 2, 6.6).
#[derive(Clone, Copy, Debug, PartialEq, Eq)]
pub struct ErrorCode {
    code: u32,
}

impl Model for ErrorCode {
    ghost Value = { ℕ };

    ghost view = { λ e. e.code };

    ghost invariant = { λ e. 0 < e.code };

    ghost inverse = { λ n. record { code = n } };
}

impl ErrorCode {
    /// The code of this number, unless it is 0.
    pub fn from_number(code: u32) -> Option<Self>
        ensures { result ≡ (if nat_lt 0 code then Some code else None) }
    {
        if code > 0 {
            Some(ErrorCode { code })
        } else {
            None
        }
    }

    /// Its number, which is not 0.
    pub fn number(self) -> u32
        ensures value { result ≡ self }
        ensures some { 0 < result }
    {
        self.code
    }
}

/// What a started session is answered with (Part 3, 11.1).
#[derive(Drop)]
pub struct StartReply {
    pub session: SessionHandle,
    pub nonce_tpm: Nonce,
}

/// A response (Part 1, "Command/Response Structure"): a nonzero code alone, or what the command answers and the
/// sessions that authorized it, none under tag 0x8001 and one to three under 0x8002.
#[derive(Drop)]
pub enum Response {
    Code(ErrorCode),
    Done {
        body: ReplyBody,
        auths: ArrayVec<AuthReply, 3>,
    },
}
