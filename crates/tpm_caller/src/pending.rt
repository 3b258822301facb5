//! What is kept of a sealed command until its reply comes.

ghost use Rattle.std.specs.Prelude.{◌≡◌, ◌≤◌, ◌<◌, ◌^◌, ◌++◌, ℕ, true, length, Some, None, Ok, IfOk, IfErr};
ghost use Rattle.std.specs.Prelude.{if◌then◌else◌};
ghost use Rattle.std.specs.Int.{bytes_high_first};
ghost use Rattle.tpm_types.specs.Limits.{digest_bytes};
ghost use Rattle.tpm_buffer.specs.Responses.{code_tag};
ghost use Rattle.tpm_model.specs.Callers.{Opened, opened, given_up};
ghost use Rattle.tpm_caller.specs.Faults.{opening_of, giving_up_of, HasFirstFault};
ghost use Rattle.tpm_caller.specs.Sent.{caller_with};
ghost use Rattle.tpm_caller.specs.inner.Checking.{has_no_params as has_no_params_of, HasFault, IsChecked, IsTold};
ghost use Rattle.tpm_caller.specs.inner.Checking.{OpensWith};

use crate::caller::Caller;
use crate::waiting::CallerFault;
use std::marker::Model;
use tpm_buffer::{NO_SESSIONS, RSP_COMMAND, decode_response, reply_areas};
use tpm_commands::Response;
use tpm_hmac::{rp_hash, same};
use tpm_types::{BLOCK_BYTES, CommandCode, Nonce};
use tpm_wire::Bounded;
use tpm_wire::response_code::BAD_TAG;

/// What is kept of a sealed command until its reply comes: all but the command's bytes, which lie in the caller's
/// buffer.
#[derive(Drop)]
pub struct Pending {
    pub(crate) caller: Caller,
    pub(crate) code: CommandCode,
    pub(crate) key: Bounded<BLOCK_BYTES>,
    pub(crate) nonce: Nonce,
    pub(crate) keep: bool,
}

impl Model for Pending {
    ghost use Rattle.std.specs.Prelude.{◌≡◌, true};
    ghost use Rattle.tpm_commands.specs.Handles.{needs_authorization};
    ghost use Rattle.tpm_model.specs.Callers as model;

    ghost Value = { model.Waiting };

    ghost view = { λ w. record
        { caller = w.caller; code = w.code; key = w.key; nonce = w.nonce; keep = w.keep } };

    ghost invariant = { λ w. needs_authorization w.code ≡ true };
}

// What the check of the session of a reply says, where the bytes may be none.
#[derive(Clone, Copy)]
enum Checked<'a> {
    // If they are a reply: its nonceTPM, as there is one session, with a nonceTPM of the session's length and the HMAC.
    Nonce(&'a [u8]),
    // If they are a reply: its first fault.
    Fault(CallerFault),
    // The first fault of the bytes, whatever they are.
    FirstFault(CallerFault),
}

// The command is sent in a session and answered without parameters (Part 3, the response table of each).
fn has_no_params(code: CommandCode) -> bool
    ensures { result ≡ has_no_params_of code }
{
    matches!(
        code,
        CommandCode::NvUndefineSpace
            | CommandCode::NvDefineSpace
            | CommandCode::NvIncrement
            | CommandCode::PcrReset
            | CommandCode::PcrExtend
    )
}

// These bytes are a response code that is not 0, by its tag and its size. What they are else is not told.
fn is_code(bytes: &[u8]) -> bool
    ensures { result ≡ true
        → (n : ℕ) × (0 < n)
        × (n < 2 ^ 32)
        × (bytes.now
        ≡ bytes_high_first 2 (code_tag n)
        ++ (bytes_high_first 4 10 ++ bytes_high_first 4 n)) }
{
    match bytes {
        [high, low, 0, 0, 0, 10, first, second, third, fourth] => {
            let tag = u16::from_be_bytes([*high, *low]);
            let code = u32::from_be_bytes([*first, *second, *third, *fourth]);
            if code == BAD_TAG {
                tag == RSP_COMMAND
            } else {
                code != 0 && tag == NO_SESSIONS
            }
        }
        _ => false,
    }
}

// The first fault of bytes that are no reply to a command with this code: they spell no response to it, or one whose
// code is not 0. It is out of line, since it reads a whole response.
#[inline(never)]
fn no_reply(code: CommandCode, bytes: &[u8]) -> Option<CallerFault>
    ensures { IsTold code bytes.now result }
{
    let response = match decode_response(code, bytes) {
        Ok(response) => response,
        Err(refusal) => return Some(CallerFault::Refused(refusal)),
    };
    if let Response::Code(code) = &response {
        return Some(CallerFault::Code(*code));
    }
    None
}

impl Pending {
    // Checks the session of a reply. Nothing is copied. What a reply without parameters spells is known: its
    // first fault is found, and it need not be read again.
    #[inline(never)]
    fn check<'a>(&self, bytes: &'a [u8]) -> Checked<'a>
        ensures { IsChecked self.now bytes.now result }
    {
        let Ok(areas) = reply_areas(self.code, bytes) else {
            return Checked::Fault(CallerFault::NotExpected);
        };
        if areas.auth_count() != 1 {
            return Checked::Fault(CallerFault::NotExpected);
        }
        let Some(session) = areas.auth(0) else {
            return Checked::Fault(CallerFault::NotExpected);
        };
        let nonce = session.nonce();
        if nonce.len() != self.caller.nonce().len() {
            return Checked::Fault(CallerFault::NotExpected);
        }
        let hash = self.caller.hash();
        let params = areas.params();
        let mac = self.caller.mac(
            self.key.as_slice(),
            rp_hash(hash, self.code, params).as_slice(),
            nonce,
            self.nonce.as_slice(),
            session.attrs(),
        );
        if same(session.hmac(), mac.as_slice()) {
            return Checked::Nonce(nonce);
        }
        if has_no_params(self.code) && params.is_empty() {
            return Checked::FirstFault(CallerFault::WrongMac);
        }
        Checked::Fault(CallerFault::WrongMac)
    }

    // The first fault of bytes that have this one if they are a reply.
    fn first_fault(&self, bytes: &[u8], checked: CallerFault) -> CallerFault
        requires { HasFault self.now bytes.now checked }
        ensures { HasFirstFault self.now bytes.now result }
    {
        match no_reply(self.code, bytes) {
            None => checked,
            Some(fault) => fault,
        }
    }

    // These bytes are a response whose code is not 0.
    fn is_refused(&self, bytes: &[u8]) -> bool
        ensures { given_up self.now bytes.now ≡ (if result then Some self.now.caller else None) }
    {
        match no_reply(self.code, bytes) {
            Some(CallerFault::Code(_)) => true,
            Some(CallerFault::Refused(_)) => false,
            Some(CallerFault::NotExpected) => false,
            Some(CallerFault::WrongMac) => false,
            None => false,
        }
    }

    /// The caller after a reply with this nonceTPM, as `judge` answered it, where it is kept.
    pub fn after(self, nonce: &[u8]) -> Option<Caller>
        requires { length nonce.now ≤ digest_bytes }
        ensures { result ≡ caller_with self nonce.now }
    {
        let Pending { caller, keep, .. } = self;
        if keep {
            Some(caller.after(nonce))
        } else {
            None
        }
    }

    /// Judges a reply, as `open` does, without handing out the response: its nonceTPM, for `after`, or its first fault.
    /// Nothing changes, and nothing large is moved.
    pub fn judge<'a>(&self, bytes: &'a [u8]) -> Result<&'a [u8], CallerFault>
        ensures ok { IfOk result
            (λ nonce. (x : Opened)
            × (opened self.now bytes.now ≡ Ok x)
            × (x.caller ≡ caller_with self.now nonce.now)) }
        ensures err { IfErr result (HasFirstFault self.now bytes.now) }
        ensures fits { IfOk result (λ nonce. length nonce.now ≤ digest_bytes) }
    {
        match self.check(bytes) {
            Checked::Nonce(nonce) => match no_reply(self.code, bytes) {
                None => Ok(nonce),
                Some(fault) => Err(fault),
            },
            Checked::Fault(fault) => Err(self.first_fault(bytes, fault)),
            Checked::FirstFault(fault) => Err(fault),
        }
    }

    // Opens a reply with this nonceTPM, in which `check` finds no fault. What it makes is filled where the
    // function begins, and so not in `open`.
    #[inline(never)]
    fn accept(
        self,
        bytes: &[u8],
        nonce: &[u8],
    ) -> Result<(Option<Caller>, Response), (Pending, CallerFault)>
        requires opens { OpensWith self bytes.now nonce.now }
        requires fits { length nonce.now ≤ digest_bytes }
        ensures { result ≡ opening_of self (opened self bytes.now) }
    {
        let response = match decode_response(self.code, bytes) {
            Ok(response) => response,
            Err(refusal) => return Err((self, CallerFault::Refused(refusal))),
        };
        if let Response::Code(code) = &response {
            return Err((self, CallerFault::Code(*code)));
        }
        Ok((self.after(nonce), response))
    }

    /// Opens the reply: the response, and the caller with the session's new nonceTPM, where the command was sealed
    /// with `keep`. What is no reply is refused with the first of these faults, and leaves this unchanged: `Refused`
    /// where the bytes do not decode as a response to the command; `Code` for a response code that is not 0;
    /// `NotExpected` where there is not exactly one session, or its nonceTPM has another length than the session's;
    /// `WrongMac` where its HMAC is not that of the rpHash, the new nonceTPM, the command's nonceCaller and the
    /// response's attributes (Part 1, "Session-Based Authorizations").
    // It is in line, since what it answers would be copied as it is returned. What it calls is not.
    #[inline(always)]
    pub fn open(self, bytes: &[u8]) -> Result<(Option<Caller>, Response), (Pending, CallerFault)>
        ensures { result ≡ opening_of self (opened self bytes.now) }
    {
        match self.check(bytes) {
            Checked::Nonce(nonce) => self.accept(bytes, nonce),
            Checked::Fault(fault) => {
                let first = self.first_fault(bytes, fault);
                Err((self, first))
            }
            Checked::FirstFault(fault) => Err((self, fault)),
        }
    }

    /// The caller as it was before it sealed the command, where these bytes are a response whose
    /// code is not 0. This is unchanged else.
    pub fn give_up(self, refusal: &[u8]) -> Result<Caller, Pending>
        ensures { result ≡ giving_up_of self (given_up self refusal.now) }
    {
        if is_code(refusal) || self.is_refused(refusal) {
            return Ok(self.caller);
        }
        Err(self)
    }
}
