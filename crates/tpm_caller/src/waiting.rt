//! A sealed command, with its bytes, until its reply comes.

ghost use Rattle.std.specs.Prelude.{◌≡◌};
ghost use Rattle.tpm_model.specs.Callers.{opened, given_up};
ghost use Rattle.tpm_caller.specs.Faults.{opening_of, giving_up_of};

use crate::caller::Caller;
use crate::pending::Pending;
use std::marker::Model;
use tpm_commands::{ErrorCode, Response};
use tpm_wire::{Buffer, Refusal};

/// Why bytes are not opened, the first of these.
#[derive(Clone, Copy, Debug, PartialEq, Eq)]
pub enum CallerFault {
    /// They spell no response to the command: the first fault.
    Refused(Refusal),
    /// The command was not done: its response code.
    Code(ErrorCode),
    /// There is not exactly one session, or its nonceTPM has another length than the session's.
    NotExpected,
    /// The HMAC is not that of the reply.
    WrongMac,
}

/// A command that is sealed by its caller, and waits for its reply.
#[derive(Drop)]
pub struct Waiting {
    pub(crate) pending: Pending,
    pub(crate) bytes: Buffer,
}

impl Model for Waiting {
    ghost use Rattle.tpm_caller.specs.Sent as model;

    ghost Value = { model.Sent };

    ghost view = { λ w. record { waiting = w.pending; bytes = w.bytes.items } };
}

impl Waiting {
    /// The bytes of the command.
    pub fn bytes(&self) -> &[u8]
        ensures { result.now ≡ self.now.bytes }
    {
        self.bytes.as_slice()
    }

    /// Opens the reply: the response, and the caller with the session's new nonceTPM, where the command was sealed
    /// with `keep`. What is no reply leaves this unchanged, with the first of the faults that `Pending::open` has.
    pub fn open(self, bytes: &[u8]) -> Result<(Option<Caller>, Response), (Waiting, CallerFault)>
        ensures { result ≡ opening_of self (opened self.waiting bytes.now) }
    {
        let Waiting {
            pending,
            bytes: sent,
        } = self;
        match pending.open(bytes) {
            Ok(opened) => Ok(opened),
            Err((pending, fault)) => Err((
                Waiting {
                    pending,
                    bytes: sent,
                },
                fault,
            )),
        }
    }

    /// The caller as it was before it sealed the command, where these bytes are a response whose
    /// code is not 0. This is unchanged else.
    pub fn give_up(self, refusal: &[u8]) -> Result<Caller, Waiting>
        ensures { result ≡ giving_up_of self (given_up self.waiting refusal.now) }
    {
        let Waiting { pending, bytes } = self;
        match pending.give_up(refusal) {
            Ok(caller) => Ok(caller),
            Err(pending) => Err(Waiting { pending, bytes }),
        }
    }
}
