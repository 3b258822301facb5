//! A session that is bound to the owner.

use crate::fault::Fault;
use crate::tpm::{Tpm, answered};
use tpm_caller::{Caller, CallerFault, Waiting};
use tpm_commands::{CommandBody, ReplyBody, StartAuth, StartParams};
use tpm_types::{Alg, AuthValue, BindHandle, Nonce, SessionHandle, SessionType, SymDef};
use tpm_wire::Duplicate;

fn request(nonce_caller: Nonce) -> StartAuth {
    StartAuth {
        bind: BindHandle::Owner,
        params: StartParams {
            nonce_caller,
            session_type: SessionType::Hmac,
            symmetric: SymDef::Null,
            auth_hash: Alg::Sha256,
        },
    }
}

/// Starts a session: its handle, and the caller for its first command.
pub(crate) fn start(
    tpm: &mut Tpm,
    nonce_caller: Nonce,
    owner: &AuthValue,
) -> Result<(SessionHandle, Caller), Fault> {
    let sent = request(nonce_caller.duplicate());
    let ReplyBody::StartAuthSession(reply) = tpm.send(CommandBody::StartAuthSession(sent))? else {
        return Err(Fault::Answer);
    };
    match Caller::start(&request(nonce_caller), &reply, owner.as_slice()) {
        Some(caller) => Ok((reply.session, caller)),
        None => Err(Fault::Answer),
    }
}

/// Opens the reply to a command that keeps its session: the caller for the next command, and what is answered.
pub(crate) fn opened(waiting: Waiting, reply: &[u8]) -> Result<(Caller, ReplyBody), Fault> {
    match waiting.open(reply) {
        Ok(opened) => {
            let (caller, response) = opened;
            match caller {
                Some(caller) => Ok((caller, answered(response)?)),
                None => Err(Fault::Answer),
            }
        }
        Err(unopened) => {
            let (_waiting, fault) = unopened;
            Err(Fault::Reply(fault))
        }
    }
}

/// Bytes that are not the reply: the `Waiting` again, and why.
pub(crate) fn unopened(waiting: Waiting, bytes: &[u8]) -> Result<(Waiting, CallerFault), Fault> {
    match waiting.open(bytes) {
        Ok(_) => Err(Fault::Answer),
        Err(unopened) => Ok(unopened),
    }
}

/// Sends a sealed command, and opens its reply.
pub(crate) fn exchange(tpm: &mut Tpm, waiting: Waiting) -> Result<(Caller, ReplyBody), Fault> {
    let reply = tpm.transmit(waiting.bytes());
    opened(waiting, reply.as_slice())
}
