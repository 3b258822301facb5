//! One end of a session: its caller, and what it sent. The lines of a script:
//!
//! - `begins COMMAND`: the caller of the session that the device starts by this TPM2_StartAuthSession.
//! - `starts COMMAND REPLY`: the caller of the session of these, and `starts-not`: they make none.
//! - `seals NONCE NAME NAME AUTH keep COMMAND`: what waits for the reply to the command, in which `last` stands for
//!   a session that is not kept. `seals-not COMMAND`: it is none that is sealed.
//! - `sent BYTES`: what was sealed.
//! - `sends CODE` and `tries CODE`: the device answers it with this code; the first keeps the answer.
//! - `opens kept`, `opens ended` and `opens FAULT`: what the answer is opened as, by what is left of the session.
//! - `gives-up`: the answer is a refusal that gives the caller back, and `keeps`: it is none.

use crate::tests::hmac_macs::name;
use crate::tests::session_calls::OWNER;
use tpm_buffer::{decode_command, decode_response};
use tpm_caller::{Caller, CallerFault, Pending, Plain};
use tpm_commands::{CommandBody, CommandTable, ReplyBody, Response, StartAuth};
use tpm_device::{Device, ResponseBuffer};
use tpm_testing::{bytes, is_spelled, next_bytes, next_number, spelled, word};
use tpm_types::{CommandCode, Nonce};
use tpm_wire::Buffer;

// The room before a command is sealed into it.
static UNTOUCHED: [u8; 4096] = [0x55; 4096];

/// One end of a session.
#[derive(Drop)]
pub struct End {
    caller: Option<Caller>,
    pending: Option<Pending>,
    sent: Buffer,
}

/// What caller this TPM2_StartAuthSession and its reply make, if any; none where they are no such two.
pub fn started(command: &[u8], reply: &[u8]) -> Option<Option<Caller>> {
    let reply = decode_response(CommandCode::StartAuthSession, reply);
    match (decode_command(command), reply) {
        (Ok(command), Ok(reply)) => match &command.body {
            CommandBody::StartAuthSession(start) => caller_of(start, &reply),
            _ => None,
        },
        _ => None,
    }
}

fn caller_of(start: &StartAuth, reply: &Response) -> Option<Option<Caller>> {
    match reply {
        Response::Done {
            body: ReplyBody::StartAuthSession(reply),
            ..
        } => Some(Caller::start(start, reply, OWNER)),
        _ => None,
    }
}

// The nonce of these bytes, or none where they are no nonce.
fn nonce(text: &str) -> Option<Nonce> {
    match bytes(text) {
        Some(bytes) => Nonce::new(bytes.as_slice()),
        None => None,
    }
}

// The code of a response.
fn code(reply: &[u8]) -> Option<u32> {
    match reply {
        [_, _, _, _, _, _, a, b, c, d, ..] => Some(u32::from_be_bytes([*a, *b, *c, *d])),
        _ => None,
    }
}

/// Whether it is the fault that the line says.
pub fn is_fault(fault: &CallerFault, mut rest: &str) -> bool {
    match fault {
        CallerFault::Refused(refusal) => {
            refusal.code == next_number(&mut rest) && refusal.at == next_number(&mut rest)
        }
        CallerFault::Code(code) => code.number() == next_number(&mut rest),
        CallerFault::NotExpected => rest == "NotExpected",
        CallerFault::WrongMac => rest == "WrongMac",
    }
}

/// Whether it is done, in one session.
pub fn is_done(response: &Response) -> bool {
    match response {
        Response::Done { auths, .. } => auths.len() == 1,
        Response::Code(_) => false,
    }
}

impl End {
    /// Nothing has been done.
    pub fn new() -> Self {
        End {
            caller: None,
            pending: None,
            sent: Buffer::new(),
        }
    }

    /// Does what the line says beside this device, and answers whether all of it is so.
    pub fn step(
        &mut self,
        device: &mut Device,
        nonce: &[u8; 64],
        reply: &mut ResponseBuffer,
        mut rest: &str,
    ) -> bool {
        match word(&mut rest) {
            "begins" => {
                let command = spelled(rest);
                let reply = device.execute(command.as_slice(), nonce);
                self.starts(command.as_slice(), reply.as_slice())
            }
            "sends" => {
                device.execute_into(self.sent.as_slice(), nonce, reply);
                code(reply.as_slice()) == Some(next_number(&mut rest))
            }
            "tries" => {
                let reply = device.execute(self.sent.as_slice(), nonce);
                code(reply.as_slice()) == Some(next_number(&mut rest))
            }
            asked => self.is_so(reply.as_slice(), asked, rest),
        }
    }

    fn is_so(&mut self, reply: &[u8], asked: &str, mut rest: &str) -> bool {
        match asked {
            "starts" => {
                let command = next_bytes(&mut rest);
                self.starts(command.as_slice(), spelled(rest).as_slice())
            }
            "starts-not" => {
                let command = next_bytes(&mut rest);
                match started(command.as_slice(), spelled(rest).as_slice()) {
                    Some(caller) => caller.is_none(),
                    None => false,
                }
            }
            "seals" => self.seals(rest),
            "seals-not" => match bytes(rest) {
                Some(command) => Plain::read(command.as_slice()).is_none(),
                None => false,
            },
            "sent" => is_spelled(self.sent.as_slice(), rest),
            "opens" => self.opens(reply, rest),
            "gives-up" => self.gives_up(reply),
            "keeps" => !self.gives_up(reply),
            _ => false,
        }
    }

    fn starts(&mut self, command: &[u8], reply: &[u8]) -> bool {
        self.caller = match started(command, reply) {
            Some(caller) => caller,
            None => None,
        };
        self.caller.is_some()
    }

    // Whether a command is sealed, behind which nothing of the room has changed.
    fn seals(&mut self, mut rest: &str) -> bool {
        let Some(nonce) = nonce(word(&mut rest)) else {
            return false;
        };
        let (Some(first), Some(second)) = (name(word(&mut rest)), name(word(&mut rest))) else {
            return false;
        };
        let names = [first, second];
        let Some(auth) = bytes(word(&mut rest)) else {
            return false;
        };
        let left = word(&mut rest);
        let keep = left == "keep";
        if !keep && left != "last" {
            return false;
        }
        let command = spelled(rest);
        let Some(plain) = Plain::read(command.as_slice()) else {
            return false;
        };
        let Some(caller) = self.caller.take() else {
            return false;
        };
        let names = &names[..plain.code().handles()];
        let mut out = UNTOUCHED;
        let (pending, len) = caller.seal_plain(
            &plain,
            names,
            auth.as_slice(),
            nonce,
            keep,
            &mut out,
        );
        self.pending = Some(pending);
        self.sent.clear();
        let _ = self.sent.try_extend_from_slice(&out[..len]);
        out[len..] == UNTOUCHED[len..]
    }

    fn opens(&mut self, reply: &[u8], rest: &str) -> bool {
        let Some(pending) = self.pending.take() else {
            return false;
        };
        match pending.open(reply) {
            Ok(opened) => {
                let (caller, response) = opened;
                self.caller = caller;
                let left = if self.caller.is_some() {
                    "kept"
                } else {
                    "ended"
                };
                rest == left && is_done(&response)
            }
            Err(unopened) => {
                let (pending, fault) = unopened;
                self.pending = Some(pending);
                is_fault(&fault, rest)
            }
        }
    }

    fn gives_up(&mut self, refusal: &[u8]) -> bool {
        let Some(pending) = self.pending.take() else {
            return false;
        };
        match pending.give_up(refusal) {
            Ok(caller) => {
                self.caller = Some(caller);
                true
            }
            Err(pending) => {
                self.pending = Some(pending);
                false
            }
        }
    }
}
