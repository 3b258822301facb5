//! The TPM, as it is reached from elsewhere.

use crate::fault::Fault;
use crate::random::Random;
use arrayvec::ArrayVec;
use tpm_buffer::{decode_response, encode_command};
use tpm_commands::{Command, CommandBody, ReplyBody, Response};
use tpm_device::{Device, ResponseBuffer};
use tpm_types::{AuthValue, StartupType};

/// What a response answers, where its code is 0.
pub(crate) fn answered(response: Response) -> Result<ReplyBody, Fault> {
    match response {
        Response::Done {
            body,
            auths: _sessions,
        } => Ok(body),
        Response::Code(code) => Err(Fault::Code(code)),
    }
}

/// A TPM that is reached by bytes alone. Here it is a device in the same process; elsewhere it is behind a bus.
#[derive(Drop)]
pub(crate) struct Tpm {
    device: Device,
    random: Random,
}

impl Tpm {
    /// A TPM with this authorization value of its owner.
    pub(crate) fn new(owner: &AuthValue) -> Self {
        Tpm {
            device: Device::new(owner, 0),
            random: Random::new(),
        }
    }

    /// Sends the bytes of a command, and receives those of its response.
    pub(crate) fn transmit(&mut self, command: &[u8]) -> ResponseBuffer {
        let nonce = self.random.bytes();
        self.device.execute(command, &nonce)
    }

    /// Has a command done that needs no session.
    pub(crate) fn send(&mut self, body: CommandBody<'_>) -> Result<ReplyBody, Fault> {
        let code = body.code();
        let command = Command {
            body,
            auths: ArrayVec::new(),
        };
        let reply = self.transmit(encode_command(&command).as_slice());
        match decode_response(code, reply.as_slice()) {
            Ok(response) => answered(response),
            Err(refusal) => Err(Fault::Bytes(refusal)),
        }
    }

    /// Starts it up.
    pub(crate) fn start_up(&mut self) -> Result<(), Fault> {
        self.send(CommandBody::Startup(StartupType::Clear))?;
        Ok(())
    }
}
