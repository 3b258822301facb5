//! Buffers that are tried.

use crate::changes::change;
use crate::corpus::Entry;
use crate::dice::Dice;
use tpm_buffer::{decode_command, decode_response, encode_command, encode_response, header};
use tpm_device::Device;
use tpm_types::{AuthValue, CommandCode};
use tpm_wire::Buffer;

/// What is wrong.
#[derive(Clone, Copy)]
pub(crate) enum Fault {
    /// An accepted command is encoded to other bytes.
    Command,
    /// An accepted response is encoded to other bytes.
    Response,
    /// A fault stands behind the buffer's end.
    Position,
    /// The device's answer is no response.
    Answer,
}

impl Fault {
    pub(crate) fn text(self) -> &'static str {
        match self {
            Fault::Command => "the command is encoded to other bytes",
            Fault::Response => "the response is encoded to other bytes",
            Fault::Position => "the fault is behind the end",
            Fault::Answer => "the answer is no response",
        }
    }
}

/// How many buffers there were, and what came of them.
#[derive(Drop)]
pub(crate) struct Tally {
    pub(crate) buffers: u64,
    pub(crate) commands: u64,
    pub(crate) replies: u64,
    pub(crate) executed: u64,
    pub(crate) done: u64,
}

/// One trial after the other, and a device that executes the commands among them.
#[derive(Drop)]
pub(crate) struct Trials {
    dice: Dice,
    buffer: Buffer,
    device: Device,
    tally: Tally,
}

// TPM2_Startup with TPM_SU_CLEAR.
const STARTUP: [u8; 12] = [
    0x80, 0x01, 0x00, 0x00, 0x00, 0x0C, 0x00, 0x00, 0x01, 0x44, 0x00, 0x00,
];

// The power is cycled once in so many commands.
const CYCLE: usize = 500;

// Whether the bytes are a response to the command, or where they are none, to any.
fn is_answer(command: &[u8], answer: &[u8]) -> bool {
    let code = match header(command) {
        Ok(headed) => headed.code(),
        Err(_) => CommandCode::Startup,
    };
    decode_response(code, answer).is_ok()
}

impl Trials {
    pub(crate) fn new(seed: u64) -> Self {
        Trials {
            dice: Dice::new(seed),
            buffer: Buffer::new(),
            device: Device::new(&AuthValue::default(), 0),
            tally: Tally {
                buffers: 0,
                commands: 0,
                replies: 0,
                executed: 0,
                done: 0,
            },
        }
    }

    /// What was tried last.
    pub(crate) fn bytes(&self) -> &[u8] {
        self.buffer.as_slice()
    }

    pub(crate) fn tally(&self) -> &Tally {
        &self.tally
    }

    fn nonce(&mut self) -> [u8; 64] {
        let mut nonce = [0; 64];
        nonce[..8].copy_from_slice(&self.tally.executed.to_be_bytes());
        nonce
    }

    fn cycle(&mut self) {
        self.device.power_cycle();
        let nonce = self.nonce();
        let _answer = self.device.execute(&STARTUP, &nonce);
    }

    fn try_device(&mut self) -> Option<Fault> {
        if self.dice.one_of(CYCLE) {
            self.cycle();
        }
        self.tally.executed = self.tally.executed.saturating_add(1);
        let nonce = self.nonce();
        let answer = self.device.execute(self.buffer.as_slice(), &nonce);
        if !is_answer(self.buffer.as_slice(), answer.as_slice()) {
            return Some(Fault::Answer);
        }
        if answer.len() >= 10 && answer.as_slice()[6..10] == [0, 0, 0, 0] {
            self.tally.done = self.tally.done.saturating_add(1);
        }
        None
    }

    fn try_command(&mut self) -> Option<Fault> {
        let bytes = self.buffer.as_slice();
        match decode_command(bytes) {
            Ok(command) if encode_command(&command).as_slice() != bytes => {
                return Some(Fault::Command);
            }
            Ok(_) => self.tally.commands = self.tally.commands.saturating_add(1),
            Err(refusal) if refusal.at as usize > bytes.len() => return Some(Fault::Position),
            Err(_) => {}
        }
        self.try_device()
    }

    fn try_reply(&mut self, code: CommandCode) -> Option<Fault> {
        let bytes = self.buffer.as_slice();
        match decode_response(code, bytes) {
            Ok(response) if encode_response(&response).as_slice() != bytes => {
                return Some(Fault::Response);
            }
            Ok(_) => self.tally.replies = self.tally.replies.saturating_add(1),
            Err(refusal) if refusal.at as usize > bytes.len() => return Some(Fault::Position),
            Err(_) => {}
        }
        None
    }

    /// Tries a buffer of these, mostly changed, and says what is wrong with what comes of it.
    pub(crate) fn next(&mut self, entries: &[Entry]) -> Option<Fault> {
        let count = entries.len();
        if count == 0 {
            return None;
        }
        let entry = &entries[self.dice.below(count)];
        self.tally.buffers = self.tally.buffers.saturating_add(1);
        self.buffer.clear();
        let _ = self.buffer.try_extend_from_slice(entry.bytes.as_slice());
        if !self.dice.one_of(4) {
            change(&mut self.dice, &mut self.buffer);
        }
        match entry.reply {
            Some(code) => self.try_reply(code),
            None => self.try_command(),
        }
    }
}
