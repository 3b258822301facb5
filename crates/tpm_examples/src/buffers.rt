//! Commands, responses and the frames of a stream.

use crate::print_bytes;
use arrayvec::ArrayVec;
use std::io;
use tpm_buffer::{decode_command, decode_response, encode_command};
use tpm_commands::{Command, CommandBody, Response};
use tpm_stream::{Framer, FramerState};
use tpm_types::{CommandCode, StartupType};

/// A command is a value; its bytes are its only spelling.
pub fn build(rt: &impl Print) -> io::Result<()> {
    let command = Command {
        body: CommandBody::Startup(StartupType::Clear),
        auths: ArrayVec::new(),
    };
    let bytes = encode_command(&command);
    print_bytes(rt, bytes.as_slice())
}

/// A response is read by the command that it answers.
pub fn read(rt: &impl Print) -> io::Result<()> {
    let bytes = [0x80, 0x01, 0x00, 0x00, 0x00, 0x0a, 0x00, 0x00, 0x01, 0x00];
    let response = match decode_response(CommandCode::Startup, &bytes) {
        Ok(response) => response,
        Err(refusal) => return println!(rt; "{:#x} at byte {}", refusal.code, refusal.at),
    };
    if let Response::Code(error) = &response {
        return println!(rt; "the TPM answers {:#x}", error.number());
    }
    println!(rt; "started")
}

/// Bytes that are no command are refused with the TPM's response code, and the position of their first fault.
pub fn refused(rt: &impl Print) -> io::Result<()> {
    let bytes = [
        0x80, 0x01, 0x00, 0x00, 0x00, 0x0c, 0x00, 0x00, 0x01, 0x44, 0x00, 0x02,
    ];
    match decode_command(&bytes) {
        Ok(_) => println!(rt; "a command"),
        Err(refusal) => println!(rt; "{:#x} at byte {}", refusal.code, refusal.at),
    }
}

/// A stream is split into its buffers, in whatever pieces it comes.
pub fn frames(rt: &impl Print) -> io::Result<()> {
    let mut framer = Framer::new();
    for piece in [
        &[0x80, 0x01, 0x00, 0x00][..],
        &[0x00, 0x0a, 0x00, 0x00, 0x01, 0x00, 0x80][..],
    ] {
        let (taken, state) = framer.push(piece);
        println!(rt; "{taken} bytes taken")?;
        if state == FramerState::Ready {
            if let Some(frame) = framer.frame() {
                println!(rt; "a frame of {} bytes", frame.len())?;
            }
            framer.next();
        }
    }
    Ok(())
}
