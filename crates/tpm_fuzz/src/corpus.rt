//! The buffers that are tried.

use std::alloc::{AllocError, Global};
use std::io;
use std::io::ErrorKind;
use tpm_types::CommandCode;

/// A buffer.
#[derive(Drop)]
pub(crate) struct Entry {
    /// The command that it is the response to, or `None` where it is a command.
    pub(crate) reply: Option<CommandCode>,
    /// Its digits as they came.
    pub(crate) hex: String,
    /// Its bytes.
    pub(crate) bytes: Vec<u8>,
}

// The numbers of all commands lie here.
const FIRST: u32 = 0x122;

const LAST: u32 = 0x189;

fn command_named(name: &str) -> Option<CommandCode> {
    (FIRST..=LAST)
        .filter_map(CommandCode::from_number)
        .find(|code| code.name() == name)
}

fn decoded_entry(
    alloc: Global,
    reply: Option<CommandCode>,
    hex: &str,
) -> Result<Option<Entry>, AllocError> {
    let Ok(bytes) = hex::decode(alloc, hex) else {
        return Ok(None);
    };
    Ok(Some(Entry {
        reply,
        hex: String::from_str(alloc, hex)?,
        bytes,
    }))
}

fn read_entry(alloc: Global, line: &str) -> Result<Option<Entry>, AllocError> {
    match line.split_once(' ') {
        Some(("command", hex)) => decoded_entry(alloc, None, hex),
        Some(("reply", rest)) => match rest.split_once(' ') {
            Some((name, hex)) => match command_named(name) {
                Some(code) => decoded_entry(alloc, Some(code), hex),
                None => Ok(None),
            },
            None => Ok(None),
        },
        _ => Ok(None),
    }
}

/// The buffers of standard input. A line that is none is a fault of reading.
pub(crate) fn read_entries<R: AllocGlobal + Input>(rt: &R) -> io::Result<Vec<Entry>> {
    let mut entries = Vec::new(rt.alloc());
    for line in rt.lines(rt.alloc()) {
        let line = line?;
        let Some(entry) = read_entry(rt.alloc(), line.as_str())? else {
            return Err(io::Error::from(ErrorKind::InvalidData));
        };
        entries.push(entry)?;
    }
    Ok(entries)
}
