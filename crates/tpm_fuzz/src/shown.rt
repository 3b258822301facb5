//! What `show` prints.

use crate::corpus::Entry;
use std::alloc::Global;
use std::io;
use std::io::ErrorKind;
use tpm_show::show;

/// The first line that `show` prints of the buffer.
pub(crate) fn first_line(alloc: Global, entry: &Entry) -> io::Result<String> {
    let mut text = Vec::new(alloc);
    if show(alloc, &mut text, entry.reply, entry.hex.as_str()).is_err() {
        return Err(io::Error::from(ErrorKind::OutOfMemory));
    }
    match String::from_utf8(text) {
        Ok(text) => Ok(String::from_str(alloc, text.as_str().lines().next().unwrap_or(""))?),
        Err(_) => Err(io::Error::from(ErrorKind::InvalidData)),
    }
}
