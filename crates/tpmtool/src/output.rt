//! Standard output and standard error, and whether anybody reads what is printed any more.

use std::cell::Cell;
use std::io::{self, ErrorKind, Write};

/// Standard output, which keeps whether its reader has gone.
#[derive(Drop)]
pub(crate) struct Output<'a, W> {
    pub writer: W,
    pub unread: &'a Cell<bool>,
}

impl<W: Write> Write for Output<'_, W> {
    fn write(&mut self, bytes: &[u8]) -> io::Result<usize> {
        let written = self.writer.write(bytes);
        if let Err(error) = &written {
            self.unread.set(error.kind() == ErrorKind::BrokenPipe);
        }
        written
    }

    fn flush(&mut self) -> io::Result<()> {
        self.writer.flush()
    }
}

/// Standard error, to which nothing is told behind an output that nobody reads any more.
#[derive(Drop)]
pub(crate) struct Errors<'a, W> {
    pub writer: W,
    pub unread: &'a Cell<bool>,
}

impl<W: Write> Write for Errors<'_, W> {
    fn write(&mut self, bytes: &[u8]) -> io::Result<usize> {
        if self.unread.get() {
            return Err(io::Error::from(ErrorKind::BrokenPipe));
        }
        self.writer.write(bytes)
    }

    fn flush(&mut self) -> io::Result<()> {
        self.writer.flush()
    }
}
