//! A long log, whose records are written in pieces.

use crate::tests::output_runs::{ALL, LOG};
use std::alloc::Global;
use std::io;
use std::io::Write;
use std::test::Fail;
use tpm_events::list_events;
use tpm_output::status::Status;
use tpm_testing::{Pieces, spelled};

// How many bytes the line of the log's last record has, with its line feed.
const LINE: usize = 304;

// A writer that notes how many writes came, how many bytes in all, and how many in the largest.
#[derive(Drop)]
struct Noting {
    writes: usize,
    bytes: usize,
    most: usize,
}

impl Write for Noting {
    fn write(&mut self, buf: &[u8]) -> io::Result<usize> {
        self.writes = self.writes.saturating_add(1);
        self.bytes = self.bytes.saturating_add(buf.len());
        self.most = self.most.max(buf.len());
        Ok(buf.len())
    }

    fn flush(&mut self) -> io::Result<()> {
        Ok(())
    }
}

// The log, and its last record, which begins behind 89 bytes, 500 times more.
fn long_log(alloc: Global) -> Result<Vec<u8>, Fail> {
    let bytes = spelled(LOG);
    let (_, record) = bytes.as_slice().split_at(bytes.len().min(89));
    let mut log = Vec::new(alloc);
    log.extend_from_slice(bytes.as_slice())?;
    for _ in 0..500 {
        log.extend_from_slice(record)?;
    }
    Ok(log)
}

// A number of up to three digits and a place of up to five are at most five bytes more than the record's line has.
// Fewer than 4,096 bytes are held when a line is added, and no write has more.
#[test]
fn a_long_log_is_written_in_pieces(rt: HostRuntime) -> Result<(), Fail> {
    let log = long_log(rt.alloc())?;
    let mut out = Noting {
        writes: 0,
        bytes: 0,
        most: 0,
    };
    let log = &mut Pieces::new(log.as_slice(), 4096);
    let status = list_events(rt.alloc(), log, ALL, &mut out);
    assert_eq!(rt; status, Ok(Status::Done));
    assert!(rt; out.bytes > 500 * LINE);
    assert!(rt; out.most < 4096 + LINE + 5);
    assert!(rt; out.writes > 1);
    Ok(())
}
