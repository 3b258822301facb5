//! How the library is used: a few lines for each task, each run by the gate. docs/USING.md shows them.
#![tactic(auto)]

mod boot;
mod buffers;
mod counter;
mod device;
mod fault;
mod log;
mod policy;
mod random;
mod session;
mod tpm;

use crate::fault::Fault;
use std::io;
use std::process::ExitCode;

/// Prints bytes in hexadecimal, on a line.
fn print_bytes(rt: &impl Print, bytes: &[u8]) -> io::Result<()> {
    for byte in bytes {
        print!(rt; "{byte:02x}")?;
    }
    println!(rt)
}

fn run<R: Print>(rt: &R) -> Result<(), Fault> {
    buffers::build(rt)?;
    buffers::read(rt)?;
    buffers::refused(rt)?;
    buffers::frames(rt)?;
    device::run(rt)?;
    log::measured(rt)?;
    policy::digest(rt)?;
    boot::hold_a_session(rt)
}

fn main(rt: HostRuntime) -> ExitCode {
    match run(&rt) {
        Ok(()) => ExitCode::SUCCESS,
        Err(fault) => {
            let _ = eprintln!(&rt; "{fault:?}");
            ExitCode::FAILURE
        }
    }
}
