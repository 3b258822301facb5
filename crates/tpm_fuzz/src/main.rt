//! Tries buffers on the library in one process, where a run of the program for each would take too long.
//!
//! Standard input has a line for each buffer: `command HEX`, or `reply NAME HEX` for a response to
//! that command. With no words the first line that `show` prints of each is printed. With the words
//! `SEED COUNT` buffers of these lines are changed at random and tried, so many times: one that is
//! accepted is to be encoded to itself, and what a device answers is to be a response.
#![tactic(auto)]

mod changes;
mod corpus;
mod dice;
mod shown;
mod trials;

use crate::corpus::{Entry, read_entries};
use crate::shown::first_line;
use crate::trials::{Tally, Trials};
use std::process::ExitCode;
use std::rt::Env;
use std::{env, io};

/// The status where a buffer fails its trial, or the words are none of the two forms.
const FAILED: u8 = 1;

/// The status of a reading or writing fault, and of want of memory.
const FAULT: u8 = 3;

fn number<R: Env + AllocGlobal>(rt: &R, place: usize) -> io::Result<Option<u64>> {
    let words: Vec<String> = env::args(rt)?.collect(rt.alloc())?;
    Ok(words.get(place).and_then(|word| word.as_str().parse().ok()))
}

fn print_rows<R: AllocGlobal + Print>(rt: &R, entries: &[Entry]) -> io::Result<()> {
    for entry in entries {
        rt.println(first_line(rt.alloc(), entry)?)?;
    }
    Ok(())
}

fn print_tally<R: Print>(rt: &R, seed: u64, tally: &Tally) -> io::Result<()> {
    println!(rt;
        "seed {seed}: {} buffers; taken were {} commands and {} responses; {} commands were executed, {} of them with success",
        tally.buffers, tally.commands, tally.replies, tally.executed, tally.done
    )
}

fn run<R: Env + AllocGlobal + Input + Print>(rt: &R) -> io::Result<u8> {
    let entries = read_entries(rt)?;
    let seed = number(rt, 1)?;
    let Some(seed) = seed else {
        print_rows(rt, entries.as_slice())?;
        return Ok(0);
    };
    let count = number(rt, 2)?.unwrap_or(0);
    let mut trials = Trials::new(seed);
    for _ in 0..count {
        let Some(fault) = trials.next(entries.as_slice()) else {
            continue;
        };
        let hex = hex::encode(rt.alloc(), trials.bytes())?;
        println!(rt;
            "seed {seed}, buffer {}: {}: {hex}",
            trials.tally().buffers,
            fault.text()
        )?;
        return Ok(FAILED);
    }
    print_tally(rt, seed, trials.tally())?;
    Ok(0)
}

fn main(rt: HostRuntime) -> ExitCode {
    match run(&rt) {
        Ok(status) => ExitCode::from(status),
        Err(error) => {
            let _ = rt.eprintln(error);
            ExitCode::from(FAULT)
        }
    }
}
