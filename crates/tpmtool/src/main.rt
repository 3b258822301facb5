//! The program: `tpm_program` over the words, the files and the streams of the machine that it runs on.
#![tactic(auto)]

mod output;

use crate::output::{Errors, Output};
use std::cell::Cell;
use std::io::{ErrorKind, Read};
use std::process::ExitCode;
use std::rt::{Env, Files};
use std::{env, fs, io};
use tpm_program::{Cause, Inputs, run, run_without_words};
use tpm_wire::Reads;

// A file, or standard input.
#[derive(Drop)]
enum Reader<F, S> {
    File(F),
    Standard(S),
}

impl<F: Read, S: Read> Read for Reader<F, S> {
    fn read(&mut self, room: &mut [u8]) -> io::Result<usize> {
        match self {
            Reader::File(file) => file.read(room),
            Reader::Standard(input) => input.read(room),
        }
    }
}

// The files and the standard input of the machine. Nothing is known of their bytes.
#[derive(Drop)]
struct Machine<'a, R> {
    rt: &'a R,
}

impl<R: Files + Input> Inputs for Machine<'_, R> {
    ghost use Rattle.std.specs.Prelude.{⊤};

    type Source = Reads<Reader<R::File, R::Reader>>;

    ghost offers = { λ _. record {
      opens = λ _ _. ⊤;
      stands = λ _. ⊤;
      is_folder = λ _ _. ⊤;
      fails = ⊤;
    } };

    // `-` names standard input.
    fn open(&self, path: &str) -> Result<Self::Source, Cause> {
        if path == "-" {
            return Ok(self.standard());
        }
        match fs::open(self.rt, path) {
            Ok(file) => Ok(Reads::new(Reader::File(file))),
            Err(error) => Err(Cause::of(error.kind())),
        }
    }

    fn standard(&self) -> Self::Source {
        Reads::new(Reader::Standard(self.rt.reader()))
    }

    fn is_directory(&self, path: &str) -> bool {
        match fs::metadata(self.rt, path) {
            Ok(found) => found.is_dir(),
            Err(_) => false,
        }
    }
}

fn words<R: Env + AllocGlobal>(rt: &R) -> Result<Vec<String>, ErrorKind> {
    match env::args(rt) {
        Ok(words) => words
            .collect(rt.alloc())
            .map_err(|_| ErrorKind::OutOfMemory),
        Err(error) => Err(error.kind()),
    }
}

fn main(rt: HostRuntime) -> ExitCode {
    let unread = Cell::new(false);
    let mut out = Output {
        writer: io::writer(&rt),
        unread: &unread,
    };
    let mut errors = Errors {
        writer: rt.stderr(),
        unread: &unread,
    };
    let ended = match words(&rt) {
        Ok(words) => run(
            rt.alloc(),
            words,
            &Machine { rt: &rt },
            &mut out,
            &mut errors,
        ),
        Err(kind) => run_without_words(rt.alloc(), kind, &mut out, &mut errors),
    };
    ExitCode::from(ended.status)
}
