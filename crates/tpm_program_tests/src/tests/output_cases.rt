//! A call of a subcommand, with what it reads, writes and answers.

use crate::tests::output_runs::LOG;
use std::process::Abort;
use std::test::*;
use tpm_output::fault::ToolFault;
use tpm_output::status::Status;
use tpm_testing::{Pieces, bytes, word};
use tpm_wire::Buffer;

/// A call, what it reads and writes, and what it answers.
#[derive(Drop)]
pub(crate) struct Case<'a> {
    pub(crate) call: &'a str,
    // a byte, and how often it comes before the lines
    byte: u8,
    times: usize,
    lines: Buffer,
    pub(crate) text: Buffer,
    answer: &'a str,
    told: &'a str,
    pub(crate) reads: usize,
}

fn put(out: &mut Buffer, bytes: &[u8]) -> bool {
    out.try_extend_from_slice(bytes).is_ok()
}

impl<'a> Case<'a> {
    /// What these lines say.
    pub(crate) fn of(rt: &impl Abort, lines: &'a str) -> Self {
        let mut case = Case {
            call: "",
            byte: 0,
            times: 0,
            lines: Buffer::new(),
            text: Buffer::new(),
            answer: "Done",
            told: "",
            reads: 0,
        };
        for line in lines.lines() {
            assert!(rt; case.takes(line), "{line}");
        }
        case
    }

    fn takes(&mut self, line: &'a str) -> bool {
        let (sign, rest) = line.split_once(' ').unwrap_or((line, ""));
        match sign {
            "<" => put(&mut self.lines, rest.as_bytes()) && put(&mut self.lines, b"\n"),
            "<." => put(&mut self.lines, rest.as_bytes()),
            "<x" => match bytes(if rest == "LOG" { LOG } else { rest }) {
                Some(bytes) => put(&mut self.lines, bytes.as_slice()),
                None => false,
            },
            ">" => put(&mut self.text, rest.as_bytes()) && put(&mut self.text, b"\n"),
            ">." => put(&mut self.text, rest.as_bytes()),
            _ => self.takes_other(sign, line, rest),
        }
    }

    fn takes_other(&mut self, sign: &str, line: &'a str, rest: &'a str) -> bool {
        match sign {
            "*" => return self.takes_before(rest),
            "=" => self.answer = rest,
            "@" => self.told = rest,
            "~" => match rest.parse() {
                Ok(reads) => self.reads = reads,
                Err(_) => return false,
            },
            "#" | "" => {}
            _ => self.call = line,
        }
        true
    }

    fn takes_before(&mut self, mut rest: &str) -> bool {
        match (u8::from_str_radix(word(&mut rest), 16), rest.parse()) {
            (Ok(byte), Ok(times)) => {
                self.byte = byte;
                self.times = times;
                true
            }
            _ => false,
        }
    }

    /// Whether bytes come before the lines, more than may be read in each way.
    pub(crate) fn is_long(&self) -> bool {
        self.times > 0
    }

    /// What is read, at most so many bytes a read.
    pub(crate) fn input(&self, most: usize) -> Pieces<'_> {
        Pieces::behind(self.byte, self.times, self.lines.as_slice(), most)
    }

    /// Whether this is the answer.
    pub(crate) fn is_answer(&self, answer: &Result<Status, ToolFault>) -> bool {
        *answer
            == match self.answer {
                "Done" => Ok(Status::Done),
                "Refused" => Ok(Status::Refused),
                _ => Err(ToolFault::InputTooLong),
            }
    }

    /// How many lines are written behind so many bytes that are read.
    pub(crate) fn lines_told(&self, done: usize) -> usize {
        let mut lines = 0usize;
        for place in self.told.split_ascii_whitespace() {
            if place.parse().unwrap_or(usize::MAX) <= done {
                lines = lines.saturating_add(1);
            }
        }
        lines
    }
}
