//! The program's subcommands and their words.

ghost use Rattle.std.specs.Prelude.{◌≡◌, IfOk};
ghost use Rattle.clap.specs.Words.{new_app};
ghost use Rattle.tpm_words.specs.Program.{subcommand_app, IsApp};
ghost use Rattle.tpm_words.specs.inner.Word.{app_of_row};

use crate::word::{Kind, Word, with_words};
use clap::Command;
use std::alloc::{AllocError, Global};

/// A subcommand of the program.
#[derive(Clone, Copy)]
pub enum Subcommand {
    /// Prints a buffer, the frames of a capture or of packets, or kept NV memory.
    Show,
    /// Joins a command from its parts.
    Build,
    /// Runs a script.
    Run,
    /// Prints what a response code or the kind of a log's fault says.
    Explain,
    /// Prints the registers that a log gives, or compares them.
    Check,
    /// Prints the records of a log.
    Events,
}

// What clap is told of a subcommand.
#[derive(Clone, Copy)]
struct Row {
    name: &'static str,
    // its name behind the program's
    bin_name: &'static str,
    about: &'static str,
    // whether its help tells the names of commands
    tells_names: bool,
    words: &'static [Word<'static>],
}

impl Subcommand {
    /// All of them, in the order in which help lists them.
    pub(crate) const ALL: [Subcommand; 6] = [
        Subcommand::Show,
        Subcommand::Build,
        Subcommand::Run,
        Subcommand::Explain,
        Subcommand::Check,
        Subcommand::Events,
    ];

    fn row(self) -> Row
        ensures { app_of_row result ≡ subcommand_app self }
    {
        match self {
            Subcommand::Show => SHOW,
            Subcommand::Build => BUILD,
            Subcommand::Run => RUN,
            Subcommand::Explain => EXPLAIN,
            Subcommand::Check => CHECK,
            Subcommand::Events => EVENTS,
        }
    }

    /// The subcommand with its words. The help of `show` and of `build` ends in this text on the names of commands. An
    /// error is want of memory.
    pub fn words<'a>(self, alloc: Global, names: &'a str) -> Result<Command<'a>, AllocError>
        ensures { IfOk result (λ c. IsApp (subcommand_app self) c) }
    {
        let row = self.row();
        with_words(alloc, without_words(alloc, row, names)?, row.words)
    }
}

fn without_words<'a>(alloc: Global, row: Row, names: &'a str) -> Result<Command<'a>, AllocError>
    ensures { IfOk result (λ c. IsApp (new_app row.name.now) c) }
{
    let command = Command::new(alloc, row.name)
        .bin_name(row.bin_name)?
        .about(row.about);
    if row.tells_names {
        return Ok(command.after_help(names));
    }
    Ok(command)
}

// The rows of a table of words: each a name, a kind and a help.
macro_rules! words {
    ($($name:literal $kind:ident $(($value:literal))? $help:literal,)*) => {
        [$(Word { name: $name, kind: Kind::$kind $(($value))?, help: $help }),*]
    };
}

// Those of a log, with what is expected of a quote as it was signed between the rows that are given.
macro_rules! log_words {
    ([$($before:tt)*] [$($after:tt)*]) => {
        words![
            "LOG" Required "The event log, a file, or - for standard input",
            $($before)*
            "nonce" Valued("HEX") "The nonce that was sent for that quote",
            "any-nonce" Flag "Takes a quote of whatever nonce",
            "require" Valued("LIST") "The registers that it has to select, as sha1:7+sha256:0,1,2 or sha256:all",
            "any-selection" Flag "Takes a quote of whatever registers, if it selects one",
            "signer" Valued("HEX") "The qualified name of the key that has to have signed it",
            "hash" Valued("NAME")
                "The hash of the quote's digest: sha1, sha256 or sha384; by its length if it is not given",
            $($after)*
        ]
    };
}

const SHOW: Row = Row {
    name: "show",
    bin_name: "tpmtool show",
    about: "Prints the command or the response that a buffer spells, or where it is refused",
    tells_names: true,
    words: &words![
        "reply" Valued("NAME") "Reads the buffer as a response to this command",
        "fields" Flag "Prints each parameter by its name and its type, too",
        "file" Valued("FILE") "Reads a capture: a command or a reply a line, in hexadecimal",
        "binary" Flag "Reads the capture as frames one after the other, in place of lines",
        "json" Flag "Prints each frame of the capture as an object of JSON, in a line",
        "pcap" Valued("FILE") "Reads the packets of a network that tcpdump wrote, in place of a capture",
        "port" Valued("N") "The simulator's port in these packets; 2321 if it is not given",
        "nv" Valued("FILE") "Prints what a device's kept NV memory holds, in place of a buffer or a capture",
        "HEX" Optional "The buffer, in hexadecimal, or - for a capture on standard input",
    ],
};

const BUILD: Row = Row {
    name: "build",
    bin_name: "tpmtool build",
    about: "Prints the buffer of a command, joined from its parts",
    tells_names: true,
    words: &words![
        "NAME" Required "The command's name",
        "HANDLES" Required "Its handles, in hexadecimal or - for none",
        "SESSIONS" Required "The sessions of its authorization area, in hexadecimal or - for none",
        "PARAMETERS" Required "Its parameters, in hexadecimal or - for none",
    ],
};

const RUN: Row = Row {
    name: "run",
    bin_name: "tpmtool run",
    about: "Runs the commands on standard input, one a line, on a new device",
    tells_names: false,
    words: &words![
        "owner" Valued("HEX") "The owner's authorization value, in hexadecimal; empty if it is not given",
        "greatest" Valued("N") "The greatest value that a counter has had; 0 if it is not given",
    ],
};

const EXPLAIN: Row = Row {
    name: "explain",
    bin_name: "tpmtool explain",
    about: "Prints what a response code says, or the kind of a log's fault",
    tells_names: false,
    words: &words![
        "decimal" Flag "Takes the code in decimal, as a kernel's log has it",
        "CODE" Required "The code, in hexadecimal or by its name, or the kind of a fault, as NotCryptoAgile",
    ],
};

const CHECK: Row = Row {
    name: "check",
    bin_name: "tpmtool check",
    about: "Prints the registers that an event log gives, or compares them",
    tells_names: false,
    words: &log_words![[
        "registers" Valued("FILE")
            "Compares them with a list of registers, as they are printed here or by tpm2_pcrread",
        "quote" Valued("HEX") "Compares them with a quote, its TPMS_QUOTE_INFO in hexadecimal",
        "attest" Valued("FILE") "Compares them with a quote as it was signed, a TPMS_ATTEST, and prints what it says",
    ] [
        "allow" Valued("FILE")
            "Compares what the log measured in the registers of a list with its digests, as --extends prints them",
        "secure-boot" Flag "Prints whether Secure Boot was on, by the log, or by a log that --attest vouches for",
        "any-state" Flag "Takes the states off and unset of Secure Boot as well as on",
        "extends" Flag "Prints the digests by which the log extends registers, as a list for --allow",
        "listed" Flag "Prints the registers of those banks alone that the log's header lists",
        "json" Flag "Prints objects of JSON in place of text, each in a line",
    ]],
};

const EVENTS: Row = Row {
    name: "events",
    bin_name: "tpmtool events",
    about: "Prints the records of an event log, a line each",
    tells_names: false,
    words: &log_words![[
        "register" Valued("LIST") "Prints the records of these registers alone, as 7 or 4,7 or 0-7",
        "places" Flag "Prints how many bytes of the log precede each record, too",
        "digests" Flag "Prints the digests of each record, too",
        "data" Flag "Prints the data of each record in hexadecimal, too",
        "attest" Valued("FILE")
            "Prints what a quote as it was signed says, a TPMS_ATTEST, and what it vouches for in each record",
    ] [
        "header" Flag "Prints what the log's header says, in place of records",
        "json" Flag "Prints each record as an object of JSON, with all that it holds",
    ]],
};
