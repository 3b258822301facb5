//! The program and its subcommands, as clap knows them.

ghost use Rattle.std.specs.Prelude.{IfOk};
ghost use Rattle.clap.specs.Words.{app_of};
ghost use Rattle.tpm_words.specs.Program.{above_subcommands, program_app, with_subcommands, IsApp, IsLocal};

use crate::subcommand::Subcommand;
use crate::word::with_words;
use clap::Command;
use std::alloc::{AllocError, Global};

const VERSION: &str = "0.1.0";

const LONG_VERSION: &str = "0.1.0
profile: 18 commands; SHA-1, SHA-256 and SHA-384; counters; event logs
library: TPM 2.0, revision 1.59
logic: dac8208d650f15bf";

const AFTER_HELP: &str = "Examples:
  tpmtool show 80010000000c000001440000
  tpmtool show --reply Startup 80010000000a00000100
  tpmtool show --fields 80010000000c000001440000
  tpmtool show --file FILE
  tpmtool show --pcap FILE
  tpmtool show --nv FILE
  tpmtool build PCR_Reset 00000010 400000090000010000 -
  tpmtool run --greatest 7 <SCRIPT
  tpmtool explain 9a2
  tpmtool explain TPM_RC_BAD_AUTH
  tpmtool explain NotCryptoAgile
  tpmtool check LOG --registers FILE
  tpmtool check LOG --attest FILE --nonce 6e6f --require sha256:0,7
  tpmtool check LOG --secure-boot
  tpmtool check LOG --secure-boot --attest FILE --nonce 6e6f --require sha256:7
  tpmtool check LOG --attest FILE --nonce 6e6f --allow FILE
  tpmtool check LOG --extends
  tpmtool events LOG
  tpmtool events LOG --register 4,7 --digests
  tpmtool events LOG --attest FILE --nonce 6e6f --require sha256:0,7

Exit status:
  0  done
  1  refused, or a mismatch
  2  the words are at fault
  3  a reading or writing fault, want of memory, or input too long";

// The program, without its subcommands.
fn above_subcommands<'a>(alloc: Global) -> Result<Command<'a>, AllocError>
    ensures { IfOk result (λ c. IsApp above_subcommands c) }
{
    Ok(
        Command::new(alloc, "tpmtool")
            .bin_name("tpmtool")?
            .about("Reads and writes TPM 2.0 commands, and reads event logs")
            .version(VERSION)
            .long_version(LONG_VERSION)
            .after_help(AFTER_HELP)
            .subcommand_required(true),
    )
}

// The program with these subcommands behind its own.
fn with_subcommands<'a>(
    alloc: Global,
    program: Command<'a>,
    subcommands: &[Subcommand],
    names: &'a str,
) -> Result<Command<'a>, AllocError>
    requires { IsLocal program }
    ensures { IfOk result (λ c. IsApp (with_subcommands (app_of program.entry) subcommands.now) c) }
{
    let mut program = program;
    for subcommand in subcommands {
        program = program.subcommand(subcommand.words(alloc, names)?)?;
    }
    Ok(program)
}

/// The program with all its subcommands, of which two have this text on the names of commands in their help. An error
/// is want of memory.
pub fn program_words<'a>(alloc: Global, names: &'a str) -> Result<Command<'a>, AllocError>
    ensures { IfOk result (λ c. IsApp program_app c) }
{
    with_subcommands(alloc, above_subcommands(alloc)?, &Subcommand::ALL, names)
}
