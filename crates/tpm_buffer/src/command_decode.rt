//! From bytes to a command, or to its areas.

ghost use Rattle.std.specs.Prelude.{◌≡◌, ◌≤◌, ◌<◌, ◌↔◌, IsOk, IfOk, OnOk, Ok, Err, length};
ghost use Rattle.tpm_wire.specs.Spelling.{spelling};
ghost use Rattle.tpm_wire.specs.declared.refusal.Refusal.{Refusal as RefusalOf};
ghost use Rattle.tpm_wire.specs.Reading.{read_all, Gives};
ghost use Rattle.tpm_wire.specs.Layout.{cut};
ghost use Rattle.tpm_wire.specs.Path.{Spells, Fault};
ghost use Rattle.tpm_commands.specs.declared.command.Command.{Command as CommandOf};
ghost use Rattle.tpm_buffer.specs.Commands.{before_params, command};
ghost use Rattle.tpm_buffer.specs.CommandAreas.{Cut, HasCut, IsSpelledBy};

use crate::command_areas::{Areas, any_areas, long_fault, read_before_params};
use arrayvec::ArrayVec;
use tpm_commands::{Command, CommandBody};
use tpm_types::StartupType;
use tpm_wire::{Cursor, Refusal};

fn read_command<'a>(bytes: &'a [u8], decoded: &mut Command<'a>) -> Result<(), Refusal>
    requires { length bytes.now ≤ 4096 }
    ensures reads { Gives (λ _. decoded.new) (read_all command bytes.now) result }
    ensures spelled { OnOk result (bytes.now ≡ spelling command decoded.new) }
{
    let mut cursor = Cursor::new(bytes);
    let (header, handles) = read_before_params(&mut cursor, &mut decoded.auths)?;
    decoded
        .body
        .read(&mut cursor, header.code, handles.as_slice())?;
    cursor.end()?;
    Ok(())
}

#[tactic(auto, unfolding(crate::specs::Commands::command))]
fn refusal_of_long(bytes: &[u8]) -> Refusal
    requires { 4096 < length bytes.now }
    ensures { read_all command bytes.now ≡ Err result }
{
    long_fault(bytes)
}

fn read_bytes<'a>(bytes: &'a [u8], decoded: &mut Command<'a>) -> Result<(), Refusal>
    ensures reads { Gives (λ _. decoded.new) (read_all command bytes.now) result }
    ensures spelled { OnOk result (bytes.now ≡ spelling command decoded.new) }
{
    if bytes.len() > 4096 {
        return Err(refusal_of_long(bytes));
    }
    read_command(bytes, decoded)
}

// The answer to bytes with a fault. It stands alone, since a fault in the place of a command clears all that place.
#[inline(never)]
fn refuse(answer: &mut Result<Command<'_>, Refusal>, refusal: Refusal)
    ensures { answer.new ≡ Err refusal }
{
    *answer = Err(refusal);
}

// The answer is made in the caller's place, so that its many bytes are not moved from function to function.
#[inline(never)]
fn decode<'a>(bytes: &'a [u8], answer: &mut Result<Command<'a>, Refusal>)
    requires { IsOk answer.old }
    ensures reads { answer.new ≡ read_all command bytes.now }
    ensures spelled { IfOk answer.new (λ c. bytes.now ≡ spelling command c) }
{
    match answer {
        Ok(decoded) => {
            if let Err(refusal) = read_bytes(bytes, decoded) {
                refuse(answer, refusal);
            }
        }
        Err(_) => unreachable!(),
    }
}

// A command that another one is decoded in the place of.
#[inline(always)]
fn any_command<'a>() -> Command<'a> {
    Command {
        body: CommandBody::Startup(StartupType::Clear),
        auths: ArrayVec::new(),
    }
}

/// The header, the handles and the sessions, and the parameters as they came, or the first fault before the
/// parameters: what `header`, `handles` and `areas` read in turn.
pub fn areas(bytes: &[u8]) -> Result<Areas<'_>, Refusal>
    ensures ok { (c : Cut) → (result ≡ Ok c) ↔ HasCut bytes.now c }
    ensures err { (e : RefusalOf) → (result ≡ Err e) ↔ Fault (cut before_params) bytes.now e }
    ensures spelled { IfOk result (IsSpelledBy bytes.now) }
{
    any_areas(bytes)
}

/// The command that the bytes spell, all of them, or the response code and the position of their first fault: those of
/// `areas`, then those of `decode_params`, further on by the bytes before the parameters.
pub fn decode_command(bytes: &[u8]) -> Result<Command<'_>, Refusal>
    ensures ok { (c : CommandOf) → (result ≡ Ok c) ↔ Spells command c bytes.now }
    ensures err { (e : RefusalOf) → (result ≡ Err e) ↔ Fault command bytes.now e }
{
    let mut answer = Ok(any_command());
    decode(bytes, &mut answer);
    answer
}

/// One spelling: a command is spelled by these bytes alone.
pub fn one_spelling(a: &[u8], b: &[u8])
    ensures { (c : CommandOf) → Spells command c a.now → Spells command c b.now → a.now ≡ b.now }
{
    let mut one = Ok(any_command());
    decode(a, &mut one);
    let mut other = Ok(any_command());
    decode(b, &mut other);
}
