//! From a command to its bytes.

ghost use Rattle.std.specs.Prelude.{◌≡◌, ◌≤◌, ◌+◌, ◌++◌, length, ℕ};
ghost use Rattle.tpm_wire.specs.Spelling.{spelling, Fits};
ghost use Rattle.tpm_wire.specs.Path.{Spells};
ghost use Rattle.tpm_commands.specs.Handles.{handles as handles_layout};
ghost use Rattle.tpm_commands.specs.Parameters.{parameters};
ghost use Rattle.tpm_buffer.specs.Commands.{authorization, tag_of, code_for, handles_of, params_of, body_from, rest_of};
ghost use Rattle.tpm_buffer.specs.Commands.{command as command_layout};

use crate::command_areas::{NO_SESSIONS, SESSIONS};
use arrayvec::ArrayVec;
use tpm_commands::{Command, CommandBody};
use tpm_types::Auth;
use tpm_wire::{Buffer, Wire, known_list, list_len, put_list};

// ---- handles

fn handles_len(body: &CommandBody<'_>) -> usize
    ensures value { result
        ≡ length (spelling (handles_layout (code_for body.now)) (handles_of body.now)) }
    ensures fits { result ≤ 8 }
    ensures spelled { (left : ℕ)
        → Fits left (handles_layout (code_for body.now)) (handles_of body.now) }
    ensures whole { body_from (handles_of body.now) (params_of body.now) ≡ body.now }
{
    4 * body.handle_numbers().len()
}

fn put_handles(body: &CommandBody<'_>, out: &mut Buffer)
    requires { length out.old.items
        + length (spelling (handles_layout (code_for body.now)) (handles_of body.now))
        ≤ 4096 }
    ensures { out.new.items
        ≡ out.old.items ++ spelling (handles_layout (code_for body.now)) (handles_of body.now) }
{
    match body.handle_numbers().as_slice() {
        [] => {}
        [only] => only.put(out),
        [one, two, ..] => {
            one.put(out);
            two.put(out);
        }
    }
}

// ---- the authorization area

#[tactic(auto, unfolding(crate::specs::Commands::authorization, crate::specs::Commands::authorization_size, crate::specs::Commands::sessions))]
fn authorization_len(tag: u16, auths: &[Auth]) -> usize
    requires { length auths.now ≤ 3 }
    ensures value { result ≡ length (spelling (authorization tag) auths.now) }
    ensures fits { result ≤ 319 }
{
    if tag == SESSIONS {
        4 + list_len(auths)
    } else {
        0
    }
}

#[tactic(auto, unfolding(crate::specs::Commands::authorization, crate::specs::Commands::authorization_size, crate::specs::Commands::sessions))]
#[inline(never)]
fn put_authorization(tag: u16, auths: &[Auth], out: &mut Buffer)
    requires count { length auths.now ≤ 3 }
    requires room { length out.old.items + length (spelling (authorization tag) auths.now) ≤ 4096 }
    ensures { out.new.items ≡ out.old.items ++ spelling (authorization tag) auths.now }
{
    if tag == SESSIONS {
        (list_len(auths) as u32).put(out);
        put_list(auths, out);
    }
}

// ---- the command

fn tag_of(command: &Command<'_>) -> u16
    ensures { result ≡ tag_of command.now }
{
    if command.auths.is_empty() {
        NO_SESSIONS
    } else {
        SESSIONS
    }
}

fn rest_len(tag: u16, command: &Command<'_>) -> usize
    ensures value { result
        ≡ length (spelling (rest_of (code_for command.now.body) tag) command.now) }
    ensures fits { result ≤ 4000 }
    ensures few { length command.now.auths.items ≤ 3 }
    ensures handles { (left : ℕ)
        → Fits left (handles_layout (code_for command.now.body)) (handles_of command.now.body) }
    ensures whole { body_from (handles_of command.now.body) (params_of command.now.body)
        ≡ command.now.body }
    ensures params { (left : ℕ)
        → Fits left (parameters (code_for command.now.body)) (params_of command.now.body) }
{
    handles_len(&command.body)
        + authorization_len(tag, command.auths.as_slice())
        + command.body.params_len()
}

fn put_rest(tag: u16, command: &Command<'_>, out: &mut Buffer)
    requires { length out.old.items
        + length (spelling (rest_of (code_for command.now.body) tag) command.now)
        ≤ 4096 }
    ensures { out.new.items
        ≡ out.old.items ++ spelling (rest_of (code_for command.now.body) tag) command.now }
{
    put_handles(&command.body, out);
    put_authorization(tag, command.auths.as_slice(), out);
    command.body.put_params(out);
}

#[tactic(auto, unfolding(crate::specs::Commands::command, crate::specs::Commands::header, crate::specs::Commands::tag, crate::specs::Commands::command_size, tpm_types::specs::CommandCodes::command_code))]
fn put_whole(tag: u16, len: usize, command: &Command<'_>, out: &mut Buffer)
    requires empty { length out.old.items ≡ 0 }
    requires tag { tag ≡ tag_of command.now }
    requires len { len ≡ length (spelling (rest_of (code_for command.now.body) tag) command.now) }
    requires fits { len ≤ 4000 }
    ensures { out.new.items ≡ spelling command_layout command.now }
{
    tag.put(out);
    (10 + len as u32).put(out);
    command.body.code().number().put(out);
    put_rest(tag, command, out);
}

/// Puts the bytes that spell the command, 10 to 4,096 of them, into an empty buffer: those that `encode_command`
/// answers.
// It is out of line, so that `encode_command` is small, and its buffer the caller's.
#[inline(never)]
pub fn put_command(command: &Command<'_>, out: &mut Buffer)
    requires { length out.old.items ≡ 0 }
    ensures spells { Spells command_layout command.now out.new.items }
    ensures bytes { out.new.items ≡ spelling command_layout command.now }
    ensures fits { Fits (length out.new.items) command_layout command.now }
{
    let tag = tag_of(command);
    let len = rest_len(tag, command);
    known_list(command.auths.as_slice());
    put_whole(tag, len, command, out);
}

/// The bytes that spell the command: 10 to 4,096 of them, under tag 0x8001 where it has no sessions and 0x8002 else.
pub fn encode_command(command: &Command<'_>) -> Buffer
    ensures spells { Spells command_layout command.now result.items }
    ensures bytes { result.items ≡ spelling command_layout command.now }
    ensures fits { Fits (length result.items) command_layout command.now }
{
    let mut out = ArrayVec::new();
    put_command(command, &mut out);
    out
}
