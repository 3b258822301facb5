//! A command joined from the bytes of its parts.

ghost use Rattle.std.specs.Prelude.{◌≡◌, ◌+◌, ◌<◌, ◌≤◌, ◌++◌, MatchOption, length};
ghost use Rattle.tpm_buffer.specs.Parts.{authorization_of, joined};

use crate::command_areas::tag_for;
use std::marker::Model;
use tpm_types::CommandCode;
use tpm_wire::{Buffer, Wire, put_bytes};

// How many bytes the joined parts have, or None where a number can't say it.
fn joined_len(handles: &[u8], sessions: &[u8], parameters: &[u8]) -> Option<usize>
    ensures { MatchOption result
        (4096
        < 10 + length handles.now + length (authorization_of sessions.now)
        + length parameters.now)
        (λ n. n ≡ 10 + length handles.now + length (authorization_of sessions.now)
        + length parameters.now) }
{
    let authorization = if sessions.is_empty() {
        0
    } else {
        sessions.len().checked_add(4)?
    };
    authorization
        .checked_add(handles.len())?
        .checked_add(parameters.len())?
        .checked_add(10)
}

fn put_authorization(out: &mut Buffer, sessions: &[u8])
    requires { length out.old.items + length (authorization_of sessions.now) ≤ 4096 }
    ensures { out.new.items ≡ out.old.items ++ authorization_of sessions.now }
{
    if !sessions.is_empty() {
        (sessions.len() as u32).put(out);
        put_bytes(out, sessions);
    }
}

/// A command by its parts: the bytes of its handles, those of its sessions as they are spelled in the authorization
/// area, and those of its parameters. Joined they are 4,096 bytes at most. Whether they spell a command says
/// `decode_command`.
#[derive(Drop)]
pub struct UnjoinedCommand<'a> {
    code: CommandCode,
    handles: &'a [u8],
    sessions: &'a [u8],
    parameters: &'a [u8],
    // How many bytes they have when they are joined.
    size: usize,
}

impl<'a> Model for UnjoinedCommand<'a> {
    ghost use Rattle.std.specs.Prelude.{◌≡◌, ◌≤◌, ℕ, List, length};
    ghost use Rattle.tpm_buffer.specs.Parts.{joined};

    ghost Value = { List ℕ };

    ghost view = { λ p. joined p.code p.handles.now p.sessions.now p.parameters.now };

    ghost invariant = { λ p.
        (p.size ≡ length (joined p.code p.handles.now p.sessions.now p.parameters.now))
        × (p.size ≤ 4096) };
}

impl<'a> UnjoinedCommand<'a> {
    /// These parts; None where they are more than 4,096 bytes with the header.
    pub fn new(
        code: CommandCode,
        handles: &'a [u8],
        sessions: &'a [u8],
        parameters: &'a [u8],
    ) -> Option<Self>
        ensures { MatchOption result
            (4096 < length (joined code handles.now sessions.now parameters.now))
            (λ p. p ≡ joined code handles.now sessions.now parameters.now) }
    {
        let size = joined_len(handles, sessions, parameters)?;
        if size > 4096 {
            return None;
        }
        Some(UnjoinedCommand {
            code,
            handles,
            sessions,
            parameters,
            size,
        })
    }

    /// How many bytes they have when they are joined.
    pub fn len(&self) -> usize
        ensures value { result ≡ length self.now }
        ensures fits { result ≤ 4096 }
    {
        self.size
    }

    /// Joins them in this buffer, whatever is in it: the header, and behind it the handles, the sessions behind their
    /// number of bytes, and the parameters. The tag is 0x8001 where there are no sessions' bytes, and else 0x8002
    /// (Part 1, "Command/Response Structure").
    pub fn join(&self, out: &mut Buffer)
        ensures { out.new.items ≡ self.now }
    {
        out.clear();
        tag_for(self.sessions).put(out);
        (self.size as u32).put(out);
        self.code.number().put(out);
        put_bytes(out, self.handles);
        put_authorization(out, self.sessions);
        put_bytes(out, self.parameters);
    }
}

/// These parts of a command, joined by `UnjoinedCommand::join`; None where they are more than 4,096 bytes.
pub fn join_command(
    code: CommandCode,
    handles: &[u8],
    sessions: &[u8],
    parameters: &[u8],
) -> Option<Buffer>
    ensures { MatchOption result
        (4096 < length (joined code handles.now sessions.now parameters.now))
        (λ b. (length b.items ≤ 4096)
        × (b.items ≡ joined code handles.now sessions.now parameters.now)) }
{
    let parts = UnjoinedCommand::new(code, handles, sessions, parameters)?;
    let mut out = Buffer::new();
    parts.join(&mut out);
    Some(out)
}
