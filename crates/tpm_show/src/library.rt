//! What stands behind the header of a frame, by how many handles a command of the library or its response has.

ghost use Rattle.std.specs.Prelude.{◌≡◌, ◌<◌, ◌^◌, IfSome, Some, length, option_map};
ghost use Rattle.tpm_wire.specs.Buffers.{TakesAs, TakesNumbered};
ghost use Rattle.tpm_wire.specs.Reading.{read_all};
ghost use Rattle.tpm_show.specs.inner.CommandNames.{listed_as};
ghost use Rattle.tpm_show.specs.Library.{any_handles, behind_whole, command_areas};
ghost use Rattle.tpm_show.specs.Library.{behind_handles, command_areas_of, library_command, library_response};
ghost use Rattle.tpm_show.specs.Library.{response_areas, response_areas_of, response_sessions};

use crate::command_names::{Listed, command_of};
use crate::frame_header::FrameHeader;
use crate::sessions::{HasSessions, SessionParts};
use arrayvec::ArrayVec;
use std::marker::Model;
use tpm_buffer::{AuthRef, NO_SESSIONS, SESSIONS, take_authorization, take_parameter_size};
use tpm_types::AuthReply;
use tpm_wire::{Cursor, Refusal, read_list, take_rest};

/// The handles of a command or of a response.
pub(crate) type Handles = ArrayVec<u32, 255>;

// What stands behind a header that has the size of the frame.
#[tactic(auto, unfolding(crate::specs::Library::behind_whole))]
fn behind_whole<'a>(bytes: &'a [u8], header: &FrameHeader) -> Option<&'a [u8]>
    ensures rest { option_map (λ rest. rest.now) result ≡ behind_whole bytes.now header.now }
    ensures short { IfSome result (λ rest. length rest.now < 2 ^ 32) }
{
    if header.size as usize != bytes.len() {
        return None;
    }
    if header.tag != NO_SESSIONS && header.tag != SESSIONS {
        return None;
    }
    let (_, rest) = bytes.split_at_checked(10)?;
    Some(rest)
}

#[tactic(auto, unfolding(crate::specs::Library::any_handles))]
fn take_handles(cursor: &mut Cursor<'_>, count: u8) -> Result<Handles, Refusal>
    ensures { TakesAs (λ v. v.items) (any_handles count) cursor.old cursor.new result }
{
    let mut handles = ArrayVec::new();
    read_list(cursor, count as usize, &mut handles)?;
    Ok(handles)
}

// ---- a command

/// What stands behind the header of a command.
#[derive(Drop)]
pub(crate) struct CommandAreas<'a> {
    pub(crate) handles: Handles,
    pub(crate) auths: ArrayVec<AuthRef<'a>, 3>,
    pub(crate) params: &'a [u8],
}

impl<'a> Model for CommandAreas<'a> {
    ghost use Rattle.tpm_show.specs.Library.{CommandAreas};

    ghost Value = { CommandAreas };

    ghost view = { λ a. record {
      handles = a.handles.items;
      auths = a.auths.items;
      params = a.params.now;
    } };
}

#[tactic(auto, unfolding(crate::specs::Library::command_areas))]
fn take_command_areas<'a>(
    cursor: &mut Cursor<'a>,
    handles: u8,
    tag: u16,
) -> Result<CommandAreas<'a>, Refusal>
    requires { cursor.old.number ≡ 0 }
    ensures { TakesNumbered (λ a. a) (command_areas handles tag) cursor.old cursor.new result }
{
    let handles = take_handles(cursor, handles)?;
    let auths = take_authorization(cursor, tag)?;
    cursor.number(0);
    let params = cursor.remaining();
    Ok(CommandAreas {
        handles,
        auths,
        params,
    })
}

fn read_command_areas(rest: &[u8], handles: u8, tag: u16) -> Result<CommandAreas<'_>, Refusal>
    requires { length rest.now < 2 ^ 32 }
    ensures { result ≡ read_all (command_areas handles tag) rest.now }
{
    let mut cursor = Cursor::new(rest);
    let areas = take_command_areas(&mut cursor, handles, tag)?;
    cursor.end()?;
    Ok(areas)
}

// Those of this command of the library.
fn command_areas_of<'a>(command: &Listed, tag: u16, rest: &'a [u8]) -> Option<CommandAreas<'a>>
    requires { length rest.now < 2 ^ 32 }
    ensures { result ≡ command_areas_of (Some (listed_as command.now)) tag (Some rest.now) }
{
    match read_command_areas(rest, command.handles, tag) {
        Ok(areas) => Some(areas),
        Err(_) => None,
    }
}

/// What stands behind this header of a command of the library, where its handles and its sessions are there.
pub(crate) fn library_command<'a>(
    bytes: &'a [u8],
    header: Option<FrameHeader>,
) -> Option<CommandAreas<'a>>
    ensures { result ≡ library_command bytes.now header }
{
    let header = header?;
    let command = command_of(header.code)?;
    let rest = behind_whole(bytes, &header)?;
    command_areas_of(command, header.tag, rest)
}

// ---- a response of code 0

/// What stands behind the header of a response.
#[derive(Drop)]
pub(crate) struct ResponseAreas<'a> {
    pub(crate) handles: Handles,
    pub(crate) params: &'a [u8],
    auths: ArrayVec<AuthReply, 3>,
}

impl<'a> Model for ResponseAreas<'a> {
    ghost use Rattle.tpm_show.specs.Library.{ResponseAreas};

    ghost Value = { ResponseAreas };

    ghost view = { λ a. record {
      handles = a.handles.items;
      params = a.params.now;
      auths = a.auths.items;
    } };
}

impl HasSessions for ResponseAreas<'_> {
    ghost use Rattle.std.specs.Prelude.{map};
    ghost use Rattle.tpm_show.specs.Sessions.{of_reply};

    ghost sessions = { λ areas. map of_reply areas.auths };

    fn session_count(&self) -> usize {
        self.auths.len()
    }

    fn session(&self, index: usize) -> Option<SessionParts<'_>> {
        let Some(auth) = self.auths.as_slice().get(index) else {
            return None;
        };
        Some(SessionParts::of_reply(auth))
    }
}

#[tactic(auto, unfolding(crate::specs::Library::response_sessions))]
fn take_response_sessions(cursor: &mut Cursor<'_>) -> Result<ArrayVec<AuthReply, 3>, Refusal>
    ensures { TakesNumbered (λ v. v.items) response_sessions cursor.old cursor.new result }
{
    take_rest(cursor, 3, 0x900)
}

#[tactic(auto, unfolding(crate::specs::Library::with_sessions, crate::specs::Library::without_sessions))]
fn take_behind_handles<'a>(
    cursor: &mut Cursor<'a>,
    handles: Handles,
    tag: u16,
) -> Result<ResponseAreas<'a>, Refusal>
    requires { cursor.old.number ≡ 0 }
    ensures { TakesNumbered (λ a. a) (behind_handles handles.items tag)
        cursor.old cursor.new result }
{
    if tag != SESSIONS {
        return Ok(ResponseAreas {
            handles,
            params: cursor.remaining(),
            auths: ArrayVec::new(),
        });
    }
    let size = take_parameter_size(cursor)? as usize;
    let params = cursor.bytes(size)?;
    let auths = take_response_sessions(cursor)?;
    Ok(ResponseAreas {
        handles,
        params,
        auths,
    })
}

#[tactic(auto, unfolding(crate::specs::Library::response_areas))]
fn take_response_areas<'a>(
    cursor: &mut Cursor<'a>,
    handles: u8,
    tag: u16,
) -> Result<ResponseAreas<'a>, Refusal>
    requires { cursor.old.number ≡ 0 }
    ensures { TakesNumbered (λ a. a) (response_areas handles tag) cursor.old cursor.new result }
{
    let handles = take_handles(cursor, handles)?;
    take_behind_handles(cursor, handles, tag)
}

fn read_response_areas(rest: &[u8], handles: u8, tag: u16) -> Result<ResponseAreas<'_>, Refusal>
    requires { length rest.now < 2 ^ 32 }
    ensures { result ≡ read_all (response_areas handles tag) rest.now }
{
    let mut cursor = Cursor::new(rest);
    let areas = take_response_areas(&mut cursor, handles, tag)?;
    cursor.end()?;
    Ok(areas)
}

// Those of the response to this command of the library.
fn response_areas_of<'a>(command: &Listed, tag: u16, rest: &'a [u8]) -> Option<ResponseAreas<'a>>
    requires { length rest.now < 2 ^ 32 }
    ensures { result ≡ response_areas_of (Some (listed_as command.now)) tag (Some rest.now) }
{
    match read_response_areas(rest, command.reply_handles, tag) {
        Ok(areas) => Some(areas),
        Err(_) => None,
    }
}

/// What stands behind this header of a response of code 0 to this command of the library, where it is there.
pub(crate) fn library_response<'a>(
    command: Option<&Listed>,
    bytes: &'a [u8],
    header: Option<FrameHeader>,
) -> Option<ResponseAreas<'a>>
    ensures { result
        ≡ library_response (option_map (λ c. listed_as c.now) command.entry) bytes.now header }
{
    let header = header?;
    if header.code != 0 {
        return None;
    }
    let command = command?;
    let rest = behind_whole(bytes, &header)?;
    response_areas_of(command, header.tag, rest)
}
