//! What is told of a buffer that is refused, or beyond this profile.

ghost use Rattle.std.specs.Prelude.{◌≡◌, ◌++◌, None, Some, IfOk, OnOk, flat_map};
ghost use Rattle.tpm_show.specs.Library.{command_areas_told, response_areas_told};
ghost use Rattle.tpm_show.specs.Refusals.{buffer_head, code_in, head_told, is_buffer_beyond, refusal_told};
ghost use Rattle.tpm_show.specs.Refusals.{refused_told, status_if, verdict, verdict_name};

use crate::areas::{tell_areas, tell_parameters};
use crate::beyond::is_beyond;
use crate::capture_lines::Direction;
use crate::command_names::command_of;
use crate::frame_header::{
    FrameHeader, header_in, tell_code_in_line, tell_code_name, tell_command_head, tell_reply_head,
};
use crate::handle_names::tell_handles;
use crate::library::{CommandAreas, ResponseAreas, library_command, library_response};
use crate::piece::{How, LINE_END, Piece, Value, in_line, says};
use crate::sessions::tell_sessions;
use crate::teller::{Teller, tell_pieces};
use std::alloc::AllocError;
use tpm_output::status::Status;
use tpm_output::text::Pushed;
use tpm_types::CommandCode;
use tpm_wire::Refusal;

/// Tells what the header says, of a reply to the command of this code.
pub(crate) fn tell_head<T: Teller>(
    teller: &mut T,
    direction: Direction,
    answered: Option<u32>,
    header: Option<FrameHeader>,
) -> Pushed
    ensures { OnOk result (T.told teller.new
        ≡ T.told teller.old ++ flat_map T.marks (head_told direction answered header)) }
{
    let Some(header) = &header else {
        return Ok(());
    };
    match direction {
        Direction::Command => tell_command_head(teller, header),
        Direction::Reply => tell_reply_head(teller, answered, header),
    }
}

/// The status of what is beyond this profile, or refused.
pub(crate) fn status_if(beyond: bool) -> Status
    ensures { result ≡ status_if beyond }
{
    if beyond {
        Status::Done
    } else {
        Status::Refused
    }
}

// ---- a fault

fn verdict(beyond: bool) -> &'static str
    ensures { result.now ≡ verdict beyond }
{
    if beyond {
        "beyond this profile,"
    } else {
        "refused"
    }
}

fn verdict_name(beyond: bool) -> &'static str
    ensures { result.now ≡ verdict_name beyond }
{
    if beyond { "beyond" } else { "refused" }
}

/// Tells a fault, which is beyond this profile, or refused.
pub(crate) fn tell_refusal<T: Teller>(teller: &mut T, beyond: bool, refusal: &Refusal) -> Pushed
    ensures { OnOk result (T.told teller.new
        ≡ T.told teller.old ++ flat_map T.marks (refusal_told beyond refusal.now)) }
{
    let Refusal { code, at } = *refusal;
    tell_pieces!(teller; in_line!(Alone Word verdict(beyond)),
        Piece::Says(How::Behind, Some(verdict_name(beyond)), Value::Code(code)))?;
    tell_code_name(teller, How::Nowhere, "fault", code)?;
    teller.tell(&says!(Under "at" Number at as u64))?;
    tell_code_in_line(teller, code)?;
    teller.tell(&LINE_END)
}

// ---- a command

fn code_in(header: Option<FrameHeader>) -> u32
    ensures { result ≡ code_in header }
{
    match header {
        Some(header) => header.code,
        None => 0,
    }
}

fn tell_command_areas<T: Teller>(teller: &mut T, areas: &Option<CommandAreas<'_>>) -> Pushed
    ensures { OnOk result (T.told teller.new
        ≡ T.told teller.old ++ flat_map T.marks (command_areas_told areas.now)) }
{
    match areas {
        Some(areas) => {
            let auths = areas.auths.as_slice();
            tell_areas(teller, areas.handles.as_slice(), auths, areas.params)
        }
        None => Ok(()),
    }
}

// Tells the fault of a command, and what is behind its header by the library's tables.
#[tactic(auto, using(crate::proofs::Pieces::pieces))]
fn tell_refused_command<T: Teller>(
    teller: &mut T,
    refusal: &Refusal,
    bytes: &[u8],
) -> Result<Status, AllocError>
    ensures { IfOk result (λ status.
        (status ≡ status_if (is_buffer_beyond None bytes.now refusal.now))
        × (T.told teller.new ≡ T.told teller.old
        ++ flat_map T.marks (refused_told None bytes.now refusal.now))) }
{
    let header = header_in(bytes);
    let areas = library_command(bytes, header);
    let beyond = areas.is_some() && is_beyond(Direction::Command, code_in(header), refusal, bytes);
    tell_refusal(teller, beyond, refusal)?;
    tell_command_areas(teller, &areas)?;
    Ok(status_if(beyond))
}

// ---- a response

/// Tells what is behind the header of a response, where it is there.
#[tactic(auto, using(crate::proofs::Pieces::pieces))]
pub(crate) fn tell_response_areas<T: Teller>(
    teller: &mut T,
    areas: &Option<ResponseAreas<'_>>,
) -> Pushed
    ensures { OnOk result (T.told teller.new
        ≡ T.told teller.old ++ flat_map T.marks (response_areas_told areas.now)) }
{
    match areas {
        Some(areas) => {
            tell_handles(teller, areas.handles.as_slice())?;
            tell_parameters(teller, areas.params)?;
            tell_sessions(teller, areas)
        }
        None => Ok(()),
    }
}

// Tells the fault of a response to this command, and what is behind its header by the library's tables.
#[tactic(auto, using(crate::proofs::Pieces::pieces))]
fn tell_refused_reply<T: Teller>(
    teller: &mut T,
    command: CommandCode,
    refusal: &Refusal,
    bytes: &[u8],
) -> Result<Status, AllocError>
    ensures { IfOk result (λ status.
        (status ≡ status_if (is_buffer_beyond (Some command) bytes.now refusal.now))
        × (T.told teller.new ≡ T.told teller.old
        ++ flat_map T.marks (refused_told (Some command) bytes.now refusal.now))) }
{
    let code = command.number();
    let areas = library_response(command_of(code), bytes, header_in(bytes));
    let beyond = areas.is_some() && is_beyond(Direction::Reply, code, refusal, bytes);
    tell_refusal(teller, beyond, refusal)?;
    tell_response_areas(teller, &areas)?;
    Ok(status_if(beyond))
}

// ---- either

/// Tells what the header says of bytes that are taken for a response to this command, or for a command.
pub(crate) fn tell_buffer_head<T: Teller>(
    teller: &mut T,
    reply: Option<CommandCode>,
    bytes: &[u8],
) -> Pushed
    ensures { OnOk result (T.told teller.new
        ≡ T.told teller.old ++ flat_map T.marks (buffer_head reply bytes.now)) }
{
    let header = header_in(bytes);
    match reply {
        Some(command) => tell_head(teller, Direction::Reply, Some(command.number()), header),
        None => tell_head(teller, Direction::Command, None, header),
    }
}

/// Tells their fault, and what is behind their header by the library's tables.
pub(crate) fn tell_refused<T: Teller>(
    teller: &mut T,
    reply: Option<CommandCode>,
    refusal: &Refusal,
    bytes: &[u8],
) -> Result<Status, AllocError>
    ensures { IfOk result (λ status.
        (status ≡ status_if (is_buffer_beyond reply bytes.now refusal.now))
        × (T.told teller.new ≡ T.told teller.old
        ++ flat_map T.marks (refused_told reply bytes.now refusal.now))) }
{
    match reply {
        Some(command) => tell_refused_reply(teller, command, refusal, bytes),
        None => tell_refused_command(teller, refusal, bytes),
    }
}
