//! The frames of a capture.

ghost use Rattle.std.specs.Prelude.{◌≡◌, ◌++◌, List, IfOk, None, Some, flat_map};
ghost use Rattle.tpm_show.specs.Capture.{answered_code, awaited_behind, code_number_in, direction_of, is_code_alone};
ghost use Rattle.tpm_show.specs.Capture.{is_response, untold, TellsFrame, TellsOther, TellsRest};
ghost use Rattle.tpm_show.specs.inner.Capturing.{frame_as};
ghost use Rattle.tpm_show.specs.CommandNames.{command_of};
ghost use Rattle.tpm_show.specs.inner.CommandNames.{listed_as};
ghost use Rattle.tpm_show.specs.Pieces.{Piece};
ghost use Rattle.tpm_show.specs.Refusals.{TellsBuffer};
ghost use Rattle.tpm_output.specs.declared.status.Status.TheVariants.{Refused};

use crate::capture_lines::Direction;
use crate::command_names::{Listed, command_of};
use crate::frame_header::{FrameHeader, header_in};
use crate::library::library_response;
use crate::passage::{Passage, tell_passage};
use crate::piece::{LINE_END, says};
use crate::refused::{status_if, tell_head, tell_refused, tell_response_areas};
use crate::teller::{Teller, tell_pieces};
use crate::told::{command_and_areas, response_and_areas, tell_command_rest, tell_response_rest};
use std::alloc::AllocError;
use tpm_output::status::Status;
use tpm_types::CommandCode;

/// Which reply may come next.
#[derive(Clone, Copy)]
pub(crate) enum Awaited {
    /// None: no command is before it.
    Nothing,
    /// That to a command which is not known.
    Unknown,
    /// That to this command.
    Reply(CommandCode),
    /// That to a command with this code, which the profile hasn't.
    Other(u32),
}

/// A frame where it stands.
#[derive(Drop, Clone, Copy)]
pub(crate) struct FrameAt<'a> {
    pub(crate) bytes: &'a [u8],
    /// Which reply may come there.
    pub(crate) awaited: Awaited,
    /// Its place among packets.
    pub(crate) passage: Passage,
    /// Whether its parameters are told by their names, too.
    pub(crate) fields: bool,
}

// ---- which way a frame went

// The number behind the tag and the size.
fn code_number(bytes: &[u8]) -> Option<u32>
    ensures { result ≡ code_number_in bytes.now }
{
    let header = header_in(bytes)?;
    Some(header.code)
}

fn is_response(bytes: &[u8]) -> bool
    ensures { result ≡ is_response bytes.now }
{
    bytes.len() == 10 || code_number(bytes) == Some(0)
}

/// Which way a frame with this mark went.
pub(crate) fn direction_of(mark: Option<Direction>, awaited: Awaited, bytes: &[u8]) -> Direction
    ensures { result ≡ direction_of mark awaited bytes.now }
{
    match (mark, awaited) {
        (Some(direction), _) => direction,
        (None, Awaited::Nothing) => Direction::Command,
        (None, _) if is_response(bytes) => Direction::Reply,
        (None, _) => Direction::Command,
    }
}

/// Which reply may come behind this frame.
pub(crate) fn awaited_behind(direction: Direction, bytes: &[u8]) -> Awaited
    ensures { result ≡ awaited_behind direction bytes.now }
{
    if direction == Direction::Reply {
        return Awaited::Nothing;
    }
    let Some(code) = code_number(bytes) else {
        return Awaited::Unknown;
    };
    match CommandCode::from_number(code) {
        Some(command) => Awaited::Reply(command),
        None => Awaited::Other(code),
    }
}

// The code of the command whose reply comes.
fn answered_code(awaited: Awaited) -> Option<u32>
    ensures { result ≡ answered_code awaited }
{
    match awaited {
        Awaited::Nothing | Awaited::Unknown => None,
        Awaited::Reply(command) => Some(command.number()),
        Awaited::Other(code) => Some(code),
    }
}

// ---- what is told of it

fn tell_command<T: Teller>(teller: &mut T, fields: bool, bytes: &[u8]) -> Result<Status, AllocError>
    ensures { IfOk result (λ status. (pieces : List Piece)
        × TellsBuffer fields None bytes.now status pieces
        × (T.told teller.new ≡ T.told teller.old ++ flat_map T.marks pieces)) }
{
    match command_and_areas(bytes) {
        Ok((command, areas)) => {
            tell_command_rest(teller, fields, &areas, &command.body)?;
            Ok(Status::Done)
        }
        Err(refusal) => tell_refused(teller, None, &refusal, bytes),
    }
}

fn tell_reply_to<T: Teller>(
    teller: &mut T,
    fields: bool,
    command: CommandCode,
    bytes: &[u8],
) -> Result<Status, AllocError>
    ensures { IfOk result (λ status. (pieces : List Piece)
        × TellsBuffer fields (Some command) bytes.now status pieces
        × (T.told teller.new ≡ T.told teller.old ++ flat_map T.marks pieces)) }
{
    match response_and_areas(command, bytes) {
        Ok((response, areas)) => {
            tell_response_rest(teller, fields, &areas, &response)?;
            Ok(Status::Done)
        }
        Err(refusal) => tell_refused(teller, Some(command), &refusal, bytes),
    }
}

// Tells why a reply is not told.
#[tactic(auto, unfolding(crate::specs::Capture::untold))]
fn tell_untold<T: Teller>(teller: &mut T, sentence: &str) -> Result<Status, AllocError>
    ensures { IfOk result (λ status. (status ≡ Refused)
        × (T.told teller.new ≡ T.told teller.old ++ flat_map T.marks (untold sentence.now))) }
{
    tell_pieces!(teller; says!(Alone "fault" Word sentence), LINE_END)?;
    Ok(Status::Refused)
}

// Whether a response is a code alone.
fn is_code_alone(header: Option<FrameHeader>, bytes: &[u8]) -> bool
    ensures { result ≡ is_code_alone header bytes.now }
{
    match header {
        Some(header) => header.code != 0 && header.size == 10 && bytes.len() == 10,
        None => false,
    }
}

// Tells a reply to this command of the library, which the profile hasn't.
fn tell_listed_reply<T: Teller>(
    teller: &mut T,
    command: &Listed,
    bytes: &[u8],
) -> Result<Status, AllocError>
    ensures { IfOk result (λ status. (pieces : List Piece)
        × TellsOther (Some (listed_as command.now)) bytes.now status pieces
        × (T.told teller.new ≡ T.told teller.old ++ flat_map T.marks pieces)) }
{
    let header = header_in(bytes);
    let areas = library_response(Some(command), bytes, header);
    tell_response_areas(teller, &areas)?;
    Ok(status_if(is_code_alone(header, bytes) || areas.is_some()))
}

// Tells a reply to a command with this code, which the profile hasn't.
fn tell_other_reply<T: Teller>(
    teller: &mut T,
    code: u32,
    bytes: &[u8],
) -> Result<Status, AllocError>
    ensures { IfOk result (λ status. (pieces : List Piece)
        × TellsOther (command_of code) bytes.now status pieces
        × (T.told teller.new ≡ T.told teller.old ++ flat_map T.marks pieces)) }
{
    match command_of(code) {
        Some(command) => tell_listed_reply(teller, command, bytes),
        None => tell_untold(teller, "its command is not known"),
    }
}

// Tells what stands behind the header.
fn tell_rest<T: Teller>(
    teller: &mut T,
    direction: Direction,
    frame: FrameAt<'_>,
) -> Result<Status, AllocError>
    ensures { IfOk result (λ status. (pieces : List Piece)
        × TellsRest direction (frame_as frame.entry) status pieces
        × (T.told teller.new ≡ T.told teller.old ++ flat_map T.marks pieces)) }
{
    let FrameAt { bytes, fields, .. } = frame;
    match (direction, frame.awaited) {
        (Direction::Command, _) => tell_command(teller, fields, bytes),
        (Direction::Reply, Awaited::Reply(command)) => tell_reply_to(
            teller, fields, command, bytes,
        ),
        (Direction::Reply, Awaited::Other(code)) => tell_other_reply(teller, code, bytes),
        (Direction::Reply, Awaited::Unknown) => tell_untold(teller, "its command is not known"),
        (Direction::Reply, Awaited::Nothing) => tell_untold(teller, "no command is before it"),
    }
}

/// Tells a frame.
pub(crate) fn tell_frame<T: Teller>(
    teller: &mut T,
    direction: Direction,
    frame: FrameAt<'_>,
) -> Result<Status, AllocError>
    ensures { IfOk result (λ status. (pieces : List Piece)
        × TellsFrame direction (frame_as frame.entry) status pieces
        × (T.told teller.new ≡ T.told teller.old ++ flat_map T.marks pieces)) }
{
    let answered = answered_code(frame.awaited);
    tell_head(teller, direction, answered, header_in(frame.bytes))?;
    tell_passage(teller, frame.passage)?;
    tell_rest(teller, direction, frame)
}
