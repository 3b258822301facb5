//! What is told of a buffer.

ghost use Rattle.std.specs.Prelude.{◌≡◌, ◌++◌, None, Some, IfOk, IfErr, OnOk, flat_map, option_to_list, string_bytes};
ghost use Rattle.tpm_wire.specs.Path.{Fault, Spells};
ghost use Rattle.tpm_buffer.specs.Commands.{command};
ghost use Rattle.tpm_buffer.specs.CommandAreas.{HasCut};
ghost use Rattle.tpm_buffer.specs.Responses.{reply_cut, response};
ghost use Rattle.tpm_show.specs.Areas.{command_rest, reply_rest, response_rest};
ghost use Rattle.tpm_show.specs.Fields.{command_fields, reply_fields};
ghost use Rattle.tpm_show.specs.FieldText.{fields_told};
ghost use Rattle.tpm_show.specs.HandleNames.{handles_told};
ghost use Rattle.tpm_show.specs.Show.{ShowsBuffer, ShowsRefused, code_alone_told, command_lines, first_line};
ghost use Rattle.tpm_show.specs.Show.{response_lines};

use crate::areas::{tell_areas, tell_parameters};
use crate::fields::{tell_command_fields, tell_reply_fields};
use crate::frame_header::tell_code_in_line;
use crate::handle_names::tell_handles;
use crate::lines::Lines;
use crate::piece::{FIELDS, LINE_END, LIST_END, in_line};
use crate::refused::{tell_buffer_head, tell_refusal, tell_refused};
use crate::sessions::tell_sessions;
use crate::teller::{Teller, tell_pieces};
use std::alloc::{AllocError, Global};
use tpm_buffer::{
    Areas, ReplyAreas, areas, areas_of_a_response, decode_command, decode_response,
    fault_before_params, reply_areas,
};
use tpm_commands::{Command, CommandBody, ReplyBody, Response};
use tpm_output::answer::Answer;
use tpm_output::text::Pushed;
use tpm_types::CommandCode;
use tpm_wire::Refusal;

// The line of a fault, or where fields are asked for the lines that a capture tells.
#[tactic(auto, using(crate::proofs::Pieces::pieces))]
fn refused<const FIELDS: bool>(
    alloc: Global,
    reply: Option<CommandCode>,
    refusal: &Refusal,
    bytes: &[u8],
) -> Result<Answer, AllocError>
    ensures { IfOk result (λ a.
        ShowsRefused FIELDS reply bytes.now refusal.now a.status (string_bytes a.text)) }
{
    let mut lines = Lines::<FIELDS>::new(alloc);
    if !FIELDS {
        tell_refusal(&mut lines, false, refusal)?;
        return Ok(Answer::refused(lines.text));
    }
    tell_buffer_head(&mut lines, reply, bytes)?;
    let status = tell_refused(&mut lines, reply, refusal, bytes)?;
    Ok(Answer {
        status,
        text: lines.text,
    })
}

// Adds the first line of a buffer of so many bytes.
#[tactic(auto, unfolding(crate::specs::Show::first_line))]
fn push_first_line(text: &mut String, kind: &str, code: CommandCode, size: usize) -> Pushed
    ensures { OnOk result
        (string_bytes text.new ≡ string_bytes text.old ++ first_line kind.now code size) }
{
    let name = code.name();
    writeln!(text, "{kind} {name} size {size}")
}

// ---- a command

/// The command that the bytes spell, and its areas.
pub(crate) fn command_and_areas(bytes: &[u8]) -> Result<(Command<'_>, Areas<'_>), Refusal>
    ensures ok { IfOk result (λ x. Spells command x.0 bytes.now × HasCut bytes.now x.1) }
    ensures err { IfErr result (λ e. Fault command bytes.now e) }
{
    let command = decode_command(bytes)?;
    fault_before_params();
    let areas = areas(bytes)?;
    Ok((command, areas))
}

// Tells the parameters by their names, where this is asked for.
#[tactic(auto, using(crate::proofs::Pieces::pieces))]
fn tell_named_parameters<T: Teller>(teller: &mut T, fields: bool, body: &CommandBody<'_>) -> Pushed
    ensures { OnOk result (T.told teller.new ≡ T.told teller.old
        ++ flat_map T.marks (fields_told fields (command_fields body.now))) }
{
    if !fields {
        return Ok(());
    }
    teller.tell(&FIELDS)?;
    tell_command_fields(teller, body)?;
    teller.tell(&LIST_END)
}

/// Tells what stands behind the header of a command.
#[tactic(auto, using(crate::proofs::Pieces::pieces), unfolding(crate::specs::Areas::command_rest))]
pub(crate) fn tell_command_rest<T: Teller>(
    teller: &mut T,
    fields: bool,
    areas: &Areas<'_>,
    body: &CommandBody<'_>,
) -> Pushed
    ensures { OnOk result (T.told teller.new ≡ T.told teller.old
        ++ flat_map T.marks (command_rest fields areas.now body.now)) }
{
    tell_areas(teller, areas.handles(), areas.auths(), areas.params())?;
    tell_named_parameters(teller, fields, body)
}

#[tactic(auto, unfolding(crate::specs::Show::command_lines))]
fn push_command_lines<const FIELDS: bool>(
    text: &mut Lines<FIELDS>,
    size: usize,
    areas: &Areas<'_>,
    body: &CommandBody<'_>,
) -> Pushed
    ensures { OnOk result (string_bytes text.new.text
        ≡ string_bytes text.old.text ++ command_lines FIELDS size areas.now body.now) }
{
    push_first_line(&mut text.text, "command", areas.code(), size)?;
    tell_command_rest(text, FIELDS, areas, body)
}

/// The lines of bytes that are taken for a command.
pub(crate) fn answer_to_command<const FIELDS: bool>(
    alloc: Global,
    bytes: &[u8],
) -> Result<Answer, AllocError>
    ensures { IfOk result
        (λ a. ShowsBuffer FIELDS None (Some bytes.now) a.status (string_bytes a.text)) }
{
    match command_and_areas(bytes) {
        Ok((command, areas)) => {
            let mut lines = Lines::<FIELDS>::new(alloc);
            push_command_lines(&mut lines, bytes.len(), &areas, &command.body)?;
            Ok(Answer::done(lines.text))
        }
        Err(refusal) => refused::<FIELDS>(alloc, None, &refusal, bytes),
    }
}

// ---- a response

/// The response to this command that the bytes spell, and its areas.
pub(crate) fn response_and_areas(
    command: CommandCode,
    bytes: &[u8],
) -> Result<(Response, ReplyAreas<'_>), Refusal>
    ensures ok { IfOk result (λ x. Spells (response command) x.0 bytes.now
        × Spells (reply_cut command) x.1 bytes.now) }
    ensures err { IfErr result (λ e. Fault (response command) bytes.now e) }
{
    let response = decode_response(command, bytes)?;
    areas_of_a_response();
    let areas = reply_areas(command, bytes)?;
    Ok((response, areas))
}

// Tells the parameters by their names, where this is asked for.
#[tactic(auto, using(crate::proofs::Pieces::pieces))]
fn tell_reply_parameters<T: Teller>(teller: &mut T, fields: bool, body: &ReplyBody) -> Pushed
    ensures { OnOk result (T.told teller.new ≡ T.told teller.old
        ++ flat_map T.marks (fields_told fields (reply_fields body.now))) }
{
    if !fields {
        return Ok(());
    }
    teller.tell(&FIELDS)?;
    tell_reply_fields(teller, body)?;
    teller.tell(&LIST_END)
}

// Tells the handle, where there is one.
fn tell_first_handle<T: Teller>(teller: &mut T, handle: Option<u32>) -> Pushed
    ensures { OnOk result (T.told teller.new
        ≡ T.told teller.old ++ flat_map T.marks (handles_told (option_to_list handle))) }
{
    match handle {
        Some(handle) => tell_handles(teller, &[handle]),
        None => tell_handles(teller, &[]),
    }
}

#[tactic(auto, using(crate::proofs::Pieces::pieces), unfolding(crate::specs::Areas::reply_rest))]
fn tell_reply_rest<T: Teller>(
    teller: &mut T,
    fields: bool,
    areas: &ReplyAreas<'_>,
    body: &ReplyBody,
) -> Pushed
    ensures { OnOk result (T.told teller.new ≡ T.told teller.old
        ++ flat_map T.marks (reply_rest fields areas.now body.now)) }
{
    tell_first_handle(teller, areas.handle())?;
    tell_parameters(teller, areas.params())?;
    tell_reply_parameters(teller, fields, body)?;
    tell_sessions(teller, areas)
}

/// Tells what stands behind the header of a response.
pub(crate) fn tell_response_rest<T: Teller>(
    teller: &mut T,
    fields: bool,
    areas: &ReplyAreas<'_>,
    response: &Response,
) -> Pushed
    ensures { OnOk result (T.told teller.new ≡ T.told teller.old
        ++ flat_map T.marks (response_rest fields areas.now response.now)) }
{
    match response {
        Response::Code(_) => Ok(()),
        Response::Done { body, .. } => tell_reply_rest(teller, fields, areas, body),
    }
}

// Tells a code that has nothing behind it.
fn tell_code_alone<T: Teller>(teller: &mut T, code: u32) -> Pushed
    ensures { OnOk result
        (T.told teller.new ≡ T.told teller.old ++ flat_map T.marks (code_alone_told code)) }
{
    tell_pieces!(teller; in_line!(Alone Word "reply code"), in_line!(Behind Code code))?;
    tell_code_in_line(teller, code)?;
    teller.tell(&LINE_END)
}

#[tactic(auto, unfolding(crate::specs::Show::response_lines))]
fn push_response_lines<const FIELDS: bool>(
    text: &mut Lines<FIELDS>,
    command: CommandCode,
    size: usize,
    areas: &ReplyAreas<'_>,
    response: &Response,
) -> Pushed
    ensures { OnOk result (string_bytes text.new.text ≡ string_bytes text.old.text
        ++ response_lines FIELDS command size areas.now response.now) }
{
    match response {
        Response::Code(code) => tell_code_alone(text, code.number()),
        Response::Done { body, .. } => {
            push_first_line(&mut text.text, "reply", command, size)?;
            tell_reply_rest(text, FIELDS, areas, body)
        }
    }
}

/// The lines of bytes that are taken for a response to this command.
pub(crate) fn answer_to_reply<const FIELDS: bool>(
    alloc: Global,
    command: CommandCode,
    bytes: &[u8],
) -> Result<Answer, AllocError>
    ensures { IfOk result
        (λ a. ShowsBuffer FIELDS (Some command) (Some bytes.now) a.status (string_bytes a.text)) }
{
    match response_and_areas(command, bytes) {
        Ok((response, areas)) => {
            let mut lines = Lines::<FIELDS>::new(alloc);
            push_response_lines(&mut lines, command, bytes.len(), &areas, &response)?;
            Ok(Answer::done(lines.text))
        }
        Err(refusal) => refused::<FIELDS>(alloc, Some(command), &refusal, bytes),
    }
}
