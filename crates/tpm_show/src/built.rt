//! The subcommand `build`.

ghost use Rattle.std.specs.Prelude.{◌≡◌, ◌≤◌, ◌+◌, ◌++◌, Some, IfOk, OnOk, option_map, string_bytes};
ghost use Rattle.std.specs.Io.KnownBytes.{Appends};
ghost use Rattle.tpm_output.specs.Faults.{FailsByMemoryOrWrite};
ghost use Rattle.tpm_show.specs.Build.{part_of, Becomes, NoDigits, OfBytes, OfParts, Outcome, RefusedFor, Spelled};
ghost use Rattle.tpm_show.specs.Build.{digits_remark, parameters_at, part_name, place_of, refused_in, refused_remark};
ghost use Rattle.tpm_show.specs.Build.{remark_of, status_of, text_of};
ghost use Rattle.tpm_show.specs.inner.Building.{TextOf};

use crate::frame_header::push_code_name;
use std::alloc::{AllocError, Global};
use std::io::Write;
use tpm_buffer::{decode_command, join_command};
use tpm_output::answer::{Answer, write};
use tpm_output::fault::ToolFault;
use tpm_output::hexadecimal::decoded;
use tpm_output::status::Status;
use tpm_output::text::{Pushed, push_bytes, push_refusal};
use tpm_types::CommandCode;
use tpm_wire::Refusal;
use tpm_wire::response_code::COMMAND_SIZE;

// The bytes of a part, none for `-`, or None where it is not hexadecimal.
fn part_bytes(alloc: Global, text: &str) -> Result<Option<Vec<u8>>, AllocError>
    ensures { IfOk result (λ bytes. option_map (λ v. v.items) bytes ≡ part_of text.now) }
{
    if text == "-" {
        return Ok(Some(Vec::new(alloc)));
    }
    decoded(alloc, text)
}

// ---- which part a place is in

/// A part of a command.
#[derive(Clone, Copy)]
pub(crate) enum Part {
    /// Its tag, its size and its code.
    Header,
    /// Its handles.
    Handles,
    /// Its sessions.
    Sessions,
    /// Its parameters.
    Parameters,
}

/// A place in a part.
#[derive(Clone, Copy)]
struct Place {
    part: Part,
    // how many bytes of the part precede it
    at: usize,
}

/// How many bytes there are of the handles and of the sessions.
#[derive(Clone, Copy)]
struct Lengths {
    handles: usize,
    sessions: usize,
}

// How many bytes precede the parameters.
fn parameters_at(lengths: Lengths) -> usize
    requires { lengths.handles + lengths.sessions ≤ 4096 }
    ensures { result ≡ parameters_at lengths }
{
    if lengths.sessions == 0 {
        10 + lengths.handles
    } else {
        14 + lengths.handles + lengths.sessions
    }
}

fn place_of(lengths: Lengths, at: usize) -> Place
    requires { lengths.handles + lengths.sessions ≤ 4096 }
    ensures { result ≡ place_of lengths at }
{
    let sessions_at = 14 + lengths.handles;
    let parameters_at = parameters_at(lengths);
    if at < 10 {
        Place {
            part: Part::Header,
            at,
        }
    } else if at < 10 + lengths.handles {
        Place {
            part: Part::Handles,
            at: at - 10,
        }
    } else if at < parameters_at {
        Place {
            part: Part::Sessions,
            at: at.saturating_sub(sessions_at),
        }
    } else {
        Place {
            part: Part::Parameters,
            at: at - parameters_at,
        }
    }
}

// ---- what is told

/// What became of the parts of a command.
#[derive(Drop)]
pub struct Built {
    /// Whether they are one.
    pub status: Status,
    /// What is told of those that are refused: a line, or nothing.
    pub remark: String,
}

/// What became of them, and what is printed.
#[derive(Drop)]
pub(crate) struct BuiltText {
    built: Built,
    text: String,
}

fn part_name(part: Part) -> &'static str
    ensures { result.now ≡ part_name part }
{
    match part {
        Part::Header => "header",
        Part::Handles => "handles",
        Part::Sessions => "sessions",
        Part::Parameters => "parameters",
    }
}

#[tactic(auto, unfolding(crate::specs::Build::refused_in))]
fn push_refused_in(text: &mut String, place: Place) -> Pushed
    ensures { OnOk result
        (string_bytes text.new ≡ string_bytes text.old ++ refused_in place) }
{
    let part = part_name(place.part);
    let at = place.at;
    write!(text, "refused in the {part} at {at}:")
}

fn push_refused_remark(text: &mut String, place: Place, code: u32) -> Pushed
    ensures { OnOk result
        (string_bytes text.new ≡ string_bytes text.old ++ refused_remark place code) }
{
    push_refused_in(text, place)?;
    push_code_name(text, code)?;
    text.push_str("\n")
}

#[tactic(auto, unfolding(crate::specs::Build::digits_remark))]
fn push_digits_remark(text: &mut String, part: Part) -> Pushed
    ensures { OnOk result
        (string_bytes text.new ≡ string_bytes text.old ++ digits_remark part) }
{
    let part = part_name(part);
    writeln!(text, "the {part} are not hexadecimal")
}

// ---- what becomes of parts

fn spelled(alloc: Global, bytes: &[u8]) -> Result<BuiltText, AllocError>
    ensures { IfOk result (λ b. TextOf b (Spelled bytes.now)) }
{
    let mut text = String::new(alloc);
    push_bytes(&mut text, bytes)?;
    Ok(BuiltText {
        built: Built {
            status: Status::Done,
            remark: String::new(alloc),
        },
        text,
    })
}

fn refused(alloc: Global, refusal: &Refusal, place: Place) -> Result<BuiltText, AllocError>
    ensures { IfOk result (λ b. TextOf b (RefusedFor refusal.now place)) }
{
    let mut text = String::new(alloc);
    push_refusal(&mut text, refusal)?;
    let mut remark = String::new(alloc);
    push_refused_remark(&mut remark, place, refusal.code)?;
    Ok(BuiltText {
        built: Built {
            status: Status::Refused,
            remark,
        },
        text,
    })
}

fn no_digits(alloc: Global, part: Part) -> Result<BuiltText, AllocError>
    ensures { IfOk result (λ b. TextOf b (NoDigits part)) }
{
    let Answer { status, text } = Answer::not_hexadecimal(alloc)?;
    let mut remark = String::new(alloc);
    push_digits_remark(&mut remark, part)?;
    Ok(BuiltText {
        built: Built { status, remark },
        text,
    })
}

fn of_buffer(alloc: Global, lengths: Lengths, bytes: &[u8]) -> Result<BuiltText, AllocError>
    requires { lengths.handles + lengths.sessions ≤ 4096 }
    ensures { IfOk result (λ b. (o : Outcome) × OfBytes lengths bytes.now o × TextOf b o) }
{
    match decode_command(bytes) {
        Ok(_) => spelled(alloc, bytes),
        Err(refusal) => refused(alloc, &refusal, place_of(lengths, refusal.at as usize)),
    }
}

fn of_parts(
    alloc: Global,
    code: CommandCode,
    handles: &[u8],
    sessions: &[u8],
    parameters: &[u8],
) -> Result<BuiltText, AllocError>
    ensures { IfOk result (λ b. (o : Outcome)
        × OfParts code (Some handles.now) (Some sessions.now) (Some parameters.now) o
        × TextOf b o) }
{
    match join_command(code, handles, sessions, parameters) {
        Some(buffer) => {
            let lengths = Lengths {
                handles: handles.len(),
                sessions: sessions.len(),
            };
            of_buffer(alloc, lengths, buffer.as_slice())
        }
        None => {
            let refusal = Refusal {
                code: COMMAND_SIZE,
                at: 2,
            };
            let place = Place {
                part: Part::Header,
                at: 2,
            };
            refused(alloc, &refusal, place)
        }
    }
}

fn build_text(
    alloc: Global,
    name: CommandCode,
    handles: &str,
    sessions: &str,
    parameters: &str,
) -> Result<BuiltText, AllocError>
    ensures { IfOk result (λ b. (o : Outcome) × Becomes (record {
      code = name;
      handles = handles.now;
      sessions = sessions.now;
      parameters = parameters.now;
    }) o × TextOf b o) }
{
    let Some(handles) = part_bytes(alloc, handles)? else {
        return no_digits(alloc, Part::Handles);
    };
    let Some(sessions) = part_bytes(alloc, sessions)? else {
        return no_digits(alloc, Part::Sessions);
    };
    let Some(parameters) = part_bytes(alloc, parameters)? else {
        return no_digits(alloc, Part::Parameters);
    };
    of_parts(
        alloc,
        name,
        handles.as_slice(),
        sessions.as_slice(),
        parameters.as_slice(),
    )
}

/// Prints the buffer of the command `name` that is joined from its parts, or its refusal.
///
/// The parts are hexadecimal digits, and `-` is no bytes: the handles, the sessions as they are
/// spelled in the authorization area, and the parameters. With no sessions the tag is 0x8001, else
/// 0x8002. The joined bytes are printed in hexadecimal where they spell a command, and else
/// `refused XXX at N`; more than 4,096 bytes are `refused 142 at 2`. A part that is not hexadecimal
/// is found first and prints `not hexadecimal`.
///
/// The remark says what is refused, for standard error: `refused in the PART at N: TPM_RC_NAME`, or `the PART are not
/// hexadecimal`. PART is `handles`, `sessions` or `parameters`, or `header`, and N is how many bytes of it precede the
/// fault; the size of the sessions, which stands before them, counts as their begin.
///
/// Where a request for memory is refused the answer is `Memory`, and where the writer fails it is
/// `Write`. What was written before is then left open.
pub fn build<W: Write>(
    alloc: Global,
    out: &mut W,
    name: CommandCode,
    handles: &str,
    sessions: &str,
    parameters: &str,
) -> Result<Built, ToolFault>
    ensures ok { IfOk result (λ built. (o : Outcome)
        × Becomes (record {
          code = name;
          handles = handles.now;
          sessions = sessions.now;
          parameters = parameters.now;
        }) o
        × (built.status ≡ status_of o)
        × (string_bytes built.remark ≡ remark_of o)
        × Appends (W.contents out.old) (W.contents out.new) (text_of o)) }
    ensures err { FailsByMemoryOrWrite result }
{
    let BuiltText { built, text } = build_text(alloc, name, handles, sessions, parameters)?;
    write(out, &text)?;
    Ok(built)
}
