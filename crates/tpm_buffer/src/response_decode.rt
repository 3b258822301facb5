//! From bytes to a response.

ghost use Rattle.std.specs.Prelude.{◌≡◌, ◌<◌, ◌↔◌, ◌≢◌, ◌++◌, true, Ok, Err, IfOk, OnOk, [], length};
ghost use Rattle.tpm_wire.specs.declared.refusal.Refusal.{Refusal as RefusalOf};
ghost use Rattle.tpm_wire.specs.Spelling.{spelling};
ghost use Rattle.tpm_wire.specs.Reading.{read_all, Gives};
ghost use Rattle.tpm_wire.specs.Buffers.{TakesNumbered};
ghost use Rattle.tpm_wire.specs.Path.{Spells, Fault};
ghost use Rattle.tpm_commands.specs.declared.response.Response.{Response as ResponseOf};
ghost use Rattle.tpm_commands.specs.Replies.{reply_parameters, handle_list, HasHandle, IsReplyTo};
ghost use Rattle.tpm_commands.specs.declared.response.Response.TheVariants as responses;
ghost use Rattle.tpm_commands.specs.declared.command.ReplyBody.TheVariants as replies;
ghost use Rattle.tpm_buffer.specs.Responses.{is_response_tag, goes_with, with_sessions, reply, tag_of_response};
ghost use Rattle.tpm_buffer.specs.Responses.{code_of_response, behind_code, response};
ghost use Rattle.tpm_buffer.specs.inner.Responses.{code_or_done};

use crate::command_areas::SESSIONS;
use crate::response_areas::{long_fault, take_code, take_front};
use crate::sessions::{read_sessions, take_parameter_size};
use arrayvec::ArrayVec;
use tpm_commands::{ErrorCode, ReplyBody, Response, read_reply_params, take_reply_handle};
use tpm_types::{AuthReply, CommandCode, Digests, Selections, SessionHandle};
use tpm_wire::response_code::SIZE;
use tpm_wire::{Cursor, Refusal};

#[tactic(auto, unfolding(crate::specs::Responses::with_sessions))]
fn read_with_sessions(
    cursor: &mut Cursor<'_>,
    code: CommandCode,
    handle: Option<SessionHandle>,
    body: &mut ReplyBody,
    auths: &mut ArrayVec<AuthReply, 3>,
) -> Result<(), Refusal>
    requires { HasHandle code handle }
    ensures reads { TakesNumbered (λ _. record { body = body.new; auths = auths.new.items })
        (with_sessions (reply_parameters code (handle_list handle))) cursor.old cursor.new result }
    ensures spelled { OnOk result
        (cursor.old.here.rest
        ≡ spelling (with_sessions (reply_parameters code (handle_list handle)))
        (record { body = body.new; auths = auths.new.items })
        ++ cursor.new.here.rest) }
    ensures own { OnOk result (IsReplyTo code handle body.new) }
    ensures some { OnOk result (0 < length auths.new.items) }
{
    cursor.number(0);
    let size = take_parameter_size(cursor)? as usize;
    let outer = cursor.enter(size)?;
    read_reply_params(cursor, code, handle, body)?;
    cursor.number(0);
    cursor.leave(outer)?;
    read_sessions(cursor, auths)
}

#[tactic(auto, unfolding(crate::specs::Responses::without_sessions))]
fn read_reply(
    cursor: &mut Cursor<'_>,
    tag: u16,
    code: CommandCode,
    body: &mut ReplyBody,
    auths: &mut ArrayVec<AuthReply, 3>,
) -> Result<(), Refusal>
    ensures reads { TakesNumbered (λ _. record { body = body.new; auths = auths.new.items })
        (reply code tag) cursor.old cursor.new result }
    ensures spelled { OnOk result
        (cursor.old.here.rest
        ≡ spelling (reply code tag) (record { body = body.new; auths = auths.new.items })
        ++ cursor.new.here.rest) }
    ensures some { OnOk result (tag ≡ 0x8002 → 0 < length auths.new.items) }
    ensures none { OnOk result (tag ≢ 0x8002 → length auths.new.items ≡ 0) }
{
    let handle = take_reply_handle(cursor, code)?;
    if tag == SESSIONS {
        return read_with_sessions(cursor, code, handle, body, auths);
    }
    auths.clear();
    read_reply_params(cursor, code, handle, body)
}

// A nonzero code is answered, and for a code of 0 the reply is read.
fn read_behind_code(
    cursor: &mut Cursor<'_>,
    tag: u16,
    number: u32,
    code: CommandCode,
    body: &mut ReplyBody,
    auths: &mut ArrayVec<AuthReply, 3>,
) -> Result<Option<ErrorCode>, Refusal>
    ensures reads { TakesNumbered
        (λ error. code_or_done error (record { body = body.new; auths = auths.new.items }))
        (behind_code code tag number) cursor.old cursor.new result }
    ensures spelled { IfOk result
        (λ error. cursor.old.here.rest
        ≡ spelling (behind_code code tag number)
        (code_or_done error (record { body = body.new; auths = auths.new.items }))
        ++ cursor.new.here.rest) }
    ensures number { IfOk result
        (λ error. code_of_response
        (code_or_done error (record { body = body.new; auths = auths.new.items }))
        ≡ number) }
    ensures tag { IfOk result
        (λ error. is_response_tag tag ≡ true → goes_with tag number ≡ true
        → tag_of_response
        (code_or_done error (record { body = body.new; auths = auths.new.items }))
        ≡ tag) }
{
    match ErrorCode::from_number(number) {
        Some(error) => Ok(Some(error)),
        None => {
            read_reply(cursor, tag, code, body, auths)?;
            Ok(None)
        }
    }
}

#[tactic(auto, unfolding(crate::specs::Responses::response))]
fn read_response(
    cursor: &mut Cursor<'_>,
    code: CommandCode,
    body: &mut ReplyBody,
    auths: &mut ArrayVec<AuthReply, 3>,
) -> Result<Option<ErrorCode>, Refusal>
    requires { cursor.old.number ≡ 0 }
    ensures reads { TakesNumbered
        (λ error. code_or_done error (record { body = body.new; auths = auths.new.items }))
        (response code) cursor.old cursor.new result }
    ensures spelled { IfOk result
        (λ error. length cursor.new.here.rest ≡ 0
        → cursor.old.here.rest
        ≡ spelling (response code)
        (code_or_done error (record { body = body.new; auths = auths.new.items }))) }
{
    let (tag, _size) = take_front(cursor)?;
    let number = take_code(cursor, tag)?;
    let error = read_behind_code(cursor, tag, number, code, body, auths)?;
    Ok(error)
}

#[tactic(auto, unfolding(crate::specs::Responses::response))]
fn refusal_of_long(code: CommandCode, bytes: &[u8]) -> Refusal
    requires { 4096 < length bytes.now }
    ensures { read_all (response code) bytes.now ≡ Err result }
{
    long_fault(bytes)
}

#[inline(never)]
fn read_bytes(
    code: CommandCode,
    bytes: &[u8],
    body: &mut ReplyBody,
    auths: &mut ArrayVec<AuthReply, 3>,
) -> Result<Option<ErrorCode>, Refusal>
    ensures reads { Gives
        (λ error. code_or_done error (record { body = body.new; auths = auths.new.items }))
        (read_all (response code) bytes.now) result }
    ensures spelled { IfOk result
        (λ error. bytes.now
        ≡ spelling (response code)
        (code_or_done error (record { body = body.new; auths = auths.new.items }))) }
{
    if bytes.len() > 4096 {
        return Err(refusal_of_long(code, bytes));
    }
    let mut cursor = Cursor::new(bytes);
    let error = read_response(&mut cursor, code, body, auths)?;
    cursor.end()?;
    Ok(error)
}

// The answer is filled in the caller's place, so that its many bytes are not moved from function to function.
#[inline(never)]
fn decode(code: CommandCode, bytes: &[u8], answer: &mut Result<Response, Refusal>)
    requires { answer.old ≡ Ok (responses.Done (replies.PcrRead 0 [] []) (record { items = [] })) }
    ensures reads { answer.new ≡ read_all (response code) bytes.now }
    ensures spelled { IfOk answer.new (λ r. bytes.now ≡ spelling (response code) r) }
{
    if let Ok(response) = answer {
        if let Response::Done { body, auths } = response {
            match read_bytes(code, bytes, body, auths) {
                Ok(None) => {}
                Ok(Some(error)) => *answer = Ok(Response::Code(error)),
                Err(refusal) => *answer = Err(refusal),
            }
        }
    }
}

// A response that another one is decoded in the place of: the reply that is the largest.
#[inline(always)]
fn any_response() -> Response
    ensures { result ≡ responses.Done (replies.PcrRead 0 [] []) (record { items = [] }) }
{
    Response::Done {
        body: ReplyBody::PcrRead {
            update_counter: 0,
            selections: Selections::default(),
            digests: Digests::default(),
        },
        auths: ArrayVec::new(),
    }
}

/// The response to a command with this code that the bytes spell, all of them, or the response code and the position
/// of their first fault: those of `reply_areas`, and in the parameters those of `read_reply_params`, or SIZE where
/// parameterSize has more bytes than they take.
pub fn decode_response(code: CommandCode, bytes: &[u8]) -> Result<Response, Refusal>
    ensures ok { (r : ResponseOf) → (result ≡ Ok r) ↔ Spells (response code) r bytes.now }
    ensures err { (e : RefusalOf) → (result ≡ Err e) ↔ Fault (response code) bytes.now e }
    ensures spelled { IfOk result (λ r. bytes.now ≡ spelling (response code) r) }
{
    let mut answer = Ok(any_response());
    decode(code, bytes, &mut answer);
    answer
}
