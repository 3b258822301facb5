//! From a response to its bytes.

ghost use Rattle.std.specs.Prelude.{◌≡◌, ◌≤◌, ◌<◌, ◌^◌, ◌+◌, ◌*◌, ◌++◌, ◌∷◌, length};
ghost use Rattle.std.specs.Int.{bytes_high_first};
ghost use Rattle.tpm_wire.specs.Spelling.{spelling, Fits};
ghost use Rattle.tpm_wire.specs.Path.{Spells};
ghost use Rattle.tpm_commands.specs.Limits.{most_params};
ghost use Rattle.tpm_types.specs.declared.command_code.CommandCode.{CommandCode as CodeOf};
ghost use Rattle.tpm_commands.specs.Replies.{code_for_reply, parameters_of_reply};
ghost use Rattle.tpm_commands.specs.declared.response.Response.TheVariants as responses;
ghost use Rattle.tpm_buffer.specs.Responses.{code_tag, reply_sessions, reply_tag, reply_behind, reply};
ghost use Rattle.tpm_buffer.specs.Responses.{response as response_layout, RespondsTo};

use crate::command_areas::{NO_SESSIONS, tag_for};
use crate::response_areas::RSP_COMMAND;
use arrayvec::ArrayVec;
use tpm_commands::{ErrorCode, ReplyBody, Response};
use tpm_types::AuthReply;
use tpm_wire::response_code::BAD_TAG;
use tpm_wire::{Buffer, Room, Wire, known_list, list_len, put_list};

// ---- parameters

/// Adds to an empty buffer the parameters of a reply alone, as they are hashed for its HMAC (Part 1, "rpHash").
pub fn put_reply_params(body: &ReplyBody, out: &mut Buffer)
    requires { length out.old.items ≡ 0 }
    ensures { out.new.items ≡ spelling (parameters_of_reply body.now) body.now }
{
    prove!(body.params_len() <= 4096);
    body.put_params(out);
}

// ---- sessions

#[tactic(auto, unfolding(crate::specs::Responses::reply_sessions, crate::specs::Responses::further_sessions))]
fn sessions_len(auths: &[AuthReply]) -> usize
    requires { (0 < length auths.now) × (length auths.now ≤ 3) }
    ensures value { result ≡ length (spelling reply_sessions auths.now) }
    ensures fits { result ≤ 101 * length auths.now }
{
    match auths.split_first() {
        Some((first, others)) => first.len() + list_len(others),
        None => unreachable!(),
    }
}

// Adds the spelling of the sessions, one behind the other.
#[tactic(auto, unfolding(crate::specs::Responses::reply_sessions, crate::specs::Responses::further_sessions))]
fn put_sessions<R: Room>(auths: &[AuthReply], out: &mut R)
    requires some { 0 < length auths.now }
    requires room { length (R.written out.old) + length (spelling reply_sessions auths.now) ≤ R.size }
    ensures { R.written out.new ≡ R.written out.old ++ spelling reply_sessions auths.now }
{
    if let Some((first, others)) = auths.split_first() {
        first.put(out);
        put_list(others, out);
    }
}

// Sessions fit into an area of just their bytes. Nothing runs.
fn known_behind(first: &AuthReply, others: &[AuthReply])
    requires { length others.now ≤ 2 }
    ensures { Fits (length (spelling reply_sessions (first.now ∷ others.now))) reply_sessions
        (first.now ∷ others.now) }
{
    first.has_spelling();
    known_list(others);
}

fn known_sessions(auths: &[AuthReply])
    requires { (0 < length auths.now) × (length auths.now ≤ 3) }
    ensures { Fits (length (spelling reply_sessions auths.now)) reply_sessions auths.now }
{
    if let Some((first, others)) = auths.split_first() {
        known_behind(first, others);
    }
}

// ---- the reply

// How many bytes follow the header of a reply with these sessions.
#[tactic(auto, unfolding(crate::specs::Responses::with_sessions, crate::specs::Responses::without_sessions, crate::specs::Responses::parameter_size))]
fn reply_len(body: &ReplyBody, auths: &[AuthReply]) -> usize
    requires { length auths.now ≤ 3 }
    ensures value { result
        ≡ length
        (spelling (reply (code_for_reply body.now) (reply_tag auths.now))
        (record { body = body.now; auths = auths.now })) }
    ensures fits { result ≤ 438 + 101 * length auths.now }
    ensures params { length (spelling (parameters_of_reply body.now) body.now) ≤ most_params }
{
    let sessions = if auths.is_empty() {
        0
    } else {
        4 + sessions_len(auths)
    };
    body.handles_len() + body.params_len() + sessions
}

#[tactic(auto, unfolding(crate::specs::Responses::with_sessions, crate::specs::Responses::without_sessions, crate::specs::Responses::parameter_size))]
fn put_parts<R: Room>(body: &ReplyBody, auths: &[AuthReply], out: &mut R)
    requires few { length auths.now ≤ 3 }
    requires room { length (R.written out.old)
        + length
        (spelling (reply (code_for_reply body.now) (reply_tag auths.now))
        (record { body = body.now; auths = auths.now }))
        ≤ R.size }
    ensures { R.written out.new
        ≡ R.written out.old
        ++ spelling (reply (code_for_reply body.now) (reply_tag auths.now))
        (record { body = body.now; auths = auths.now }) }
{
    body.put_handles(out);
    if auths.is_empty() {
        body.put_params(out);
    } else {
        (body.params_len() as u32).put(out);
        body.put_params(out);
        put_sessions(auths, out);
    }
}

// ---- the response

fn tag_of_code(error: ErrorCode) -> u16
    ensures { result ≡ code_tag error }
{
    if error.number() == BAD_TAG {
        RSP_COMMAND
    } else {
        NO_SESSIONS
    }
}

fn put_header<R: Room>(error: ErrorCode, out: &mut R)
    requires empty { length (R.written out.old) ≡ 0 }
    requires room { 10 ≤ R.size }
    ensures bytes { R.written out.new
        ≡ bytes_high_first 2 (code_tag error)
        ++ (bytes_high_first 4 10 ++ bytes_high_first 4 error) }
    ensures number { (0 < error) × (error < 2 ^ 32) }
{
    tag_of_code(error).put(out);
    10u32.put(out);
    error.number().put(out);
}

/// Adds to an empty room what `encode_response` answers for a response that is this code, in 10 bytes.
#[inline(never)]
pub fn put_code<R: Room>(error: ErrorCode, out: &mut R)
    requires empty { length (R.written out.old) ≡ 0 }
    requires room { 10 ≤ R.size }
    ensures spells { (code : CodeOf)
        → Spells (response_layout code) (responses.Code error) (R.written out.new) }
    ensures bytes { (code : CodeOf)
        → R.written out.new ≡ spelling (response_layout code) (responses.Code error) }
{
    put_header(error, out);
}

fn known_reply(body: &ReplyBody, auths: &[AuthReply])
    requires few { length auths.now ≤ 3 }
    requires params { length (spelling (parameters_of_reply body.now) body.now) ≤ most_params }
    ensures { Fits
        (length
        (spelling (reply_behind (reply_tag auths.now) (parameters_of_reply body.now))
        (record { body = body.now; auths = auths.now })))
        (reply_behind (reply_tag auths.now) (parameters_of_reply body.now))
        (record { body = body.now; auths = auths.now }) }
{
    prove!(body.params_len() <= 3500);
    if !auths.is_empty() {
        known_sessions(auths);
    }
}

/// Adds to an empty room what `encode_response` answers for a reply with these sessions, at most three. It has room for
/// the header, a handle, parameterSize, the longest parameters, and each of the sessions at its longest.
#[tactic(auto, unfolding(crate::specs::Responses::response, crate::specs::Responses::response_front, crate::specs::Responses::response_tag, crate::specs::Responses::response_code, crate::specs::Commands::command_size))]
#[inline(never)]
pub fn put_reply_in<R: Room>(body: &ReplyBody, auths: &[AuthReply], out: &mut R)
    requires few { length auths.now ≤ 3 }
    requires empty { length (R.written out.old) ≡ 0 }
    requires room { 448 + 101 * length auths.now ≤ R.size }
    ensures bytes { R.written out.new
        ≡ spelling (response_layout (code_for_reply body.now))
        (responses.Done body.now (record { items = auths.now })) }
    ensures short { length
        (spelling (reply (code_for_reply body.now) (reply_tag auths.now))
        (record { body = body.now; auths = auths.now }))
        ≤ 4000 }
    ensures params { length (spelling (parameters_of_reply body.now) body.now) ≤ most_params }
{
    tag_for(auths).put(out);
    (10 + reply_len(body, auths) as u32).put(out);
    0u32.put(out);
    put_parts(body, auths, out);
}

/// Adds to an empty buffer what `encode_response` answers for a reply with these sessions, at most three.
#[inline(never)]
pub fn put_reply(body: &ReplyBody, auths: &[AuthReply], out: &mut Buffer)
    requires few { length auths.now ≤ 3 }
    requires empty { length out.old.items ≡ 0 }
    ensures spells { Spells (response_layout (code_for_reply body.now))
        (responses.Done body.now (record { items = auths.now })) out.new.items }
    ensures bytes { out.new.items
        ≡ spelling (response_layout (code_for_reply body.now))
        (responses.Done body.now (record { items = auths.now })) }
{
    put_reply_in(body, auths, out);
    body.known_handles();
    known_reply(body, auths);
}

fn spell(response: &Response, out: &mut Buffer)
    requires { length out.old.items ≡ 0 }
    ensures spells { (code : CodeOf) → RespondsTo code response.now
        → Spells (response_layout code) response.now out.new.items }
    ensures bytes { (code : CodeOf) → RespondsTo code response.now
        → out.new.items ≡ spelling (response_layout code) response.now }
{
    match response {
        Response::Code(error) => put_code(*error, out),
        Response::Done { body, auths } => put_reply(body, auths.as_slice(), out),
    }
}

/// The bytes that spell the response: a code in 10 bytes, under tag 0x00C4 where it is TPM_RC_BAD_TAG and 0x8001 else;
/// a reply under tag 0x8001 where it has no sessions and 0x8002 else.
pub fn encode_response(response: &Response) -> Buffer
    ensures spells { (code : CodeOf) → RespondsTo code response.now
        → Spells (response_layout code) response.now result.items }
    ensures bytes { (code : CodeOf) → RespondsTo code response.now
        → result.items ≡ spelling (response_layout code) response.now }
{
    let mut out = ArrayVec::new();
    spell(response, &mut out);
    out
}
