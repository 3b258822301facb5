//! A response cut at its parameters, which are not judged: its header (Part 1, "Response header"), its handle and its
//! sessions.

ghost use Rattle.std.specs.Prelude.{◌≡◌, ℕ, ◌≤◌, ◌<◌, ◌↔◌, ◌+◌, ◌*◌, List, [], Ok, Err, IfOk, length, slice_get, ◌++◌};
ghost use Rattle.std.specs.Prelude.{true};
ghost use Rattle.tpm_wire.specs.declared.refusal.Refusal.{Refusal as RefusalOf};
ghost use Rattle.tpm_wire.specs.Token.{at_start};
ghost use Rattle.tpm_wire.specs.Reading.{read_all, read};
ghost use Rattle.tpm_wire.specs.Buffers.{TakesNumbered, Takes};
ghost use Rattle.tpm_wire.specs.Path.{Spells, Fault};
ghost use Rattle.tpm_buffer.specs.Responses.{ReplyCut, raw_with_sessions, raw_without_sessions, cut_behind_code};
ghost use Rattle.tpm_buffer.specs.Responses.{reply_cut, is_response_tag, goes_with, response_front, response_tag};
ghost use Rattle.tpm_buffer.specs.Responses.{response_code};
ghost use Rattle.tpm_buffer.specs.ResponseAreas.{handle_of, place_of_params, HasItsParams};
ghost use Rattle.tpm_buffer.specs.inner.ResponseAreas.{IsPlaceIn, LiesIn, cut_by};
ghost use Rattle.tpm_commands.specs.Replies.{handle_list};
ghost use Rattle.tpm_wire.specs.Spelling.{spelling};

use crate::command_areas::{NO_SESSIONS, SESSIONS, take_size};
use crate::sessions::{ReplyRef, take_parameter_size, take_sessions};
use arrayvec::ArrayVec;
use std::marker::Model;
use tpm_commands::take_reply_handle;
use tpm_types::{CommandCode, SessionHandle};
use tpm_wire::response_code::{BAD_TAG, COMMAND_SIZE, SIZE, VALUE};
use tpm_wire::{Cursor, Refusal, Wire};

/// The tag of a response to a command with a wrong tag, TPM_ST_RSP_COMMAND.
pub const RSP_COMMAND: u16 = 0x00C4;

#[tactic(auto, unfolding(crate::specs::Responses::response_tag))]
fn take_tag(cursor: &mut Cursor<'_>) -> Result<u16, Refusal>
    ensures reads { Takes response_tag cursor.old cursor.new result }
    ensures spelled { IfOk result
        (λ t. cursor.old.here.rest ≡ spelling response_tag t ++ cursor.new.here.rest) }
    ensures tag { IfOk result (λ t. is_response_tag t ≡ true) }
    ensures length { IfOk result
        (λ t. length cursor.old.here.rest ≡ 2 + length cursor.new.here.rest) }
{
    let refusal = cursor.refusal(BAD_TAG);
    let tag = u16::take(cursor)?;
    if tag != NO_SESSIONS && tag != SESSIONS && tag != RSP_COMMAND {
        return Err(refusal);
    }
    Ok(tag)
}

/// The tag and the size of a response.
#[tactic(auto, unfolding(crate::specs::Responses::response_front))]
pub(crate) fn take_front(cursor: &mut Cursor<'_>) -> Result<(u16, u32), Refusal>
    requires { cursor.old.number ≡ 0 }
    ensures reads { TakesNumbered (λ f. f) response_front cursor.old cursor.new result }
    ensures number { IfOk result (λ f. cursor.new.number ≡ 0) }
    ensures spelled { IfOk result
        (λ f. cursor.old.here.rest ≡ spelling response_front f ++ cursor.new.here.rest) }
    ensures tag { IfOk result (λ f. is_response_tag f.0 ≡ true) }
    ensures size { IfOk result (λ f. f.1 ≡ length cursor.old.here.rest) }
    ensures length { IfOk result
        (λ f. length cursor.old.here.rest ≡ 6 + length cursor.new.here.rest) }
{
    let tag = take_tag(cursor)?;
    let size = take_size(cursor)?;
    Ok((tag, size))
}

/// The code of a response with this tag.
#[tactic(auto, unfolding(crate::specs::Responses::response_code))]
pub(crate) fn take_code(cursor: &mut Cursor<'_>, tag: u16) -> Result<u32, Refusal>
    ensures reads { Takes (response_code tag) cursor.old cursor.new result }
    ensures spelled { IfOk result
        (λ n. cursor.old.here.rest ≡ spelling (response_code tag) n ++ cursor.new.here.rest) }
    ensures goes_with { IfOk result (λ n. goes_with tag n ≡ true) }
    ensures length { IfOk result
        (λ n. length cursor.old.here.rest ≡ 4 + length cursor.new.here.rest) }
{
    let refusal = cursor.refusal(VALUE);
    let code = u32::take(cursor)?;
    let goes_with = match tag {
        SESSIONS => code == 0,
        RSP_COMMAND => code == BAD_TAG,
        _ => code != BAD_TAG,
    };
    if !goes_with {
        return Err(refusal);
    }
    Ok(code)
}

// No buffer has so many bytes, so the tag is refused or else the size.
#[tactic(auto, unfolding(crate::specs::Responses::response_front, crate::specs::Responses::response_tag, crate::specs::Commands::command_size))]
pub(crate) fn long_fault(bytes: &[u8]) -> Refusal
    requires { 4096 < length bytes.now }
    ensures { read 0 response_front (at_start bytes.now) ≡ Err result }
{
    let tag = u16::from_be_bytes([bytes[0], bytes[1]]);
    if tag != NO_SESSIONS && tag != SESSIONS && tag != RSP_COMMAND {
        return Refusal {
            code: BAD_TAG,
            at: 0,
        };
    }
    Refusal {
        code: COMMAND_SIZE,
        at: 2,
    }
}

/// A response whose header, handle and sessions were read, with its parameters as they came. Where the code is not 0
/// there is nothing behind it.
#[derive(Drop)]
pub struct ReplyAreas<'a> {
    bytes: &'a [u8],
    front: Front,
    auths: ArrayVec<ReplyRef<'a>, 3>,
}

// What a response says beside its sessions, which are put where they stay: what is answered is copied.
#[derive(Drop)]
struct Front {
    code: u32,
    handle: Option<SessionHandle>,
    params_at: u32,
    params_size: usize,
}

impl<'a> Model for ReplyAreas<'a> {
    ghost use Rattle.std.specs.Prelude.{◌≡◌, ◌≤◌, ◌+◌, length, take, drop};
    ghost use Rattle.tpm_buffer.specs.Responses.{ReplyCut};
    ghost use Rattle.tpm_buffer.specs.ResponseAreas.{place_behind};
    ghost use Rattle.tpm_commands.specs.Replies.{handle_list};

    ghost Value = { ReplyCut };

    ghost view = { λ a. record {
      code = a.front.code;
      handles = handle_list a.front.handle;
      params = take a.front.params_size (drop a.front.params_at a.bytes.now);
      auths = a.auths.items;
    } };

    ghost invariant = { λ a. (length a.bytes.now ≤ 4096)
        × (a.front.params_at + a.front.params_size ≤ length a.bytes.now)
        × (a.front.params_at ≡ place_behind (handle_list a.front.handle) a.auths.items) };
}

impl<'a> ReplyAreas<'a> {
    /// The response code.
    pub fn code(&self) -> u32
        ensures { result ≡ self.now.code }
    {
        self.front.code
    }

    /// The number of the handle, where the response has one.
    pub fn handle(&self) -> Option<u32>
        ensures { result ≡ handle_of self.now }
    {
        match self.front.handle {
            Some(handle) => Some(handle.number()),
            None => None,
        }
    }

    /// How many sessions there are: 0 to 3.
    pub fn auth_count(&self) -> usize
        ensures { result ≡ length self.now.auths }
    {
        self.auths.len()
    }

    /// The session of this index, counted from 0, where there is one. It lends its nonce and its HMAC from the input.
    pub fn auth(&self, index: usize) -> Option<ReplyRef<'a>>
        ensures { result ≡ slice_get self.now.auths index }
    {
        Some(self.auths.as_slice().get(index)?.again())
    }

    /// The parameters as they came, a part of the input: they are not judged yet.
    pub fn params(&self) -> &'a [u8]
        ensures value { result.now ≡ self.now.params }
        ensures short { length result.now ≤ 4096 }
    {
        let begin = self.front.params_at as usize;
        &self.bytes[begin..begin + self.front.params_size]
    }

    /// How many bytes of the input are before the parameters.
    pub fn params_at(&self) -> u32
        ensures value { result ≡ place_of_params self.now }
        ensures fits { result ≤ 4096 }
    {
        self.front.params_at
    }
}

#[tactic(auto, unfolding(crate::specs::Responses::raw_with_sessions))]
fn take_with_sessions<'a>(
    cursor: &mut Cursor<'a>,
    code: u32,
    handle: Option<SessionHandle>,
    auths: &mut ArrayVec<ReplyRef<'a>, 3>,
) -> Result<Front, Refusal>
    ghost bytes: { List ℕ }
    requires stands { IsPlaceIn bytes cursor.old.here }
    requires place { cursor.old.here.at ≡ 10 + 4 * length (handle_list handle) }
    requires none { auths.old.items ≡ [] }
    ensures reads { TakesNumbered (λ f. cut_by bytes f auths.new.items)
        (raw_with_sessions code (handle_list handle)) cursor.old cursor.new result }
    ensures place { IfOk result (λ f. LiesIn bytes f auths.new.items) }
{
    cursor.number(0);
    let params_size = take_parameter_size(cursor)? as usize;
    let params_at = cursor.at();
    cursor.bytes(params_size)?;
    take_sessions(cursor, auths)?;
    Ok(Front {
        code,
        handle,
        params_at,
        params_size,
    })
}

#[tactic(auto, unfolding(crate::specs::Responses::raw_without_sessions))]
fn take_behind_code<'a>(
    cursor: &mut Cursor<'a>,
    tag: u16,
    number: u32,
    code: CommandCode,
    auths: &mut ArrayVec<ReplyRef<'a>, 3>,
) -> Result<Front, Refusal>
    ghost bytes: { List ℕ }
    requires stands { IsPlaceIn bytes cursor.old.here }
    requires place { cursor.old.here.at ≡ 10 }
    requires none { auths.old.items ≡ [] }
    ensures reads { TakesNumbered (λ f. cut_by bytes f auths.new.items)
        (cut_behind_code code tag number) cursor.old cursor.new result }
    ensures place { IfOk result (λ f. LiesIn bytes f auths.new.items) }
{
    if number != 0 {
        return Ok(Front {
            code: number,
            handle: None,
            params_at: cursor.at(),
            params_size: 0,
        });
    }
    let handle = take_reply_handle(cursor, code)?;
    if tag == SESSIONS {
        return take_with_sessions(cursor, number, handle, auths);
    }
    cursor.number(0);
    let params_at = cursor.at();
    let params_size = cursor.remaining().len();
    Ok(Front {
        code: number,
        handle,
        params_at,
        params_size,
    })
}

#[tactic(auto, unfolding(crate::specs::Responses::reply_cut))]
fn take_areas<'a>(
    cursor: &mut Cursor<'a>,
    code: CommandCode,
    auths: &mut ArrayVec<ReplyRef<'a>, 3>,
) -> Result<Front, Refusal>
    ghost bytes: { List ℕ }
    requires number { cursor.old.number ≡ 0 }
    requires place { cursor.old.here ≡ at_start bytes }
    requires none { auths.old.items ≡ [] }
    ensures reads { TakesNumbered (λ f. cut_by bytes f auths.new.items)
        (reply_cut code) cursor.old cursor.new result }
    ensures place { IfOk result (λ f. LiesIn bytes f auths.new.items) }
{
    let (tag, _size) = take_front(cursor)?;
    let number = take_code(cursor, tag)?;
    take_behind_code(cursor, tag, number, code, auths)
}

#[tactic(auto, unfolding(crate::specs::Responses::reply_cut))]
fn refusal_of_long(code: CommandCode, bytes: &[u8]) -> Refusal
    requires { 4096 < length bytes.now }
    ensures { read_all (reply_cut code) bytes.now ≡ Err result }
{
    long_fault(bytes)
}

// It is out of line, since its many ways out would each copy what is answered once more.
#[inline(never)]
fn read_areas(code: CommandCode, bytes: &[u8]) -> Result<ReplyAreas<'_>, Refusal>
    ensures reads { result ≡ read_all (reply_cut code) bytes.now }
    ensures place { IfOk result (HasItsParams bytes.now) }
{
    if bytes.len() > 4096 {
        return Err(refusal_of_long(code, bytes));
    }
    let mut cursor = Cursor::new(bytes);
    let mut auths = ArrayVec::new();
    let front = take_areas(&mut cursor, code, &mut auths)?;
    cursor.end()?;
    Ok(ReplyAreas {
        bytes,
        front,
        auths,
    })
}

/// The code, the handle and the sessions of the response to a command with this code, and the parameters as they
/// came, or the first fault beside the parameters: INSUFFICIENT; BAD_TAG; COMMAND_SIZE; VALUE of a code that doesn't go
/// with its tag; INSUFFICIENT or VALUE of handle 1; SIZE of a parameterSize above what is left, or of bytes left over;
/// INSUFFICIENT, SIZE or RESERVED_BITS of a session, with its number.
pub fn reply_areas(code: CommandCode, bytes: &[u8]) -> Result<ReplyAreas<'_>, Refusal>
    ensures ok { (c : ReplyCut) → (result ≡ Ok c) ↔ Spells (reply_cut code) c bytes.now }
    ensures err { (e : RefusalOf) → (result ≡ Err e) ↔ Fault (reply_cut code) bytes.now e }
    ensures place { IfOk result (HasItsParams bytes.now) }
{
    read_areas(code, bytes)
}
