//! A command cut where its checks begin: the header, the handles, the sessions, and the parameters as they came
//! (Part 1, "Command/Response Structure").

ghost use Rattle.std.specs.Prelude.{◌≡◌, ◌≤◌, ◌<◌, IfOk, IfErr, OnOk, Ok, Err, length, slice_get, ◌+◌, ◌++◌, true};
ghost use Rattle.tpm_wire.specs.Token.{at_start};
ghost use Rattle.tpm_wire.specs.Layout.{cut};
ghost use Rattle.tpm_wire.specs.Reading.{read, Gives};
ghost use Rattle.tpm_wire.specs.Buffers.{TakesNumbered, Takes};
ghost use Rattle.tpm_wire.specs.Path.{Decodes};
ghost use Rattle.tpm_buffer.specs.Commands.{header as header_layout, before_params, is_tag, tag, command_size};
ghost use Rattle.tpm_buffer.specs.CommandAreas.{head_and_rest, IsHandled, HasHandles, checked, IsAreas, HasAreas};
ghost use Rattle.tpm_buffer.specs.CommandAreas.{IsSpelledBy};
ghost use Rattle.tpm_buffer.specs.inner.CommandAreas.{areas_view, cut_of};
ghost use Rattle.tpm_wire.specs.Spelling.{spelling};
ghost use Rattle.tpm_types.specs.CommandCodes.{command_code};
ghost use Rattle.tpm_buffer.specs.Parts.{tag_for};

use crate::sessions::{AuthRef, read_authorization};
use arrayvec::ArrayVec;
use std::marker::Model;
use tpm_commands::{Header, take_handles};
use tpm_types::{Auth, CommandCode};
use tpm_wire::response_code::{BAD_TAG, COMMAND_CODE, COMMAND_SIZE};
use tpm_wire::{Cursor, Refusal, Wire};

/// The tag of a buffer without sessions, TPM_ST_NO_SESSIONS.
pub const NO_SESSIONS: u16 = 0x8001;

/// The tag of a buffer with sessions, TPM_ST_SESSIONS.
pub const SESSIONS: u16 = 0x8002;

/// The tag of a buffer with these sessions, or without where there are none.
pub fn tag_for<T>(sessions: &[T]) -> u16
    ensures { result ≡ tag_for sessions.now }
{
    if sessions.is_empty() {
        NO_SESSIONS
    } else {
        SESSIONS
    }
}

#[tactic(auto, unfolding(crate::specs::Commands::command_size))]
pub(crate) fn take_size(cursor: &mut Cursor<'_>) -> Result<u32, Refusal>
    ensures reads { Takes command_size cursor.old cursor.new result }
    ensures spelled { IfOk result
        (λ x. cursor.old.here.rest ≡ spelling command_size x ++ cursor.new.here.rest) }
    ensures size { IfOk result (λ x. x ≡ length cursor.old.here.rest + 2) }
    ensures four { IfOk result
        (λ x. length cursor.old.here.rest ≡ 4 + length cursor.new.here.rest) }
{
    let refusal = cursor.refusal(COMMAND_SIZE);
    let size = u32::take(cursor)?;
    if size < 10 || size > 4096 || size as usize - 6 != cursor.left() {
        return Err(refusal);
    }
    Ok(size)
}

#[tactic(auto, unfolding(crate::specs::Commands::header, crate::specs::Commands::tag, tpm_types::specs::CommandCodes::command_code))]
#[inline(always)]
fn take_header(cursor: &mut Cursor<'_>) -> Result<Header, Refusal>
    requires { cursor.old.number ≡ 0 }
    ensures reads { TakesNumbered (λ h. h) header_layout cursor.old cursor.new result }
    ensures spelled { IfOk result
        (λ x. cursor.old.here.rest ≡ spelling header_layout x ++ cursor.new.here.rest) }
    ensures tag { IfOk result (λ x. is_tag x.tag ≡ true) }
    ensures size { IfOk result (λ x. x.size ≡ length cursor.old.here.rest) }
{
    let bad_tag = cursor.refusal(BAD_TAG);
    let tag = u16::take(cursor)?;
    if tag != NO_SESSIONS && tag != SESSIONS {
        return Err(bad_tag);
    }
    let size = take_size(cursor)?;
    let unknown = cursor.refusal(COMMAND_CODE);
    let code = CommandCode::from_number(u32::take(cursor)?).ok_or(unknown)?;
    Ok(Header { tag, size, code })
}

// No buffer has so many bytes, so the tag is refused or else the size.
#[tactic(auto, unfolding(crate::specs::Commands::header, crate::specs::Commands::tag, crate::specs::Commands::command_size))]
pub(crate) fn long_fault(bytes: &[u8]) -> Refusal
    requires { 4096 < length bytes.now }
    ensures { read 0 header_layout (at_start bytes.now) ≡ Err result }
{
    let tag = u16::from_be_bytes([bytes[0], bytes[1]]);
    if tag != NO_SESSIONS && tag != SESSIONS {
        return Refusal {
            code: BAD_TAG,
            at: 0,
        };
    }
    Refusal {
        code: COMMAND_SIZE,
        at: 2,
    }
}

/// A command whose header was read.
#[derive(Drop)]
pub struct Headed<'a> {
    header: Header,
    cursor: Cursor<'a>,
}

impl<'a> Model for Headed<'a> {
    ghost use Rattle.std.specs.Prelude.{◌≤◌, ◌+◌, length};
    ghost use Rattle.tpm_buffer.specs.CommandAreas.{HeaderCut};

    ghost Value = { HeaderCut };

    ghost view = { λ h. record { header = h.header; here = h.cursor.here } };

    ghost invariant = { λ h. h.cursor.here.at + length h.cursor.here.rest ≤ 4096 };
}

/// A command whose header and handles were read.
#[derive(Drop)]
pub struct Handled<'a> {
    header: Header,
    handles: ArrayVec<u32, 2>,
    cursor: Cursor<'a>,
}

impl<'a> Model for Handled<'a> {
    ghost use Rattle.std.specs.Prelude.{◌≤◌, ◌+◌, length};
    ghost use Rattle.tpm_buffer.specs.CommandAreas.{HandlesCut};

    ghost Value = { HandlesCut };

    ghost view = { λ h. record {
      header = h.header;
      handles = h.handles.items;
      here = h.cursor.here;
    } };

    ghost invariant = { λ h. h.cursor.here.at + length h.cursor.here.rest ≤ 4096 };
}

/// A command whose header, handles and sessions were read, with its parameters as they came.
#[derive(Drop)]
pub struct Areas<'a> {
    header: Header,
    handles: ArrayVec<u32, 2>,
    auths: ArrayVec<AuthRef<'a>, 3>,
    params: &'a [u8],
    params_at: u32,
}

impl<'a> Model for Areas<'a> {
    ghost use Rattle.std.specs.Prelude.{◌≤◌, ◌+◌, length};
    ghost use Rattle.tpm_buffer.specs.CommandAreas.{Cut};

    ghost Value = { Cut };

    ghost view = { λ a. record {
      header = a.header;
      handles = a.handles.items;
      auths = a.auths.items;
      params = a.params.now;
      params_at = a.params_at;
    } };

    ghost invariant = { λ a. a.params_at + length a.params.now ≤ 4096 };
}

impl<'a> Headed<'a> {
    /// The command's code.
    pub fn code(&self) -> CommandCode
        ensures { result ≡ self.now.header.code }
    {
        self.header.code
    }

    /// The command's tag: 0x8001 without sessions, 0x8002 with them (Part 2, 6.9).
    pub fn tag(&self) -> u16
        ensures { result ≡ self.now.header.tag }
    {
        self.header.tag
    }

    /// Reads the handles, or answers their first fault: INSUFFICIENT or VALUE with the handle's number.
    pub fn handles(self) -> Result<Handled<'a>, Refusal>
        ensures decodes { HasHandles self.entry result }
        ensures reads { IsHandled self.entry result }
    {
        let header = self.header;
        let mut cursor = self.cursor;
        let handles = take_handles(&mut cursor, header.code)?;
        Ok(Handled {
            header,
            handles,
            cursor,
        })
    }
}

impl<'a> Handled<'a> {
    /// The numbers of the handles, 0 to 2.
    pub fn list(&self) -> &[u32]
        ensures { result.now ≡ self.now.handles }
    {
        self.handles.as_slice()
    }

    /// Reads the sessions, or answers the authorization area's first fault: INSUFFICIENT; AUTHSIZE; or INSUFFICIENT,
    /// VALUE, SIZE or RESERVED_BITS of a session, with its number. The parameters are not judged.
    pub fn areas(self) -> Result<Areas<'a>, Refusal>
        ensures decodes { HasAreas self.entry result }
        ensures reads { IsAreas self.entry result }
    {
        let mut areas = Areas::default();
        match self.areas_into(&mut areas) {
            Ok(()) => Ok(areas),
            Err(fault) => Err(fault),
        }
    }

    /// As `areas`, in the place of other areas. Which are there after a fault is not said.
    pub fn areas_into(self, areas: &mut Areas<'a>) -> Result<(), Refusal>
        ensures reads { OnOk result (IsAreas self.entry (Ok areas.new)) }
        ensures refuses { IfErr result (λ fault. IsAreas self.entry (Err fault)) }
    {
        let mut cursor = self.cursor;
        areas.header = self.header;
        areas.handles = self.handles;
        areas.auths.clear();
        read_authorization(&mut cursor, self.header.tag, &mut areas.auths)?;
        areas.params_at = cursor.at();
        areas.params = cursor.remaining();
        Ok(())
    }
}

/// Those of a TPM2_Startup that has no parameters.
impl Default for Areas<'_> {
    fn default() -> Self {
        Areas {
            header: Header {
                tag: NO_SESSIONS,
                size: 10,
                code: CommandCode::Startup,
            },
            handles: ArrayVec::new(),
            auths: ArrayVec::new(),
            params: &[],
            params_at: 10,
        }
    }
}

impl<'a> Areas<'a> {
    /// The command's code.
    pub fn code(&self) -> CommandCode
        ensures { result ≡ self.now.header.code }
    {
        self.header.code
    }

    /// commandSize: the number of bytes of the command.
    pub fn size(&self) -> u32
        ensures { result ≡ self.now.header.size }
    {
        self.header.size
    }

    /// The numbers of the handles, 0 to 2.
    pub fn handles(&self) -> &[u32]
        ensures { result.now ≡ self.now.handles }
    {
        self.handles.as_slice()
    }

    /// The sessions, 0 to 3, which lend their nonces and their HMACs from the input.
    pub fn auths(&self) -> &[AuthRef<'a>]
        ensures { result.now ≡ self.now.auths }
    {
        self.auths.as_slice()
    }

    /// How many sessions there are: 0 to 3.
    pub fn auth_count(&self) -> usize
        ensures value { result ≡ length self.now.auths }
        ensures few { result ≤ 3 }
    {
        self.auths.len()
    }

    /// The session of this index, counted from 0, where there is one. It lends its nonce and its HMAC from the input.
    pub fn auth(&self, index: usize) -> Option<AuthRef<'a>>
        ensures { result ≡ slice_get self.now.auths index }
    {
        Some(self.auths.as_slice().get(index)?.again())
    }

    /// The parameters as they came, a part of the input: they are not judged yet.
    pub fn params(&self) -> &'a [u8]
        ensures value { result.now ≡ self.now.params }
        ensures short { length result.now ≤ 4096 }
    {
        self.params
    }

    /// How many bytes of the input are before the parameters.
    pub fn params_at(&self) -> u32
        ensures value { result ≡ self.now.params_at }
        ensures fits { result ≤ 4096 }
    {
        self.params_at
    }
}

/// The header that the bytes begin with, or its fault: INSUFFICIENT, BAD_TAG, COMMAND_SIZE or COMMAND_CODE.
pub fn header(bytes: &[u8]) -> Result<Headed<'_>, Refusal>
    ensures decodes { Decodes (cut header_layout) (λ x. (x.header, x.here.rest)) bytes.now result }
    ensures reads { Gives head_and_rest (read 0 header_layout (at_start bytes.now)) result }
{
    if bytes.len() > 4096 {
        return Err(long_fault(bytes));
    }
    let mut cursor = Cursor::new(bytes);
    let header = take_header(&mut cursor)?;
    Ok(Headed { header, cursor })
}

/// Reads all that stands before the parameters of the command, which begin where the cursor is
/// then: the sessions in the place of others.
#[tactic(auto, unfolding(crate::specs::Commands::before_params))]
#[inline(always)]
pub(crate) fn read_before_params(
    cursor: &mut Cursor<'_>,
    auths: &mut ArrayVec<Auth, 3>,
) -> Result<(Header, ArrayVec<u32, 2>), Refusal>
    requires { cursor.old.number ≡ 0 }
    ensures reads { TakesNumbered
        (λ x. checked (cut_of x.0 x.1.items auths.new.items cursor.new.here)) before_params
        cursor.old cursor.new result }
    ensures spelled { IfOk result
        (λ x. IsSpelledBy cursor.old.here.rest
        (cut_of x.0 x.1.items auths.new.items cursor.new.here)) }
{
    let header = take_header(cursor)?;
    let handles = take_handles(cursor, header.code)?;
    auths.clear();
    read_authorization(cursor, header.tag, auths)?;
    Ok((header, handles))
}

// All that stands before the parameters of the command, and the parameters as they came. It is out of line: in line,
// what is answered would be copied once more on each way out of it.
#[tactic(auto, unfolding(crate::specs::Commands::before_params))]
#[inline(never)]
fn short_areas(bytes: &[u8]) -> Result<Areas<'_>, Refusal>
    requires { length bytes.now ≤ 4096 }
    ensures reads { Gives areas_view (read 0 before_params (at_start bytes.now)) result }
    ensures spelled { IfOk result (IsSpelledBy bytes.now) }
{
    let mut cursor = Cursor::new(bytes);
    let header = take_header(&mut cursor)?;
    let handles = take_handles(&mut cursor, header.code)?;
    let mut auths = ArrayVec::new();
    read_authorization(&mut cursor, header.tag, &mut auths)?;
    let params_at = cursor.at();
    Ok(Areas {
        header,
        handles,
        auths,
        params: cursor.remaining(),
        params_at,
    })
}

/// All that stands before the parameters of the command in the bytes, however many they are.
#[tactic(auto, unfolding(crate::specs::Commands::before_params))]
pub(crate) fn any_areas(bytes: &[u8]) -> Result<Areas<'_>, Refusal>
    ensures reads { Gives areas_view (read 0 before_params (at_start bytes.now)) result }
    ensures spelled { IfOk result (IsSpelledBy bytes.now) }
{
    if bytes.len() > 4096 {
        return Err(long_fault(bytes));
    }
    short_areas(bytes)
}
