//! The header of a frame, whatever a profile has of it.

ghost use Rattle.std.specs.Prelude.{◌≡◌, ◌++◌, IfOk, OnOk, flat_map, option_map, string_bytes};
ghost use Rattle.tpm_wire.specs.Buffers.{Takes};
ghost use Rattle.tpm_names.specs.Codes.{code_name, name_of_code};
ghost use Rattle.tpm_names.specs.Meanings.{meaning_as};
ghost use Rattle.tpm_show.specs.Headers.{answered, behind_space, command_head, command_told, frame_header, header_in};
ghost use Rattle.tpm_show.specs.Headers.{reply_head, size_and_tag, tag_named};
ghost use Rattle.tpm_show.specs.Pieces.{asked_told, word_told};

use crate::command_names::command_of;
use crate::explained::push_subject;
use crate::piece::{How, LINE_END, Piece, Value, in_line, says};
use crate::teller::{Teller, tell_pieces, tell_word};
use std::alloc::{AllocError, Global};
use tpm_names::codes::code_meaning;
use tpm_names::meaning::Meaning;
use tpm_output::named::{Row, look_up};
use tpm_output::names;
use tpm_output::text::Pushed;
use tpm_wire::{Cursor, Refusal, Wire};

/// The first ten bytes of a frame (Part 1, "Command/Response Structure").
#[derive(Clone, Copy)]
pub(crate) struct FrameHeader {
    pub(crate) tag: u16,
    /// How many bytes the frame says it has.
    pub(crate) size: u32,
    /// A command's code, or a response's.
    pub(crate) code: u32,
}

// TPM_ST (Part 2, 6.9)
const TAG_NAMES: [Row; 4] = names![
    0x00c4 "TPM_ST_RSP_COMMAND",
    0x8000 "TPM_ST_NULL",
    0x8001 "TPM_ST_NO_SESSIONS",
    0x8002 "TPM_ST_SESSIONS",
];

#[tactic(auto, unfolding(crate::specs::Headers::frame_header))]
fn take_header(cursor: &mut Cursor<'_>) -> Result<FrameHeader, Refusal>
    ensures { Takes frame_header cursor.old cursor.new result }
{
    let tag = u16::take(cursor)?;
    let size = u32::take(cursor)?;
    let code = u32::take(cursor)?;
    Ok(FrameHeader { tag, size, code })
}

/// The header of a frame of ten bytes at least.
#[tactic(auto, unfolding(crate::specs::Headers::header_in))]
pub(crate) fn header_in(bytes: &[u8]) -> Option<FrameHeader>
    ensures { result ≡ header_in bytes.now }
{
    if bytes.len() < 10 {
        return None;
    }
    match take_header(&mut Cursor::new(&bytes[..10])) {
        Ok(header) => Some(header),
        Err(_) => None,
    }
}

// ---- the name of a response code

#[tactic(auto, using(std::proofs::Common::append_assoc))]
fn push_meaning_name(text: &mut String, code: u32, meaning: &Meaning) -> Pushed
    ensures { OnOk result (string_bytes text.new
        ≡ string_bytes text.old ++ code_name code (meaning_as meaning.now)) }
{
    let name = meaning.name;
    write!(text, "TPM_RC_{name}")?;
    push_subject(text, code)
}

/// Adds the name of a response code behind it, where it has one.
#[tactic(auto, using(std::proofs::Common::append_assoc))]
pub(crate) fn push_code_name(text: &mut String, code: u32) -> Pushed
    ensures { OnOk result
        (string_bytes text.new ≡ string_bytes text.old ++ behind_space (name_of_code code)) }
{
    let Some(meaning) = code_meaning(code) else {
        return Ok(());
    };
    text.push_str(" ")?;
    push_meaning_name(text, code, &meaning)
}

fn meaning_name(alloc: Global, code: u32, meaning: &Meaning) -> Result<String, AllocError>
    ensures { IfOk result (λ name. string_bytes name ≡ code_name code (meaning_as meaning.now)) }
{
    let mut name = String::new(alloc);
    push_meaning_name(&mut name, code, meaning)?;
    Ok(name)
}

/// Tells the name of a response code under this name, where it has one.
pub(crate) fn tell_code_name<T: Teller>(teller: &mut T, how: How, member: &str, code: u32) -> Pushed
    ensures { OnOk result (T.told teller.new ≡ T.told teller.old
        ++ flat_map T.marks (word_told how member.now (name_of_code code))) }
{
    let Some(meaning) = code_meaning(code) else {
        return Ok(());
    };
    let name = meaning_name(teller.alloc(), code, &meaning)?;
    teller.tell(&Piece::Says(how, Some(member), Value::Word(name.as_str())))
}

/// Tells the same in a line alone, where names are asked for.
pub(crate) fn tell_code_in_line<T: Teller>(teller: &mut T, code: u32) -> Pushed
    ensures { OnOk result (T.told teller.new
        ≡ T.told teller.old ++ flat_map T.marks (asked_told (name_of_code code))) }
{
    let Some(meaning) = code_meaning(code) else {
        return Ok(());
    };
    let name = meaning_name(teller.alloc(), code, &meaning)?;
    teller.tell(&in_line!(Asked Word name.as_str()))
}

// ---- a header

#[tactic(auto, unfolding(crate::specs::Headers::tag_named))]
fn tag_name(tag: u16) -> Option<&'static str>
    ensures { option_map (λ name. name.now) result ≡ tag_named tag }
{
    look_up(&TAG_NAMES, tag as u32)
}

#[tactic(auto, using(crate::proofs::Pieces::pieces), unfolding(crate::specs::Headers::size_and_tag))]
fn tell_size_and_tag<T: Teller>(teller: &mut T, header: &FrameHeader) -> Pushed
    ensures { OnOk result (T.told teller.new
        ≡ T.told teller.old ++ flat_map T.marks (size_and_tag header.now)) }
{
    let FrameHeader { tag, size, .. } = *header;
    tell_pieces!(teller; says!(Under "size" Number u64::from(size)),
        says!(Under "tag" Bytes &tag.to_be_bytes()))?;
    tell_word(teller, How::Asked, "tag_name", tag_name(tag))
}

// Tells the name of a command of the library, or the number of any other.
fn tell_command<T: Teller>(teller: &mut T, code: u32) -> Pushed
    ensures { OnOk result
        (T.told teller.new ≡ T.told teller.old ++ T.marks (command_told code)) }
{
    match command_of(code) {
        Some(command) => teller.tell(&says!(Behind "command" Word command.name)),
        None => teller.tell(&says!(Behind "command" Bytes &code.to_be_bytes())),
    }
}

static COMMAND: Piece<'static> = in_line!(Alone Word "command");

/// Tells the header of a command.
pub(crate) fn tell_command_head<T: Teller>(teller: &mut T, header: &FrameHeader) -> Pushed
    ensures { OnOk result (T.told teller.new
        ≡ T.told teller.old ++ flat_map T.marks (command_head header.now)) }
{
    let code = header.code;
    teller.tell(&COMMAND)?;
    tell_command(teller, code)?;
    tell_size_and_tag(teller, header)?;
    tell_pieces!(teller; says!(Nowhere "command_code" Bytes &code.to_be_bytes()), LINE_END)
}

fn tell_answered<T: Teller>(teller: &mut T, command: Option<u32>) -> Pushed
    ensures { OnOk result
        (T.told teller.new ≡ T.told teller.old ++ flat_map T.marks (answered command)) }
{
    match command {
        Some(code) => tell_command(teller, code),
        None => Ok(()),
    }
}

static REPLY: Piece<'static> = in_line!(Alone Word "reply");

/// Tells the header of a reply to the command of this code.
pub(crate) fn tell_reply_head<T: Teller>(
    teller: &mut T,
    command: Option<u32>,
    header: &FrameHeader,
) -> Pushed
    ensures { OnOk result (T.told teller.new
        ≡ T.told teller.old ++ flat_map T.marks (reply_head command header.now)) }
{
    let code = header.code;
    teller.tell(&REPLY)?;
    tell_answered(teller, command)?;
    tell_size_and_tag(teller, header)?;
    teller.tell(&says!(Under "code" Code code))?;
    tell_code_name(teller, How::Behind, "code_name", code)?;
    teller.tell(&LINE_END)
}
