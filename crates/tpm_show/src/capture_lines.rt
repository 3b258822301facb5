//! The lines of a capture.

ghost use Rattle.std.specs.Prelude.{◌≡◌, IfOk};
ghost use Rattle.tpm_show.specs.Capture.{told_in, frame_of};
ghost use Rattle.tpm_show.specs.Digits.{without_prefix};
ghost use Rattle.tpm_show.specs.inner.Capturing.{read_as};
ghost use Rattle.tpm_output.specs.Text.{bytes_in};

use crate::digits::without_prefix;
use std::alloc::{AllocError, Global};
use tpm_output::hexadecimal::decoded;

/// How many bytes a line has at most beside its blanks: a mark, `0x`, and the digits of a buffer of 4,096 bytes.
pub(crate) const MOST_LINE: usize = 8195;

/// Which way a frame went.
#[derive(Clone, Copy, PartialEq, Eq)]
pub(crate) enum Direction {
    /// To the TPM.
    Command,
    /// From it.
    Reply,
}

/// What a line of a capture has.
#[derive(Drop)]
pub(crate) enum CaptureLine {
    /// No frame: it is empty, or a comment.
    Nothing,
    /// A frame, and its mark where it has one.
    Frame(Option<Direction>, Vec<u8>),
    /// It isn't hexadecimal.
    NotHexadecimal,
    /// It has too many bytes.
    TooLong,
}

fn read_frame(
    alloc: Global,
    mark: Option<Direction>,
    text: &[u8],
) -> Result<CaptureLine, AllocError>
    ensures { IfOk result (λ line. read_as line
        ≡ frame_of mark (bytes_in (without_prefix text.now))) }
{
    match decoded(alloc, without_prefix(text))? {
        Some(bytes) => Ok(CaptureLine::Frame(mark, bytes)),
        None => Ok(CaptureLine::NotHexadecimal),
    }
}

/// What a line without its blanks has.
pub(crate) fn read_line(alloc: Global, text: &[u8]) -> Result<CaptureLine, AllocError>
    ensures { IfOk result (λ line. read_as line ≡ told_in text.now) }
{
    let Some((first, rest)) = text.split_first() else {
        return Ok(CaptureLine::Nothing);
    };
    if *first == b'#' {
        return Ok(CaptureLine::Nothing);
    }
    if text.len() > MOST_LINE {
        return Ok(CaptureLine::TooLong);
    }
    match *first {
        b'>' => read_frame(alloc, Some(Direction::Command), rest),
        b'<' => read_frame(alloc, Some(Direction::Reply), rest),
        _ => read_frame(alloc, None, text),
    }
}
