//! Buffers in hexadecimal as people write them.

ghost use Rattle.std.specs.Prelude.{◌≡◌, IfOk, option_map};
ghost use Rattle.tpm_show.specs.Digits.{buffer_in, is_blank, without_blanks, without_prefix};

use std::alloc::{AllocError, Global};
use tpm_output::hexadecimal::decoded;

/// Whether a byte counts for nothing: a space, a tab or a carriage return.
pub(crate) fn is_blank(byte: u8) -> bool
    ensures { result ≡ is_blank byte }
{
    byte == b' ' || byte == b'\t' || byte == b'\r'
}

/// The digits behind `0x`, or all where it isn't there.
pub(crate) fn without_prefix(text: &[u8]) -> &[u8]
    ensures { result.now ≡ without_prefix text.now }
{
    match text {
        [b'0', b'x', digits @ ..] => digits,
        _ => text,
    }
}

fn without_blanks(alloc: Global, text: &[u8]) -> Result<Vec<u8>, AllocError>
    ensures { IfOk result (λ digits. digits.items ≡ without_blanks text.now) }
{
    text.iter()
        .copied()
        .filter(|byte| !is_blank(*byte))
        .collect(alloc)
}

/// The bytes of a buffer by its text, or none for any other text.
pub(crate) fn read_buffer(alloc: Global, text: &[u8]) -> Result<Option<Vec<u8>>, AllocError>
    ensures { IfOk result (λ bytes. option_map (λ v. v.items) bytes ≡ buffer_in text.now) }
{
    let digits = without_blanks(alloc, text)?;
    decoded(alloc, without_prefix(digits.as_slice()))
}
