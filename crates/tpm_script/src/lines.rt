//! The lines of a script.

ghost use Rattle.std.specs.Prelude.{◌≡◌, IfOk};
ghost use Rattle.tpm_script.specs.Script.{is_skipped, line_of, nonce_of};
ghost use Rattle.tpm_script.specs.inner.Progress.{read_as};

use std::alloc::{AllocError, Global};
use tpm_output::hexadecimal::decoded;

/// How many digits a line has at most: those of a buffer of 4,096 bytes.
pub(crate) const MOST_DIGITS: usize = 8192;

/// What a line of a script asks for.
#[derive(Drop)]
pub(crate) enum ScriptLine {
    /// Nothing: the empty line, or a comment.
    Blank,
    /// A power cycle.
    Power,
    /// The answer to this buffer.
    Command(Vec<u8>),
    /// It isn't hexadecimal, or has too many digits.
    NotHexadecimal,
}

fn is_skipped(text: &[u8]) -> bool
    ensures { result ≡ is_skipped text.now }
{
    match text {
        [first, ..] => *first == b'#',
        [] => true,
    }
}

/// What this line asks for.
pub(crate) fn read_line(alloc: Global, text: &[u8]) -> Result<ScriptLine, AllocError>
    ensures { IfOk result (λ line. read_as line ≡ line_of text.now) }
{
    if text.len() > MOST_DIGITS {
        return Ok(ScriptLine::NotHexadecimal);
    }
    if is_skipped(text) {
        return Ok(ScriptLine::Blank);
    }
    if text == b"power".as_slice() {
        return Ok(ScriptLine::Power);
    }
    match decoded(alloc, text)? {
        Some(bytes) => Ok(ScriptLine::Command(bytes)),
        None => Ok(ScriptLine::NotHexadecimal),
    }
}

/// The nonce of the k-th command, from 1: k as a number of sixteen bytes, four times.
pub(crate) fn nonce(k: u64) -> [u8; 64]
    ensures { result ≡ nonce_of k }
{
    let number = u128::from(k).to_be_bytes();
    let mut nonce = [0; 64];
    nonce[..16].copy_from_slice(&number);
    nonce[16..32].copy_from_slice(&number);
    nonce[32..48].copy_from_slice(&number);
    nonce[48..].copy_from_slice(&number);
    nonce
}
