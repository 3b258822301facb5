//! Bytes by their text.

ghost use Rattle.std.specs.Prelude.{◌≡◌, MatchResult, None, Some};
ghost use Rattle.tpm_args.specs.Owner.{bytes_in};
ghost use Rattle.tpm_args.specs.inner.Stop.{IsMemoryOr};

use crate::invalid::{Usage, invalid_value};
use crate::stop::Stop;
use hex::FromHexError;

/// The bytes of a word's text in hexadecimal: two digits to a byte, in either letter case, and nothing else. No digits
/// are no bytes, and any other text is a usage fault. Memory is asked for all bytes of the text.
pub(crate) fn bytes_in(usage: Usage, text: &str, word: &str) -> Result<Vec<u8>, Stop>
    ensures { MatchResult result (λ bytes. bytes_in text.now ≡ Some bytes.items)
        (IsMemoryOr (bytes_in text.now ≡ None)) }
{
    match hex::decode(usage.alloc, text) {
        Ok(bytes) => Ok(bytes),
        Err(FromHexError::OutOfMemory) => Err(Stop::Memory),
        Err(_) => {
            let reason = "it is not hexadecimal, two digits to a byte";
            Err(invalid_value(usage, text, word, reason)?)
        }
    }
}
