//! Bytes as hexadecimal text.

ghost use Rattle.std.specs.Prelude.{◌≡◌, IfOk, option_map};
ghost use Rattle.tpm_output.specs.Text.{bytes_in};

use hex::FromHexError;
use std::alloc::{AllocError, Global};
use std::convert::AsSlice;

/// The bytes of hexadecimal digits, two to a byte and in either case, or `None` for any other text. AllocError where a
/// request for memory is refused.
pub fn decoded<T: AsSlice<u8> + Drop>(alloc: Global, text: T) -> Result<Option<Vec<u8>>, AllocError>
    ensures { IfOk result (λ bytes. option_map (λ v. v.items) bytes ≡ bytes_in (T.items text)) }
{
    match hex::decode(alloc, text) {
        Ok(bytes) => Ok(Some(bytes)),
        Err(FromHexError::OutOfMemory) => Err(AllocError),
        Err(_) => Ok(None),
    }
}
