//! Hexadecimal digits as the bytes that they spell.
//!
//! A processor foresees no digit of a digest, so that no branch goes by one here, as one does in `hex`: several digits
//! are decoded at once.

ghost use Rattle.std.specs.Prelude.{◌≡◌, ◌<◌, ◌≤◌, ◌*◌, length, true, unwrap_or, MatchBool, None, Some};
ghost use Rattle.std.specs.List.{list_all};
ghost use Rattle.hex.specs.Hex.{hex_digit_value, is_hex_digit};
ghost use Rattle.tpm_types.specs.Limits.{digest_bytes};
ghost use Rattle.tpm_output.specs.Text.{bytes_in};
ghost use Rattle.tpm_lists.specs.inner.Digits.{AreValues};

use tpm_types::DIGEST_BYTES;

// Whether all are hexadecimal digits.
#[inline(always)]
fn are_digits(text: &[u8]) -> bool
    ensures { result ≡ list_all is_hex_digit text.now }
{
    let mut are = true;
    for byte in text {
        are &= byte.is_ascii_hexdigit();
    }
    are
}

// The value of a hexadecimal digit.
#[inline(always)]
fn value(digit: u8) -> u8
    ensures value { result ≡ unwrap_or (hex_digit_value digit) 0 }
    ensures below { result < 16 }
{
    match digit {
        b'0'..=b'9' => digit - b'0',
        b'a'..=b'f' => digit - b'a' + 10,
        b'A'..=b'F' => digit - b'A' + 10,
        _ => 0,
    }
}

// The values of these digits, and zeros behind them.
#[inline(always)]
fn values_of(digits: &[u8]) -> [u8; 2 * DIGEST_BYTES]
    requires { length digits.now ≤ 2 * digest_bytes }
    ensures { AreValues digits.now result (length digits.now) }
{
    let mut values = [0; 2 * DIGEST_BYTES];
    for at in 0..digits.len() {
        values[at] = value(digits[at]);
    }
    values
}

// Writes the bytes that these digits spell. All values are found first: a processor finds many of them at once where
// they stand side by side.
#[inline(always)]
fn write_spelled(digits: &[u8], bytes: &mut [u8])
    requires most { length digits.now ≤ 2 * digest_bytes }
    requires long { length digits.now ≡ 2 * length bytes.old }
    requires digits { list_all is_hex_digit digits.now ≡ true }
    ensures { bytes_in digits.now ≡ Some bytes.new }
{
    let values = values_of(digits);
    for at in 0..digits.len() / 2 {
        bytes[at] = values[2 * at] * 16 + values[2 * at + 1];
    }
}

/// Writes the bytes that these digits spell, two to a byte, where all are hexadecimal digits, and answers whether they
/// are.
#[inline(always)]
pub(crate) fn decode(digits: &[u8], bytes: &mut [u8]) -> bool
    requires most { length digits.now ≤ 2 * digest_bytes }
    requires long { length digits.now ≡ 2 * length bytes.old }
    ensures { MatchBool result
        (bytes_in digits.now ≡ Some bytes.new)
        (bytes_in digits.now ≡ None) }
{
    if !are_digits(digits) {
        return false;
    }
    write_spelled(digits, bytes);
    true
}
