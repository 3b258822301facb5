//! Words of a line, and what they stand for.

use tpm_wire::{Buffer, Wire, take_whole};

/// The next word of a line, and the rest of it. After its last word a line is empty.
pub fn word<'a>(line: &mut &'a str) -> &'a str {
    let (word, rest) = line.split_once(' ').unwrap_or((*line, ""));
    *line = rest;
    word
}

/// The number of hexadecimal digits, or none where the text is no such thing.
pub fn number(text: &str) -> Option<u32> {
    u32::from_str_radix(text, 16).ok()
}

/// The bytes of hexadecimal words, one behind the other, or none where a word is no such thing or
/// has more than 512 digits. `-` is no byte.
pub fn bytes(text: &str) -> Option<Buffer> {
    let mut all = Buffer::new();
    for word in text.split_ascii_whitespace() {
        if word != "-" {
            let mut room = [0; 256];
            let bytes = room.get_mut(..word.len() / 2)?;
            hex::decode_to_slice(word, bytes).ok()?;
            all.try_extend_from_slice(bytes).ok()?;
        }
    }
    Some(all)
}

/// The bytes of hexadecimal words, one behind the other, and none where one of them is no such thing.
pub fn spelled(text: &str) -> Buffer {
    match bytes(text) {
        Some(bytes) => bytes,
        None => Buffer::new(),
    }
}

/// Whether these are the bytes of hexadecimal words. It is no where a word is no such thing.
pub fn is_spelled(found: &[u8], text: &str) -> bool {
    match bytes(text) {
        Some(expected) => expected.as_slice() == found,
        None => false,
    }
}

/// The bytes of the next word of a line.
pub fn next_bytes(line: &mut &str) -> Buffer {
    spelled(word(line))
}

/// The number of the next word of a line, in hexadecimal, or the greatest where the word is no such thing.
pub fn next_number(line: &mut &str) -> u32 {
    number(word(line)).unwrap_or(u32::MAX)
}

/// The value that the bytes of the next word of a line spell, if they spell one.
pub fn next_value<T: Wire + Drop>(line: &mut &str) -> Option<T> {
    take_whole(next_bytes(line).as_slice()).ok()
}
