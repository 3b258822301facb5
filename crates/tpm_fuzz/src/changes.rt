//! Changes of a buffer at random.

use crate::dice::Dice;
use tpm_wire::Buffer;

// Bytes that numbers of sizes, counts, tags, codes and handles are made of.
const TELLING: [u8; 16] = [
    0x00, 0x01, 0x02, 0x03, 0x04, 0x08, 0x09, 0x0A, 0x0B, 0x0C, 0x10, 0x30, 0x31, 0x40, 0x80, 0xFF,
];

// At most so many bytes are put behind at once.
const MOST_ADDED: usize = 40;

fn flip_bit(dice: &mut Dice, bytes: &mut [u8]) {
    let count = bytes.len();
    if count > 0 {
        bytes[dice.below(count)] ^= 1 << dice.below(8);
    }
}

fn set_byte(dice: &mut Dice, bytes: &mut [u8]) {
    let count = bytes.len();
    if count > 0 {
        let at = dice.below(count);
        bytes[at] = if dice.one_of(4) {
            dice.byte()
        } else {
            TELLING[dice.below(16)]
        };
    }
}

fn add_or_take_one(dice: &mut Dice, bytes: &mut [u8]) {
    let count = bytes.len();
    if count > 0 {
        let at = dice.below(count);
        bytes[at] = if dice.one_of(2) {
            bytes[at].wrapping_add(1)
        } else {
            bytes[at].wrapping_sub(1)
        };
    }
}

// Copies a part of the buffer over another.
fn repeat_part(dice: &mut Dice, bytes: &mut [u8]) {
    let count = bytes.len();
    if count > 0 {
        let from = dice.below(count);
        let to = dice.below(count);
        let most = count - from.max(to);
        for k in 0..most.min(4) {
            bytes[to + k] = bytes[from + k];
        }
    }
}

fn cut(dice: &mut Dice, buffer: &mut Buffer) {
    buffer.truncate(dice.below(buffer.len() + 1));
}

fn add(dice: &mut Dice, buffer: &mut Buffer) {
    let byte = dice.byte();
    for _ in 0..dice.below(MOST_ADDED) {
        let _ = buffer.try_push(byte);
    }
}

fn remove_byte(dice: &mut Dice, buffer: &mut Buffer) {
    let count = buffer.len();
    if count > 0 {
        buffer.remove(dice.below(count));
    }
}

// Sets the size in its header to the number of its bytes.
fn fit_size(buffer: &mut Buffer) {
    let size = buffer.len() as u32;
    let bytes = buffer.as_mut_slice();
    if bytes.len() >= 6 {
        bytes[2..6].copy_from_slice(&size.to_be_bytes());
    }
}

/// Changes it one to four times, and mostly sets its size to what it has then.
pub(crate) fn change(dice: &mut Dice, buffer: &mut Buffer) {
    for _ in 0..dice.below(4) + 1 {
        match dice.below(8) {
            0 => cut(dice, buffer),
            1 => add(dice, buffer),
            2 => remove_byte(dice, buffer),
            3 => flip_bit(dice, buffer.as_mut_slice()),
            4 => repeat_part(dice, buffer.as_mut_slice()),
            5 => add_or_take_one(dice, buffer.as_mut_slice()),
            _ => set_byte(dice, buffer.as_mut_slice()),
        }
    }
    if !dice.one_of(8) {
        fit_size(buffer);
    }
}
