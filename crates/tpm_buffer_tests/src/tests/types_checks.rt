//! What is asked of a structure's bytes.

ghost use Rattle.std.specs.Prelude.{◌≤◌};

use tpm_testing::{bytes, spelled};
use tpm_wire::{
    Buffer, Cursor, Refusal, Wire, no_prefix, one_reading, one_reading_within, take_whole,
    taken_back,
};

// Whether these bytes are a value, all of them, whose spelling they are. The laws hold of its type.
fn goes_both_ways<T: Wire + Drop>(bytes: &[u8]) -> bool {
    match take_whole::<T>(bytes) {
        Ok(value) => {
            taken_back(&value);
            no_prefix(&value, &value);
            one_reading::<T>();
            one_reading_within::<T>();
            is_spelled(&value, bytes)
        }
        Err(_) => false,
    }
}

/// Whether the value is spelled so.
pub fn is_spelled<T: Wire>(value: &T, bytes: &[u8]) -> bool {
    let len = value.len();
    if len > 4096 {
        return false;
    }
    let mut out = Buffer::new();
    value.put(&mut out);
    out.as_slice() == bytes && len == bytes.len()
}

// Whether the first fault of the bytes is this code with this number added to it, at this place.
fn has_fault<T: Wire + Drop>(bytes: &[u8], number: u32, code: u16, at: u8) -> bool
    requires { number ≤ 0x900 }
{
    let mut cursor = Cursor::of_whole(bytes);
    cursor.number(number);
    let refusal = Refusal {
        code: code as u32 + number,
        at: at as u32,
    };
    T::take(&mut cursor).err() == Some(refusal)
}

// Whether the bytes are refused with this code at this place, and as parameter 2 and session 1 with its number added.
fn refuses<T: Wire + Drop>(bytes: &[u8], code: u16, at: u8) -> bool {
    has_fault::<T>(bytes, 0, code, at)
        && has_fault::<T>(bytes, 0x240, code, at)
        && has_fault::<T>(bytes, 0x900, code, at)
}

/// In `BYTES taken PLACES` the bytes are a value, and each beginning of them is too short, at the place that stands
/// for its length: one byte a place, or none where the beginnings are not tried. In `BYTES refused CODE PLACE` they
/// have a fault with this code of two bytes at this place of one byte.
pub fn row<T: Wire + Drop>(line: &str) -> bool {
    match (line.split_once(" refused "), line.split_once(" taken")) {
        (Some((text, refusal)), _) => match (bytes(text), spelled(refusal).as_slice()) {
            (Some(bytes), [high, low, at]) => {
                let code = u16::from_be_bytes([*high, *low]);
                refuses::<T>(bytes.as_slice(), code, *at)
            }
            _ => false,
        },
        (None, Some((text, places))) => match (bytes(text), bytes(places)) {
            (Some(bytes), Some(places)) => {
                goes_both_ways::<T>(bytes.as_slice())
                    && begins_are_short::<T>(bytes.as_slice(), places.as_slice())
            }
            _ => false,
        },
        _ => false,
    }
}

fn begins_are_short<T: Wire + Drop>(bytes: &[u8], places: &[u8]) -> bool {
    if places.len() != bytes.len() {
        return places.is_empty();
    }
    for n in 0..places.len() {
        if !refuses::<T>(&bytes[..n], 0x09A, places[n]) {
            return false;
        }
    }
    true
}
