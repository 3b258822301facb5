//! Tokens, areas and lists.

use std::test::*;
use tpm_wire::response_code::{INSUFFICIENT, SIZE, of_parameter, of_session};
use tpm_wire::{Counted, Cursor, Refusal, Wire, take_rest, take_whole};

const TOKENS: [u8; 19] = [
    0x01, 0x02, 0x03, 0x04, 0x05, 0x06, 0x07, 0x08, 0x09, 0x0A, 0x0B, 0x0C, 0x0D, 0x0E, 0x0F, 0x10,
    0x11, 0x12, 0x13,
];

#[test]
fn tokens_in_turn(rt: HostRuntime) {
    let mut cursor = Cursor::new(&TOKENS);
    let found = (
        u8::take(&mut cursor),
        u16::take(&mut cursor),
        u32::take(&mut cursor),
        u64::take(&mut cursor),
        cursor.array(),
        cursor.front(1),
        (cursor.at(), cursor.left()),
    );
    let expected = (
        Ok(0x01),
        Ok(0x0203),
        Ok(0x0405_0607),
        Ok(0x0809_0A0B_0C0D_0E0F),
        Some([0x10]),
        Some([0x11].as_slice()),
        (17, 2),
    );
    assert!(rt; found == expected);
}

// What is too short for a token stays where it is, and what remains is taken whole.
#[test]
fn tokens_that_end_too_early(rt: HostRuntime) {
    let mut cursor = Cursor::new(&TOKENS[..2]);
    cursor.number(of_parameter(2));
    let found = (
        cursor.array::<3>(),
        cursor.front(3),
        u32::take(&mut cursor),
        (cursor.at(), cursor.left()),
        cursor.remaining(),
        (cursor.at(), cursor.left()),
    );
    let refusal = Refusal {
        code: INSUFFICIENT + 0x240,
        at: 0,
    };
    let expected = (
        None,
        None,
        Err(refusal),
        (0, 2),
        [0x01, 0x02].as_slice(),
        (2, 0),
    );
    assert!(rt; found == expected);
}

#[test]
fn an_area_and_what_is_behind_it(rt: HostRuntime) {
    let mut cursor = Cursor::new(&TOKENS[..3]);
    let refusal = Refusal {
        code: INSUFFICIENT,
        at: 0,
    };
    assert!(rt; cursor.enter(4).err() == Some(refusal));
    let outer = cursor.enter(2).ok().expect(&rt, "two bytes");
    let found = (
        cursor.left(),
        u16::take(&mut cursor),
        u8::take(&mut cursor).is_err(),
        cursor.leave(outer),
        cursor.at(),
        u8::take(&mut cursor),
    );
    assert!(rt; found == (2, Ok(0x0102), true, Ok(()), 2, Ok(0x03)));
}

#[test]
fn a_byte_that_is_left_in_an_area(rt: HostRuntime) {
    let mut cursor = Cursor::new(&TOKENS[..3]);
    cursor.number(of_parameter(1));
    let outer = cursor.enter(2).ok().expect(&rt, "two bytes");
    let found = (cursor.bytes(1).is_ok(), cursor.leave(outer));
    let refusal = Refusal {
        code: SIZE + 0x140,
        at: 1,
    };
    assert!(rt; found == (true, Err(refusal)));
}

// Of the entries of two bytes to the end, at most so many, how many there are, their
// first, and how many bytes are behind them.
fn rest(bytes: &[u8], most: usize) -> Result<(usize, Option<u16>, usize), Refusal> {
    let mut cursor = Cursor::new(&bytes[..bytes.len().min(5)]);
    let entries = take_rest::<u16, 3>(&mut cursor, most.min(3), of_session(1))?;
    let first = entries.as_slice().first().copied();
    Ok((entries.len(), first, cursor.left()))
}

// No more are taken than there is room for, and the rest is left. In the last the third entry lacks a byte.
#[test]
fn entries_to_the_end(rt: HostRuntime) {
    let bytes = [0x00, 0x01, 0x00, 0x02, 0x00];
    let found = (rest(&bytes[..4], 3), rest(&bytes, 2), rest(&bytes, 3));
    let refusal = Refusal { code: 0xB9A, at: 4 };
    assert!(rt; found == (Ok((2, Some(1), 0)), Ok((2, Some(1), 1)), Err(refusal)));
}

#[test]
fn entries_are_added_and_removed(rt: HostRuntime) {
    let mut numbers = Counted::<u16, 0, 2>::default();
    numbers.push(7);
    let is_full = numbers.is_full();
    numbers.push(5);
    let full = (is_full, numbers.is_full(), numbers.as_slice());
    assert!(rt; full == (false, true, [7, 5].as_slice()));
    numbers.clear();
    assert!(rt; numbers.as_slice().is_empty());
}

// A number of four bytes: too few bytes, all of them, one too many, and more than are looked at.
#[test]
fn a_value_of_all_the_bytes(rt: HostRuntime) {
    let long = [0; 5000];
    let found = (
        take_whole::<u32>(&TOKENS[..3]),
        take_whole::<u32>(&TOKENS[..4]),
        take_whole::<u32>(&TOKENS[..5]),
        take_whole::<u32>(&long),
    );
    let too_few = Refusal {
        code: INSUFFICIENT,
        at: 0,
    };
    let left_over = Refusal { code: SIZE, at: 4 };
    assert!(rt;
        found
            == (
                Err(too_few),
                Ok(0x0102_0304),
                Err(left_over),
                Err(left_over)
            )
    );
}
