//! Values that are made, and what they answer.

use crate::tests::types_checks::is_spelled;
use std::test::*;
use tpm_testing::spelled;
use tpm_types::{
    Alg, AuthSession, Digest, DigestValues, HashedDigest, NvPublic, PcrIndex, Selection,
    Selections, SessionAttrs, StartupType, name_of_handle, same_limits, same_lists,
};
use tpm_wire::{Buffer, Cursor, Wire, take_whole};

// The first value of these bytes, all of them.
fn taken<T: Wire + Drop>(text: &str) -> Option<T> {
    take_whole(spelled(text).as_slice()).ok()
}

#[test]
fn laws_and_what_stands_where_nothing_is_said(rt: HostRuntime) {
    same_limits();
    same_lists();
    assert!(rt; Alg::ALL == [Alg::Sha1, Alg::Sha256, Alg::Sha384] && Alg::default() == Alg::Sha256);
    assert!(rt; StartupType::from_number(1) == Some(StartupType::State));
    assert!(rt; PcrIndex::default().number() == 0 && SessionAttrs::default().number() == 0);
    assert!(rt; AuthSession::default().number() == 0x4000_0009);
    // a zero more is another digest
    assert!(rt; Digest::new(&[1, 2]) != Digest::new(&[1, 2, 0]));
    assert!(rt; name_of_handle(0x4000_0001).as_slice() == [0x40, 0x00, 0x00, 0x01].as_slice());
}

// The registers that are selected: a bit for each, the lowest for register 0.
fn selected(selection: &Selection) -> u32 {
    let mut bits = 0;
    for i in 0..24 {
        if let Some(register) = PcrIndex::from_number(i) {
            if selection.is_selected(register) {
                bits |= 1 << i;
            }
        }
    }
    bits
}

#[test]
fn registers_of_a_bank(rt: HostRuntime) {
    let selection = taken::<Selection>("000c 03 810040").unwrap_or_default();
    assert!(rt; (selection.hash, selected(&selection)) == (Alg::Sha384, 0x0040_0081));
    assert!(rt; Selections::new(&[selection; 4]).is_none());
    let three = Selections::new(&[selection; 3]).unwrap_or_default();
    assert!(rt; three.as_slice() == [selection; 3].as_slice());
}

#[test]
fn the_public_area_of_an_index(rt: HostRuntime) {
    // size; nvIndex, nameAlg, attributes, authPolicy, dataSize
    let public = taken::<NvPublic>("000e 01800001 000c 02060016 0000 0008").expect(&rt, "an area");
    assert!(rt; (public.index.number(), public.attrs.number()) == (0x0180_0001, 0x0206_0016));
    assert!(rt; public.alg == Alg::Sha384 && public.policy.as_slice().is_empty());
    assert!(rt; (public.data_size, public.area_len()) == (8, 14));
    let mut area = Buffer::new();
    public.put_area(&mut area);
    assert!(rt; area.as_slice() == spelled("01800001 000c 02060016 0000 0008").as_slice());
    let largest = taken::<NvPublic>(
        "003e 01000000 000c 00000000 0030 777777777777777777777777777777777777777777777777777777777777777777777777777777777777777777777777 ffff",
    );
    assert!(rt; largest.expect(&rt, "the largest").area_len() == 62);
}

fn hashed(hash: Alg) -> HashedDigest {
    HashedDigest::new(hash, &[0x11; 48][..hash.digest_len()]).unwrap_or_default()
}

#[test]
fn three_digests_and_no_fourth(rt: HostRuntime) {
    let sha384 = hashed(Alg::Sha384);
    assert!(rt; sha384.hash() == Alg::Sha384 && sha384.digest() == [0x11; 48].as_slice());
    // the same hash twice is two digests
    let four = [
        hashed(Alg::Sha1),
        hashed(Alg::Sha1),
        sha384,
        hashed(Alg::Sha1),
    ];
    assert!(rt; DigestValues::new(&four).is_none());
    let three = DigestValues::new(&four[..3]).unwrap_or_default();
    assert!(rt; three.as_slice().len() == 3);
}

// Whether these bytes are read in the place of what was there.
fn is_read(values: &mut DigestValues, text: &str) -> bool {
    let bytes = spelled(text);
    values.read(&mut Cursor::of_whole(bytes.as_slice())).is_ok()
        && is_spelled(values, bytes.as_slice())
}

#[test]
fn digests_that_are_read_in_place_of_others(rt: HostRuntime) {
    let mut values = taken::<DigestValues>(
        "00000002 000b 1111111111111111111111111111111111111111111111111111111111111111 000c 222222222222222222222222222222222222222222222222222222222222222222222222222222222222222222222222",
    ).unwrap_or_default();
    assert!(rt; values.as_slice().len() == 2);
    assert!(rt;
        is_read(
            &mut values,
            "00000001 0004 3333333333333333333333333333333333333333"
        )
    );
    match values.as_slice() {
        [one] => assert!(rt; one.hash() == Alg::Sha1 && one.digest() == [0x33; 20].as_slice()),
        _ => panic!(rt; "no list of one digest"),
    }
    assert!(rt;
        values
            .read(&mut Cursor::new(&[0x00, 0x00, 0x00, 0x01]))
            .is_err()
    );
    assert!(rt; is_read(&mut values, "00000000"));
}
