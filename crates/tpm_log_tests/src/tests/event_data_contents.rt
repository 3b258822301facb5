//! What the data of events say. The bytes are those of Python's struct and uuid.

use crate::tests::rows::{Asked, Row, event, rows};
use std::test::*;
use tpm_event_data::{Content, TypedValue, data_kind, packed_paths};

// OPTION is "ubuntu" with the device paths PATHS, of which the first is \EFI\A.EFI and the second its end alone. DB
// and MOKLIST are an entry of db and one of MokListRT, with a certificate of two bytes.
const BYTES: &str = "
    FIRST_PATH 04041a005c004500460049005c0041002e0045004600490000007fff0400
    PATHS 04041a005c004500460049005c0041002e0045004600490000007fff04007fff0400
    OPTION_PATHS 04041a005c004500460049005c0041002e0045004600490000007fff04007f0104007fff0400
    IMAGE 00305d7e00000000003012000000000000000080010000001e0000000000000004041a005c004500460049005c0041002e0045004600490000007fff04000000000000000000
    SECURE_BOOT 61dfe48bca93d211aa0d00e098032b8c0a00000000000000010000000000000053006500630075007200650042006f006f00740001
    NO_SECURE_BOOT 61dfe48bca93d211aa0d00e098032b8c0a00000000000000000000000000000053006500630075007200650042006f006f007400
    ORDER 61dfe48bca93d211aa0d00e098032b8c0900000000000000040000000000000042006f006f0074004f00720064006500720001000000
    OPTION 61dfe48bca93d211aa0d00e098032b8c08000000000000003c0000000000000042006f006f00740030003000300041000100000026007500620075006e0074007500000004041a005c004500460049005c0041002e0045004600490000007fff04007f0104007fff04000102
    DB cbb219d73a3d9645a3bcdad00e67656f0200000000000000120000000000000064006200bd9afa775903324dbd6028f4e78f784b3082
    MOKLIST 50ab5d6046e00043abb63dd810dd8b23090000000000000012000000000000004d006f006b004c006900730074005200540050ab5d6046e00043abb63dd810dd8b233082
    SBAT 50ab5d6046e00043abb63dd810dd8b230900000000000000070000000000000053006200610074004c006500760065006c00736261742c310a
";

struct Data;

impl Asked for Data {
    fn ask(row: &mut Row<'_>) {
        let kind = row.code();
        let bytes = row.rest();
        says(row, event(7, kind, &[], bytes.as_slice()).content());
    }
}

fn says(row: &mut Row<'_>, content: Content<'_>) {
    match content {
        Content::Text(text) => has(row, "text", text.as_bytes()),
        Content::Units(units) => has(row, "units", units),
        Content::Version(units) => has(row, "version", units),
        Content::VersionGuid(guid) => has(row, "guid", guid),
        Content::Separator(number) => is_number(row, "separator", number as u64),
        Content::Locality(number) => is_number(row, "locality", number as u64),
        Content::Variable(_, typed) => says_variable(row, typed),
        Content::Image(image) => {
            has(row, "image", image.path);
            row.has(image.rest);
        }
        Content::Other => row.is("other"),
        _ => row.is("more"),
    }
}

fn says_variable(row: &mut Row<'_>, typed: TypedValue<'_>) {
    match typed {
        TypedValue::Byte(byte) => is_number(row, "byte", byte as u64),
        TypedValue::Empty => row.is("empty"),
        TypedValue::Bytes => row.is("bytes"),
        TypedValue::BootOrder(numbers) => has(row, "order", numbers),
        TypedValue::LoadOption(option) => has(row, "option", option.path),
        TypedValue::Signatures(lists) => has(row, "signatures", lists),
        TypedValue::Signature(one) => has(row, "signature", one.value),
    }
}

fn has(row: &mut Row<'_>, name: &str, bytes: &[u8]) {
    row.is(name);
    row.has(bytes);
}

fn is_number(row: &mut Row<'_>, name: &str, number: u64) {
    row.is(name);
    row.is_code(number);
}

struct Kinds;

impl Asked for Kinds {
    fn ask(row: &mut Row<'_>) {
        let kind = data_kind(row.code());
        row.prints(kind);
    }
}

struct Paths;

impl Asked for Paths {
    fn ask(row: &mut Row<'_>) {
        for path in packed_paths(row.rest().as_slice()) {
            row.has(path);
        }
    }
}

#[test]
fn what_data_say_is_told_by_the_kind_of_a_type(rt: HostRuntime) {
    rows::<Kinds>(
        &rt,
        BYTES,
        "
        # EV_EFI_PLATFORM_FIRMWARE_BLOB, EV_EFI_HANDOFF_TABLES, and another
        80000008 is Blob
        80000009 is Tables
        13 is Open
        ",
    );
    rows::<Data>(
        &rt,
        BYTES,
        "
        # Text of EV_ACTION and of EV_IPL, which may have line feeds, and UTF-8
        5 444d412050726f74656374696f6e2044697361626c6564 is text 444d412050726f74656374696f6e2044697361626c6564
        d 73657420610a0973657420620d0a00 is text 73657420610a0973657420620d0a
        d 66c3bc72 is text 66c3bc72
        d - is other
        d 00 is other
        d 611b is other
        d 617f is other
        d 66fc72 is other
        # and UTF-16 of EV_IPL
        d 72000a00 is units 72000a00
        d 72000a0000 is units 72000a00
        d 72000a000000 is units 72000a00
        d 72000a00000000 is units 72000a00
        d 720000006f is other
        5 72006f00 is other
        # EV_S_CRTM_VERSION: text, or a GUID
        8 31002e0032002e0033002e0034000000 is version 31002e0032002e0033002e003400
        8 61dfe48bca93d211aa0d00e098032b8c is guid 61dfe48bca93d211aa0d00e098032b8c
        # EV_SEPARATOR, and the start-up locality of EV_NO_ACTION
        4 ffffffff is separator ffffffff
        4 01000000 is separator 1
        4 5742434c00 is other
        3 537461727475704c6f63616c6974790003 is locality 3
        3 537461727475704c6f63616c69747900 is other
        # What variables hold
        80000001 SECURE_BOOT is byte 1
        80000001 NO_SECURE_BOOT is empty
        80000002 ORDER is order 01000000
        80000002 OPTION is option OPTION_PATHS
        80000001 DB is signatures bd9afa775903324dbd6028f4e78f784b3082
        800000e0 DB is signature 3082
        800000e0 MOKLIST is signature 3082
        800000e0 SBAT is bytes
        # Bytes behind the path of an image are lent.
        80000003 IMAGE is image FIRST_PATH 0000000000000000
        ",
    );
    rows::<Paths>(
        &rt,
        BYTES,
        "
        PATHS is FIRST_PATH 7fff0400
        PATHS <33 is FIRST_PATH 7fff04
        ",
    );
}
