//! What events tell of partitions, of the firmware, of its tables, of tags and of boot variables. The bytes are those
//! of Python's struct and uuid.

use crate::tests::rows::{Asked, Row, event, rows};
use std::test::*;
use tpm_event_data::{
    Event, EventDataFault, FirmwareBlob, HandoffTable, HandoffTables, LoadOption, Partition,
    PartitionTable, TaggedEvent, Variable, load_option,
};

// TABLE has an EFI system partition of the blocks 2048 to 1050623, and one of Linux whose name has 36 units;
// WIDE_TABLE the first of them in an entry of 256 bytes. BLOB is the address 0xFFC00000 and the length 0x40000,
// NAMED_BLOB "POST CODE" and a zero, and both. TABLES are SMBIOS_TABLE_GUID at 0x7F000000 and EFI_ACPI_20_TABLE_GUID
// at 0x100001000, NAMED_TABLES "SMBIOS" and a zero, and both. TAG is 0x8F3B22EC of "Linux initrd" and a zero,
// TAG_IN_UTF_16 1 of "quiet" and a zero. OPTION is active and has the description "ubuntu", the path \EFI\A.EFI, and
// two bytes of its own.
const BYTES: &str = "
    TABLE 4546492050415254000001005c00000044332211000000000100000000000000ff1f0000000000002200000000000000de1f000000000000111111112222333344445555555555550200000000000000800000008000000088776655020000000000000028732ac11ff8d211ba4b00a0c93ec93baaaaaaaabbbbccccddddeeeeeeeeeeee0008000000000000ff0710000000000001000000000000004500460049002000530079007300740065006d00000000000000000000000000000000000000000000000000 00000000000000000000000000000000000000000000000000000000af3dc60f838472478e793d69d8477de4999999998888777766665555555555550008100000000000404b4c00000000000000000000000000780078007800780078007800780078007800780078007800780078007800780078007800780078007800780078007800780078007800780078007800780078007800780078007800
    WIDE_TABLE 4546492050415254000001005c00000044332211000000000100000000000000ff1f0000000000002200000000000000de1f000000000000111111112222333344445555555555550200000000000000800000000001000088776655010000000000000028732ac11ff8d211ba4b00a0c93ec93baaaaaaaabbbbccccddddeeeeeeeeeeee0008000000000000ff0710000000000001000000000000004500460049002000530079007300740065006d00000000000000000000000000000000000000000000000000 000000000000000000000000000000000000000000000000000000000000000000000000000000000000000000000000000000000000000000000000000000000000000000000000000000000000000000000000000000000000000000000000000000000000000000000000000000000000000000000000000000000000000000000000000000000000000000000000000000000000000000000000
    DISK 11111111222233334444555555555555
    EFI 28732ac11ff8d211ba4b00a0c93ec93b
    EFI_GUID aaaaaaaabbbbccccddddeeeeeeeeeeee
    EFI_NAME 4500460049002000530079007300740065006d00
    LINUX af3dc60f838472478e793d69d8477de4
    LINUX_GUID 99999999888877776666555555555555
    XS 780078007800780078007800780078007800780078007800780078007800780078007800780078007800780078007800780078007800780078007800780078007800780078007800
    BLOB 0000c0ff000000000000040000000000
    NAMED_BLOB 0a504f535420434f4445000000c0ff000000000000040000000000
    POST_CODE 504f535420434f4445
    TABLES 0200000000000000312d9deb882dd3119a160090273fc14d0000007f0000000071e86888f1e4d311bc220080c73c88810010000001000000
    NAMED_TABLES 07534d42494f53000200000000000000312d9deb882dd3119a160090273fc14d0000007f0000000071e86888f1e4d311bc220080c73c88810010000001000000
    SMBIOS 312d9deb882dd3119a160090273fc14d
    ACPI 71e86888f1e4d311bc220080c73c8881
    TAG ec223b8f0d0000004c696e757820696e6974726400
    INITRD 4c696e757820696e69747264
    INITRD_AND_ZERO 4c696e757820696e6974726400
    TAG_IN_UTF_16 010000000c000000710075006900650074000000
    QUIET 71007500690065007400
    QUIET_AND_ZERO 710075006900650074000000
    OPTION 010000001e007500620075006e0074007500000004041a005c004500460049005c0041002e0045004600490000007fff04000102
    UBUNTU 7500620075006e0074007500
    PATH 04041a005c004500460049005c0041002e0045004600490000007fff0400
    GLOBAL 61dfe48bca93d211aa0d00e098032b8c
    OTHER 00000000000000000000000000000000
    BOOT_ORDER 42006f006f0074004f007200640065007200
";

struct Events;

impl Asked for Events {
    fn ask(row: &mut Row<'_>) {
        let kind = row.code();
        let bytes = row.rest();
        if let Err(fault) = is_part(row, &event(5, kind, &[], bytes.as_slice())) {
            row.is_fault(fault.kind, fault.at);
        }
    }
}

// The one structure that the event has, or its fault.
fn is_part(row: &mut Row<'_>, event: &Event<'_>) -> Result<(), EventDataFault> {
    if let Some(read) = event.partition_table() {
        are_partitions(row, &read?);
    } else if let Some(read) = event.firmware_blob() {
        is_blob(row, &read?);
    } else if let Some(read) = event.handoff_tables() {
        are_tables(row, &read?);
    } else if let Some(read) = event.tagged_event() {
        is_tag(row, &read?);
    } else {
        row.is("none");
    }
    Ok(())
}

fn are_partitions(row: &mut Row<'_>, table: &PartitionTable<'_>) {
    row.has(table.disk);
    row.prints(table.size);
    row.prints(table.count());
    for which in 0..table.count() {
        is_partition(row, table.get(which));
    }
    is_partition(row, table.get(table.count()));
}

fn is_partition(row: &mut Row<'_>, partition: Option<Partition<'_>>) {
    let Some(partition) = partition else {
        return row.is("none");
    };
    row.has(partition.kind);
    row.has(partition.guid);
    row.prints(partition.first);
    row.prints(partition.last);
    row.is_code(partition.attributes);
    row.has(partition.name);
}

fn is_blob(row: &mut Row<'_>, blob: &FirmwareBlob<'_>) {
    row.is_code(blob.base);
    row.is_code(blob.size);
    row.has(blob.name);
}

fn are_tables(row: &mut Row<'_>, tables: &HandoffTables<'_>) {
    row.has(tables.name);
    row.prints(tables.count());
    for which in 0..tables.count() {
        is_table(row, tables.get(which));
    }
    is_table(row, tables.get(tables.count()));
}

fn is_table(row: &mut Row<'_>, table: Option<HandoffTable<'_>>) {
    let Some(table) = table else {
        return row.is("none");
    };
    row.has(table.guid);
    row.is_code(table.address);
}

fn is_tag(row: &mut Row<'_>, tag: &TaggedEvent<'_>) {
    row.is_code(tag.id as u64);
    row.has(tag.value);
    row.may_have(tag.text());
    row.may_have(tag.text_units());
}

// The variable's GUID, its name and its value.
struct Variables;

impl Asked for Variables {
    fn ask(row: &mut Row<'_>) {
        let guid = row.bytes();
        let name = row.bytes();
        let value = row.rest();
        let variable = Variable {
            guid: guid.as_slice(),
            name: name.as_slice(),
            value: value.as_slice(),
        };
        match variable.load_option() {
            Some(read) => is_option(row, read),
            None => row.may_have(variable.boot_order()),
        }
    }
}

fn is_option(row: &mut Row<'_>, read: Result<LoadOption<'_>, EventDataFault>) {
    match read {
        Ok(option) => {
            row.is_code(option.attributes as u64);
            row.has(option.description);
            row.has(option.path);
            row.has(option.value);
        }
        Err(fault) => row.is_fault(fault.kind, fault.at),
    }
}

struct Options;

impl Asked for Options {
    fn ask(row: &mut Row<'_>) {
        let bytes = row.rest();
        is_option(row, load_option(bytes.as_slice()));
    }
}

#[test]
fn what_events_and_boot_variables_have_and_their_first_fault_are_told(rt: HostRuntime) {
    rows::<Events>(
        &rt,
        BYTES,
        "
        80000006 TABLE <99 is Truncated 0
        80000006 TABLE 7=74 is Signature 0
        80000006 TABLE 84=7f is EntrySize 84
        80000006 TABLE 85=01 is Length 92
        80000006 TABLE 92=03 is Length 92
        80000006 TABLE 99=80 is Length 92
        80000006 TABLE <355 is Length 92
        80000008 BLOB <15 is Truncated 0
        80000008 NAMED_BLOB 0=00 <17 is Behind 16
        8000000a BLOB <0 is Truncated 0
        8000000a NAMED_BLOB 0=0b is Length 0
        8000000a NAMED_BLOB <26 is Length 0
        7 BLOB <15 is Length 0
        1 NAMED_BLOB 0=09 is Length 0
        80000009 TABLES <7 is Truncated 0
        80000009 TABLES <55 is Length 0
        80000009 TABLES 0=01 is Length 0
        8000000b TABLES <0 is Truncated 0
        8000000b NAMED_TABLES <15 is Length 0
        8000000b NAMED_TABLES 8=01 is Length 8
        6 TAG 0=00 <7 is Truncated 0
        6 TAG 0=00 <20 is Length 4
        6 TAG 7=01 is Length 4
        d - is none
        # Partitions, firmware and its tables, and tags
        80000006 TABLE is DISK 128 2 EFI EFI_GUID 2048 1050623 1 EFI_NAME LINUX LINUX_GUID 1050624 5000000 0 XS none
        80000006 WIDE_TABLE is DISK 256 1 EFI EFI_GUID 2048 1050623 1 EFI_NAME none
        d TABLE is none
        80000008 BLOB is ffc00000 40000 -
        1 BLOB is ffc00000 40000 -
        7 NAMED_BLOB is ffc00000 40000 POST_CODE
        8000000a NAMED_BLOB is ffc00000 40000 POST_CODE
        80000009 TABLES is - 2 SMBIOS 7f000000 ACPI 100001000 none
        8000000b NAMED_TABLES is 534d42494f53 2 SMBIOS 7f000000 ACPI 100001000 none
        6 TAG is 8f3b22ec INITRD_AND_ZERO INITRD none
        6 TAG_IN_UTF_16 is 1 QUIET_AND_ZERO none QUIET
        ",
    );
    rows::<Variables>(
        &rt,
        BYTES,
        "
        # Boot000A, and what is called nearly so
        GLOBAL 42006f006f0074003000300030004100 OPTION is 1 UBUNTU PATH 0102
        GLOBAL 42006f006f007400303030304100 OPTION is none
        GLOBAL 42006f006f0074003000300030006100 OPTION is none
        GLOBAL 42006f006f007400300030003000 OPTION is none
        GLOBAL 62006f006f0074003000300030004100 OPTION is none
        OTHER 42006f006f0074003000300030004100 OPTION is none
        # the option's faults
        GLOBAL 42006f006f0074003000300030004100 OPTION <5 is Truncated 0
        GLOBAL 42006f006f0074003000300030004100 OPTION <19 is NoEnd 6
        GLOBAL 42006f006f0074003000300030004100 OPTION <49 is Length 4
        # BootOrder
        GLOBAL BOOT_ORDER 01000000 is 01000000
        GLOBAL BOOT_ORDER 010000 is none
        GLOBAL BOOT_ORDER OPTION is OPTION
        OTHER BOOT_ORDER 01000000 is none
        ",
    );
    rows::<Options>(
        &rt,
        BYTES,
        "
        OPTION is 1 UBUNTU PATH 0102
        OPTION <5 is Truncated 0
        ",
    );
}
