//! Images that were loaded, and device paths. The bytes are those of Python's struct.

use crate::tests::rows::{Asked, Row, event, rows};
use std::test::*;
use tpm_event_data::{
    DeviceNode, DevicePathFault, ImageLoad, ImageLoadFault, device_path, image_load,
};

// PATH is PciRoot(0x0)/Pci(0x1D,0x0)/\EFI\A.EFI, and the end of the path. NUMBERS are the address 0x7E5D3000, the
// length 0x123000, the link-time address 0x180000000, and how long a path is.
const BYTES: &str = "
    PATH 02010c00d041030a0000000001010600001d04041a005c004500460049005c0041002e0045004600490000007fff0400
    ACPI d041030a00000000
    FILE 5c004500460049005c0041002e004500460049000000
    NUMBERS 00305d7e00000000003012000000000000000080010000003000000000000000
";

struct Paths;

impl Asked for Paths {
    fn ask(row: &mut Row<'_>) {
        for node in device_path(row.rest().as_slice()) {
            is_node(row, node);
        }
    }
}

fn is_node(row: &mut Row<'_>, node: Result<DeviceNode<'_>, DevicePathFault>) {
    match node {
        Ok(node) => {
            row.is_code(node.kind as u64);
            row.is_code(node.subtype as u64);
            row.has(node.value);
        }
        Err(fault) => row.is_fault(fault.kind, fault.at),
    }
}

// The type and the data.
struct Images;

impl Asked for Images {
    fn ask(row: &mut Row<'_>) {
        let kind = row.code();
        let bytes = row.rest();
        match event(4, kind, &[], bytes.as_slice()).image_load() {
            Some(read) => is_image(row, read),
            None => row.is("none"),
        }
    }
}

fn is_image(row: &mut Row<'_>, read: Result<ImageLoad<'_>, ImageLoadFault>) {
    match read {
        Ok(image) => {
            row.is_code(image.address);
            row.is_code(image.size);
            row.is_code(image.link_address);
            row.has(image.path);
            row.has(image.rest);
        }
        Err(fault) => row.is_fault(fault.kind, fault.at),
    }
}

#[test]
fn images_and_each_node_are_lent_and_the_first_fault_told(rt: HostRuntime) {
    rows::<Paths>(
        &rt,
        BYTES,
        "
        PATH is 2 1 ACPI 1 1 001d 4 4 FILE 7f ff -
        # Nothing is told behind a fault.
        PATH <47 is 2 1 ACPI 1 1 001d 4 4 FILE Truncated 44
        PATH <44 is 2 1 ACPI 1 1 001d NoEnd 44
        PATH <43 is 2 1 ACPI 1 1 001d NodeLength 20
        PATH 2=03 is NodeLength 2
        PATH 2=31 is NodeLength 2
        PATH 21=01 is 2 1 ACPI 1 1 001d NodeLength 20
        PATH 46=05 is 2 1 ACPI 1 1 001d 4 4 FILE NodeLength 46
        PATH 45=01 is 2 1 ACPI 1 1 001d 4 4 FILE NoEnd 48
        PATH 00 is 2 1 ACPI 1 1 001d 4 4 FILE Behind 48
        ",
    );
    assert!(rt; device_path(&[]).next().is_none());
    rows::<Images>(
        &rt,
        BYTES,
        "
        80000003 NUMBERS PATH is 7e5d3000 123000 180000000 PATH -
        80000004 NUMBERS PATH is 7e5d3000 123000 180000000 PATH -
        80000005 NUMBERS PATH is 7e5d3000 123000 180000000 PATH -
        80000002 NUMBERS PATH is none
        80000003 NUMBERS PATH <31 is Truncated 0
        80000003 NUMBERS PATH <79 is PathLength 24
        ",
    );
    assert!(rt; image_load(&[]).is_err());
}
