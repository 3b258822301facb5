//! What devices say of themselves by SPDM. The bytes are those of Python's struct.

use crate::tests::rows::{Asked, Row, event, rows};
use std::test::*;
use tpm_event_data::{DeviceEvidence, DeviceMeasurement, DeviceSecurity};

// FIRST is of version 1, of a device of PCI whose hash is 2: the block of the index 3, of DMTF, whose value of the
// type 1 has 8 bytes. OTHER_BLOCK is of version 1, of no device: the block of the index 4, of another specification,
// with 2 bytes. SECOND is of version 2, of PciRoot(0)/Pci(28,0): measurement blocks of SPDM 1.2, of which there is the
// one of FIRST. EMPTY is of version 2, of a device without SPDM, with a chain of certificates of no bytes.
const BYTES: &str = "
    FIRST 5350444d20446576696365205365630001003b00020000000100000003010b00010800a0a1a2a3a4a5a6a700001000868072150200000286800700
    OTHER_BLOCK 5350444d204465766963652053656300010022000000000000000000040202001122
    SECOND 5350444d20446576696365205365633202000000710000000100000000000000170000000807060504030201160000000000000002010c00d041030a0000000001010600001c7fff0400001201000100000003010b00010800a0a1a2a3a4a5a6a700001000868072150200000286800700
    EMPTY 5350444d2044657669636520536563320200ff003400000000000000010000000000000000000000000000000000000000000000
    BLOCK 03010b00010800a0a1a2a3a4a5a6a7
    PATH 02010c00d041030a0000000001010600001c7fff0400
    SUB_HEADER 001201000100000003010b00010800a0a1a2a3a4a5a6a7
    CONTEXT 00001000868072150200000286800700
";

struct Devices;

impl Asked for Devices {
    fn ask(row: &mut Row<'_>) {
        let kind = row.code();
        let bytes = row.rest();
        match event(2, kind, &[], bytes.as_slice()).device_security() {
            Some(Ok(DeviceSecurity::First(device))) => is_measured(row, &device),
            Some(Ok(DeviceSecurity::Second(device))) => is_evident(row, &device),
            Some(Err(fault)) => row.is_fault(fault.kind, fault.at),
            None => row.is("none"),
        }
    }
}

fn is_measured(row: &mut Row<'_>, device: &DeviceMeasurement<'_>) {
    row.is("first");
    row.is_code(device.hash as u64);
    row.is_code(device.device_type as u64);
    row.has(device.block);
    row.has(device.context);
}

fn is_evident(row: &mut Row<'_>, device: &DeviceEvidence<'_>) {
    row.is("second");
    row.is_code(device.auth_state as u64);
    row.is_code(device.device_type as u64);
    row.is_code(device.sub_header_type as u64);
    row.is_code(device.uid);
    row.has(device.path);
    row.has(device.sub_header);
    row.has(device.context);
}

#[test]
fn what_devices_say_and_their_first_fault_are_told(rt: HostRuntime) {
    rows::<Devices>(
        &rt,
        BYTES,
        "
        800000e1 FIRST <17 is Truncated 0
        800000e1 FIRST <31 is Truncated 0
        800000e1 SECOND <51 is Truncated 0
        800000e1 FIRST 0=54 is Signature 0
        800000e1 SECOND 15=33 is Signature 0
        800000e1 FIRST 15=32 is Version 16
        800000e1 FIRST 16=02 is Version 16
        800000e1 SECOND 15=00 is Version 16
        800000e1 SECOND 17=01 is Version 16
        800000e1 FIRST 18=3c is Length 18
        800000e1 FIRST <58 is Length 18
        800000e1 FIRST 30=1c is Length 30
        800000e1 FIRST 31=01 is Length 30
        800000e1 FIRST 30=02 is Length 30
        800000e1 OTHER_BLOCK 29=03 is Length 30
        800000e1 FIRST 33=07 is Length 33
        800000e1 FIRST 34=01 is Length 33
        800000e1 SECOND 20=70 is Length 20
        800000e1 SECOND 23=80 is Length 20
        800000e1 SECOND <112 is Length 20
        800000e1 SECOND 44=3e is Length 44
        800000e1 SECOND 51=80 is Length 44
        800000e1 SECOND 32=28 is Length 32
        800000e1 SECOND 44=27 is Length 32
        800000e1 FIRST is first 2 1 BLOCK CONTEXT
        800000e1 OTHER_BLOCK is first 0 0 040202001122 -
        800000e2 SECOND is second 0 1 0 102030405060708 PATH SUB_HEADER CONTEXT
        800000e2 EMPTY is second ff 0 1 0 - - -
        800000e3 FIRST is none
        ",
    );
}
