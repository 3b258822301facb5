//! What the data of a record say, by their kind (PC Client Platform Firmware Profile, "Event Types").

ghost use Rattle.std.specs.Prelude.{◌≡◌, ◌≤◌, length};
ghost use Rattle.tpm_event_data.specs.Contents.{as_content, content_of};
ghost use Rattle.tpm_event_data.specs.DeviceSecurities.{as_device, as_evidence, as_measurement};
ghost use Rattle.tpm_event_data.specs.FirmwareBlobs.{as_blob};
ghost use Rattle.tpm_event_data.specs.HandoffTables.{as_tables};
ghost use Rattle.tpm_event_data.specs.TypedValues.{as_typed_value};
ghost use Rattle.tpm_event_data.specs.PartitionTables.{as_table};
ghost use Rattle.tpm_event_data.specs.TaggedEvents.{as_tagged};
ghost use Rattle.tpm_c.specs.Contents.{content_number, content_view, evidence_view, firmware_view, typed_number};
ghost use Rattle.tpm_c.specs.Contents.{measurement_view, partitions_view, tables_view, tag_view, IsContentTold};
ghost use Rattle.tpm_c.specs.inner.Contents.{Fits};

use crate::image::{IMAGE, TpmImage, image_view};
use crate::part::TpmPart;
use crate::record_text::{TEXT, TEXT_UTF16};
use crate::variable::{TpmVariable, VARIABLE, variable_view};
use arrayvec::ArrayVec;
use tpm_event_data::{
    Content, DeviceEvidence, DeviceMeasurement, DeviceSecurity, Event, FirmwareBlob, HandoffTables,
    PartitionTable, TaggedEvent, TypedValue,
};

// The kinds that have no call of their own.
const VERSION: u32 = 80;

const VERSION_GUID: u32 = 81;

const SEPARATOR: u32 = 82;

const LOCALITY: u32 = 83;

const FIRMWARE: u32 = 84;

const TABLES: u32 = 85;

const TAG: u32 = 86;

const PARTITIONS: u32 = 87;

const MEASUREMENT: u32 = 88;

const EVIDENCE: u32 = 89;

/// A part of the firmware: its address in memory, how many bytes it has there, and its description.
#[repr(C)]
#[derive(Clone, Copy)]
pub struct TpmFirmware {
    pub base: u64,
    pub size: u64,
    pub name: TpmPart,
}

/// The tables that the firmware hands to the system: their description, how many they are, and their entries.
#[repr(C)]
#[derive(Clone, Copy)]
pub struct TpmTables {
    pub name: TpmPart,
    pub count: usize,
    pub entries: TpmPart,
}

/// An event of an operating system: its number, and its data.
#[repr(C)]
#[derive(Clone, Copy)]
pub struct TpmTag {
    pub id: u32,
    pub value: TpmPart,
}

/// The partitions of a disk: the disk's GUID, how many they are, how many bytes each entry has, and the entries.
#[repr(C)]
#[derive(Clone, Copy)]
pub struct TpmPartitions {
    pub disk: TpmPart,
    pub count: usize,
    pub entry_size: usize,
    pub entries: TpmPart,
}

/// A measurement of a device: which hash it is of, the type of the device, the measurement block, and which device it
/// is.
#[repr(C)]
#[derive(Clone, Copy)]
pub struct TpmMeasurement {
    pub hash: u32,
    pub device_type: u32,
    pub block: TpmPart,
    pub context: TpmPart,
}

/// What a device showed: how it was authenticated, its type, the type of the sub-header, the number by which events
/// belong together, the device path, the sub-header, and which device it is.
#[repr(C)]
#[derive(Clone, Copy)]
pub struct TpmEvidence {
    pub auth_state: u8,
    pub device_type: u32,
    pub sub_header_type: u32,
    pub uid: u64,
    pub path: TpmPart,
    pub sub_header: TpmPart,
    pub context: TpmPart,
}

/// What the data of a record say, where that is told: of one kind what is of its name here, and nothing of the others.
#[repr(C)]
#[derive(Clone, Copy)]
pub struct TpmContent {
    pub variable: TpmVariable,
    pub holds: u32,
    pub text: TpmPart,
    pub number: u32,
    pub image: TpmImage,
    pub firmware: TpmFirmware,
    pub tables: TpmTables,
    pub tag: TpmTag,
    pub partitions: TpmPartitions,
    pub measurement: TpmMeasurement,
    pub evidence: TpmEvidence,
}

fn typed_number(typed: &TypedValue<'_>) -> u32
    ensures { result ≡ typed_number (as_typed_value typed.now) }
{
    match typed {
        TypedValue::LoadOption(_) => 96,
        TypedValue::BootOrder(_) => 97,
        TypedValue::Signatures(_) => 98,
        TypedValue::Signature(_) => 99,
        TypedValue::Byte(_) => 100,
        TypedValue::Empty => 101,
        TypedValue::Bytes => 102,
    }
}

fn content_number(content: &Content<'_>) -> u32
    ensures { result ≡ content_number (as_content content.now) }
{
    match content {
        Content::Variable(_, _) => VARIABLE,
        Content::Text(_) => TEXT,
        Content::Units(_) => TEXT_UTF16,
        Content::Image(_) => IMAGE,
        Content::Version(_) => VERSION,
        Content::VersionGuid(_) => VERSION_GUID,
        Content::Separator(_) => SEPARATOR,
        Content::Locality(_) => LOCALITY,
        Content::Firmware(_) => FIRMWARE,
        Content::Tables(_) => TABLES,
        Content::Tag(_) => TAG,
        Content::Partitions(_) => PARTITIONS,
        Content::Device(DeviceSecurity::First(_)) => MEASUREMENT,
        Content::Device(DeviceSecurity::Second(_)) => EVIDENCE,
        Content::Other => 0,
    }
}

fn front(len: usize) -> TpmPart
    ensures { result ≡ record { at = 0; len = len } }
{
    TpmPart { at: 0, len }
}

fn firmware_view(blob: &FirmwareBlob<'_>) -> TpmFirmware
    ensures { result ≡ firmware_view (as_blob blob.now) }
{
    TpmFirmware {
        base: blob.base,
        size: blob.size,
        name: TpmPart {
            at: 1,
            len: blob.name.len(),
        },
    }
}

fn tables_view(size: usize, tables: &HandoffTables<'_>) -> TpmTables
    requires { length (as_tables tables.now).entries ≤ size }
    ensures { result ≡ tables_view size (as_tables tables.now) }
{
    let len = tables.entries.len();
    TpmTables {
        name: TpmPart {
            at: 1,
            len: tables.name.len(),
        },
        count: tables.count(),
        entries: TpmPart {
            at: size - len,
            len,
        },
    }
}

fn tag_view(tag: &TaggedEvent<'_>) -> TpmTag
    ensures { result ≡ tag_view (as_tagged tag.now) }
{
    TpmTag {
        id: tag.id,
        value: TpmPart {
            at: 8,
            len: tag.value.len(),
        },
    }
}

fn partitions_view(table: &PartitionTable<'_>) -> TpmPartitions
    ensures { result ≡ partitions_view (as_table table.now) }
{
    TpmPartitions {
        disk: TpmPart {
            at: 56,
            len: table.disk.len(),
        },
        count: table.count(),
        entry_size: table.size,
        entries: TpmPart {
            at: 100,
            len: table.entries.len(),
        },
    }
}

fn measurement_view(device: &DeviceMeasurement<'_>) -> TpmMeasurement
    ensures { result ≡ measurement_view (as_measurement device.now) }
{
    let len = device.block.len();
    TpmMeasurement {
        hash: device.hash,
        device_type: device.device_type,
        block: TpmPart { at: 28, len },
        context: TpmPart {
            at: 28 + len,
            len: device.context.len(),
        },
    }
}

fn evidence_view(size: usize, device: &DeviceEvidence<'_>) -> TpmEvidence
    requires { length (as_evidence device.now).context ≤ size }
    ensures { result ≡ evidence_view size (as_evidence device.now) }
{
    let len = device.path.len();
    TpmEvidence {
        auth_state: device.auth_state,
        device_type: device.device_type,
        sub_header_type: device.sub_header_type,
        uid: device.uid,
        path: TpmPart { at: 52, len },
        sub_header: TpmPart {
            at: 52 + len,
            len: device.sub_header.len(),
        },
        context: TpmPart {
            at: size - device.context.len(),
            len: device.context.len(),
        },
    }
}

// Tells what so many bytes say.
fn tell(size: usize, content: &Content<'_>, view: &mut TpmContent)
    requires { Fits size (as_content content.now) }
    ensures { view.new ≡ content_view size (as_content content.now) view.old }
{
    match content {
        Content::Variable(variable, typed) => {
            view.variable = variable_view(variable);
            view.holds = typed_number(typed);
        }
        Content::Text(text) => view.text = front(text.len()),
        Content::Units(text) | Content::Version(text) | Content::VersionGuid(text) => {
            view.text = front(text.len())
        }
        Content::Separator(number) => view.number = *number,
        Content::Locality(number) => view.number = u32::from(*number),
        Content::Image(image) => view.image = image_view(image),
        Content::Firmware(blob) => view.firmware = firmware_view(blob),
        Content::Tables(tables) => view.tables = tables_view(size, tables),
        Content::Tag(tag) => view.tag = tag_view(tag),
        Content::Partitions(table) => view.partitions = partitions_view(table),
        Content::Device(DeviceSecurity::First(device)) => {
            view.measurement = measurement_view(device)
        }
        Content::Device(DeviceSecurity::Second(device)) => {
            view.evidence = evidence_view(size, device)
        }
        Content::Other => {}
    }
}

/// Tells what these bytes, the data of a record of this type, say, and answers the number of their kind; or answers 0
/// where nothing of them is known. What isn't written so stays as it was.
#[unsafe(no_mangle)]
pub extern "C" fn tpm_log_event_content(kind: u32, bytes: &[u8], view: &mut TpmContent) -> u32
    ensures { IsContentTold (content_of kind bytes.now) bytes.now
        (record { answer = result; old = view.old; new = view.new }) }
{
    let event = Event {
        register: 0,
        kind,
        digests: ArrayVec::new(),
        event: bytes,
    };
    let content = event.content();
    tell(bytes.len(), &content, view);
    content_number(&content)
}
