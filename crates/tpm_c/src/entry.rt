//! Entries of what the data of a record list: partitions, and tables that the firmware hands to the system (PC Client
//! Platform Firmware Profile, "UEFI_GPT_DATA" and "UEFI_HANDOFF_TABLE_POINTERS").

ghost use Rattle.std.specs.Prelude.{◌≡◌};
ghost use Rattle.tpm_event_data.specs.HandoffTables.{as_table};
ghost use Rattle.tpm_event_data.specs.PartitionTables.{as_partition};
ghost use Rattle.tpm_c.specs.Entries.{partition_in, partition_view, table_in, table_view};
ghost use Rattle.tpm_c.specs.Entries.{IsPartitionTold, IsTableTold};

use crate::part::TpmPart;
use tpm_event_data::{HandoffTable, HandoffTables, Partition, PartitionTable};

/// A partition was told.
const PARTITION: u32 = 90;

/// A table was told.
const TABLE: u32 = 91;

/// A partition: the GUID of its type, its own, its first and its last block, its attributes, and its name.
#[repr(C)]
#[derive(Clone, Copy)]
pub struct TpmPartition {
    pub kind: TpmPart,
    pub guid: TpmPart,
    pub first: u64,
    pub last: u64,
    pub attributes: u64,
    pub name: TpmPart,
}

/// A table that the firmware hands to the system: its GUID, and the address of its first byte.
#[repr(C)]
#[derive(Clone, Copy)]
pub struct TpmTable {
    pub guid: TpmPart,
    pub address: u64,
}

fn partition_view(partition: &Partition<'_>) -> TpmPartition
    ensures { result ≡ partition_view (as_partition partition.now) }
{
    TpmPartition {
        kind: TpmPart {
            at: 0,
            len: partition.kind.len(),
        },
        guid: TpmPart {
            at: 16,
            len: partition.guid.len(),
        },
        first: partition.first,
        last: partition.last,
        attributes: partition.attributes,
        name: TpmPart {
            at: 56,
            len: partition.name.len(),
        },
    }
}

/// Tells the partition that these bytes are, an entry of 128 bytes or more, and answers 90; or answers 0 where they are
/// fewer. `view` is then as it was.
#[unsafe(no_mangle)]
pub extern "C" fn tpm_log_partition(bytes: &[u8], view: &mut TpmPartition) -> u32
    ensures { IsPartitionTold (partition_in bytes.now) bytes.now
        (record { answer = result; old = view.old; new = view.new }) }
{
    let alone = PartitionTable {
        disk: &[],
        size: bytes.len(),
        entries: bytes,
    };
    match alone.get(0) {
        Some(partition) => {
            *view = partition_view(&partition);
            PARTITION
        }
        None => 0,
    }
}

fn table_view(table: &HandoffTable<'_>) -> TpmTable
    ensures { result ≡ table_view (as_table table.now) }
{
    TpmTable {
        guid: TpmPart {
            at: 0,
            len: table.guid.len(),
        },
        address: table.address,
    }
}

/// Tells the table with which these bytes begin, an entry of 24 bytes, and answers 91; or answers 0 where they are
/// fewer. `view` is then as it was.
#[unsafe(no_mangle)]
pub extern "C" fn tpm_log_table(bytes: &[u8], view: &mut TpmTable) -> u32
    ensures { IsTableTold (table_in bytes.now) bytes.now
        (record { answer = result; old = view.old; new = view.new }) }
{
    let tables = HandoffTables {
        name: &[],
        entries: bytes,
    };
    match tables.get(0) {
        Some(table) => {
            *view = table_view(&table);
            TABLE
        }
        None => 0,
    }
}
