//! The variable that the data of a record are (PC Client Platform Firmware Profile, "UEFI_VARIABLE_DATA").

ghost use Rattle.std.specs.Prelude.{◌≡◌};
ghost use Rattle.tpm_event_data.specs.EventData.{variable_of};
ghost use Rattle.tpm_event_data.specs.LoadOptions.{as_variable};
ghost use Rattle.tpm_c.specs.Variables.{variable_view, IsVariableTold};

use crate::part::TpmPart;
use arrayvec::ArrayVec;
use tpm_event_data::{Event, Variable};

/// A variable was told.
pub(crate) const VARIABLE: u32 = 33;

/// A variable, by its parts in the data: the vendor's GUID as it lies in memory, the name in UTF-16
/// with the less significant byte of each unit first, and the value.
#[repr(C)]
#[derive(Clone, Copy)]
pub struct TpmVariable {
    pub guid: TpmPart,
    pub name: TpmPart,
    pub value: TpmPart,
}

pub(crate) fn variable_view(variable: &Variable<'_>) -> TpmVariable
    ensures { result ≡ variable_view (as_variable variable.now) }
{
    let len = variable.name.len();
    TpmVariable {
        guid: TpmPart {
            at: 0,
            len: variable.guid.len(),
        },
        name: TpmPart { at: 32, len },
        value: TpmPart {
            at: 32 + len,
            len: variable.value.len(),
        },
    }
}

/// Tells the variable that these bytes, the data of a record of this type, are, all of them, and
/// answers 33; or answers 0 where they are none, or records of the type have none. `view` is then
/// as it was.
#[unsafe(no_mangle)]
pub extern "C" fn tpm_log_variable(kind: u32, bytes: &[u8], view: &mut TpmVariable) -> u32
    ensures { IsVariableTold (variable_of kind bytes.now) bytes.now
        (record { answer = result; old = view.old; new = view.new }) }
{
    let event = Event {
        register: 0,
        kind,
        digests: ArrayVec::new(),
        event: bytes,
    };
    match event.variable() {
        Some(variable) => {
            *view = variable_view(&variable);
            VARIABLE
        }
        None => 0,
    }
}
