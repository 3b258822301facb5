//! Load options, and the device paths that they have (UEFI Specification, "Load Options").

ghost use Rattle.std.specs.Prelude.{◌≡◌, ◌≤◌, length};
ghost use Rattle.tpm_event_data.specs.DevicePaths.{paths_in};
ghost use Rattle.tpm_event_data.specs.LoadOptions.{as_option, option_of};
ghost use Rattle.tpm_c.specs.LoadOptions.{option_view, IsOptionTold, IsPathTold};

use crate::part::TpmPart;
use tpm_event_data::{LoadOption, load_option, packed_paths};

/// A load option was told.
const LOAD_OPTION: u32 = 94;

/// A device path was told.
const DEVICE_PATH: u32 = 95;

/// What the firmware may start: its attributes, its description, its device paths, and what is handed to the program.
#[repr(C)]
#[derive(Clone, Copy)]
pub struct TpmLoadOption {
    pub attributes: u32,
    pub description: TpmPart,
    pub path: TpmPart,
    pub value: TpmPart,
}

fn option_view(size: usize, option: &LoadOption<'_>) -> TpmLoadOption
    requires { length (as_option option.now).value ≤ size }
    ensures { result ≡ option_view size (as_option option.now) }
{
    let text = option.description.len();
    let len = option.value.len();
    TpmLoadOption {
        attributes: option.attributes,
        description: TpmPart { at: 6, len: text },
        path: TpmPart {
            at: 8 + text,
            len: option.path.len(),
        },
        value: TpmPart {
            at: size - len,
            len,
        },
    }
}

/// Tells the load option that these bytes, the value of a variable, are, and answers 94; or answers 0 where they are
/// none. `view` is then as it was.
#[unsafe(no_mangle)]
pub extern "C" fn tpm_log_load_option(bytes: &[u8], view: &mut TpmLoadOption) -> u32
    ensures { IsOptionTold (option_of bytes.now) bytes.now
        (record { answer = result; old = view.old; new = view.new }) }
{
    match load_option(bytes) {
        Ok(option) => {
            *view = option_view(bytes.len(), &option);
            LOAD_OPTION
        }
        Err(_) => 0,
    }
}

/// Tells the first of the device paths that these bytes are, one behind the other, and answers 95; or answers 0 where
/// there are no bytes. `view` is then as it was. The next path is behind it.
#[unsafe(no_mangle)]
pub extern "C" fn tpm_log_device_path(bytes: &[u8], view: &mut TpmPart) -> u32
    ensures { IsPathTold (paths_in bytes.now) bytes.now
        (record { answer = result; old = view.old; new = view.new }) }
{
    match packed_paths(bytes).next() {
        Some(path) => {
            *view = TpmPart {
                at: 0,
                len: path.len(),
            };
            DEVICE_PATH
        }
        None => 0,
    }
}
