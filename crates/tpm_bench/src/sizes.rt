//! How much room values take.

use tpm_buffer::Areas;
use tpm_commands::Command;
use tpm_device::Device;

/// How many bytes a device (0), a command (1) or a command's areas (2) take.
#[unsafe(no_mangle)]
pub extern "C" fn tpm_bench_size(which: u32) -> usize {
    match which {
        0 => size_of::<Device>(),
        1 => size_of::<Command<'_>>(),
        _ => size_of::<Areas<'_>>(),
    }
}
