//! The room of what lies in the caller's memory.

ghost use Rattle.std.specs.Prelude.{◌≡◌};
ghost use Rattle.tpm_device.specs.contracts.device.Device.{the_row as device};
ghost use Rattle.tpm_stream.specs.contracts.framer.Framer.{the_row as framer};
ghost use Rattle.tpm_log.specs.contracts.pieces.LogReplay.{the_row as replay};
ghost use Rattle.tpm_c.specs.contracts.caller.CallerState.{the_row as state};
ghost use Rattle.tpm_c.specs.Rooms.{room_size, room_align};

use crate::caller::CallerState;
use tpm_device::Device;
use tpm_log::LogReplay;
use tpm_stream::Framer;

/// How many bytes a device takes.
#[unsafe(no_mangle)]
pub extern "C" fn tpm_device_size() -> usize
    ensures { result ≡ room_size device }
{
    size_of::<Device>()
}

/// A device lies at a multiple of so many bytes.
#[unsafe(no_mangle)]
pub extern "C" fn tpm_device_align() -> usize
    ensures { result ≡ room_align device }
{
    align_of::<Device>()
}

/// How many bytes a framer takes.
#[unsafe(no_mangle)]
pub extern "C" fn tpm_framer_size() -> usize
    ensures { result ≡ room_size framer }
{
    size_of::<Framer>()
}

/// A framer lies at a multiple of so many bytes.
#[unsafe(no_mangle)]
pub extern "C" fn tpm_framer_align() -> usize
    ensures { result ≡ room_align framer }
{
    align_of::<Framer>()
}

/// How many bytes a caller takes.
#[unsafe(no_mangle)]
pub extern "C" fn tpm_caller_size() -> usize
    ensures { result ≡ room_size state }
{
    size_of::<CallerState>()
}

/// A caller lies at a multiple of so many bytes.
#[unsafe(no_mangle)]
pub extern "C" fn tpm_caller_align() -> usize
    ensures { result ≡ room_align state }
{
    align_of::<CallerState>()
}

/// How many bytes a replay takes.
#[unsafe(no_mangle)]
pub extern "C" fn tpm_log_replay_size() -> usize
    ensures { result ≡ room_size replay }
{
    size_of::<LogReplay>()
}

/// A replay lies at a multiple of so many bytes.
#[unsafe(no_mangle)]
pub extern "C" fn tpm_log_replay_align() -> usize
    ensures { result ≡ room_align replay }
{
    align_of::<LogReplay>()
}
