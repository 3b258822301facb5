//! A device in the caller's memory.

ghost use Rattle.std.specs.Prelude.{◌≡◌, ◌≤◌, [], ◌∷◌, length};
ghost use Rattle.std.specs.Borrow.{sem};
ghost use Rattle.tpm_types.specs.Limits.{digest_bytes};
ghost use Rattle.tpm_model.specs.Steps.{History, Origin, PowerCycle, new_origin};
ghost use Rattle.tpm_device.specs.Stands.{Stands};
ghost use Rattle.tpm_c.specs.Written.{IsIn};
ghost use Rattle.tpm_c.specs.Devices.{device_at, room_for, made_at, whether_fits, after, written, IsAnswered};

use crate::handed::{BUFFER_BYTES, put};
use tpm_device::{Device, ResponseBuffer};
use tpm_types::{AuthValue, DIGEST_BYTES};

/// Makes a device in the room, which is not started, and answers 1. The owner has this
/// authorization value, and no counter of the device has had a greater value than this. It answers
/// 0, and nothing is written, where the value has more than 48 bytes.
#[inline(never)]
#[unsafe(no_mangle)]
pub unsafe extern "C" fn tpm_device_init(place: *mut u8, owner: &[u8], greatest: u64) -> u32
    requires* { sem 𝓛 (room_for owner.now place) }
    ensures* { sem 𝓛 (made_at (new_origin owner.now greatest) place)
        ∗ ⌜ result ≡ whether_fits owner.now ⌝ }
{
    if owner.len() > DIGEST_BYTES {
        return 0;
    }
    std::ptr::write(place as *mut Device, made(owner, greatest));
    1
}

fn made(owner: &[u8], greatest: u64) -> Device
    requires { length owner.now ≤ digest_bytes }
    ensures { Stands (new_origin owner.now greatest) [] result }
{
    match AuthValue::new(owner) {
        Some(owner) => Device::new(&owner, greatest),
        None => unreachable!(),
    }
}

/// The power is switched off and on.
#[unsafe(no_mangle)]
pub unsafe extern "C" fn tpm_device_power_cycle(place: *mut u8)
    ghost at: { Origin × History }
    requires* { sem 𝓛 (device_at at.0 at.1 place) }
    ensures* { sem 𝓛 (device_at at.0 (PowerCycle ∷ at.1) place) }
{
    (*(place as *mut Device)).power_cycle();
}

/// Answers the bytes of a command, whatever they are, with those of a response at the beginning of
/// `out`, and says how many they are: 10 at least. The nonce is 64 fresh random bytes. It answers
/// 0, and nothing changes, where `out` has room for fewer than 4,096 bytes.
#[unsafe(no_mangle)]
pub unsafe extern "C" fn tpm_device_execute(
    place: *mut u8,
    command: &[u8],
    nonce: &[u8; 64],
    out: &mut [u8],
) -> usize
    ghost at: { Origin × History }
    requires* { sem 𝓛 (device_at at.0 at.1 place) }
    ensures* { sem 𝓛 (device_at at.0 (after (length out.old) at.0 at.1
        (record { bytes = command.now; nonce = nonce.now })) place)
        ∗ ⌜ IsAnswered at.0 at.1 (record { bytes = command.now; nonce = nonce.now })
        (record { answer = result; old = out.old; new = out.new }) ⌝ }
{
    execute(&mut *(place as *mut Device), command, nonce, out)
}

fn execute(device: &mut Device, command: &[u8], nonce: &[u8; 64], out: &mut [u8]) -> usize
    ensures { (o : Origin) (h : History) → Stands o h device.old →
        Stands o (after (length out.old) o h
        (record { bytes = command.now; nonce = nonce.now })) device.new
        × IsIn (written (length out.old) o h
        (record { bytes = command.now; nonce = nonce.now })) out.old out.new result }
{
    if out.len() < BUFFER_BYTES {
        return 0;
    }
    let mut answer = ResponseBuffer::new();
    device.execute_into(command, nonce, &mut answer);
    put(out, answer.as_slice())
}
