//! A device that is kept: its NV memory as bytes in the caller's memory, and the device that is made of them again
//! (Part 1, "NV Memory").

ghost use Rattle.std.specs.Prelude.{◌≡◌, ℕ, List, [], length, if◌then◌else◌};
ghost use Rattle.std.specs.Borrow.{sem};
ghost use Rattle.tpm_model.specs.NvChanges.{changes_nv as changes_nv_of};
ghost use Rattle.tpm_model.specs.Steps.{History, Origin, new_origin};
ghost use Rattle.tpm_device.specs.Stands.{Stands};
ghost use Rattle.tpm_c.specs.Devices.{device_at};
ghost use Rattle.tpm_c.specs.KeptDevices.{IsKeptIn, IsAgain, IsRestored, restore_room};
ghost use Rattle.tpm_c.specs.inner.KeptDevices.{IsJudged, SpellsNvMemory};
ghost use Rattle.tpm_c.specs.KeptDevices.{restored_at, greatest_of, hash_of, session_hash_of};
ghost use Rattle.tpm_c.specs.KeptDevices.{counters_of, counter_view, IsCounterTold};

use crate::device::tpm_device_init;
use crate::handed::put;
use crate::part::{DONE, REFUSED, TpmRefusal, refuse};
use tpm_device::{Device, changes_nv};
use tpm_nv::{Counter, Counters};
use tpm_types::{Alg, DIGEST_BYTES, SessionHandle};
use tpm_wire::response_code::SIZE;
use tpm_wire::{Buffer, Refusal};

/// The device has fewer counters.
const NO_COUNTER: u32 = 6;

/// A counter that is defined: its index, the number of its hash, its attributes as they are now, its value, which is 0
/// where it was not incremented, and its policy, of which as many bytes are there as are counted.
/// `has_auth` is 1 where it has an authorization value, and otherwise 0.
#[repr(C)]
#[derive(Clone, Copy)]
pub struct TpmCounter {
    pub index: u32,
    pub hash: u16,
    pub attributes: u32,
    pub value: u64,
    pub policy_len: usize,
    pub policy: [u8; 48],
    pub has_auth: u32,
}

/// Writes the bytes of NV memory to the beginning of `out`, and says how many they are: 1,026 at
/// most. It answers 0, and nothing is written, where `out` has room for fewer. They hold
/// authorization values.
#[unsafe(no_mangle)]
pub unsafe extern "C" fn tpm_device_keep(place: *const u8, out: &mut [u8]) -> usize
    ghost at: { Origin × History }
    requires* { sem 𝓛 (device_at at.0 at.1 place) }
    ensures* { sem 𝓛 (device_at at.0 at.1 place)
        ∗ ⌜ IsKeptIn at.0 at.1 (record { answer = result; old = out.old; new = out.new }) ⌝ }
{
    keep(&mut *(place as *mut Device), out)
}

fn keep(device: &mut Device, out: &mut [u8]) -> usize
    ensures { (device.new ≡ device.old)
        × ((o : Origin) (h : History) → Stands o h device.old
        → IsKeptIn o h (record { answer = result; old = out.old; new = out.new })) }
{
    let mut bytes = Buffer::new();
    device.put_nv(&mut bytes);
    if bytes.as_slice().len() > out.len() {
        return 0;
    }
    put(out, bytes.as_slice())
}

/// Makes a device in the room of the owner's authorization value and of the bytes of an NV memory,
/// as `tpm_device_keep` wrote them, and answers 0. It is not started, has no session, and has the
/// counters of these bytes: it stands where a power cycle leaves the device that wrote them, of the
/// same owner's value. It answers 1, and nothing is written to the room, where the owner's value
/// has more than 48 bytes (SIZE at 0), or with the first fault of the bytes in `refusal`.
#[unsafe(no_mangle)]
pub unsafe extern "C" fn tpm_device_restore(
    place: *mut u8,
    owner: &[u8],
    kept: &[u8],
    refusal: &mut TpmRefusal,
) -> u32
    requires* { sem 𝓛 (restore_room owner.now kept.now place) }
    ensures* { sem 𝓛 (restored_at owner.now kept.now place)
        ∗ ⌜ IsRestored owner.now kept.now
        (record { answer = result; old = refusal.old; new = refusal.new }) ⌝ }
{
    if is_refused(owner, kept, refusal) {
        return REFUSED;
    }
    tpm_device_init(place, owner, 0);
    read(&mut *(place as *mut Device), kept);
    DONE
}

// Whether no device is made of these, of which the first fault is told. It is out of line, so that the counters
// that are read are off the stack before the device is made.
#[inline(never)]
fn is_refused(owner: &[u8], kept: &[u8], refusal: &mut TpmRefusal) -> bool
    ensures { IsJudged owner.now kept.now
        (record { is_refused = result; old = refusal.old; new = refusal.new }) }
{
    if owner.len() > DIGEST_BYTES {
        refuse(refusal, Refusal { code: SIZE, at: 0 });
        return true;
    }
    let mut counters = Counters::new(0);
    match counters.read_bytes(kept) {
        Ok(()) => false,
        Err(fault) => {
            refuse(refusal, fault);
            true
        }
    }
}

// The NV memory of these bytes, in the device that was just made.
#[inline(never)]
fn read(device: &mut Device, kept: &[u8])
    requires { SpellsNvMemory kept.now }
    ensures { (owner : List ℕ) →
        Stands (new_origin owner 0) [] device.old → IsAgain owner kept.now device.new }
{
    match device.read_nv(kept) {
        Ok(()) => {}
        Err(_) => unreachable!(),
    }
}

/// Whether the device that answered this command with this response has changed its NV memory, 1 or
/// 0: a host then keeps it before it hands out the response, and need not otherwise.
#[unsafe(no_mangle)]
pub extern "C" fn tpm_device_changes_nv(command: &[u8], response: &[u8]) -> u32
    ensures { result ≡ (if changes_nv_of command.now response.now then 1 else 0) }
{
    if changes_nv(command, response) { 1 } else { 0 }
}

/// The greatest value that any counter of the device has had.
#[unsafe(no_mangle)]
pub unsafe extern "C" fn tpm_device_greatest(place: *const u8) -> u64
    ghost at: { Origin × History }
    requires* { sem 𝓛 (device_at at.0 at.1 place) }
    ensures* { sem 𝓛 (device_at at.0 at.1 place) ∗ ⌜ result ≡ greatest_of at.0 at.1 ⌝ }
{
    greatest(&mut *(place as *mut Device))
}

fn greatest(device: &mut Device) -> u64
    ensures { (device.new ≡ device.old)
        × ((o : Origin) (h : History) → Stands o h device.old → result ≡ greatest_of o h) }
{
    device.greatest()
}

/// The number of the hash of the session of this handle, TPM_ALG, where it is loaded, and otherwise 0.
#[unsafe(no_mangle)]
pub unsafe extern "C" fn tpm_device_session_hash(place: *const u8, session: u32) -> u16
    ghost at: { Origin × History }
    requires* { sem 𝓛 (device_at at.0 at.1 place) }
    ensures* { sem 𝓛 (device_at at.0 at.1 place) ∗ ⌜ result ≡ session_hash_of at.0 at.1 session ⌝ }
{
    session_hash(&mut *(place as *mut Device), session)
}

// The number of a hash, or 0.
fn number(hash: Option<Alg>) -> u16
    ensures { result ≡ hash_of hash }
{
    match hash {
        Some(hash) => hash.number(),
        None => 0,
    }
}

fn session_hash(device: &mut Device, session: u32) -> u16
    ensures { (device.new ≡ device.old)
        × ((o : Origin) (h : History) → Stands o h device.old
        → result ≡ session_hash_of o h session) }
{
    match SessionHandle::from_number(session) {
        Some(session) => number(device.session_hash(session)),
        None => 0,
    }
}

/// How many counters are defined: 8 at most.
#[unsafe(no_mangle)]
pub unsafe extern "C" fn tpm_device_counters(place: *const u8) -> usize
    ghost at: { Origin × History }
    requires* { sem 𝓛 (device_at at.0 at.1 place) }
    ensures* { sem 𝓛 (device_at at.0 at.1 place) ∗ ⌜ result ≡ length (counters_of at.0 at.1) ⌝ }
{
    counters(&mut *(place as *mut Device))
}

fn counters(device: &mut Device) -> usize
    ensures { (device.new ≡ device.old)
        × ((o : Origin) (h : History) → Stands o h device.old → result ≡ length (counters_of o h)) }
{
    device.counters().len()
}

/// Tells this counter of those that are defined, in the order of their definitions, and answers 0; or answers 6, and
/// `view` stays as it was, where there are no more than this number of them.
#[unsafe(no_mangle)]
pub unsafe extern "C" fn tpm_device_counter(
    place: *const u8,
    which: usize,
    view: &mut TpmCounter,
) -> u32
    ghost at: { Origin × History }
    requires* { sem 𝓛 (device_at at.0 at.1 place) }
    ensures* { sem 𝓛 (device_at at.0 at.1 place)
        ∗ ⌜ IsCounterTold at.0 at.1 which
        (record { answer = result; old = view.old; new = view.new }) ⌝ }
{
    counter(&mut *(place as *mut Device), which, view)
}

fn counter(device: &mut Device, which: usize, view: &mut TpmCounter) -> u32
    ensures { (device.new ≡ device.old)
        × ((o : Origin) (h : History) → Stands o h device.old
        → IsCounterTold o h which (record { answer = result; old = view.old; new = view.new })) }
{
    match device.counters().get(which) {
        Some(counter) => {
            *view = view_of(counter);
            DONE
        }
        None => NO_COUNTER,
    }
}

fn view_of(counter: &Counter) -> TpmCounter
    ensures { result ≡ counter_view counter.now }
{
    let public = counter.public();
    let mut policy = [0; DIGEST_BYTES];
    let policy_len = put(policy.as_mut_slice(), public.policy.as_slice());
    TpmCounter {
        index: public.index.number(),
        hash: public.alg.number(),
        attributes: public.attrs.number(),
        value: counter.value().unwrap_or(0),
        policy_len,
        policy,
        has_auth: if counter.has_auth() { 1 } else { 0 },
    }
}
