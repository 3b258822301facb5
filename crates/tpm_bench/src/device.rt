//! A device.

ghost use Rattle.std.specs.Prelude.{◌≡◌, ℕ, List, ◌≤◌, length, take};
ghost use Rattle.tpm_model.specs.Steps.{History, Origin};
ghost use Rattle.tpm_model.specs.Answers.{answer};
ghost use Rattle.tpm_device.specs.Stands.{Stands};

use crate::out::append;
use tpm_device::{Device, ResponseBuffer};
use tpm_types::AuthValue;

// TPM2_Startup with TPM_SU_CLEAR.
const STARTUP: [u8; 12] = [
    0x80, 0x01, 0x00, 0x00, 0x00, 0x0C, 0x00, 0x00, 0x01, 0x44, 0x00, 0x00,
];

// How many commands make a device ready, at most.
const MOST_COMMANDS: usize = 8;

/// Starts a new device and makes it ready by the commands of `prepare`, one behind the other and
/// eight at most. Then it executes the first command so many times, at least once, with the answer
/// to the beginning of `out`, and behind each but the last the second. It says how many bytes the
/// last answer has, which is that of the model at some history.
#[unsafe(no_mangle)]
pub extern "C" fn tpm_bench_execute(
    prepare: &[u8],
    first: &[u8],
    second: &[u8],
    times: u32,
    out: &mut [u8],
) -> usize
    requires { 4096 ≤ length out.old }
    ensures { (o : Origin)
        × (h : History) × (n : List ℕ) × (take result out.new ≡ answer o h first.now n) }
{
    let nonce = [0; 64];
    let mut device = prepared(prepare, &nonce);
    let mut reply = ResponseBuffer::new();
    for _ in 1..times {
        answer_both(&mut device, first, second, &nonce, &mut reply, out);
    }
    answer_once(&mut device, first, &nonce, &mut reply, out)
}

/// Switches a device's power off and on, and has it execute this command, so many times, at least
/// once, with the answer to the beginning of `out`. It says how many bytes the last answer has,
/// which is that of the model at some history.
#[unsafe(no_mangle)]
pub extern "C" fn tpm_bench_start(startup: &[u8], times: u32, out: &mut [u8]) -> usize
    requires { 4096 ≤ length out.old }
    ensures { (o : Origin)
        × (h : History) × (n : List ℕ) × (take result out.new ≡ answer o h startup.now n) }
{
    let nonce = [0; 64];
    let mut device = started(&AuthValue::default(), &STARTUP, &nonce);
    let mut reply = ResponseBuffer::new();
    for _ in 1..times {
        device.power_cycle();
        answer_once(&mut device, startup, &nonce, &mut reply, out);
    }
    device.power_cycle();
    answer_once(&mut device, startup, &nonce, &mut reply, out)
}

// The command that the bytes begin with, by its commandSize, and the bytes behind it.
fn cut(bytes: &[u8]) -> (&[u8], &[u8]) {
    let size = match bytes {
        [_, _, _, _, high, low, ..] => u16::from_be_bytes([*high, *low]) as usize,
        _ => 0,
    };
    bytes.split_at(size.min(bytes.len()))
}

// A started device that has executed these commands.
fn prepared(commands: &[u8], nonce: &[u8; 64]) -> Device
    ensures { (o : Origin) × (h : History) × Stands o h result }
{
    let mut device = started(&AuthValue::default(), &STARTUP, nonce);
    let mut rest = commands;
    for _ in 0..MOST_COMMANDS {
        let (command, behind) = cut(rest);
        let _answer = device.execute(command, nonce);
        rest = behind;
    }
    device
}

fn started(owner: &AuthValue, startup: &[u8], nonce: &[u8; 64]) -> Device
    ensures { (o : Origin) × (h : History) × Stands o h result }
{
    let mut device = Device::new(owner, 0);
    let _answer = device.execute(startup, nonce);
    device
}

// Executes the first command, and the second where there is one.
fn answer_both(
    device: &mut Device,
    first: &[u8],
    second: &[u8],
    nonce: &[u8; 64],
    reply: &mut ResponseBuffer,
    out: &mut [u8],
)
    requires { 4096 ≤ length out.old }
    ensures stands { (o : Origin) (h : History) → Stands o h device.old → (k : History)
        × Stands o k device.new }
    ensures room { length out.new ≡ length out.old }
{
    answer_once(device, first, nonce, reply, out);
    if second.is_empty() {
        return;
    }
    answer_once(device, second, nonce, reply, out);
}

#[inline(never)]
fn answer_once(
    device: &mut Device,
    bytes: &[u8],
    nonce: &[u8; 64],
    reply: &mut ResponseBuffer,
    out: &mut [u8],
) -> usize
    requires { 4096 ≤ length out.old }
    ensures answer { (o : Origin) (h : History) → Stands o h device.old → (n : List ℕ)
        × (take result out.new ≡ answer o h bytes.now n) }
    ensures stands { (o : Origin) (h : History) → Stands o h device.old → (k : History)
        × Stands o k device.new }
    ensures room { length out.new ≡ length out.old }
{
    device.execute_into(bytes, nonce, reply);
    append(out, 0, reply.as_slice())
}
