//! A command joined from its parts.

ghost use Rattle.std.specs.Prelude.{◌≡◌, ◌+◌, ◌≤◌, true, IfOk, IfErr, List, ℕ, length, take, drop};
ghost use Rattle.tpm_wire.specs.Path.{Spells, Fault};
ghost use Rattle.tpm_commands.specs.declared.command.Command.{Command};
ghost use Rattle.tpm_buffer.specs.Commands.{command as command_layout};
ghost use Rattle.tpm_c.specs.Builds.{Builds, BuildsBytes};
ghost use Rattle.tpm_c.specs.inner.Builds.{HasFront};
ghost use Rattle.tpm_c.specs.Written.{IsIn};

use crate::command::judge_params;
use crate::handed::BUFFER_BYTES;
use crate::part::{DONE, NO_COMMAND, NO_ROOM, TpmRefusal, refuse};
use tpm_buffer::{UnjoinedCommand, areas};
use tpm_types::CommandCode;
use tpm_wire::response_code::COMMAND_SIZE;
use tpm_wire::{Buffer, Refusal};

// So many bytes of parameters are judged: more than any command's have, so that the fault of more is among them.
const JUDGED_BYTES: usize = 1101;

// What is answered where the front of the joined parts is not asked for.
const NOT_ASKED: Refusal = Refusal { code: 0, at: 0 };

/// Joins the command of this number, TPM_CC, from the bytes of its handles, its sessions as they
/// are spelled in the authorization area, and its parameters. It answers 0 with the command at the
/// beginning of `out` and the number of its bytes in `count`; 1 where they spell no command, and
/// `refusal` is their fault; 2 where `out` has less room; or 3 where no command has the number.
/// What isn't written so stays as it was.
#[unsafe(no_mangle)]
pub extern "C" fn tpm_command_build(
    command: u32,
    handles: &[u8],
    sessions: &[u8],
    parameters: &[u8],
    out: &mut [u8],
    count: &mut usize,
    refusal: &mut TpmRefusal,
) -> u32
    ensures { Builds command
        (record { handles = handles.now; sessions = sessions.now; parameters = parameters.now })
        (record {
          answer = result;
          old = record { out = out.old; count = count.old; refusal = refusal.old };
          new = record { out = out.new; count = count.new; refusal = refusal.new };
        }) }
{
    let Some(code) = CommandCode::from_number(command) else {
        return NO_COMMAND;
    };
    match UnjoinedCommand::new(code, handles, sessions, parameters) {
        Some(parts) => build(&parts, out, count, refusal),
        None => {
            let fault = Refusal {
                code: COMMAND_SIZE,
                at: 2,
            };
            refuse(refusal, fault)
        }
    }
}

// How many of so many bytes of parameters are judged.
fn judged_len(len: usize) -> usize
    ensures most { result ≤ 1101 }
    ensures within { result ≤ len }
    ensures first { (bytes : List ℕ) → length bytes ≡ len → take result bytes ≡ take 1101 bytes }
{
    if len > JUDGED_BYTES {
        JUDGED_BYTES
    } else {
        len
    }
}

// The code of these joined parts, and how many bytes are before the parameters; or the first fault before them.
#[inline(never)]
fn front(joined: &[u8]) -> Result<(CommandCode, u32), Refusal>
    ensures front { IfOk result (λ front. HasFront joined.now front.0 front.1) }
    ensures near { IfOk result (λ front. front.1 ≤ 4096) }
    ensures fault { IfErr result (λ e. Fault command_layout joined.now e) }
{
    match areas(joined) {
        Ok(areas) => Ok((areas.code(), areas.params_at())),
        Err(fault) => Err(fault),
    }
}

// Joins the parts, and copies into `out` what begins at this place, as many bytes as it has. The answer is their front,
// where it is asked for. It is out of line, so that the joined bytes are off the stack when the parameters are judged:
// the parts are joined as often as their bytes are looked at.
#[inline(never)]
fn look(
    parts: &UnjoinedCommand<'_>,
    from: usize,
    out: &mut [u8],
    asks: bool,
) -> Result<(CommandCode, u32), Refusal>
    requires { from + length out.old ≤ length parts.now }
    ensures bytes { out.new ≡ take (length out.old) (drop from parts.now) }
    ensures front { asks ≡ true → IfOk result (λ front. HasFront parts.now front.0 front.1) }
    ensures near { asks ≡ true → IfOk result (λ front. front.1 ≤ 4096) }
    ensures fault { asks ≡ true → IfErr result (λ e. Fault command_layout parts.now e) }
{
    // (`Buffer::new` has the room of two by the toolchain's own compiler)
    let mut bytes = Buffer::from([0; BUFFER_BYTES]);
    parts.join(&mut bytes);
    let joined = bytes.as_slice();
    let begun = &joined[from..];
    out.copy_from_slice(&begun[..out.len()]);
    if asks { front(joined) } else { Err(NOT_ASKED) }
}

// Whether these are the first parameters of a command with this code, as many as are judged, which begin at this place.
#[inline(never)]
fn judge_at(code: CommandCode, at: u32, params: &[u8]) -> Result<(), Refusal>
    requires near { at ≤ 4096 }
    requires few { length params.now ≤ 1101 }
    ensures spells { IfOk result (λ _. (bytes : List ℕ) → HasFront bytes code at
        → params.now ≡ take 1101 (drop at bytes) → (c : Command) × Spells command_layout c bytes) }
    ensures fault { IfErr result (λ e. (bytes : List ℕ) → HasFront bytes code at
        → params.now ≡ take 1101 (drop at bytes) → Fault command_layout bytes e) }
{
    match judge_params(code, params) {
        Ok(()) => Ok(()),
        Err(fault) => Err(Refusal {
            code: fault.code,
            at: at + fault.at,
        }),
    }
}

// Whether the parameters, which begin at this place, are those of a command with this code.
#[inline(never)]
fn judge_behind(parts: &UnjoinedCommand<'_>, code: CommandCode, at: u32) -> Result<(), Refusal>
    requires front { HasFront parts.now code at }
    requires near { at ≤ 4096 }
    ensures spells { IfOk result (λ _. (c : Command) × Spells command_layout c parts.now) }
    ensures fault { IfErr result (λ e. Fault command_layout parts.now e) }
{
    let mut window = [0; JUDGED_BYTES];
    let params = &mut window[..judged_len(parts.len() - at as usize)];
    let _ = look(parts, at as usize, params, false);
    judge_at(code, at, params)
}

// Whether the joined parts spell a command, or their fault. Where there are no parameters, nothing is joined again.
fn judge(parts: &UnjoinedCommand<'_>) -> Result<(), Refusal>
    ensures spells { IfOk result (λ _. (c : Command) × Spells command_layout c parts.now) }
    ensures fault { IfErr result (λ e. Fault command_layout parts.now e) }
{
    let (code, at) = look(parts, parts.len(), &mut [], true)?;
    if parts.len() == at as usize {
        return judge_at(code, at, &[]);
    }
    judge_behind(parts, code, at)
}

// Writes the joined parts to the beginning of `out`, and says how many bytes they are.
fn write(parts: &UnjoinedCommand<'_>, out: &mut [u8]) -> usize
    requires { length parts.now ≤ length out.old }
    ensures { IsIn parts.now out.old out.new result }
{
    let len = parts.len();
    let _ = look(parts, 0, &mut out[..len], false);
    len
}

fn build(
    parts: &UnjoinedCommand<'_>,
    out: &mut [u8],
    count: &mut usize,
    refusal: &mut TpmRefusal,
) -> u32
    ensures { BuildsBytes parts.now (record {
      answer = result;
      old = record { out = out.old; count = count.old; refusal = refusal.old };
      new = record { out = out.new; count = count.new; refusal = refusal.new };
    }) }
{
    let len = parts.len();
    match judge(parts) {
        Ok(()) if len > out.len() => NO_ROOM,
        Ok(()) => {
            *count = write(parts, out);
            DONE
        }
        Err(fault) => refuse(refusal, fault),
    }
}
