//! A command's verdict, and its areas by their places in its bytes.

ghost use Rattle.std.specs.Prelude.{◌≡◌, ◌≤◌, ◌+◌, ◌∷◌, [], length, IfOk, IfErr};
ghost use Rattle.tpm_wire.specs.Path.{Spells, Fault};
ghost use Rattle.tpm_commands.specs.declared.command.Command.{Command};
ghost use Rattle.tpm_commands.specs.declared.command.Params.{Params as ParamsOf};
ghost use Rattle.tpm_commands.specs.Handles.{first, second};
ghost use Rattle.tpm_commands.specs.Parameters.{parameters};
ghost use Rattle.tpm_buffer.specs.Commands.{command};
ghost use Rattle.tpm_c.specs.CommandViews.{session_view, behind as behind_of, first_place as first_place_of};
ghost use Rattle.tpm_c.specs.CommandViews.{session_views, command_view, ViewsCommand, JudgesCommand};

use crate::part::{DONE, NO_PART, TpmPart, TpmRefusal, refuse};
use tpm_buffer::{Areas, AuthRef, areas, decode_command};
use tpm_commands::{CommandTable, Params, decode_params_into};
use tpm_types::CommandCode;
use tpm_wire::Refusal;

/// A session of a command: its nonce and its HMAC, or password, lie in the command.
#[repr(C)]
#[derive(Clone, Copy)]
pub struct TpmCommandSession {
    pub handle: u32,
    pub attributes: u8,
    pub nonce: TpmPart,
    pub hmac: TpmPart,
}

/// A command by its areas. Of the handles and the sessions as many are there as are counted; the others are 0.
#[repr(C)]
#[derive(Clone, Copy)]
pub struct TpmCommandAreas {
    pub code: u32,
    pub size: usize,
    pub handle_count: usize,
    pub handles: [u32; 2],
    pub session_count: usize,
    pub sessions: [TpmCommandSession; 3],
    pub parameters: TpmPart,
}

/// Cuts a command into its areas and answers 0; or answers 1, and `refusal` is their first fault:
/// the parameters are not judged. What isn't written so stays as it was.
#[unsafe(no_mangle)]
pub extern "C" fn tpm_command_cut(
    bytes: &[u8],
    view: &mut TpmCommandAreas,
    refusal: &mut TpmRefusal,
) -> u32
    ensures { ViewsCommand bytes.now (record {
      answer = result;
      old = record { view = view.old; refusal = refusal.old };
      new = record { view = view.new; refusal = refusal.new };
    }) }
{
    match areas(bytes) {
        Ok(areas) => {
            *view = areas_view(&areas);
            DONE
        }
        Err(fault) => refuse(refusal, fault),
    }
}

/// Answers 0 where the bytes spell a command, all of them; or 1, and `refusal` is their fault.
#[unsafe(no_mangle)]
pub extern "C" fn tpm_command_decode(bytes: &[u8], refusal: &mut TpmRefusal) -> u32
    ensures { JudgesCommand bytes.now
        (record { answer = result; old = refusal.old; new = refusal.new }) }
{
    match judge(bytes) {
        Ok(()) => DONE,
        Err(fault) => refuse(refusal, fault),
    }
}

// Whether the bytes spell a command, or their fault. It is out of line, so that the command is off the stack again.
#[inline(never)]
fn judge(bytes: &[u8]) -> Result<(), Refusal>
    ensures spells { IfOk result (λ _. (c : Command) × Spells command c bytes.now) }
    ensures fault { IfErr result (λ e. Fault command bytes.now e) }
{
    match decode_command(bytes) {
        Ok(_) => Ok(()),
        Err(fault) => Err(fault),
    }
}

// Whether the bytes are parameters of a command with this code, or their fault.
#[inline(never)]
pub(crate) fn judge_params(code: CommandCode, bytes: &[u8]) -> Result<(), Refusal>
    ensures spells { IfOk result (λ _. (p : ParamsOf) × Spells (parameters code) p bytes.now) }
    ensures fault { IfErr result
        (λ e. Fault (parameters code) bytes.now e × (e.at ≤ length bytes.now)) }
{
    let mut params = Params::PolicyRestart;
    decode_params_into(code, bytes, &mut params)
}

fn areas_view(areas: &Areas<'_>) -> TpmCommandAreas
    ensures { result ≡ command_view areas.now }
{
    TpmCommandAreas {
        code: areas.code().number(),
        size: areas.size() as usize,
        handle_count: areas.handles().len(),
        handles: two(areas.handles()),
        session_count: areas.auth_count(),
        sessions: sessions(areas),
        parameters: TpmPart {
            at: areas.params_at() as usize,
            len: areas.params().len(),
        },
    }
}

fn two(handles: &[u32]) -> [u32; 2]
    ensures { result ≡ first handles.now ∷ second handles.now ∷ [] }
{
    match handles {
        [] => [0, 0],
        [one] => [*one, 0],
        [one, two, ..] => [*one, *two],
    }
}

fn sessions(areas: &Areas<'_>) -> [TpmCommandSession; 3]
    ensures { result ≡ session_views areas.now }
{
    let (one, second) = session(&areas.auth(0), first_place(areas));
    let (two, third) = session(&areas.auth(1), second);
    let (three, _) = session(&areas.auth(2), third);
    [one, two, three]
}

// Where the sessions begin: behind the header, the handles, and authorizationSize.
fn first_place(areas: &Areas<'_>) -> usize
    ensures value { result ≡ first_place_of areas.now }
    ensures near { result ≤ 22 }
{
    14 + 4 * areas.code().handles()
}

// What a session says that begins at this place, and the place behind it.
fn session(auth: &Option<AuthRef<'_>>, at: usize) -> (TpmCommandSession, usize)
    requires { at ≤ 1000 }
    ensures view { result.0 ≡ session_view at auth.now }
    ensures behind { result.1 ≡ behind_of at auth.now }
    ensures near { result.1 ≤ at + 105 }
{
    match auth {
        Some(auth) => {
            let nonce = TpmPart {
                at: at + 6,
                len: auth.nonce().len(),
            };
            let hmac = TpmPart {
                at: at + 9 + nonce.len,
                len: auth.hmac().len(),
            };
            let view = TpmCommandSession {
                handle: auth.session().number(),
                attributes: auth.attrs().number(),
                nonce,
                hmac,
            };
            (view, hmac.at + hmac.len)
        }
        None => {
            let view = TpmCommandSession {
                handle: 0,
                attributes: 0,
                nonce: NO_PART,
                hmac: NO_PART,
            };
            (view, at)
        }
    }
}
