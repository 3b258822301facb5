//! A command as it is handed in to be sealed: without its sessions.

ghost use Rattle.std.specs.Prelude.{◌≡◌, ◌≤◌, ◌+◌, ◌*◌, true, false, length, take, drop, Some, IfSome, Err};
ghost use Rattle.tpm_wire.specs.declared.refusal.Refusal.{Refusal as RefusalOf};
ghost use Rattle.tpm_wire.specs.Reading.{read_all};
ghost use Rattle.tpm_commands.specs.declared.command.CommandBody.{CommandBody as CommandBodyOf};
ghost use Rattle.tpm_commands.specs.declared.command.Params.{Params as ParamsOf};
ghost use Rattle.tpm_commands.specs.Parameters.{parameters};
ghost use Rattle.tpm_buffer.specs.Commands.{command as command_layout};
ghost use Rattle.tpm_caller.specs.Plain.{body_in, parts_in, PartsFit};
ghost use Rattle.tpm_caller.specs.inner.Placing.{AreParams};

use std::marker::Model;
use tpm_buffer::areas;
use tpm_commands::{CommandTable, Params, decode_params_into};
use tpm_types::CommandCode;

// How many bytes a command's header has.
const HEADER: usize = 10;

/// A command in bytes, whose first handle needs authorization. Its handles and its parameters lie in the bytes, and
/// its sessions are left out.
#[derive(Drop)]
pub struct Plain<'a> {
    pub(crate) code: CommandCode,
    pub(crate) handles: &'a [u8],
    pub(crate) params: &'a [u8],
}

impl<'a> Model for Plain<'a> {
    ghost use Rattle.std.specs.Prelude.{◌≡◌, ◌≤◌, true, length};
    ghost use Rattle.tpm_commands.specs.Handles.{needs_authorization};
    ghost use Rattle.tpm_commands.specs.Limits.{most_params};
    ghost use Rattle.tpm_caller.specs.Plain.{PlainParts};

    ghost Value = { PlainParts };

    ghost view = { λ p. record { code = p.code; handles = p.handles.now; params = p.params.now } };

    ghost invariant = { λ p. (needs_authorization p.code ≡ true)
        × (length p.handles.now ≤ 8)
        × (length p.params.now ≤ most_params) };
}

// The bytes are the parameters of a command with this code, all of them. It is out of line, so that their value is off
// the stack again.
#[inline(never)]
fn are_params(code: CommandCode, bytes: &[u8]) -> bool
    ensures yes { result ≡ true → (p : ParamsOf) × AreParams code bytes.now p }
    ensures no { result ≡ false
        → (e : RefusalOf) × (read_all (parameters code) bytes.now ≡ Err e) }
{
    let mut params = Params::PolicyRestart;
    decode_params_into(code, bytes, &mut params).is_ok()
}

// So many handles, behind the header.
fn handles_in(bytes: &[u8], count: usize) -> &[u8]
    requires few { count ≤ 2 }
    requires within { 10 + 4 * count ≤ length bytes.now }
    ensures { result.now ≡ take (4 * count) (drop 10 bytes.now) }
{
    &bytes[HEADER..HEADER + 4 * count]
}

impl<'a> Plain<'a> {
    /// The command in these bytes, where they spell one whose first handle needs authorization. It may have sessions,
    /// which are not looked at further.
    pub fn read(bytes: &'a [u8]) -> Option<Self>
        ensures parts { result ≡ parts_in (body_in (read_all command_layout bytes.now)) }
        ensures fit { IfSome result (λ _. (body : CommandBodyOf) →
            body_in (read_all command_layout bytes.now) ≡ Some body →
            PartsFit body) }
    {
        let Ok(areas) = areas(bytes) else {
            return None;
        };
        let code = areas.code();
        let params = areas.params();
        if !are_params(code, params) || !code.needs_authorization() {
            return None;
        }
        Some(Plain {
            code,
            handles: handles_in(bytes, code.handles()),
            params,
        })
    }

    /// Its code.
    pub fn code(&self) -> CommandCode
        ensures { result ≡ self.now.code }
    {
        self.code
    }
}
