//! The parameters of a command: by value where there are none, a start-up type, the two numbers of NV_Read or the
//! selections of PCR_Read; any other in the room of the longest.
//!
//! `decode_params_into` fills that room. What is read by value is made in line, and so the compiler keeps it out of
//! memory: a TPM2_NV_Read takes 166 ns so, and 195 by that room; a TPM2_PCR_Read 142 and 198.

ghost use Rattle.std.specs.Prelude.{◌≡◌, ◌≤◌, length, Ok, Err, IfSome, IfErr, OnOk};
ghost use Rattle.tpm_wire.specs.declared.refusal.Refusal.{Refusal as Fault};
ghost use Rattle.tpm_wire.specs.Reading.{read_all};
ghost use Rattle.tpm_types.specs.declared.command_code.CommandCode.TheVariants as codes;
ghost use Rattle.tpm_commands.specs.declared.command.Params.TheVariants as of_command;
ghost use Rattle.tpm_commands.specs.Parameters.{parameters, params_code};

use tpm_buffer::Areas;
use tpm_commands::{NvRead, Params, decode_params_into, take_startup};
use tpm_types::{CommandCode, Selections, StartupType};
use tpm_wire::response_code::of_parameter;
use tpm_wire::{Cursor, Wire};

// The parameter of TPM2_Startup, where the bytes spell it.
#[inline(always)]
fn startup_kind(bytes: &[u8]) -> Option<StartupType>
    requires { length bytes.now ≤ 4096 }
    ensures { IfSome result (λ kind.
        read_all (parameters codes.Startup) bytes.now ≡ Ok (of_command.Startup kind)) }
{
    let mut cursor = Cursor::new(bytes);
    let kind = take_startup(&mut cursor).ok()?;
    cursor.end().ok()?;
    Some(kind)
}

// The size and the offset of TPM2_NV_Read, where the bytes spell them.
#[inline(always)]
fn nv_read_sizes(bytes: &[u8]) -> Option<NvRead>
    requires { length bytes.now ≤ 4096 }
    ensures { IfSome result (λ x.
        read_all (parameters codes.NvRead) bytes.now ≡ Ok (of_command.NvRead x)) }
{
    let mut cursor = Cursor::new(bytes);
    let sizes = NvRead::take(&mut cursor).ok()?;
    cursor.end().ok()?;
    Some(sizes)
}

/// What TPM2_PCR_Read selects, where the bytes spell it. By `bare` it would go through the room of parameters, and the
/// command take 162 ns.
#[tactic(auto, unfolding(tpm_commands::specs::Commands::Pcr::pcr_read))]
#[inline(always)]
pub(crate) fn selections(bytes: &[u8]) -> Option<Selections>
    requires { length bytes.now ≤ 4096 }
    ensures { IfSome result (λ s.
        read_all (parameters codes.PcrRead) bytes.now ≡ Ok (of_command.PcrRead s)) }
{
    let mut cursor = Cursor::new(bytes);
    cursor.number(of_parameter(1));
    let selections = Selections::take(&mut cursor).ok()?;
    cursor.end().ok()?;
    Some(selections)
}

/// The parameters of a command with this code that has none, of a start, or of NV_Read, where the bytes spell them.
#[inline]
pub(crate) fn bare(code: CommandCode, bytes: &[u8]) -> Option<Params<'static>>
    requires { length bytes.now ≤ 4096 }
    ensures reads { IfSome result (λ p. read_all (parameters code) bytes.now ≡ Ok p) }
    ensures code { IfSome result (λ p. params_code p ≡ code) }
{
    match (code, bytes) {
        (CommandCode::NvUndefineSpace, []) => Some(Params::NvUndefineSpace),
        (CommandCode::NvIncrement, []) => Some(Params::NvIncrement),
        (CommandCode::PcrReset, []) => Some(Params::PcrReset),
        (CommandCode::NvReadPublic, []) => Some(Params::NvReadPublic),
        (CommandCode::PolicyAuthValue, []) => Some(Params::PolicyAuthValue),
        (CommandCode::PolicyRestart, []) => Some(Params::PolicyRestart),
        (CommandCode::PolicyGetDigest, []) => Some(Params::PolicyGetDigest),
        (CommandCode::Startup, _) => Some(Params::Startup(startup_kind(bytes)?)),
        (CommandCode::NvRead, _) => Some(Params::NvRead(nv_read_sizes(bytes)?)),
        _ => None,
    }
}

/// Reads the parameters of a command in the place of others, or answers the code of their first fault. Which are there
/// after a fault is not said.
// What is decoded is a parameter here, and no room of this function. So the toolchain's own compiler, too, leaves the
// decoder out of line, and what that makes is off the stack again.
#[inline]
pub(crate) fn read_params<'a>(areas: &Areas<'a>, params: &mut Params<'a>) -> Result<(), u32>
    ensures read { OnOk result
        (read_all (parameters areas.now.header.code) areas.now.params ≡ Ok params.new) }
    ensures code { OnOk result (params_code params.new ≡ areas.now.header.code) }
    ensures faulty { IfErr result (λ code. (fault : Fault)
        × (read_all (parameters areas.now.header.code) areas.now.params ≡ Err fault)
        × (fault.code ≡ code)) }
{
    match decode_params_into(areas.code(), areas.params(), params) {
        Ok(()) => Ok(()),
        Err(refusal) => Err(refusal.code),
    }
}
