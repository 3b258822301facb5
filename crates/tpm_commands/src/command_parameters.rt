//! A command's parameters alone (Part 3).

ghost use Rattle.std.specs.Prelude.{◌≡◌, ◌≤◌, length, ℕ, IfOk, OnOk};
ghost use Rattle.tpm_wire.specs.Path.{Decodes};
ghost use Rattle.tpm_wire.specs.Reading.{read_all};
ghost use Rattle.tpm_wire.specs.Spelling.{spelling, Fits};
ghost use Rattle.tpm_types.specs.declared.command_code.CommandCode.TheVariants as codes;
ghost use Rattle.tpm_commands.specs.declared.command.Params.TheVariants as params;
ghost use Rattle.tpm_commands.specs.Limits.{most_params};
ghost use Rattle.tpm_commands.specs.Parameters.{parameters, params_code, placed};

use crate::command::Params;
use crate::commands::StartParams;
use tpm_types::CommandCode;
use tpm_wire::{Cursor, Refusal};

/// The parameters that the bytes spell, all of them, or the code and the position of their first fault, counted from
/// the first of these bytes: INSUFFICIENT, VALUE, SIZE, HASH, SYMMETRIC, MODE or RESERVED_BITS with the parameter's
/// number, or SIZE for bytes left over.
pub fn decode_params(code: CommandCode, bytes: &[u8]) -> Result<Params<'_>, Refusal>
    ensures decodes { Decodes (parameters code) (λ p. p) bytes.now result }
    ensures reads { result ≡ read_all (parameters code) bytes.now }
    ensures spelled { IfOk result (λ p. bytes.now ≡ spelling (parameters code) p) }
    ensures fits { IfOk result (λ p. (left : ℕ) → Fits left (parameters code) p) }
    ensures few { IfOk result (λ _. length bytes.now ≤ most_params) }
    ensures code { IfOk result (λ p. params_code p ≡ code) }
{
    let mut params = Params::PolicyRestart;
    decode_params_into(code, bytes, &mut params)?;
    Ok(params)
}

/// As `decode_params`, in the place of other parameters. Which are there after a fault is not said.
pub fn decode_params_into<'a>(
    code: CommandCode,
    bytes: &'a [u8],
    params: &mut Params<'a>,
) -> Result<(), Refusal>
    ensures decodes { Decodes (parameters code) (λ p. p) bytes.now (placed params.new result) }
    ensures reads { placed params.new result ≡ read_all (parameters code) bytes.now }
    ensures spelled { OnOk result (bytes.now ≡ spelling (parameters code) params.new) }
    ensures fits { OnOk result ((left : ℕ) → Fits left (parameters code) params.new) }
    ensures few { OnOk result (length bytes.now ≤ most_params) }
    ensures code { OnOk result (params_code params.new ≡ code) }
{
    let mut cursor = Cursor::of_whole(bytes);
    params.read(&mut cursor, code)?;
    params.have_spelling();
    cursor.end_of_whole(bytes)
}

/// As `decode_params_into` of TPM2_StartAuthSession (Part 3, 11.1), in the place of others of the same command. Which
/// are there after a fault is not said.
pub fn decode_start_into(bytes: &[u8], start: &mut StartParams) -> Result<(), Refusal>
    ensures { placed (params.StartAuthSession start.new) result
        ≡ read_all (parameters codes.StartAuthSession) bytes.now }
{
    let mut cursor = Cursor::of_whole(bytes);
    start.read(&mut cursor)?;
    cursor.end_of_whole(bytes)
}
