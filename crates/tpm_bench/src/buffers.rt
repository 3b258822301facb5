//! Commands and responses.

ghost use Rattle.std.specs.Prelude.{◌≡◌, ◌≤◌, ◌⊎◌, length, take};
ghost use Rattle.tpm_wire.specs.Path.{Spells, Fault};
ghost use Rattle.tpm_wire.specs.declared.refusal.Refusal.{Refusal as RefusalOf};
ghost use Rattle.tpm_types.specs.declared.command_code.CommandCode.TheVariants as codes;
ghost use Rattle.tpm_commands.specs.declared.command.Command.{Command as CommandOf};
ghost use Rattle.tpm_commands.specs.declared.response.Response.{Response as ResponseOf};
ghost use Rattle.tpm_buffer.specs.Commands.{command as command_layout};
ghost use Rattle.tpm_buffer.specs.Responses.{response as response_layout};

use crate::out::append;
use tpm_buffer::{decode_command, decode_response, encode_command};
use tpm_commands::Command;
use tpm_types::CommandCode;

/// Decodes the command, and answers 0, or the code of its fault.
#[unsafe(no_mangle)]
pub extern "C" fn tpm_bench_decode_command(bytes: &[u8]) -> u32
    ensures { ((c : CommandOf) × Spells command_layout c bytes.now × (result ≡ 0))
        ⊎ ((e : RefusalOf) × Fault command_layout bytes.now e × (result ≡ e.code)) }
{
    match decode_command(bytes) {
        Ok(_) => 0,
        Err(refusal) => refusal.code,
    }
}

/// Decodes the response to a PCR_Read, and answers 0, or the code of its fault.
#[unsafe(no_mangle)]
pub extern "C" fn tpm_bench_decode_pcr_read_reply(bytes: &[u8]) -> u32
    ensures { ((r : ResponseOf) × Spells (response_layout codes.PcrRead) r bytes.now × (result ≡ 0))
        ⊎ ((e : RefusalOf)
        × Fault (response_layout codes.PcrRead) bytes.now e × (result ≡ e.code)) }
{
    match decode_response(CommandCode::PcrRead, bytes) {
        Ok(_) => 0,
        Err(refusal) => refusal.code,
    }
}

/// Decodes the command once, and encodes it so many times, at least once, each time to the
/// beginning of `out`. It answers the number of its bytes, or 0 where there is no command.
#[unsafe(no_mangle)]
pub extern "C" fn tpm_bench_encode_command(bytes: &[u8], times: u32, out: &mut [u8]) -> usize
    requires { 4096 ≤ length out.old }
    ensures { ((c : CommandOf)
        × Spells command_layout c bytes.now × Spells command_layout c (take result out.new))
        ⊎ ((e : RefusalOf) × Fault command_layout bytes.now e × (result ≡ 0)) }
{
    match decode_command(bytes) {
        Ok(command) => encode(&command, times, out),
        Err(_) => 0,
    }
}

// Encodes the command so many times.
fn encode(command: &Command<'_>, times: u32, out: &mut [u8]) -> usize
    requires { 4096 ≤ length out.old }
    ensures { Spells command_layout command.now (take result out.new) }
{
    for _ in 1..times {
        put(command, out);
    }
    put(command, out)
}

// Encodes it once.
#[inline(never)]
fn put(command: &Command<'_>, out: &mut [u8]) -> usize
    requires { 4096 ≤ length out.old }
    ensures spelled { Spells command_layout command.now (take result out.new) }
    ensures room { length out.new ≡ length out.old }
{
    let encoded = encode_command(command);
    append(out, 0, encoded.as_slice())
}
