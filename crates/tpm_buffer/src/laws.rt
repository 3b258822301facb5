//! What holds of commands and responses in bytes.

ghost use Rattle.std.specs.Prelude.{◌≡◌, ◌-◌, List, [], ◌++◌, ℕ, length};
ghost use Rattle.tpm_wire.specs.declared.refusal.Refusal.{Refusal};
ghost use Rattle.tpm_wire.specs.Layout.{cut};
ghost use Rattle.tpm_wire.specs.Buffers.{later_refusal};
ghost use Rattle.tpm_wire.specs.Path.{ExactlyOne, Fault, Spells};
ghost use Rattle.tpm_types.specs.declared.command_code.CommandCode.{CommandCode};
ghost use Rattle.tpm_commands.specs.declared.command.Command.{Command};
ghost use Rattle.tpm_commands.specs.declared.response.Response.{Response};
ghost use Rattle.tpm_commands.specs.declared.command.Params.{Params};
ghost use Rattle.tpm_commands.specs.Parameters.{parameters};
ghost use Rattle.tpm_buffer.specs.Commands.{body_from, with_auths, header, front, Checked, before_params, command};
ghost use Rattle.tpm_buffer.specs.Responses.{response, ReplyCut, reply_cut};
ghost use Rattle.tpm_buffer.specs.ResponseAreas.{IsCutOf};

/// One reading: bytes spell one command, all of them, or have one fault.
pub fn command_or_fault()
    ensures { (bytes : List ℕ) → ExactlyOne command bytes }
{}

/// One reading: no command's spelling is the beginning of another's.
pub fn no_prefix()
    ensures { (bytes more : List ℕ) (c d : Command) → Spells command c bytes
        → Spells command d (bytes ++ more) → more ≡ [] }
{}

/// A fault of a cut before the parameters is the whole command's, with the same code and position.
pub fn fault_before_params()
    ensures header { (bytes : List ℕ) (e : Refusal) → Fault (cut header) bytes e
        → Fault command bytes e }
    ensures handles { (bytes : List ℕ) (e : Refusal) → Fault (cut front) bytes e
        → Fault command bytes e }
    ensures sessions { (bytes : List ℕ) (e : Refusal) → Fault (cut before_params) bytes e
        → Fault command bytes e }
{}

/// What the parameters alone are, the whole command is: the command of those parameters, or their fault, further on by
/// the bytes before the parameters.
pub fn parameters_in_command()
    ensures value { (bytes rest : List ℕ) (x : Checked) (p : Params)
        → Spells (cut before_params) (x, rest) bytes → Spells (parameters x.header.code) p rest
        → Spells command (with_auths (body_from x.handles p) x.auths) bytes }
    ensures fault { (bytes rest : List ℕ) (x : Checked) (e : Refusal)
        → Spells (cut before_params) (x, rest) bytes → Fault (parameters x.header.code) rest e
        → Fault command bytes (later_refusal (length bytes - length rest) e) }
{}

/// One reading: bytes spell one response to a command with a given code, all of them, or have one fault.
pub fn response_or_fault()
    ensures { (code : CommandCode) (bytes : List ℕ) → ExactlyOne (response code) bytes }
{}

/// One reading: no response's spelling is the beginning of that of another response to a command with the same code.
pub fn no_response_prefix()
    ensures { (code : CommandCode) (bytes more : List ℕ) (r q : Response)
        → Spells (response code) r bytes → Spells (response code) q (bytes ++ more) → more ≡ [] }
{}

/// Bytes that spell a response have its areas: its code, its handle, its sessions, and bytes that spell its parameters.
pub fn areas_of_a_response()
    ensures { (code : CommandCode) (bytes : List ℕ) (r : Response) → Spells (response code) r bytes
        → (c : ReplyCut) × Spells (reply_cut code) c bytes × IsCutOf r c }
{}
