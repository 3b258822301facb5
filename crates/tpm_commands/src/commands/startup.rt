//! The command of start-up (Part 3, 9).

ghost use Rattle.std.specs.Prelude.{◌≡◌, ◌++◌, IfOk};
ghost use Rattle.tpm_wire.specs.Spelling.{spelling};
ghost use Rattle.tpm_wire.specs.Buffers.{TakesNumbered};
ghost use Rattle.tpm_commands.specs.declared.command.Params.TheVariants as params;
ghost use Rattle.tpm_commands.specs.Commands.Startup.{startup};

use crate::commands::take_parameter;
use tpm_types::StartupType;
use tpm_wire::{Cursor, Refusal};

// ---- TPM2_Startup (9.3)

/// The start-up type of TPM2_Startup that is read, or its first fault: INSUFFICIENT or VALUE with the parameter's
/// number.
#[tactic(auto, unfolding(crate::specs::Commands::Startup::startup))]
pub fn take_startup(cursor: &mut Cursor<'_>) -> Result<StartupType, Refusal>
    ensures reads { TakesNumbered (λ kind. params.Startup kind) startup
        cursor.old cursor.new result }
    ensures spelled { IfOk result
        (λ kind. cursor.old.here.rest
        ≡ spelling startup (params.Startup kind) ++ cursor.new.here.rest) }
{
    take_parameter(cursor, 1)
}
