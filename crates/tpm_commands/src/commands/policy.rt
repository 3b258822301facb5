//! The commands of policies (Part 3, 23).

ghost use Rattle.std.specs.Prelude.{◌≡◌, ◌≤◌, ◌+◌, ◌++◌, length, ℕ, OnOk};
ghost use Rattle.tpm_wire.specs.Spelling.{spelling, Fits};
ghost use Rattle.tpm_wire.specs.Buffers.{TakesNumbered};
ghost use Rattle.tpm_commands.specs.Limits.{most_params};
ghost use Rattle.tpm_commands.specs.declared.command.Params.TheVariants as params;
ghost use Rattle.tpm_commands.specs.Commands.Policy.{policy_pcr};

use crate::commands::read_parameter;
use tpm_types::{Digest, Selections};
use tpm_wire::{Cursor, Refusal, Room, Wire};

// ---- TPM2_PolicyPCR (23.7)

/// The parameters of TPM2_PolicyPCR.
#[derive(Default, Drop)]
pub struct PolicyPcr {
    pub pcr_digest: Digest,
    pub selections: Selections,
}

#[tactic(auto, unfolding(crate::specs::Commands::Policy::policy_pcr))]
impl PolicyPcr {
    pub(crate) fn read(&mut self, cursor: &mut Cursor<'_>) -> Result<(), Refusal>
        ensures reads { TakesNumbered (λ _. params.PolicyPcr self.new) policy_pcr
            cursor.old cursor.new result }
        ensures spelled { OnOk result
            (cursor.old.here.rest
            ≡ spelling policy_pcr (params.PolicyPcr self.new) ++ cursor.new.here.rest) }
    {
        read_parameter(cursor, 1, &mut self.pcr_digest)?;
        read_parameter(cursor, 2, &mut self.selections)
    }

    #[inline(always)]
    pub(crate) fn has_spelling(&self)
        ensures { (left : ℕ) → Fits left policy_pcr (params.PolicyPcr self.now) }
    {
        self.pcr_digest.has_spelling();
        self.selections.has_spelling();
    }

    #[inline(always)]
    pub(crate) fn len(&self) -> usize
        ensures value { result ≡ length (spelling policy_pcr (params.PolicyPcr self.now)) }
        ensures fits { result ≤ most_params }
        ensures spelled { (left : ℕ) → Fits left policy_pcr (params.PolicyPcr self.now) }
    {
        self.has_spelling();
        self.pcr_digest.len() + self.selections.len()
    }

    #[inline(always)]
    pub(crate) fn put<R: Room>(&self, out: &mut R)
        requires { length (R.written out.old)
            + length (spelling policy_pcr (params.PolicyPcr self.now))
            ≤ R.size }
        ensures { R.written out.new
            ≡ R.written out.old ++ spelling policy_pcr (params.PolicyPcr self.now) }
    {
        self.pcr_digest.put(out);
        self.selections.put(out);
    }
}
