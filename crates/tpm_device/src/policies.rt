//! What the policy commands do (Part 3, 11.2 and 23), and TPM2_PolicyPCR from parameters to reply.

ghost use Rattle.std.specs.Prelude.{◌≡◌, ℕ, List, Ok, Err, IfOk, IfErr, OnOk, OnErr};
ghost use Rattle.tpm_commands.specs.declared.command.CommandBody.TheVariants as bodies;
ghost use Rattle.tpm_commands.specs.declared.command.ReplyBody.TheVariants as replies;
ghost use Rattle.tpm_model.specs.Actions.{action};
ghost use Rattle.tpm_device.specs.Stands.{holds};
ghost use Rattle.tpm_device.specs.inner.Actions.{acted, step_of, Steps};
ghost use Rattle.tpm_wire.specs.declared.refusal.Refusal.{Refusal as Fault};
ghost use Rattle.tpm_wire.specs.Reading.{read_all};
ghost use Rattle.tpm_types.specs.declared.command_code.CommandCode.TheVariants as codes;
ghost use Rattle.tpm_commands.specs.declared.command.Params.TheVariants as of_command;
ghost use Rattle.tpm_commands.specs.Parameters.{parameters};
ghost use Rattle.tpm_model.specs.Answers.{performed as performed_of};
ghost use Rattle.tpm_device.specs.inner.Performing.{MayBePerformed, IsPerformed};

use crate::device::Device;
use crate::reading::read_params;
use crate::reply::ResponseBuffer;
use tpm_buffer::Areas;
use tpm_commands::{Params, PolicyPcr, ReplyBody, first_handle, policy_in};
use tpm_session::Authorization;
use tpm_types::{OrDigests, PolicyHandle};

// The digest and the registers that are asserted, or the code of the parameters' first fault.
#[inline(never)]
fn asserted_in(areas: &Areas<'_>) -> Result<PolicyPcr, u32>
    requires { areas.now.header.code ≡ codes.PolicyPcr }
    ensures read { IfOk result (λ x.
        read_all (parameters codes.PolicyPcr) areas.now.params
        ≡ Ok (of_command.PolicyPcr x)) }
    ensures faulty { IfErr result (λ code. (fault : Fault)
        × (read_all (parameters codes.PolicyPcr) areas.now.params ≡ Err fault)
        × (fault.code ≡ code)) }
{
    let mut params = Params::PolicyRestart;
    match read_params(areas, &mut params) {
        Ok(()) => match params {
            Params::PolicyPcr(asked) => Ok(asked),
            _ => unreachable!(),
        },
        Err(code) => Err(code),
    }
}

impl Device {
    // TPM2_PolicyPCR (Part 3, 23.7).
    #[inline(never)]
    pub(crate) fn policy_pcr(&mut self, session: PolicyHandle, asked: &PolicyPcr) -> Result<(), u32>
        ensures answer { (n : List ℕ) →
            acted replies.PolicyPcr result ≡
            action (holds self.old) (bodies.PolicyPcr session asked.now) n }
        ensures stands { (n : List ℕ) →
            OnOk result
            (Steps self.old self.new
            (step_of (bodies.PolicyPcr session asked.now) replies.PolicyPcr n)) }
        ensures refused { OnErr result (self.new ≡ self.old) }
    {
        self.sessions.policy_pcr(
            session,
            &asked.pcr_digest,
            &asked.selections,
            &self.registers,
        )?;
        Ok(())
    }

    // TPM2_PolicyOR (Part 3, 23.6).
    pub(crate) fn policy_or(
        &mut self,
        session: PolicyHandle,
        digests: &OrDigests,
        body: &mut ReplyBody,
    ) -> Result<(), u32>
        ensures answer { (n : List ℕ) →
            acted body.new result ≡
            action (holds self.old) (bodies.PolicyOr session digests.now) n }
        ensures stands { (n : List ℕ) →
            OnOk result (Steps self.old self.new
            (step_of (bodies.PolicyOr session digests.now) body.new n)) }
        ensures refused { OnErr result (self.new ≡ self.old) }
    {
        *body = ReplyBody::PolicyOr;
        self.sessions.policy_or(session, digests)?;
        Ok(())
    }

    // TPM2_PolicyCommandCode (Part 3, 23.11).
    pub(crate) fn policy_command_code(
        &mut self,
        session: PolicyHandle,
        code: u32,
        body: &mut ReplyBody,
    ) -> Result<(), u32>
        ensures answer { (n : List ℕ) →
            acted body.new result ≡
            action (holds self.old) (bodies.PolicyCommandCode session code) n }
        ensures stands { (n : List ℕ) →
            OnOk result
            (Steps self.old self.new
            (step_of (bodies.PolicyCommandCode session code) body.new n)) }
        ensures refused { OnErr result (self.new ≡ self.old) }
    {
        *body = ReplyBody::PolicyCommandCode;
        self.sessions.policy_command_code(session, code)?;
        Ok(())
    }

    // TPM2_PolicyAuthValue (Part 3, 23.17).
    pub(crate) fn policy_auth_value(
        &mut self,
        session: PolicyHandle,
        body: &mut ReplyBody,
    ) -> Result<(), u32>
        ensures answer { (n : List ℕ) →
            acted body.new result ≡ action (holds self.old) (bodies.PolicyAuthValue session) n }
        ensures stands { (n : List ℕ) →
            OnOk result (Steps self.old self.new
            (step_of (bodies.PolicyAuthValue session) body.new n)) }
        ensures refused { OnErr result (self.new ≡ self.old) }
    {
        *body = ReplyBody::PolicyAuthValue;
        self.sessions.policy_auth_value(session)?;
        Ok(())
    }

    // TPM2_PolicyRestart (Part 3, 11.2).
    pub(crate) fn policy_restart(
        &mut self,
        session: PolicyHandle,
        body: &mut ReplyBody,
    ) -> Result<(), u32>
        ensures answer { (n : List ℕ) →
            acted body.new result ≡ action (holds self.old) (bodies.PolicyRestart session) n }
        ensures stands { (n : List ℕ) →
            OnOk result (Steps self.old self.new
            (step_of (bodies.PolicyRestart session) body.new n)) }
        ensures refused { OnErr result (self.new ≡ self.old) }
    {
        *body = ReplyBody::PolicyRestart;
        self.sessions.restart(session)?;
        Ok(())
    }

    // TPM2_PolicyGetDigest (Part 3, 23.19).
    #[inline(never)]
    pub(crate) fn policy_digest(
        &self,
        session: PolicyHandle,
        body: &mut ReplyBody,
    ) -> Result<(), u32>
        ensures { (n : List ℕ) →
            acted body.new result ≡ action (holds self.now) (bodies.PolicyGetDigest session) n }
    {
        *body = ReplyBody::PolicyGetDigest(self.sessions.policy_digest(session)?);
        Ok(())
    }

    /// As `performed_by_action`, where the command is TPM2_PolicyPCR. The room of neither its parameters nor its reply
    /// is on the stack while the registers are hashed: by the common way the deepest stack by LLVM is 360 bytes more.
    #[inline(never)]
    pub(crate) fn performed_asserting(
        &mut self,
        areas: &Areas<'_>,
        by: &Option<Authorization<'_, '_>>,
        nonce: &[u8; 64],
        out: &mut ResponseBuffer,
    ) -> Result<(), u32>
        requires asserts { areas.now.header.code ≡ codes.PolicyPcr }
        requires ready { MayBePerformed self.old areas.now by.now out.old }
        ensures { IsPerformed areas.now (performed_of (holds self.old) nonce.now)
            (record { device = self.old; nonce = nonce.now; out = out.old })
            (record { result = result; device = self.new; out = out.new }) }
    {
        let asserted = asserted_in(areas)?;
        let session = policy_in(first_handle(areas.handles()));
        self.policy_pcr(session, &asserted)?;
        self.put_bare(areas, by, nonce, out);
        self.roll(by, nonce);
        Ok(())
    }
}
