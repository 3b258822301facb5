//! What the commands on registers do (Part 3, 9.3 and 22), and TPM2_PCR_Extend from parameters to reply.

ghost use Rattle.std.specs.Prelude.{◌≡◌, ℕ, List, Ok, OnOk, OnErr, ◌≤◌, length};
ghost use Rattle.tpm_commands.specs.declared.command.CommandBody.TheVariants as bodies;
ghost use Rattle.tpm_commands.specs.declared.command.ReplyBody.TheVariants as replies;
ghost use Rattle.tpm_model.specs.Actions.{action};
ghost use Rattle.tpm_device.specs.Stands.{holds};
ghost use Rattle.tpm_device.specs.inner.Actions.{acted, step_of, Steps};
ghost use Rattle.tpm_wire.specs.Reading.{read_all, Gives};
ghost use Rattle.tpm_types.specs.declared.command_code.CommandCode.TheVariants as codes;
ghost use Rattle.tpm_commands.specs.declared.command.Params.TheVariants as of_command;
ghost use Rattle.tpm_commands.specs.Parameters.{parameters};
ghost use Rattle.tpm_model.specs.Answers.{performed as performed_of};
ghost use Rattle.tpm_device.specs.inner.Performing.{MayBePerformed, IsPerformed};

use crate::device::Device;
use crate::reply::ResponseBuffer;
use tpm_buffer::Areas;
use tpm_commands::{Event, ReplyBody, first_handle, pcr_or_null_in, read_pcr_extend};
use tpm_pcr::event_digests;
use tpm_session::Authorization;
use tpm_types::{DigestValues, Digests, PcrIndex, PcrOrNull, Selections, StartupType};
use tpm_wire::response_code::{VALUE, of_parameter};
use tpm_wire::{Cursor, Refusal};

// Reads the digests, or answers their first fault.
fn decode_digests(bytes: &[u8], digests: &mut DigestValues) -> Result<(), Refusal>
    requires { length bytes.now ≤ 4096 }
    ensures { Gives (λ _. of_command.PcrExtend digests.new)
        (read_all (parameters codes.PcrExtend) bytes.now) result }
{
    let mut cursor = Cursor::new(bytes);
    read_pcr_extend(&mut cursor, digests)?;
    cursor.end()?;
    Ok(())
}

impl Device {
    // TPM2_Startup (Part 3, 9.3).
    pub(crate) fn start(&mut self, kind: StartupType, body: &mut ReplyBody) -> Result<(), u32>
        ensures answer { (n : List ℕ) →
            acted body.new result ≡ action (holds self.old) (bodies.Startup kind) n }
        ensures stands { (n : List ℕ) →
            OnOk result (Steps self.old self.new (step_of (bodies.Startup kind) body.new n)) }
        ensures refused { OnErr result (self.new ≡ self.old) }
    {
        if !matches!(body, ReplyBody::Startup) {
            *body = ReplyBody::Startup;
        }
        match kind {
            StartupType::Clear => {
                self.started = true;
                self.registers.restart();
                self.sessions.clear();
                Ok(())
            }
            StartupType::State => Err(VALUE + of_parameter(1)),
        }
    }

    // TPM2_PCR_Extend (Part 3, 22.2).
    pub(crate) fn extend(&mut self, register: PcrOrNull, digests: &DigestValues) -> Result<(), u32>
        ensures answer { (n : List ℕ) →
            acted replies.PcrExtend result ≡
            action (holds self.old) (bodies.PcrExtend register digests.now) n }
        ensures stands { (n : List ℕ) →
            OnOk result
            (Steps self.old self.new
            (step_of (bodies.PcrExtend register digests.now) replies.PcrExtend n)) }
        ensures sessions { self.new.sessions ≡ self.old.sessions }
        ensures refused { OnErr result (self.new ≡ self.old) }
    {
        match register {
            PcrOrNull::Pcr(register) => self.registers.extend(register, digests),
            PcrOrNull::Null => Ok(()),
        }
    }

    // TPM2_PCR_Event (Part 3, 22.3).
    #[inline(never)]
    pub(crate) fn event(
        &mut self,
        register: PcrOrNull,
        event: &Event<'_>,
        body: &mut ReplyBody,
    ) -> Result<(), u32>
        ensures answer { (n : List ℕ) →
            acted body.new result ≡ action (holds self.old) (bodies.PcrEvent register event.now) n }
        ensures stands { (n : List ℕ) →
            OnOk result (Steps self.old self.new
            (step_of (bodies.PcrEvent register event.now) body.new n)) }
        ensures sessions { self.new.sessions ≡ self.old.sessions }
        ensures refused { OnErr result (self.new ≡ self.old) }
    {
        let digests = match register {
            PcrOrNull::Pcr(register) => self.registers.event(register, event.as_slice())?,
            PcrOrNull::Null => event_digests(event.as_slice()),
        };
        *body = ReplyBody::PcrEvent(digests);
        Ok(())
    }

    // TPM2_PCR_Reset (Part 3, 22.8).
    pub(crate) fn reset(&mut self, register: PcrIndex, body: &mut ReplyBody) -> Result<(), u32>
        ensures answer { (n : List ℕ) →
            acted body.new result ≡ action (holds self.old) (bodies.PcrReset register) n }
        ensures stands { (n : List ℕ) →
            OnOk result (Steps self.old self.new
            (step_of (bodies.PcrReset register) body.new n)) }
        ensures sessions { self.new.sessions ≡ self.old.sessions }
        ensures refused { OnErr result (self.new ≡ self.old) }
    {
        if !matches!(body, ReplyBody::PcrReset) {
            *body = ReplyBody::PcrReset;
        }
        self.registers.reset(register)
    }

    // TPM2_PCR_Read (Part 3, 22.4).
    #[inline(never)]
    pub(crate) fn read_registers(&self, selections: &Selections, body: &mut ReplyBody)
        ensures { (n : List ℕ) →
            Ok body.new ≡ action (holds self.now) (bodies.PcrRead selections.now) n }
    {
        *body = ReplyBody::PcrRead {
            update_counter: self.registers.update_counter(),
            selections: Selections::default(),
            digests: Digests::default(),
        };
        if let ReplyBody::PcrRead {
            selections: read,
            digests,
            ..
        } = body
        {
            self.registers.select_into(selections, read, digests);
        }
    }

    /// As `performed_by_action`, where the command is TPM2_PCR_Extend. Neither its parameters nor its reply go through
    /// the room of the longest, which would be filled to its end: it takes 886 ns so, and 954 by the common way.
    #[inline(never)]
    pub(crate) fn performed_extending(
        &mut self,
        areas: &Areas<'_>,
        by: &Option<Authorization<'_, '_>>,
        nonce: &[u8; 64],
        out: &mut ResponseBuffer,
    ) -> Result<(), u32>
        requires extends { areas.now.header.code ≡ codes.PcrExtend }
        requires ready { MayBePerformed self.old areas.now by.now out.old }
        ensures { IsPerformed areas.now (performed_of (holds self.old) nonce.now)
            (record { device = self.old; nonce = nonce.now; out = out.old })
            (record { result = result; device = self.new; out = out.new }) }
    {
        let mut digests = DigestValues::default();
        match decode_digests(areas.params(), &mut digests) {
            Ok(()) => {}
            Err(refusal) => return Err(refusal.code),
        }
        let register = pcr_or_null_in(first_handle(areas.handles()));
        self.extend(register, &digests)?;
        self.put_bare(areas, by, nonce, out);
        self.roll(by, nonce);
        Ok(())
    }
}
