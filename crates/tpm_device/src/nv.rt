//! What the commands on NV counters do (Part 3, 31).

ghost use Rattle.std.specs.Prelude.{◌≡◌, ℕ, List, OnOk, OnErr};
ghost use Rattle.tpm_commands.specs.declared.command.CommandBody.TheVariants as bodies;
ghost use Rattle.tpm_model.specs.Actions.{action};
ghost use Rattle.tpm_device.specs.Stands.{holds};
ghost use Rattle.tpm_device.specs.inner.Actions.{acted, step_of, Steps};

use crate::device::Device;
use tpm_commands::{NvData, NvDefineSpace, NvRead, ReplyBody};
use tpm_nv::By;
use tpm_types::NvIndex;
use tpm_wire::response_code::HANDLE;

impl Device {
    // TPM2_NV_DefineSpace (Part 3, 31.3).
    #[inline(never)]
    pub(crate) fn define(&mut self, asked: &NvDefineSpace, body: &mut ReplyBody) -> Result<(), u32>
        ensures answer { (n : List ℕ) →
            acted body.new result ≡ action (holds self.old) (bodies.NvDefineSpace asked.now) n }
        ensures stands { (n : List ℕ) →
            OnOk result
            (Steps self.old self.new (step_of (bodies.NvDefineSpace asked.now) body.new n)) }
        ensures sessions { self.new.sessions ≡ self.old.sessions }
        ensures refused { OnErr result (self.new ≡ self.old) }
    {
        if !matches!(body, ReplyBody::NvDefineSpace) {
            *body = ReplyBody::NvDefineSpace;
        }
        self.counters.define(&asked.public, asked.auth.as_slice())
    }

    // TPM2_NV_UndefineSpace (Part 3, 31.4).
    pub(crate) fn undefine(&mut self, index: NvIndex, body: &mut ReplyBody) -> Result<(), u32>
        ensures answer { (n : List ℕ) →
            acted body.new result ≡ action (holds self.old) (bodies.NvUndefineSpace index) n }
        ensures stands { (n : List ℕ) →
            OnOk result (Steps self.old self.new
            (step_of (bodies.NvUndefineSpace index) body.new n)) }
        ensures sessions { self.new.sessions ≡ self.old.sessions }
        ensures refused { OnErr result (self.new ≡ self.old) }
    {
        if !matches!(body, ReplyBody::NvUndefineSpace) {
            *body = ReplyBody::NvUndefineSpace;
        }
        self.counters.undefine(index)
    }

    // TPM2_NV_Increment (Part 3, 31.8).
    pub(crate) fn increment(
        &mut self,
        by: By,
        index: NvIndex,
        body: &mut ReplyBody,
    ) -> Result<(), u32>
        ensures answer { (n : List ℕ) →
            acted body.new result ≡ action (holds self.old) (bodies.NvIncrement by index) n }
        ensures stands { (n : List ℕ) →
            OnOk result (Steps self.old self.new
            (step_of (bodies.NvIncrement by index) body.new n)) }
        ensures sessions { self.new.sessions ≡ self.old.sessions }
        ensures refused { OnErr result (self.new ≡ self.old) }
    {
        if !matches!(body, ReplyBody::NvIncrement) {
            *body = ReplyBody::NvIncrement;
        }
        self.counters.increment(index, by)?;
        Ok(())
    }

    // TPM2_NV_Read (Part 3, 31.13).
    pub(crate) fn read_counter(
        &self,
        by: By,
        index: NvIndex,
        asked: NvRead,
        body: &mut ReplyBody,
    ) -> Result<(), u32>
        ensures { (n : List ℕ) →
            acted body.new result ≡ action (holds self.now) (bodies.NvRead by index asked) n }
    {
        *body = ReplyBody::NvRead(NvData::default());
        if let ReplyBody::NvRead(bytes) = body {
            *bytes = self.counters.read(index, by, asked.size, asked.offset)?;
        }
        Ok(())
    }

    // TPM2_NV_ReadPublic (Part 3, 31.6).
    #[inline(never)]
    pub(crate) fn read_public(&self, index: NvIndex, body: &mut ReplyBody) -> Result<(), u32>
        ensures { (n : List ℕ) →
            acted body.new result ≡ action (holds self.now) (bodies.NvReadPublic index) n }
    {
        match (self.counters.public(index), self.counters.name(index)) {
            (Some(public), Some(name)) => {
                *body = ReplyBody::NvReadPublic { public, name };
                Ok(())
            }
            (None, _) | (_, None) => Err(HANDLE),
        }
    }
}
