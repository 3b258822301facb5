//! The actions of the commands, from parameters to reply.

ghost use Rattle.std.specs.Prelude.{◌≡◌, true, IfSome, IfNone, OnOk, OnErr};
ghost use Rattle.tpm_commands.specs.Handles.{needs_authorization};
ghost use Rattle.tpm_commands.specs.Parameters.{params_code};
ghost use Rattle.tpm_buffer.specs.Commands.{body_from};
ghost use Rattle.tpm_model.specs.Actions.{action};
ghost use Rattle.tpm_model.specs.Answers.{performed as performed_of};
ghost use Rattle.tpm_device.specs.Stands.{holds};
ghost use Rattle.tpm_device.specs.inner.Actions.{acted, step_of, Steps, IsActed};
ghost use Rattle.tpm_device.specs.inner.Performing.{MayBePerformed, IsPerformed};

use crate::device::Device;
use crate::reading::{bare, read_params, selections};
use crate::reply::ResponseBuffer;
use tpm_buffer::Areas;
use tpm_commands::{
    Params, ReplyBody, bind_in, first_handle, index_in, nv_auth_in, pcr_or_null_in, policy_in,
    register_in, second_handle,
};
use tpm_session::Authorization;
use tpm_types::CommandCode;

// What a reply to a command with this code begins as: an action that answers no more leaves it so,
// since an enum that is assigned is filled to its end.
#[inline(always)]
fn begun(code: CommandCode) -> ReplyBody {
    match code {
        CommandCode::NvUndefineSpace => ReplyBody::NvUndefineSpace,
        CommandCode::NvDefineSpace => ReplyBody::NvDefineSpace,
        CommandCode::NvIncrement => ReplyBody::NvIncrement,
        CommandCode::PcrReset => ReplyBody::PcrReset,
        CommandCode::FlushContext => ReplyBody::FlushContext,
        _ => ReplyBody::Startup,
    }
}

impl Device {
    /// Does what the command of these handles and parameters asks for, and leaves its reply in the body.
    #[inline]
    pub(crate) fn act(
        &mut self,
        handles: &[u32],
        params: &Params<'_>,
        nonce: &[u8; 64],
        body: &mut ReplyBody,
    ) -> Result<(), u32>
        ensures answer { acted body.new result ≡
            action (holds self.old) (body_from handles.now params.now) nonce.now }
        ensures stands { OnOk result
            (Steps self.old self.new
            (step_of (body_from handles.now params.now) body.new nonce.now)) }
        ensures sessions { needs_authorization (params_code params.now) ≡ true →
            self.new.sessions ≡ self.old.sessions }
        ensures refused { OnErr result (self.new ≡ self.old) }
    {
        let first = first_handle(handles);
        let second = second_handle(handles);
        match params {
            Params::Startup(kind) => self.start(*kind, body),
            Params::PcrExtend(digests) => {
                *body = ReplyBody::PcrExtend;
                self.extend(pcr_or_null_in(first), digests)
            }
            Params::PcrEvent(event) => self.event(pcr_or_null_in(first), event, body),
            Params::PcrReset => self.reset(register_in(first), body),
            Params::PcrRead(selections) => {
                self.read_registers(selections, body);
                Ok(())
            }
            Params::StartAuthSession(params) => {
                self.start_session(bind_in(second), params, nonce, body)
            }
            Params::FlushContext(session) => self.flush(*session, body),
            Params::PolicyPcr(asked) => {
                *body = ReplyBody::PolicyPcr;
                self.policy_pcr(policy_in(first), asked)
            }
            Params::PolicyOr(digests) => self.policy_or(policy_in(first), digests, body),
            Params::PolicyCommandCode(code) => {
                self.policy_command_code(policy_in(first), *code, body)
            }
            Params::PolicyAuthValue => self.policy_auth_value(policy_in(first), body),
            Params::PolicyRestart => self.policy_restart(policy_in(first), body),
            Params::PolicyGetDigest => self.policy_digest(policy_in(first), body),
            Params::NvDefineSpace(asked) => self.define(asked, body),
            Params::NvUndefineSpace => self.undefine(index_in(second), body),
            Params::NvIncrement => self.increment(nv_auth_in(first), index_in(second), body),
            Params::NvRead(asked) => {
                self.read_counter(nv_auth_in(first), index_in(second), *asked, body)
            }
            Params::NvReadPublic => self.read_public(index_in(first), body),
        }
    }

    // As `acted`, of parameters that are decoded, whatever they are. It is out of line, so that their room is off the
    // stack before the reply is written. With the decoder out of line too (`read_params`) the deepest stack was 9,656
    // bytes by the toolchain's compiler, in place of 13,552.
    #[inline(never)]
    fn acted_on_decoded(
        &mut self,
        areas: &Areas<'_>,
        nonce: &[u8; 64],
        body: &mut ReplyBody,
    ) -> Result<(), u32>
        ensures { IsActed areas.now
            (record {
              old = self.old;
              nonce = nonce.now;
              reply = body.new;
              new = self.new;
            }) result }
    {
        let mut params = Params::PolicyRestart;
        match read_params(areas, &mut params) {
            Ok(()) => self.act(areas.handles(), &params, nonce, body),
            Err(code) => Err(code),
        }
    }

    // As `acted`, of parameters that are read by value; and otherwise nothing is done. It is out of line, so that what
    // it makes is off the stack before the longest parameters are decoded.
    #[inline(never)]
    fn acted_on_few(
        &mut self,
        areas: &Areas<'_>,
        nonce: &[u8; 64],
        body: &mut ReplyBody,
    ) -> Option<Result<(), u32>>
        ensures some { IfSome result (λ given. IsActed areas.now
            (record {
              old = self.old;
              nonce = nonce.now;
              reply = body.new;
              new = self.new;
            }) given) }
        ensures none { IfNone result (self.new ≡ self.old) }
    {
        if matches!(areas.code(), CommandCode::PcrRead) {
            let selections = selections(areas.params())?;
            self.read_registers(&selections, body);
            return Some(Ok(()));
        }
        match bare(areas.code(), areas.params()) {
            Some(params) => Some(self.act(areas.handles(), &params, nonce, body)),
            None => None,
        }
    }

    // The parameters and the action, which leaves its reply in the body.
    #[inline(always)]
    fn acted(
        &mut self,
        areas: &Areas<'_>,
        nonce: &[u8; 64],
        body: &mut ReplyBody,
    ) -> Result<(), u32>
        ensures { IsActed areas.now
            (record {
              old = self.old;
              nonce = nonce.now;
              reply = body.new;
              new = self.new;
            }) result }
    {
        match self.acted_on_few(areas, nonce, body) {
            Some(given) => given,
            None => self.acted_on_decoded(areas, nonce, body),
        }
    }

    // The parameters, the action, which leaves its reply in a body, and the reply, after which the nonce of the
    // command's first session rolls.
    #[inline(never)]
    pub(crate) fn performed_by_action(
        &mut self,
        areas: &Areas<'_>,
        by: &Option<Authorization<'_, '_>>,
        nonce: &[u8; 64],
        out: &mut ResponseBuffer,
    ) -> Result<(), u32>
        requires { MayBePerformed self.old areas.now by.now out.old }
        ensures { IsPerformed areas.now (performed_of (holds self.old) nonce.now)
            (record { device = self.old; nonce = nonce.now; out = out.old })
            (record { result = result; device = self.new; out = out.new }) }
    {
        let mut body = begun(areas.code());
        self.acted(areas, nonce, &mut body)?;
        self.put_done(&body, areas, by, nonce, out);
        self.roll(by, nonce);
        Ok(())
    }
}
