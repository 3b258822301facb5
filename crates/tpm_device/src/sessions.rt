//! What the commands on sessions do (Part 3, 11.1 and 28.4), and TPM2_StartAuthSession from parameters to reply.

ghost use Rattle.std.specs.Prelude.{◌≡◌, ℕ, List, length, Ok, Err, IfOk, IfErr, OnOk, OnErr};
ghost use Rattle.tpm_commands.specs.declared.command.CommandBody.TheVariants as bodies;
ghost use Rattle.tpm_commands.specs.declared.command.ReplyBody.TheVariants as replies;
ghost use Rattle.tpm_model.specs.Actions.{action};
ghost use Rattle.tpm_session.specs.Answers.{started_reply};
ghost use Rattle.tpm_device.specs.Stands.{holds};
ghost use Rattle.tpm_device.specs.inner.Actions.{acted, step_of, Steps};
ghost use Rattle.tpm_wire.specs.declared.refusal.Refusal.{Refusal as Fault};
ghost use Rattle.tpm_wire.specs.Reading.{read_all};
ghost use Rattle.tpm_types.specs.declared.command_code.CommandCode.TheVariants as codes;
ghost use Rattle.tpm_commands.specs.declared.command.Params.{Params as ParamsOf};
ghost use Rattle.tpm_commands.specs.Parameters.{parameters};
ghost use Rattle.tpm_buffer.specs.Commands.{body_from};
ghost use Rattle.tpm_model.specs.Answers.{performed as performed_of};
ghost use Rattle.tpm_model.specs.Premises.{code_in};
ghost use Rattle.tpm_session.specs.Entities.{IsAuthorization};
ghost use Rattle.tpm_device.specs.inner.Performing.{MayBePerformed, IsPerformed};
ghost use Rattle.tpm_device.specs.inner.Answers.{Replies};

use crate::device::Device;
use crate::reply::ResponseBuffer;
use tpm_buffer::Areas;
use tpm_commands::{
    ReplyBody, StartAuth, StartParams, StartReply, bind_in, decode_start_into, second_handle,
};
use tpm_session::Authorization;
use tpm_types::{BindHandle, SessionHandle};
use tpm_wire::Duplicate;

// What a session is to be started with, or the code of the parameters' first fault.
#[inline(never)]
fn start_in(areas: &Areas<'_>) -> Result<StartAuth, u32>
    ensures read { IfOk result (λ start. (params : ParamsOf)
        × (read_all (parameters codes.StartAuthSession) areas.now.params ≡ Ok params)
        × (body_from areas.now.handles params ≡ bodies.StartAuthSession start)) }
    ensures faulty { IfErr result (λ code. (fault : Fault)
        × (read_all (parameters codes.StartAuthSession) areas.now.params ≡ Err fault)
        × (fault.code ≡ code)) }
{
    let mut start = StartAuth {
        bind: bind_in(second_handle(areas.handles())),
        params: StartParams::any(),
    };
    match decode_start_into(areas.params(), &mut start.params) {
        Ok(()) => Ok(start),
        Err(refusal) => Err(refusal.code),
    }
}

impl Device {
    // TPM2_StartAuthSession (Part 3, 11.1).
    pub(crate) fn started(&mut self, start: &StartAuth, nonce: &[u8; 64]) -> Result<StartReply, u32>
        ensures answer { started_reply result ≡
            action (holds self.old) (bodies.StartAuthSession start.now) nonce.now }
        ensures stands { IfOk result (λ reply.
            Steps self.old self.new (step_of (bodies.StartAuthSession start.now)
            (replies.StartAuthSession reply) nonce.now)) }
        ensures refused { OnErr result (self.new ≡ self.old) }
    {
        self.sessions.start(start, self.owner.as_slice(), nonce)
    }

    // The same, of its parameters and what it is bound to, which leaves its reply in the body as each action does. It
    // is out of line, so that no other action has the room of these.
    #[inline(never)]
    pub(crate) fn start_session(
        &mut self,
        bind: BindHandle,
        params: &StartParams,
        nonce: &[u8; 64],
        body: &mut ReplyBody,
    ) -> Result<(), u32>
        ensures answer { acted body.new result ≡
            action (holds self.old)
            (bodies.StartAuthSession (record { bind = bind; params = params.now })) nonce.now }
        ensures stands { OnOk result
            (Steps self.old self.new
            (step_of (bodies.StartAuthSession (record { bind = bind; params = params.now }))
            body.new nonce.now)) }
        ensures refused { OnErr result (self.new ≡ self.old) }
    {
        let start = StartAuth {
            bind,
            params: params.duplicate(),
        };
        let reply = self.started(&start, nonce)?;
        *body = ReplyBody::StartAuthSession(reply);
        Ok(())
    }

    // TPM2_FlushContext (Part 3, 28.4).
    pub(crate) fn flush(&mut self, session: SessionHandle, body: &mut ReplyBody) -> Result<(), u32>
        ensures answer { (n : List ℕ) →
            acted body.new result ≡ action (holds self.old) (bodies.FlushContext session) n }
        ensures stands { (n : List ℕ) →
            OnOk result (Steps self.old self.new
            (step_of (bodies.FlushContext session) body.new n)) }
        ensures refused { OnErr result (self.new ≡ self.old) }
    {
        if !matches!(body, ReplyBody::FlushContext) {
            *body = ReplyBody::FlushContext;
        }
        self.sessions.flush(session)?;
        Ok(())
    }

    // Adds the reply to a command that started a session.
    #[inline(never)]
    fn put_started(
        &self,
        reply: StartReply,
        areas: &Areas<'_>,
        by: &Option<Authorization<'_, '_>>,
        nonce: &[u8; 64],
        out: &mut ResponseBuffer,
    )
        requires own { IsAuthorization self.now.sessions areas.now.auths by.now }
        requires empty { length out.old.items ≡ 0 }
        ensures bytes { Replies self.now areas.now (record {
          body = replies.StartAuthSession reply;
          nonce = nonce.now;
          bytes = out.new.items;
        }) }
        ensures done { code_in out.new.items ≡ 0 }
    {
        let body = ReplyBody::StartAuthSession(reply);
        self.put_done(&body, areas, by, nonce, out);
    }

    /// As `performed_by_action`, where the command is TPM2_StartAuthSession. The room of neither its parameters nor its
    /// reply is on the stack while the session's key is made: by the common way the deepest stack by LLVM is 1,888
    /// bytes more.
    #[inline(never)]
    pub(crate) fn performed_starting(
        &mut self,
        areas: &Areas<'_>,
        by: &Option<Authorization<'_, '_>>,
        nonce: &[u8; 64],
        out: &mut ResponseBuffer,
    ) -> Result<(), u32>
        requires starts { areas.now.header.code ≡ codes.StartAuthSession }
        requires ready { MayBePerformed self.old areas.now by.now out.old }
        ensures { IsPerformed areas.now (performed_of (holds self.old) nonce.now)
            (record { device = self.old; nonce = nonce.now; out = out.old })
            (record { result = result; device = self.new; out = out.new }) }
    {
        let start = start_in(areas)?;
        let reply = self.started(&start, nonce)?;
        self.put_started(reply, areas, by, nonce, out);
        self.roll(by, nonce);
        Ok(())
    }
}
