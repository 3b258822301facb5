//! The reply, with the session of the command, in a buffer that has room for the longest response.
//!
//! `put_reply_in` writes all replies but those for which no body is made (`put_bare`): by password a TPM2_PCR_Extend
//! takes 886 ns so in place of 901, and the deepest stack by LLVM, in a session, is 80 bytes less.

ghost use Rattle.std.specs.Prelude.{◌≡◌, ◌<◌, true, [], ◌∷◌, length, Ok, Err};
ghost use Rattle.tpm_wire.specs.Spelling.{spelling};
ghost use Rattle.tpm_commands.specs.declared.command.ReplyBody.{ReplyBody as BodyOf};
ghost use Rattle.tpm_commands.specs.Handles.{first as first_of};
ghost use Rattle.tpm_commands.specs.Replies.{parameters_of_reply};
ghost use Rattle.tpm_buffer.specs.CommandAreas.{Cut};
ghost use Rattle.tpm_model.specs.Present.{Present};
ghost use Rattle.tpm_model.specs.Answers.{answered};
ghost use Rattle.tpm_model.specs.Authorization.{Evidence, password_reply as password_reply_of, reply_auths};
ghost use Rattle.tpm_model.specs.Premises.{code_in};
ghost use Rattle.tpm_session.specs.Entities.{Authorizes, IsAuthorization};
ghost use Rattle.tpm_device.specs.inner.Checks.{evidence_for};
ghost use Rattle.tpm_device.specs.inner.Actions.{IsAlike};
ghost use Rattle.tpm_device.specs.inner.Answers.{Replies, Rolls, is_bare, bare_bytes, reply_bytes};

use crate::device::Device;
use arrayvec::ArrayVec;
use std::slice;
use tpm_buffer::{Areas, SESSIONS, put_code, put_reply_in};
use tpm_commands::{ErrorCode, ReplyBody, first_handle};
use tpm_session::{Answered, Authorization, password_reply};
use tpm_types::AuthReply;
use tpm_wire::{Wire, put_bytes};

/// How many bytes no response exceeds: 10 of the header, 4 of a handle, 4 of parameterSize, 430 of the longest
/// parameters, which are those of TPM2_PCR_Read with eight digests of 48 bytes, and 101 of a session.
pub const RESPONSE_BYTES: usize = 549;

/// The bytes of a response.
pub type ResponseBuffer = ArrayVec<u8, RESPONSE_BYTES>;

// ---- the parameters of a reply

/// Adds to an empty buffer the parameters of a reply alone, as they are hashed for its HMAC (Part 1, "rpHash").
pub(crate) fn put_reply_params(body: &ReplyBody, out: &mut ResponseBuffer)
    requires { length out.old.items ≡ 0 }
    ensures { out.new.items ≡ spelling (parameters_of_reply body.now) body.now }
{
    prove!(body.params_len() <= 430);
    body.put_params(out);
}

// ---- the response

/// Adds to an empty buffer the response that is this code.
pub(crate) fn put_refusal(code: u32, out: &mut ResponseBuffer)
    requires some { 0 < code }
    requires empty { length out.old.items ≡ 0 }
    ensures { out.new.items ≡ answered (Err code) }
{
    match ErrorCode::from_number(code) {
        Some(error) => put_code(error, out),
        None => unreachable!(),
    }
}

/// Adds to an empty buffer a reply without sessions. It is out of line, since the empty list takes 16 bytes of stack.
#[inline(never)]
pub(crate) fn put_reply(body: &ReplyBody, out: &mut ResponseBuffer)
    requires { length out.old.items ≡ 0 }
    ensures { out.new.items ≡ reply_bytes (record { body = body.now; auths = [] }) }
{
    put_reply_in(body, &[], out);
}

/// Adds to an empty buffer a reply with this session.
pub(crate) fn put_reply_with(body: &ReplyBody, session: &AuthReply, out: &mut ResponseBuffer)
    requires { length out.old.items ≡ 0 }
    ensures { out.new.items ≡ reply_bytes (record { body = body.now; auths = session.now ∷ [] }) }
{
    put_reply_in(body, slice::from_ref(session), out);
}

/// Adds to an empty buffer a reply to a command that a password authorized. It is out of line, since it makes the
/// session of the reply.
#[inline(never)]
pub(crate) fn put_passed(body: &ReplyBody, out: &mut ResponseBuffer)
    requires { length out.old.items ≡ 0 }
    ensures { out.new.items
        ≡ reply_bytes (record { body = body.now; auths = password_reply_of ∷ [] }) }
{
    put_reply_with(body, &password_reply(), out);
}

/// Adds to an empty buffer the reply without parameters to a command that has no session.
pub(crate) fn put_bare_alone(out: &mut ResponseBuffer)
    requires { length out.old.items ≡ 0 }
    ensures { out.new.items ≡ bare_bytes [] }
{
    put_bytes(out, &[0x80, 0x01, 0, 0, 0, 10, 0, 0, 0, 0]);
}

/// Adds that to a command that a password authorized.
pub(crate) fn put_bare_passed(out: &mut ResponseBuffer)
    requires { length out.old.items ≡ 0 }
    ensures { out.new.items ≡ bare_bytes (password_reply_of ∷ []) }
{
    put_bytes(
        out,
        &[
            0x80, 0x02, 0, 0, 0, 19, 0, 0, 0, 0, 0, 0, 0, 0, 0, 0, 0x01, 0, 0,
        ],
    );
}

/// Adds that with this session.
#[tactic(auto, unfolding(tpm_buffer::specs::Responses::response, tpm_buffer::specs::Responses::response_front, tpm_buffer::specs::Responses::response_tag, tpm_buffer::specs::Responses::response_code, tpm_buffer::specs::Commands::command_size, tpm_buffer::specs::Responses::with_sessions, tpm_buffer::specs::Responses::parameter_size, tpm_buffer::specs::Responses::reply_sessions, tpm_buffer::specs::Responses::further_sessions))]
pub(crate) fn put_bare_with(session: &AuthReply, out: &mut ResponseBuffer)
    requires { length out.old.items ≡ 0 }
    ensures { out.new.items ≡ bare_bytes (session.now ∷ []) }
{
    SESSIONS.put(out);
    (14 + session.len() as u32).put(out);
    0u64.put(out);
    session.put(out);
}

impl Device {
    // The session of a reply with these parameters to a command that is authorized so. What the first handle names is
    // found once more, since it lends a part of the device, which the action has changed.
    fn reply_session(
        &self,
        how: &Authorization<'_, '_>,
        areas: &Areas<'_>,
        params: &[u8],
        nonce: &[u8; 64],
    ) -> AuthReply
        requires own { Authorizes self.now.sessions areas.now.auths how.now }
        ensures { (p : Present) (e : Evidence) →
            IsAlike p self.now (first_of areas.now.handles) →
            evidence_for p areas.now ≡ Ok e →
            reply_auths e areas.now.header.code params.now nonce.now ≡ result ∷ [] }
    {
        let entity = self.entity(first_handle(areas.handles()));
        let answered = Answered {
            command: areas.code(),
            params,
            nonce,
        };
        self.sessions.reply_auth(how, &entity, &answered)
    }

    /// Adds the reply to a command that is authorized so, has acted, and has not rolled yet.
    // The HMAC covers the parameters, which are written into the answer's buffer for it; the buffer is cleared again.
    // It is out of line, since it makes the session of the reply.
    #[inline(never)]
    pub(crate) fn put_done(
        &self,
        body: &ReplyBody,
        areas: &Areas<'_>,
        by: &Option<Authorization<'_, '_>>,
        nonce: &[u8; 64],
        out: &mut ResponseBuffer,
    )
        requires own { IsAuthorization self.now.sessions areas.now.auths by.now }
        requires empty { length out.old.items ≡ 0 }
        ensures bytes { Replies self.now areas.now (record {
          body = body.now;
          nonce = nonce.now;
          bytes = out.new.items;
        }) }
        ensures done { code_in out.new.items ≡ 0 }
    {
        match by {
            None => put_reply(body, out),
            Some(how) => match how.slot {
                None => put_passed(body, out),
                Some(_) => {
                    put_reply_params(body, out);
                    let session = self.reply_session(how, areas, out.as_slice(), nonce);
                    out.clear();
                    put_reply_with(body, &session, out);
                }
            },
        }
    }

    /// As `put_done`, for a reply without parameters. Nothing is made of its body.
    // It is out of line, since it makes the session of the reply.
    #[inline(never)]
    pub(crate) fn put_bare(
        &self,
        areas: &Areas<'_>,
        by: &Option<Authorization<'_, '_>>,
        nonce: &[u8; 64],
        out: &mut ResponseBuffer,
    )
        requires own { IsAuthorization self.now.sessions areas.now.auths by.now }
        requires empty { length out.old.items ≡ 0 }
        ensures bytes { (body : BodyOf) →
            is_bare body ≡ true →
            Replies self.now areas.now (record {
              body = body;
              nonce = nonce.now;
              bytes = out.new.items;
            }) }
        ensures done { code_in out.new.items ≡ 0 }
    {
        match by {
            None => put_bare_alone(out),
            Some(how) => match how.slot {
                None => put_bare_passed(out),
                Some(_) => {
                    let session = self.reply_session(how, areas, &[], nonce);
                    put_bare_with(&session, out);
                }
            },
        }
    }

    /// After a command that was authorized so, done and answered: the nonce of its session rolls, or its slot is free.
    /// A password leaves nothing.
    pub(crate) fn roll(&mut self, by: &Option<Authorization<'_, '_>>, nonce: &[u8; 64])
        ensures { (x : Cut) →
            IsAuthorization self.old.sessions x.auths by.now →
            Rolls self.old x.auths nonce.now self.new }
    {
        if let Some(how) = by {
            self.sessions.roll(how, nonce);
        }
    }
}
