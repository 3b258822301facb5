//! The commands of sessions (Part 3, 11).

ghost use Rattle.std.specs.Prelude.{◌≡◌, ◌≤◌, ◌+◌, ◌∷◌, ◌++◌, [], length, ℕ, Some, IfOk, OnOk};
ghost use Rattle.tpm_wire.specs.Spelling.{spelling, Fits};
ghost use Rattle.tpm_wire.specs.Buffers.{TakesNumbered};
ghost use Rattle.tpm_commands.specs.Limits.{most_params, most_reply_params};
ghost use Rattle.tpm_types.specs.declared.command_code.CommandCode.TheVariants as codes;
ghost use Rattle.tpm_types.specs.declared.constants.SessionType.TheVariants.{Hmac};
ghost use Rattle.tpm_commands.specs.declared.command.Params.TheVariants as params;
ghost use Rattle.tpm_commands.specs.declared.command.ReplyBody.TheVariants as replies;
ghost use Rattle.tpm_commands.specs.Commands.Session.{start_auth_session, session_handle, start_auth_session_reply};
ghost use Rattle.tpm_commands.specs.Replies.{IsReplyTo};

use crate::command::ReplyBody;
use crate::commands::{read_parameter, take_parameter};
use crate::response::StartReply;
use tpm_types::{Alg, EncryptedSalt, Nonce, SessionHandle, SessionType, SymDef};
use tpm_wire::response_code::of_handle;
use tpm_wire::{Cursor, Duplicate, Refusal, Room, Wire};

// ---- TPM2_StartAuthSession (11.1)

/// The parameters of TPM2_StartAuthSession. The salt is empty.
#[derive(Drop)]
pub struct StartParams {
    pub nonce_caller: Nonce,
    pub session_type: SessionType,
    pub symmetric: SymDef,
    pub auth_hash: Alg,
}

#[tactic(auto, unfolding(crate::specs::Commands::Session::start_auth_session))]
impl StartParams {
    /// Parameters that others are read in the place of: no nonce, for an HMAC session.
    pub fn any() -> Self
        ensures nonce { result.nonce_caller ≡ [] }
        ensures session_type { result.session_type ≡ Hmac }
    {
        StartParams {
            nonce_caller: Nonce::default(),
            session_type: SessionType::Hmac,
            symmetric: SymDef::Null,
            auth_hash: Alg::default(),
        }
    }

    pub(crate) fn read(&mut self, cursor: &mut Cursor<'_>) -> Result<(), Refusal>
        ensures reads { TakesNumbered (λ _. params.StartAuthSession self.new) start_auth_session
            cursor.old cursor.new result }
        ensures spelled { OnOk result
            (cursor.old.here.rest
            ≡ spelling start_auth_session (params.StartAuthSession self.new)
            ++ cursor.new.here.rest) }
    {
        read_parameter(cursor, 1, &mut self.nonce_caller)?;
        take_parameter::<EncryptedSalt>(cursor, 2)?;
        read_parameter(cursor, 3, &mut self.session_type)?;
        read_parameter(cursor, 4, &mut self.symmetric)?;
        read_parameter(cursor, 5, &mut self.auth_hash)
    }

    #[inline(always)]
    pub(crate) fn has_spelling(&self)
        ensures { (left : ℕ)
            → Fits left start_auth_session (params.StartAuthSession self.now) }
    {
        self.nonce_caller.has_spelling();
        EncryptedSalt::Empty.has_spelling();
        self.session_type.has_spelling();
        self.symmetric.has_spelling();
        self.auth_hash.has_spelling();
    }

    #[inline(always)]
    pub(crate) fn len(&self) -> usize
        ensures value { result
            ≡ length (spelling start_auth_session (params.StartAuthSession self.now)) }
        ensures fits { result ≤ most_params }
        ensures spelled { (left : ℕ)
            → Fits left start_auth_session (params.StartAuthSession self.now) }
    {
        self.has_spelling();
        self.nonce_caller.len()
            + EncryptedSalt::Empty.len()
            + self.session_type.len()
            + self.symmetric.len()
            + self.auth_hash.len()
    }

    #[inline(always)]
    pub(crate) fn put<R: Room>(&self, out: &mut R)
        requires { length (R.written out.old)
            + length (spelling start_auth_session (params.StartAuthSession self.now))
            ≤ R.size }
        ensures { R.written out.new
            ≡ R.written out.old
            ++ spelling start_auth_session (params.StartAuthSession self.now) }
    {
        self.nonce_caller.put(out);
        EncryptedSalt::Empty.put(out);
        self.session_type.put(out);
        self.symmetric.put(out);
        self.auth_hash.put(out);
    }
}

impl Duplicate for StartParams {
    fn duplicate(&self) -> Self {
        StartParams {
            nonce_caller: self.nonce_caller.duplicate(),
            session_type: self.session_type,
            symmetric: self.symmetric,
            auth_hash: self.auth_hash,
        }
    }
}

/// The handle of the reply.
#[tactic(auto, unfolding(crate::specs::Commands::Session::session_handle, tpm_types::specs::Handles::session))]
pub(crate) fn take_session_handle(cursor: &mut Cursor<'_>) -> Result<SessionHandle, Refusal>
    ensures reads { TakesNumbered (λ n. n ∷ []) session_handle cursor.old cursor.new result }
    ensures spelled { IfOk result
        (λ n. cursor.old.here.rest ≡ spelling session_handle (n ∷ []) ++ cursor.new.here.rest) }
    ensures length { IfOk result
        (λ n. length cursor.old.here.rest ≡ 4 + length cursor.new.here.rest) }
{
    cursor.number(of_handle(1));
    let session = SessionHandle::take(cursor)?;
    Ok(session)
}

#[tactic(auto, unfolding(crate::specs::Commands::Session::start_auth_session_reply))]
pub(crate) fn read_start_auth_session_reply(
    cursor: &mut Cursor<'_>,
    session: SessionHandle,
    body: &mut ReplyBody,
) -> Result<(), Refusal>
    ensures reads { TakesNumbered (λ _. body.new) (start_auth_session_reply (session ∷ []))
        cursor.old cursor.new result }
    ensures spelled { OnOk result
        (cursor.old.here.rest
        ≡ spelling (start_auth_session_reply (session ∷ [])) body.new ++ cursor.new.here.rest) }
    ensures own { OnOk result (IsReplyTo codes.StartAuthSession (Some session) body.new) }
{
    let nonce_tpm = take_parameter(cursor, 1)?;
    *body = ReplyBody::StartAuthSession(StartReply { session, nonce_tpm });
    Ok(())
}

#[tactic(auto, unfolding(crate::specs::Commands::Session::start_auth_session_reply))]
#[inline(always)]
pub(crate) fn start_auth_session_reply_len(reply: &StartReply) -> usize
    ensures value { result
        ≡ length
        (spelling (start_auth_session_reply (reply.now.session ∷ []))
        (replies.StartAuthSession reply.now)) }
    ensures fits { result ≤ most_reply_params }
    ensures spelled { (left : ℕ)
        → Fits left (start_auth_session_reply (reply.now.session ∷ []))
        (replies.StartAuthSession reply.now) }
{
    prove!(reply.session.number() <= u32::MAX);
    reply.nonce_tpm.has_spelling();
    reply.nonce_tpm.len()
}

#[tactic(auto, unfolding(crate::specs::Commands::Session::start_auth_session_reply))]
#[inline(always)]
pub(crate) fn put_start_auth_session_reply<R: Room>(reply: &StartReply, out: &mut R)
    requires { length (R.written out.old)
        + length
        (spelling (start_auth_session_reply (reply.now.session ∷ []))
        (replies.StartAuthSession reply.now))
        ≤ R.size }
    ensures { R.written out.new
        ≡ R.written out.old
        ++ spelling (start_auth_session_reply (reply.now.session ∷ []))
        (replies.StartAuthSession reply.now) }
{
    reply.nonce_tpm.put(out);
}
