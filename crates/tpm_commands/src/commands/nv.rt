//! The commands of non-volatile storage (Part 3, 31).

ghost use Rattle.std.specs.Prelude.{◌≡◌, ◌≤◌, ◌+◌, ◌++◌, length, ℕ, None, IfOk, OnOk};
ghost use Rattle.tpm_wire.specs.Spelling.{spelling, Fits};
ghost use Rattle.tpm_wire.specs.Buffers.{TakesNumbered};
ghost use Rattle.tpm_commands.specs.Limits.{most_params, most_reply_params};
ghost use Rattle.tpm_types.specs.declared.command_code.CommandCode.TheVariants as codes;
ghost use Rattle.tpm_commands.specs.declared.command.Params.TheVariants as params;
ghost use Rattle.tpm_commands.specs.declared.command.ReplyBody.TheVariants as replies;
ghost use Rattle.tpm_commands.specs.Commands.Nv.{nv_define_space, nv_read, nv_read_public_reply};
ghost use Rattle.tpm_commands.specs.Replies.{IsReplyTo};

use crate::command::ReplyBody;
use crate::commands::take_parameter;
use tpm_types::{AuthValue, Name, NvPublic};
use tpm_wire::{Cursor, Refusal, Room, Wire};

// ---- TPM2_NV_DefineSpace (31.3)

/// The parameters of TPM2_NV_DefineSpace.
#[derive(Drop)]
pub struct NvDefineSpace {
    pub auth: AuthValue,
    pub public: NvPublic,
}

#[tactic(auto, unfolding(crate::specs::Commands::Nv::nv_define_space))]
impl NvDefineSpace {
    #[inline(never)]
    pub(crate) fn take(cursor: &mut Cursor<'_>) -> Result<Self, Refusal>
        ensures reads { TakesNumbered (λ p. params.NvDefineSpace p) nv_define_space
            cursor.old cursor.new result }
        ensures spelled { IfOk result
            (λ p. cursor.old.here.rest
            ≡ spelling nv_define_space (params.NvDefineSpace p) ++ cursor.new.here.rest) }
    {
        let auth = take_parameter(cursor, 1)?;
        let public = take_parameter(cursor, 2)?;
        Ok(NvDefineSpace { auth, public })
    }

    #[inline(always)]
    pub(crate) fn has_spelling(&self)
        ensures { (left : ℕ) → Fits left nv_define_space (params.NvDefineSpace self.now) }
    {
        self.auth.has_spelling();
        self.public.has_spelling();
    }

    #[inline(always)]
    pub(crate) fn len(&self) -> usize
        ensures value { result ≡ length (spelling nv_define_space (params.NvDefineSpace self.now)) }
        ensures fits { result ≤ most_params }
        ensures spelled { (left : ℕ) → Fits left nv_define_space (params.NvDefineSpace self.now) }
    {
        self.has_spelling();
        self.auth.len() + self.public.len()
    }

    #[inline(always)]
    pub(crate) fn put<R: Room>(&self, out: &mut R)
        requires { length (R.written out.old)
            + length (spelling nv_define_space (params.NvDefineSpace self.now))
            ≤ R.size }
        ensures { R.written out.new
            ≡ R.written out.old ++ spelling nv_define_space (params.NvDefineSpace self.now) }
    {
        self.auth.put(out);
        self.public.put(out);
    }
}

// ---- TPM2_NV_ReadPublic (31.6)

#[tactic(auto, unfolding(crate::specs::Commands::Nv::nv_read_public_reply))]
pub(crate) fn read_nv_read_public_reply(
    cursor: &mut Cursor<'_>,
    body: &mut ReplyBody,
) -> Result<(), Refusal>
    ensures reads { TakesNumbered (λ _. body.new) nv_read_public_reply
        cursor.old cursor.new result }
    ensures spelled { OnOk result
        (cursor.old.here.rest ≡ spelling nv_read_public_reply body.new ++ cursor.new.here.rest) }
    ensures own { OnOk result (IsReplyTo codes.NvReadPublic None body.new) }
{
    let public = take_parameter(cursor, 1)?;
    let name = take_parameter(cursor, 2)?;
    *body = ReplyBody::NvReadPublic { public, name };
    Ok(())
}

#[tactic(auto, unfolding(crate::specs::Commands::Nv::nv_read_public_reply))]
#[inline(always)]
pub(crate) fn nv_read_public_reply_len(public: &NvPublic, name: &Name) -> usize
    ensures value { result
        ≡ length (spelling nv_read_public_reply (replies.NvReadPublic public.now name.now)) }
    ensures fits { result ≤ most_reply_params }
    ensures spelled { (left : ℕ)
        → Fits left nv_read_public_reply (replies.NvReadPublic public.now name.now) }
{
    public.has_spelling();
    name.has_spelling();
    public.len() + name.len()
}

#[tactic(auto, unfolding(crate::specs::Commands::Nv::nv_read_public_reply))]
#[inline(always)]
pub(crate) fn put_nv_read_public_reply<R: Room>(public: &NvPublic, name: &Name, out: &mut R)
    requires { length (R.written out.old)
        + length (spelling nv_read_public_reply (replies.NvReadPublic public.now name.now))
        ≤ R.size }
    ensures { R.written out.new
        ≡ R.written out.old
        ++ spelling nv_read_public_reply (replies.NvReadPublic public.now name.now) }
{
    public.put(out);
    name.put(out);
}

// ---- TPM2_NV_Read (31.13)

/// The parameters of TPM2_NV_Read.
#[derive(Clone, Copy, Drop)]
pub struct NvRead {
    pub size: u16,
    pub offset: u16,
}

#[tactic(auto, unfolding(crate::specs::Commands::Nv::nv_read))]
impl NvRead {
    /// The parameters that are read, or their first fault: INSUFFICIENT with the parameter's number.
    pub fn take(cursor: &mut Cursor<'_>) -> Result<Self, Refusal>
        ensures reads { TakesNumbered (λ p. params.NvRead p) nv_read
            cursor.old cursor.new result }
        ensures spelled { IfOk result
            (λ p. cursor.old.here.rest
            ≡ spelling nv_read (params.NvRead p) ++ cursor.new.here.rest) }
    {
        let size = take_parameter(cursor, 1)?;
        let offset = take_parameter(cursor, 2)?;
        Ok(NvRead { size, offset })
    }

    #[inline(always)]
    pub(crate) fn has_spelling(&self)
        ensures { (left : ℕ) → Fits left nv_read (params.NvRead self.now) }
    {
        prove!(self.size <= u16::MAX && self.offset <= u16::MAX);
        self.size.has_spelling();
        self.offset.has_spelling();
    }

    #[inline(always)]
    pub(crate) fn len(&self) -> usize
        ensures value { result ≡ length (spelling nv_read (params.NvRead self.now)) }
        ensures fits { result ≤ most_params }
        ensures spelled { (left : ℕ) → Fits left nv_read (params.NvRead self.now) }
    {
        self.has_spelling();
        self.size.len() + self.offset.len()
    }

    #[inline(always)]
    pub(crate) fn put<R: Room>(&self, out: &mut R)
        requires { length (R.written out.old) + length (spelling nv_read (params.NvRead self.now))
            ≤ R.size }
        ensures { R.written out.new
            ≡ R.written out.old ++ spelling nv_read (params.NvRead self.now) }
    {
        self.size.put(out);
        self.offset.put(out);
    }
}
