//! The commands of the registers (Part 3, 22).

ghost use Rattle.std.specs.Prelude.{◌≡◌, ◌≤◌, ◌+◌, ◌++◌, length, ℕ, None, OnOk};
ghost use Rattle.tpm_wire.specs.Spelling.{spelling, Fits};
ghost use Rattle.tpm_wire.specs.Buffers.{TakesNumbered};
ghost use Rattle.tpm_commands.specs.Limits.{most_reply_params};
ghost use Rattle.tpm_types.specs.declared.command_code.CommandCode.TheVariants as codes;
ghost use Rattle.tpm_commands.specs.declared.command.Params.TheVariants as params;
ghost use Rattle.tpm_commands.specs.declared.command.ReplyBody.TheVariants as replies;
ghost use Rattle.tpm_commands.specs.Commands.Pcr.{pcr_event_reply, pcr_extend, pcr_read_reply};
ghost use Rattle.tpm_commands.specs.Replies.{code_for_reply, IsReplyTo};

use crate::command::ReplyBody;
use crate::commands::{read_only, read_parameter};
use tpm_types::{DigestValues, Digests, Lent, Selections};
use tpm_wire::{Cursor, Refusal, Room, Wire};

// ---- TPM2_PCR_Extend (22.2)

/// Reads the digests of TPM2_PCR_Extend in the place of others, or answers their first fault: INSUFFICIENT, SIZE or
/// HASH with the parameter's number. What stands there then is not said.
#[tactic(auto, unfolding(crate::specs::Commands::Pcr::pcr_extend))]
pub fn read_pcr_extend(cursor: &mut Cursor<'_>, digests: &mut DigestValues) -> Result<(), Refusal>
    ensures reads { TakesNumbered (λ _. params.PcrExtend digests.new) pcr_extend
        cursor.old cursor.new result }
    ensures spelled { OnOk result
        (cursor.old.here.rest
        ≡ spelling pcr_extend (params.PcrExtend digests.new) ++ cursor.new.here.rest) }
{
    read_only(cursor, digests)
}

// ---- TPM2_PCR_Event (22.3)

/// How many bytes an event has at most.
pub const EVENT_BYTES: usize = 1024;

/// What PCR_Event measures, lent from where its bytes are: TPM2B_EVENT, 0 to 1,024 bytes (Part 2, 10.4.7).
pub type Event<'a> = Lent<'a, EVENT_BYTES>;

// (out of line, as for a command)
#[tactic(auto, unfolding(crate::specs::Commands::Pcr::pcr_event_reply))]
#[inline(never)]
pub(crate) fn read_pcr_event_reply(
    cursor: &mut Cursor<'_>,
    body: &mut ReplyBody,
) -> Result<(), Refusal>
    ensures reads { TakesNumbered (λ _. body.new) pcr_event_reply cursor.old cursor.new result }
    ensures spelled { OnOk result
        (cursor.old.here.rest ≡ spelling pcr_event_reply body.new ++ cursor.new.here.rest) }
    ensures own { OnOk result (IsReplyTo codes.PcrEvent None body.new) }
{
    *body = ReplyBody::PcrEvent(DigestValues::default());
    match body {
        ReplyBody::PcrEvent(digests) => read_only(cursor, digests),
        _ => unreachable!(),
    }
}

// ---- TPM2_PCR_Read (22.4)

// Makes it a reply to a PCR_Read, which another one is read in the place of. One that is there stays, since it is the
// largest reply and costs as many stores to make.
fn begin_pcr_read(body: &mut ReplyBody)
    ensures { code_for_reply body.new ≡ codes.PcrRead }
{
    match body {
        ReplyBody::PcrRead { .. } => {}
        _ => *body = ReplyBody::PcrRead {
            update_counter: 0,
            selections: Selections::default(),
            digests: Digests::default(),
        },
    }
}

// Reads what it has in the place of others.
#[tactic(auto, unfolding(crate::specs::Commands::Pcr::pcr_read_reply))]
#[inline(always)]
fn read_values(
    cursor: &mut Cursor<'_>,
    update_counter: &mut u32,
    selections: &mut Selections,
    digests: &mut Digests,
) -> Result<(), Refusal>
    ensures reads { TakesNumbered
        (λ _. replies.PcrRead update_counter.new selections.new digests.new) pcr_read_reply
        cursor.old cursor.new result }
    ensures spelled { OnOk result
        (cursor.old.here.rest
        ≡ spelling pcr_read_reply
        (replies.PcrRead update_counter.new selections.new digests.new)
        ++ cursor.new.here.rest) }
{
    read_parameter(cursor, 1, update_counter)?;
    read_parameter(cursor, 2, selections)?;
    read_parameter(cursor, 3, digests)
}

pub(crate) fn read_pcr_read_reply(
    cursor: &mut Cursor<'_>,
    body: &mut ReplyBody,
) -> Result<(), Refusal>
    ensures reads { TakesNumbered (λ _. body.new) pcr_read_reply cursor.old cursor.new result }
    ensures spelled { OnOk result
        (cursor.old.here.rest ≡ spelling pcr_read_reply body.new ++ cursor.new.here.rest) }
    ensures own { OnOk result (IsReplyTo codes.PcrRead None body.new) }
{
    begin_pcr_read(body);
    match body {
        ReplyBody::PcrRead {
            update_counter,
            selections,
            digests,
        } => read_values(cursor, update_counter, selections, digests),
        _ => unreachable!(),
    }
}

#[tactic(auto, unfolding(crate::specs::Commands::Pcr::pcr_read_reply))]
#[inline(always)]
pub(crate) fn pcr_read_reply_len(
    update_counter: u32,
    selections: &Selections,
    digests: &Digests,
) -> usize
    ensures value { result
        ≡ length
        (spelling pcr_read_reply (replies.PcrRead update_counter selections.now digests.now)) }
    ensures fits { result ≤ most_reply_params }
    ensures spelled { (left : ℕ)
        → Fits left pcr_read_reply (replies.PcrRead update_counter selections.now digests.now) }
{
    prove!(update_counter <= u32::MAX);
    selections.has_spelling();
    digests.has_spelling();
    update_counter.len() + selections.len() + digests.len()
}

#[tactic(auto, unfolding(crate::specs::Commands::Pcr::pcr_read_reply))]
#[inline(always)]
pub(crate) fn put_pcr_read_reply<R: Room>(
    update_counter: u32,
    selections: &Selections,
    digests: &Digests,
    out: &mut R,
)
    requires { length (R.written out.old)
        + length
        (spelling pcr_read_reply
        (replies.PcrRead update_counter selections.now digests.now))
        ≤ R.size }
    ensures { R.written out.new
        ≡ R.written out.old
        ++ spelling pcr_read_reply (replies.PcrRead update_counter selections.now digests.now) }
{
    update_counter.put(out);
    selections.put(out);
    digests.put(out);
}
