//! The parameters of commands and replies by their names and their types.

ghost use Rattle.std.specs.Prelude.{◌≡◌, ◌++◌, OnOk, codes, flat_map};
ghost use Rattle.tpm_wire.specs.Spelling.{spelling};
ghost use Rattle.tpm_wire.specs.Structures.{sized_bytes};
ghost use Rattle.tpm_commands.specs.Events.{event_bytes};
ghost use Rattle.tpm_commands.specs.Row.{named};
ghost use Rattle.tpm_commands.specs.declared.command.CommandBody.TheVariants.{StartAuthSession};
ghost use Rattle.tpm_commands.specs.declared.command.ReplyBody.TheVariants.{NvReadPublic, PcrRead};
ghost use Rattle.tpm_show.specs.Fields.{command_fields, reply_fields};
ghost use Rattle.tpm_show.specs.FieldText.{value_told};

use crate::field::Field;
use crate::field_text::tell_value;
use crate::teller::Teller;
use arrayvec::ArrayVec;
use tpm_commands::{
    CommandBody, Event, NvDefineSpace, NvRead, PolicyPcr, ReplyBody, StartAuth, StartParams,
};
use tpm_output::text::Pushed;
use tpm_types::{Digests, EncryptedSalt, Name, NvPublic, Selections};
use tpm_wire::{Wire, put_bytes};

// ---- the parameters of commands by their names and their types

static EVENT_DATA: Field = Field("  ", "eventData", "TPM2B_EVENT");

static NONCE_CALLER: Field = Field("  ", "nonceCaller", "TPM2B_NONCE");

static ENCRYPTED_SALT: Field = Field("  ", "encryptedSalt", "TPM2B_ENCRYPTED_SECRET");

static SESSION_TYPE: Field = Field("  ", "sessionType", "TPM_SE");

static SYMMETRIC: Field = Field("  ", "symmetric", "TPMT_SYM_DEF");

static AUTH_HASH: Field = Field("  ", "authHash", "TPMI_ALG_HASH");

static AUTH: Field = Field("  ", "auth", "TPM2B_AUTH");

static PUBLIC_INFO: Field = Field("  ", "publicInfo", "TPM2B_NV_PUBLIC");

static STARTUP_TYPE: Field = Field("  ", "startupType", "TPM_SU");

static SIZE: Field = Field("  ", "size", "UINT16");

static OFFSET: Field = Field("  ", "offset", "UINT16");

static FLUSH_HANDLE: Field = Field("  ", "flushHandle", "TPMI_DH_CONTEXT");

static CODE: Field = Field("  ", "code", "TPM_CC");

static HASH_LIST: Field = Field("  ", "pHashList", "TPML_DIGEST");

static SELECTION_IN: Field = Field("  ", "pcrSelectionIn", "TPML_PCR_SELECTION");

static PCR_DIGEST: Field = Field("  ", "pcrDigest", "TPM2B_DIGEST");

static PCRS: Field = Field("  ", "pcrs", "TPML_PCR_SELECTION");

static DIGESTS: Field = Field("  ", "digests", "TPML_DIGEST_VALUES");

// ---- those of replies

static DATA: Field = Field("  ", "data", "TPM2B_MAX_NV_BUFFER");

static NV_PUBLIC: Field = Field("  ", "nvPublic", "TPM2B_NV_PUBLIC");

static NV_NAME: Field = Field("  ", "nvName", "TPM2B_NAME");

static NONCE_TPM: Field = Field("  ", "nonceTPM", "TPM2B_NONCE");

static UPDATE_COUNTER: Field = Field("  ", "pcrUpdateCounter", "UINT32");

static SELECTION_OUT: Field = Field("  ", "pcrSelectionOut", "TPML_PCR_SELECTION");

static PCR_VALUES: Field = Field("  ", "pcrValues", "TPML_DIGEST");

static POLICY_DIGEST: Field = Field("  ", "policyDigest", "TPM2B_DIGEST");

// ---- commands

// How many bytes an event has at most with its size.
const EVENT_BYTES: usize = 1026;

// How an event is spelled, which is lent.
#[tactic(auto, unfolding(tpm_wire::specs::Structures::sized_bytes))]
fn spelled_event(event: &Event<'_>) -> ArrayVec<u8, EVENT_BYTES>
    ensures { result.items ≡ spelling (sized_bytes event_bytes) event.now }
{
    let event = event.as_slice();
    let mut bytes = ArrayVec::new();
    (event.len() as u16).put(&mut bytes);
    put_bytes(&mut bytes, event);
    bytes
}

fn tell_event<T: Teller>(teller: &mut T, event: &Event<'_>) -> Pushed
    ensures { OnOk result
        (T.told teller.new ≡ T.told teller.old ++ flat_map T.marks (value_told (codes "  ")
        (named (codes "eventData") (codes "TPM2B_EVENT"))
        (spelling (sized_bytes event_bytes) event.now))) }
{
    tell_value(teller, &EVENT_DATA, spelled_event(event).as_slice())
}

fn tell_start_fields<T: Teller>(teller: &mut T, start: &StartAuth) -> Pushed
    ensures { OnOk result (T.told teller.new
        ≡ T.told teller.old ++ flat_map T.marks (command_fields (StartAuthSession start.now))) }
{
    let StartParams {
        nonce_caller,
        session_type,
        symmetric,
        auth_hash,
    } = &start.params;
    NONCE_CALLER.tell(teller, nonce_caller)?;
    ENCRYPTED_SALT.tell(teller, &EncryptedSalt::Empty)?;
    SESSION_TYPE.tell(teller, session_type)?;
    SYMMETRIC.tell_structure(teller, symmetric)?;
    AUTH_HASH.tell(teller, auth_hash)
}

/// Tells each parameter of a command: its name, its type and its bytes (Part 3, the table of the command), and what
/// stands in it.
#[tactic(auto, unfolding(tpm_commands::specs::Commands::Policy::policy_command_code))]
pub(crate) fn tell_command_fields<T: Teller>(teller: &mut T, body: &CommandBody<'_>) -> Pushed
    ensures { OnOk result
        (T.told teller.new ≡ T.told teller.old ++ flat_map T.marks (command_fields body.now)) }
{
    match body {
        CommandBody::NvDefineSpace(params) => {
            let NvDefineSpace { auth, public } = params;
            AUTH.tell(teller, auth)?;
            PUBLIC_INFO.tell_structure(teller, public)
        }
        CommandBody::PcrEvent { event, .. } => tell_event(teller, event),
        CommandBody::Startup(startup_type) => STARTUP_TYPE.tell(teller, startup_type),
        CommandBody::NvRead { params, .. } => {
            let NvRead { size, offset } = params;
            SIZE.tell(teller, size)?;
            OFFSET.tell(teller, offset)
        }
        CommandBody::FlushContext(session) => FLUSH_HANDLE.tell(teller, session),
        CommandBody::PolicyCommandCode { code, .. } => CODE.tell(teller, code),
        CommandBody::PolicyOr { digests, .. } => HASH_LIST.tell_structure(teller, digests),
        CommandBody::StartAuthSession(start) => tell_start_fields(teller, start),
        CommandBody::PcrRead(selections) => SELECTION_IN.tell_structure(teller, selections),
        CommandBody::PolicyPcr { params, .. } => {
            let PolicyPcr {
                pcr_digest,
                selections,
            } = params;
            PCR_DIGEST.tell(teller, pcr_digest)?;
            PCRS.tell_structure(teller, selections)
        }
        CommandBody::PcrExtend { digests, .. } => DIGESTS.tell_structure(teller, digests),
        CommandBody::NvUndefineSpace { .. }
        | CommandBody::NvIncrement { .. }
        | CommandBody::PcrReset { .. }
        | CommandBody::NvReadPublic { .. }
        | CommandBody::PolicyAuthValue { .. }
        | CommandBody::PolicyRestart { .. }
        | CommandBody::PolicyGetDigest { .. } => Ok(()),
    }
}

// ---- replies

fn tell_public_fields<T: Teller>(teller: &mut T, public: &NvPublic, name: &Name) -> Pushed
    ensures { OnOk result (T.told teller.new ≡ T.told teller.old
        ++ flat_map T.marks (reply_fields (NvReadPublic public.now name.now))) }
{
    NV_PUBLIC.tell_structure(teller, public)?;
    NV_NAME.tell(teller, name)
}

fn tell_register_fields<T: Teller>(
    teller: &mut T,
    update_counter: u32,
    selections: &Selections,
    digests: &Digests,
) -> Pushed
    ensures { OnOk result (T.told teller.new ≡ T.told teller.old
        ++ flat_map T.marks (reply_fields (PcrRead update_counter selections.now digests.now))) }
{
    UPDATE_COUNTER.tell(teller, &update_counter)?;
    SELECTION_OUT.tell_structure(teller, selections)?;
    PCR_VALUES.tell_structure(teller, digests)
}

/// Tells each parameter of a reply: its name, its type and its bytes (Part 3, the response table of the command), and
/// what stands in it.
pub(crate) fn tell_reply_fields<T: Teller>(teller: &mut T, body: &ReplyBody) -> Pushed
    ensures { OnOk result
        (T.told teller.new ≡ T.told teller.old ++ flat_map T.marks (reply_fields body.now)) }
{
    match body {
        ReplyBody::PcrEvent(digests) => DIGESTS.tell_structure(teller, digests),
        ReplyBody::NvRead(data) => DATA.tell(teller, data),
        ReplyBody::NvReadPublic { public, name } => tell_public_fields(teller, public, name),
        ReplyBody::StartAuthSession(reply) => NONCE_TPM.tell(teller, &reply.nonce_tpm),
        ReplyBody::PcrRead {
            update_counter,
            selections,
            digests,
        } => tell_register_fields(teller, *update_counter, selections, digests),
        ReplyBody::PolicyGetDigest(digest) => POLICY_DIGEST.tell(teller, digest),
        ReplyBody::NvUndefineSpace
        | ReplyBody::NvDefineSpace
        | ReplyBody::NvIncrement
        | ReplyBody::PcrReset
        | ReplyBody::Startup
        | ReplyBody::FlushContext
        | ReplyBody::PolicyAuthValue
        | ReplyBody::PolicyCommandCode
        | ReplyBody::PolicyOr
        | ReplyBody::PolicyPcr
        | ReplyBody::PolicyRestart
        | ReplyBody::PcrExtend => Ok(()),
    }
}
