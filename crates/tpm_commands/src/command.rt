//! The commands: what each has and what it answers, as values, and how these are read and written. What the chapters of
//! Part 3 have of their own is in `commands`.

ghost use Rattle.std.specs.Prelude.{◌≡◌, ◌≤◌, ◌+◌, ◌*◌, ◌++◌, List, length, ℕ, IfOk, OnOk};
ghost use Rattle.tpm_wire.specs.Spelling.{spelling, Fits};
ghost use Rattle.tpm_wire.specs.Buffers.{TakesNumbered};
ghost use Rattle.tpm_commands.specs.declared.command.CommandBody.TheVariants as bodies;
ghost use Rattle.tpm_types.specs.declared.alg.Alg.{Alg as AlgOf};
ghost use Rattle.tpm_types.specs.declared.command_code.CommandCode.TheVariants as codes;
ghost use Rattle.tpm_commands.specs.Commands.Pcr.{pcr_extend};
ghost use Rattle.tpm_commands.specs.Commands.Policy.{policy_or};
ghost use Rattle.tpm_commands.specs.Limits.{most_params, most_reply_params};
ghost use Rattle.tpm_commands.specs.Handles.{handle_kinds, needs_authorization as does_need, handles as handles_layout};
ghost use Rattle.tpm_commands.specs.Parameters.{params_code, parameters};
ghost use Rattle.tpm_commands.specs.Table.{body_from, params_of, code_for, handles_of};
ghost use Rattle.tpm_commands.specs.Replies.{code_for_reply, reply_handles, reply_handles_of, reply_parameters};
ghost use Rattle.tpm_commands.specs.Replies.{parameters_of_reply, handle_list, HasHandle, IsReplyTo};

use crate::command_handles::{
    OF_COUNTER, OF_DEFINING, OF_MEASURING, OF_POLICY, OF_PUBLIC, OF_RESET, OF_START, OF_UNDEFINING,
    Row, WITHOUT_HANDLES, bind_in, first_handle, index_in, nv_auth_in, one_handle, pcr_or_null_in,
    policy_in, register_in, second_handle, two_handles,
};
use crate::commands::{
    Event, NvDefineSpace, NvRead, PolicyPcr, StartParams, known_len, nv, pcr, read_only, session,
    take_event, take_only, take_startup, two_digests,
};
use crate::response::{NvData, StartReply};
use arrayvec::ArrayVec;
use tpm_types::{
    Auth, BindHandle, CommandCode, Digest, DigestValues, Digests, Name, NvAuthHandle, NvIndex,
    NvPublic, OrDigests, PcrIndex, PcrOrNull, PolicyHandle, RH_NULL, RH_OWNER, Selections,
    SessionHandle, StartupType,
};
use tpm_wire::{Cursor, Refusal, Room, Wire};

// ---- values

/// What a command does, with its handles and parameters: the command of that name in Part 3. An event is lent, as
/// from the bytes that the command was decoded from.
///
/// A handle that can have one value alone, as TPM_RH_OWNER of NV_DefineSpace, has no field.
#[derive(Drop)]
pub enum CommandBody<'a> {
    /// TPM2_NV_UndefineSpace (Part 3, 31.4).
    NvUndefineSpace {
        index: NvIndex,
    },
    /// TPM2_NV_DefineSpace (Part 3, 31.3).
    NvDefineSpace(NvDefineSpace),
    /// TPM2_NV_Increment (Part 3, 31.8).
    NvIncrement {
        by: NvAuthHandle,
        index: NvIndex,
    },
    /// TPM2_PCR_Event (Part 3, 22.3).
    PcrEvent {
        register: PcrOrNull,
        event: Event<'a>,
    },
    /// TPM2_PCR_Reset (Part 3, 22.8).
    PcrReset {
        register: PcrIndex,
    },
    /// TPM2_Startup (Part 3, 9.3).
    Startup(StartupType),
    /// TPM2_NV_Read (Part 3, 31.13).
    NvRead {
        by: NvAuthHandle,
        index: NvIndex,
        params: NvRead,
    },
    /// TPM2_FlushContext (Part 3, 28.4).
    FlushContext(SessionHandle),
    /// TPM2_NV_ReadPublic (Part 3, 31.6).
    NvReadPublic {
        index: NvIndex,
    },
    /// TPM2_PolicyAuthValue (Part 3, 23.17).
    PolicyAuthValue {
        session: PolicyHandle,
    },
    /// TPM2_PolicyCommandCode (Part 3, 23.11).
    PolicyCommandCode {
        session: PolicyHandle,
        code: u32,
    },
    /// TPM2_PolicyOR (Part 3, 23.6).
    PolicyOr {
        session: PolicyHandle,
        digests: OrDigests,
    },
    /// TPM2_StartAuthSession (Part 3, 11.1).
    StartAuthSession(StartAuth),
    /// TPM2_PCR_Read (Part 3, 22.4).
    PcrRead(Selections),
    /// TPM2_PolicyPCR (Part 3, 23.7).
    PolicyPcr {
        session: PolicyHandle,
        params: PolicyPcr,
    },
    /// TPM2_PolicyRestart (Part 3, 11.2).
    PolicyRestart {
        session: PolicyHandle,
    },
    /// TPM2_PCR_Extend (Part 3, 22.2).
    PcrExtend {
        register: PcrOrNull,
        digests: DigestValues,
    },
    /// TPM2_PolicyGetDigest (Part 3, 23.19).
    PolicyGetDigest {
        session: PolicyHandle,
    },
}

/// What a session is started with (Part 3, 11.1): what it is bound to, and the parameters. tpmKey is TPM_RH_NULL.
#[derive(Drop)]
pub struct StartAuth {
    pub bind: BindHandle,
    pub params: StartParams,
}

/// A command's parameters, without its handles and sessions. An event is lent from the bytes that they were read from.
#[derive(Drop)]
pub enum Params<'a> {
    NvUndefineSpace,
    NvDefineSpace(NvDefineSpace),
    NvIncrement,
    PcrEvent(Event<'a>),
    PcrReset,
    Startup(StartupType),
    NvRead(NvRead),
    FlushContext(SessionHandle),
    NvReadPublic,
    PolicyAuthValue,
    PolicyCommandCode(u32),
    PolicyOr(OrDigests),
    StartAuthSession(StartParams),
    PcrRead(Selections),
    PolicyPcr(PolicyPcr),
    PolicyRestart,
    PcrExtend(DigestValues),
    PolicyGetDigest,
}

/// What a command answers where it succeeds, with its handle and parameters: the response of that name in Part 3.
#[derive(Drop)]
pub enum ReplyBody {
    NvUndefineSpace,
    NvDefineSpace,
    NvIncrement,
    PcrEvent(DigestValues),
    PcrReset,
    Startup,
    NvRead(NvData),
    FlushContext,
    NvReadPublic {
        public: NvPublic,
        name: Name,
    },
    PolicyAuthValue,
    PolicyCommandCode,
    PolicyOr,
    StartAuthSession(StartReply),
    PcrRead {
        update_counter: u32,
        selections: Selections,
        digests: Digests,
    },
    PolicyPcr,
    PolicyRestart,
    PcrExtend,
    PolicyGetDigest(Digest),
}

/// A command, and the sessions that authorize it: none under tag 0x8001, one to three under 0x8002.
#[derive(Drop)]
pub struct Command<'a> {
    pub body: CommandBody<'a>,
    pub auths: ArrayVec<Auth, 3>,
}

/// What a command begins with (Part 1, "Command/Response Structure"): the tag, the
/// number of bytes of the buffer, and the code.
#[derive(Clone, Copy, Debug, Drop, PartialEq, Eq)]
pub struct Header {
    pub tag: u16,
    pub size: u32,
    pub code: CommandCode,
}

// ---- rows

/// A command's row in the table.
#[inline(always)]
pub(crate) fn row_of(code: CommandCode) -> Row
    ensures handles { result.handles.now ≡ handle_kinds code }
    ensures few { length result.handles.now ≤ 2 }
    ensures needs_authorization { result.needs_authorization ≡ does_need code }
{
    match code {
        CommandCode::NvUndefineSpace => OF_UNDEFINING,
        CommandCode::NvDefineSpace => OF_DEFINING,
        CommandCode::NvIncrement | CommandCode::NvRead => OF_COUNTER,
        CommandCode::PcrEvent | CommandCode::PcrExtend => OF_MEASURING,
        CommandCode::PcrReset => OF_RESET,
        CommandCode::Startup | CommandCode::FlushContext | CommandCode::PcrRead => WITHOUT_HANDLES,
        CommandCode::NvReadPublic => OF_PUBLIC,
        CommandCode::StartAuthSession => OF_START,
        CommandCode::PolicyAuthValue
        | CommandCode::PolicyCommandCode
        | CommandCode::PolicyOr
        | CommandCode::PolicyPcr
        | CommandCode::PolicyRestart
        | CommandCode::PolicyGetDigest => OF_POLICY,
    }
}

// ---- commands

impl CommandBody<'_> {
    /// The command's code.
    pub fn code(&self) -> CommandCode
        ensures { result ≡ code_for self.now }
    {
        match self {
            CommandBody::NvUndefineSpace { .. } => CommandCode::NvUndefineSpace,
            CommandBody::NvDefineSpace(_) => CommandCode::NvDefineSpace,
            CommandBody::NvIncrement { .. } => CommandCode::NvIncrement,
            CommandBody::PcrEvent { .. } => CommandCode::PcrEvent,
            CommandBody::PcrReset { .. } => CommandCode::PcrReset,
            CommandBody::Startup(_) => CommandCode::Startup,
            CommandBody::NvRead { .. } => CommandCode::NvRead,
            CommandBody::FlushContext(_) => CommandCode::FlushContext,
            CommandBody::NvReadPublic { .. } => CommandCode::NvReadPublic,
            CommandBody::PolicyAuthValue { .. } => CommandCode::PolicyAuthValue,
            CommandBody::PolicyCommandCode { .. } => CommandCode::PolicyCommandCode,
            CommandBody::PolicyOr { .. } => CommandCode::PolicyOr,
            CommandBody::StartAuthSession(_) => CommandCode::StartAuthSession,
            CommandBody::PcrRead(_) => CommandCode::PcrRead,
            CommandBody::PolicyPcr { .. } => CommandCode::PolicyPcr,
            CommandBody::PolicyRestart { .. } => CommandCode::PolicyRestart,
            CommandBody::PcrExtend { .. } => CommandCode::PcrExtend,
            CommandBody::PolicyGetDigest { .. } => CommandCode::PolicyGetDigest,
        }
    }

    /// The handles' numbers. They are of the command's kinds, and with its parameters they make it again.
    pub fn handle_numbers(&self) -> ArrayVec<u32, 2>
        ensures value { result.items ≡ handles_of self.now }
        ensures spelled { (left : ℕ)
            → Fits left (handles_layout (code_for self.now)) (handles_of self.now) }
        ensures whole { body_from (handles_of self.now) (params_of self.now) ≡ self.now }
    {
        match self {
            CommandBody::NvUndefineSpace { index } => two_handles(RH_OWNER, index.number()),
            CommandBody::NvDefineSpace(_) => one_handle(RH_OWNER),
            CommandBody::NvIncrement { by, index } => two_handles(by.number(), index.number()),
            CommandBody::PcrEvent { register, .. } => one_handle(register.number()),
            CommandBody::PcrReset { register } => one_handle(register.number()),
            CommandBody::NvRead { by, index, .. } => two_handles(by.number(), index.number()),
            CommandBody::NvReadPublic { index } => one_handle(index.number()),
            CommandBody::PolicyAuthValue { session } => one_handle(session.number()),
            CommandBody::PolicyCommandCode { session, .. } => one_handle(session.number()),
            CommandBody::PolicyOr { session, .. } => one_handle(session.number()),
            CommandBody::StartAuthSession(start) => two_handles(RH_NULL, start.bind.number()),
            CommandBody::PolicyPcr { session, .. } => one_handle(session.number()),
            CommandBody::PolicyRestart { session } => one_handle(session.number()),
            CommandBody::PcrExtend { register, .. } => one_handle(register.number()),
            CommandBody::PolicyGetDigest { session } => one_handle(session.number()),
            CommandBody::Startup(_) | CommandBody::FlushContext(_) | CommandBody::PcrRead(_) =>
                ArrayVec::new(),
        }
    }

    /// How many bytes its parameters have, 0 to 1,026; what is proved is 3,500 at most.
    #[tactic(auto, unfolding(crate::specs::Commands::Pcr::pcr_event, crate::specs::Commands::Startup::startup, crate::specs::Commands::Context::flush_context, crate::specs::Commands::Policy::policy_command_code, crate::specs::Commands::Policy::policy_or, crate::specs::Commands::Pcr::pcr_read, crate::specs::Commands::Pcr::pcr_extend,))]
    pub fn params_len(&self) -> usize
        ensures value { result
            ≡ length (spelling (parameters (code_for self.now)) (params_of self.now)) }
        ensures fits { result ≤ most_params }
        ensures spelled { (left : ℕ)
            → Fits left (parameters (code_for self.now)) (params_of self.now) }
    {
        match self {
            CommandBody::NvDefineSpace(params) => params.len(),
            CommandBody::PcrEvent { event, .. } => {
                event.has_spelling();
                event.len()
            }
            CommandBody::Startup(startup_type) => known_len(startup_type),
            CommandBody::NvRead { params, .. } => params.len(),
            CommandBody::FlushContext(session) => known_len(session),
            CommandBody::PolicyCommandCode { code, .. } => {
                prove!(*code <= u32::MAX);
                known_len(code)
            }
            CommandBody::PolicyOr { digests, .. } => known_len(digests),
            CommandBody::StartAuthSession(start) => start.params.len(),
            CommandBody::PcrRead(selections) => known_len(selections),
            CommandBody::PolicyPcr { params, .. } => params.len(),
            CommandBody::PcrExtend { digests, .. } => known_len(digests),
            CommandBody::NvUndefineSpace { .. }
            | CommandBody::NvIncrement { .. }
            | CommandBody::PcrReset { .. }
            | CommandBody::NvReadPublic { .. }
            | CommandBody::PolicyAuthValue { .. }
            | CommandBody::PolicyRestart { .. }
            | CommandBody::PolicyGetDigest { .. } => 0,
        }
    }

    /// Adds its parameters at the end.
    #[tactic(auto, unfolding(crate::specs::Commands::Pcr::pcr_event, crate::specs::Commands::Startup::startup, crate::specs::Commands::Context::flush_context, crate::specs::Commands::Policy::policy_command_code, crate::specs::Commands::Policy::policy_or, crate::specs::Commands::Pcr::pcr_read, crate::specs::Commands::Pcr::pcr_extend,))]
    #[inline(never)]
    pub fn put_params<R: Room>(&self, out: &mut R)
        requires { length (R.written out.old)
            + length (spelling (parameters (code_for self.now)) (params_of self.now))
            ≤ R.size }
        ensures { R.written out.new
            ≡ R.written out.old ++ spelling (parameters (code_for self.now)) (params_of self.now) }
    {
        match self {
            CommandBody::NvDefineSpace(params) => params.put(out),
            CommandBody::PcrEvent { event, .. } => event.put(out),
            CommandBody::Startup(startup_type) => startup_type.put(out),
            CommandBody::NvRead { params, .. } => params.put(out),
            CommandBody::FlushContext(session) => session.put(out),
            CommandBody::PolicyCommandCode { code, .. } => code.put(out),
            CommandBody::PolicyOr { digests, .. } => digests.put(out),
            CommandBody::StartAuthSession(start) => start.params.put(out),
            CommandBody::PcrRead(selections) => selections.put(out),
            CommandBody::PolicyPcr { params, .. } => params.put(out),
            CommandBody::PcrExtend { digests, .. } => digests.put(out),
            CommandBody::NvUndefineSpace { .. }
            | CommandBody::NvIncrement { .. }
            | CommandBody::PcrReset { .. }
            | CommandBody::NvReadPublic { .. }
            | CommandBody::PolicyAuthValue { .. }
            | CommandBody::PolicyRestart { .. }
            | CommandBody::PolicyGetDigest { .. } => {}
        }
    }
}

impl<'a> CommandBody<'a> {
    // Makes it a TPM2_PolicyOR whose digests are read. It is out of line, as the next is: every command would have the
    // room of these digests, which begins with zeros.
    #[tactic(auto, unfolding(crate::specs::Commands::Policy::policy_or))]
    #[inline(never)]
    fn read_or(&mut self, cursor: &mut Cursor<'a>, session: PolicyHandle) -> Result<(), Refusal>
        ensures reads { TakesNumbered (λ _. params_of self.new) policy_or
            cursor.old cursor.new result }
        ensures spelled { OnOk result
            (cursor.old.here.rest
            ≡ spelling policy_or (params_of self.new) ++ cursor.new.here.rest) }
        ensures own { OnOk result ((d : List (List ℕ)) × (self.new ≡ bodies.PolicyOr session d)) }
    {
        *self = CommandBody::PolicyOr {
            session,
            digests: two_digests(),
        };
        match self {
            CommandBody::PolicyOr { digests, .. } => read_only(cursor, digests),
            _ => unreachable!(),
        }
    }

    // Makes it a TPM2_PCR_Extend whose digests are read.
    #[tactic(auto, unfolding(crate::specs::Commands::Pcr::pcr_extend))]
    #[inline(never)]
    fn read_extend(&mut self, cursor: &mut Cursor<'a>, register: PcrOrNull) -> Result<(), Refusal>
        ensures reads { TakesNumbered (λ _. params_of self.new) pcr_extend
            cursor.old cursor.new result }
        ensures spelled { OnOk result
            (cursor.old.here.rest
            ≡ spelling pcr_extend (params_of self.new) ++ cursor.new.here.rest) }
        ensures own { OnOk result ((d : List (AlgOf × List ℕ)) × (self.new ≡ bodies.PcrExtend register d)) }
    {
        *self = CommandBody::PcrExtend {
            register,
            digests: DigestValues::default(),
        };
        match self {
            CommandBody::PcrExtend { digests, .. } => read_only(cursor, digests),
            _ => unreachable!(),
        }
    }

    /// Makes it the command with this code whose parameters are read, and whose handles have these numbers; or answers
    /// the parameters' first fault, with its number: INSUFFICIENT, VALUE, SIZE, HASH, SYMMETRIC, MODE or RESERVED_BITS
    /// (Part 3, the command table of each). Which command it is after a fault is not said.
    ///
    /// A handle that is missing, or that the command cannot have, is never met where both were read under one
    /// code; in its place stands one of its kind.
    #[tactic(auto, unfolding(crate::specs::Commands::Pcr::pcr_event, crate::specs::Commands::Context::flush_context, crate::specs::Commands::Policy::policy_command_code, crate::specs::Commands::Policy::policy_or, crate::specs::Commands::Pcr::pcr_read, crate::specs::Commands::Pcr::pcr_extend,))]
    #[inline(never)]
    pub fn read(
        &mut self,
        cursor: &mut Cursor<'a>,
        code: CommandCode,
        handles: &[u32],
    ) -> Result<(), Refusal>
        ensures reads { TakesNumbered (λ _. params_of self.new) (parameters code)
            cursor.old cursor.new result }
        ensures spelled { OnOk result
            (cursor.old.here.rest
            ≡ spelling (parameters code) (params_of self.new) ++ cursor.new.here.rest) }
        ensures code { OnOk result (params_code (params_of self.new) ≡ code) }
        ensures body { OnOk result (self.new ≡ body_from handles.now (params_of self.new)) }
    {
        let first = first_handle(handles);
        let second = second_handle(handles);
        *self = match code {
            CommandCode::NvUndefineSpace => CommandBody::NvUndefineSpace {
                index: index_in(second),
            },
            CommandCode::NvDefineSpace => CommandBody::NvDefineSpace(NvDefineSpace::take(cursor)?),
            CommandCode::NvIncrement => CommandBody::NvIncrement {
                by: nv_auth_in(first),
                index: index_in(second),
            },
            CommandCode::PcrEvent => CommandBody::PcrEvent {
                register: pcr_or_null_in(first),
                event: take_event(cursor)?,
            },
            CommandCode::PcrReset => CommandBody::PcrReset {
                register: register_in(first),
            },
            CommandCode::Startup => CommandBody::Startup(take_startup(cursor)?),
            CommandCode::NvRead => CommandBody::NvRead {
                by: nv_auth_in(first),
                index: index_in(second),
                params: NvRead::take(cursor)?,
            },
            CommandCode::FlushContext => CommandBody::FlushContext(take_only(cursor)?),
            CommandCode::NvReadPublic => CommandBody::NvReadPublic {
                index: index_in(first),
            },
            CommandCode::PolicyAuthValue => CommandBody::PolicyAuthValue {
                session: policy_in(first),
            },
            CommandCode::PolicyCommandCode => CommandBody::PolicyCommandCode {
                session: policy_in(first),
                code: take_only(cursor)?,
            },
            CommandCode::PolicyOr => return self.read_or(cursor, policy_in(first)),
            CommandCode::StartAuthSession => CommandBody::StartAuthSession(StartAuth {
                bind: bind_in(second),
                params: StartParams::any(),
            }),
            CommandCode::PcrRead => CommandBody::PcrRead(Selections::default()),
            CommandCode::PolicyPcr => CommandBody::PolicyPcr {
                session: policy_in(first),
                params: PolicyPcr::default(),
            },
            CommandCode::PolicyRestart => CommandBody::PolicyRestart {
                session: policy_in(first),
            },
            CommandCode::PcrExtend => return self.read_extend(cursor, pcr_or_null_in(first)),
            CommandCode::PolicyGetDigest => CommandBody::PolicyGetDigest {
                session: policy_in(first),
            },
        };
        match self {
            CommandBody::StartAuthSession(start) => start.params.read(cursor),
            CommandBody::PcrRead(selections) => read_only(cursor, selections),
            CommandBody::PolicyPcr { params, .. } => params.read(cursor),
            _ => Ok(()),
        }
    }
}

// ---- parameters alone

impl Params<'_> {
    // They have a spelling, whatever is left.
    #[tactic(auto, unfolding(crate::specs::Commands::Pcr::pcr_event, crate::specs::Commands::Startup::startup, crate::specs::Commands::Context::flush_context, crate::specs::Commands::Policy::policy_command_code, crate::specs::Commands::Policy::policy_or, crate::specs::Commands::Pcr::pcr_read, crate::specs::Commands::Pcr::pcr_extend,))]
    #[inline(always)]
    pub(crate) fn have_spelling(&self)
        ensures { (left : ℕ) → Fits left (parameters (params_code self.now)) self.now }
    {
        match self {
            Params::NvDefineSpace(params) => params.has_spelling(),
            Params::PcrEvent(event) => event.has_spelling(),
            Params::Startup(startup_type) => startup_type.has_spelling(),
            Params::NvRead(params) => params.has_spelling(),
            Params::FlushContext(session) => session.has_spelling(),
            Params::PolicyCommandCode(code) => {
                prove!(*code <= u32::MAX);
                code.has_spelling();
            }
            Params::PolicyOr(digests) => digests.has_spelling(),
            Params::StartAuthSession(params) => params.has_spelling(),
            Params::PcrRead(selections) => selections.has_spelling(),
            Params::PolicyPcr(params) => params.has_spelling(),
            Params::PcrExtend(digests) => digests.has_spelling(),
            Params::NvUndefineSpace
            | Params::NvIncrement
            | Params::PcrReset
            | Params::NvReadPublic
            | Params::PolicyAuthValue
            | Params::PolicyRestart
            | Params::PolicyGetDigest => {}
        }
    }
}

impl<'a> Params<'a> {
    // Makes them the digests of TPM2_PolicyOR that are read, out of line, as for a command with its handles.
    #[tactic(auto, unfolding(crate::specs::Commands::Policy::policy_or))]
    #[inline(never)]
    fn read_or(&mut self, cursor: &mut Cursor<'a>) -> Result<(), Refusal>
        ensures reads { TakesNumbered (λ _. self.new) policy_or cursor.old cursor.new result }
        ensures spelled { OnOk result
            (cursor.old.here.rest ≡ spelling policy_or self.new ++ cursor.new.here.rest) }
        ensures code { OnOk result (params_code self.new ≡ codes.PolicyOr) }
    {
        *self = Params::PolicyOr(two_digests());
        match self {
            Params::PolicyOr(digests) => read_only(cursor, digests),
            _ => unreachable!(),
        }
    }

    // Makes them the digests of TPM2_PCR_Extend that are read.
    #[tactic(auto, unfolding(crate::specs::Commands::Pcr::pcr_extend))]
    #[inline(never)]
    fn read_extend(&mut self, cursor: &mut Cursor<'a>) -> Result<(), Refusal>
        ensures reads { TakesNumbered (λ _. self.new) pcr_extend cursor.old cursor.new result }
        ensures spelled { OnOk result
            (cursor.old.here.rest ≡ spelling pcr_extend self.new ++ cursor.new.here.rest) }
        ensures code { OnOk result (params_code self.new ≡ codes.PcrExtend) }
    {
        *self = Params::PcrExtend(DigestValues::default());
        match self {
            Params::PcrExtend(digests) => read_only(cursor, digests),
            _ => unreachable!(),
        }
    }

    // Makes them those of a command with this code that are read, or answers their first fault. Which are there after a
    // fault is not said.
    #[tactic(auto, unfolding(crate::specs::Commands::Pcr::pcr_event, crate::specs::Commands::Context::flush_context, crate::specs::Commands::Policy::policy_command_code, crate::specs::Commands::Policy::policy_or, crate::specs::Commands::Pcr::pcr_read, crate::specs::Commands::Pcr::pcr_extend,))]
    #[inline(never)]
    pub(crate) fn read(&mut self, cursor: &mut Cursor<'a>, code: CommandCode) -> Result<(), Refusal>
        ensures reads { TakesNumbered (λ _. self.new) (parameters code)
            cursor.old cursor.new result }
        ensures spelled { OnOk result
            (cursor.old.here.rest ≡ spelling (parameters code) self.new ++ cursor.new.here.rest) }
        ensures code { OnOk result (params_code self.new ≡ code) }
    {
        *self = match code {
            CommandCode::NvUndefineSpace => Params::NvUndefineSpace,
            CommandCode::NvDefineSpace => Params::NvDefineSpace(NvDefineSpace::take(cursor)?),
            CommandCode::NvIncrement => Params::NvIncrement,
            CommandCode::PcrEvent => Params::PcrEvent(take_event(cursor)?),
            CommandCode::PcrReset => Params::PcrReset,
            CommandCode::Startup => Params::Startup(take_startup(cursor)?),
            CommandCode::NvRead => Params::NvRead(NvRead::take(cursor)?),
            CommandCode::FlushContext => Params::FlushContext(take_only(cursor)?),
            CommandCode::NvReadPublic => Params::NvReadPublic,
            CommandCode::PolicyAuthValue => Params::PolicyAuthValue,
            CommandCode::PolicyCommandCode => Params::PolicyCommandCode(take_only(cursor)?),
            CommandCode::PolicyOr => return self.read_or(cursor),
            CommandCode::StartAuthSession => Params::StartAuthSession(StartParams::any()),
            CommandCode::PcrRead => Params::PcrRead(Selections::default()),
            CommandCode::PolicyPcr => Params::PolicyPcr(PolicyPcr::default()),
            CommandCode::PolicyRestart => Params::PolicyRestart,
            CommandCode::PcrExtend => return self.read_extend(cursor),
            CommandCode::PolicyGetDigest => Params::PolicyGetDigest,
        };
        match self {
            Params::StartAuthSession(params) => params.read(cursor),
            Params::PcrRead(selections) => read_only(cursor, selections),
            Params::PolicyPcr(params) => params.read(cursor),
            _ => Ok(()),
        }
    }
}

// ---- replies

/// The handle of a response to a command with this code, where it has one; or its fault: INSUFFICIENT or VALUE for
/// handle 1 (Part 3, the response table of each).
pub fn take_reply_handle(
    cursor: &mut Cursor<'_>,
    code: CommandCode,
) -> Result<Option<SessionHandle>, Refusal>
    ensures reads { TakesNumbered handle_list (reply_handles code) cursor.old cursor.new result }
    ensures spelled { IfOk result
        (λ h. cursor.old.here.rest
        ≡ spelling (reply_handles code) (handle_list h) ++ cursor.new.here.rest) }
    ensures length { IfOk result
        (λ h. length cursor.old.here.rest
        ≡ 4 * length (handle_list h) + length cursor.new.here.rest) }
    ensures there { IfOk result (HasHandle code) }
{
    if code != CommandCode::StartAuthSession {
        return Ok(None);
    }
    Ok(Some(session::take_session_handle(cursor)?))
}

/// Reads the reply to a command with this code, of which the handle was read before, in the place of another one; or
/// the first fault, with the parameter's number: INSUFFICIENT, VALUE, SIZE, HASH or RESERVED_BITS (Part 3, the
/// response table of each). Which reply is there after a fault is not said.
#[tactic(auto, unfolding(crate::specs::Commands::Pcr::pcr_event_reply, crate::specs::Commands::Nv::nv_read_reply, crate::specs::Commands::Policy::policy_get_digest_reply,))]
pub fn read_reply_params(
    cursor: &mut Cursor<'_>,
    code: CommandCode,
    handle: Option<SessionHandle>,
    body: &mut ReplyBody,
) -> Result<(), Refusal>
    requires { HasHandle code handle }
    ensures reads { TakesNumbered (λ _. body.new) (reply_parameters code (handle_list handle))
        cursor.old cursor.new result }
    ensures spelled { OnOk result
        (cursor.old.here.rest
        ≡ spelling (reply_parameters code (handle_list handle)) body.new
        ++ cursor.new.here.rest) }
    ensures own { OnOk result (IsReplyTo code handle body.new) }
{
    *body = match code {
        CommandCode::NvUndefineSpace => ReplyBody::NvUndefineSpace,
        CommandCode::NvDefineSpace => ReplyBody::NvDefineSpace,
        CommandCode::NvIncrement => ReplyBody::NvIncrement,
        CommandCode::PcrEvent => return pcr::read_pcr_event_reply(cursor, body),
        CommandCode::PcrReset => ReplyBody::PcrReset,
        CommandCode::Startup => ReplyBody::Startup,
        CommandCode::NvRead => ReplyBody::NvRead(NvData::default()),
        CommandCode::FlushContext => ReplyBody::FlushContext,
        CommandCode::NvReadPublic => return nv::read_nv_read_public_reply(cursor, body),
        CommandCode::PolicyAuthValue => ReplyBody::PolicyAuthValue,
        CommandCode::PolicyCommandCode => ReplyBody::PolicyCommandCode,
        CommandCode::PolicyOr => ReplyBody::PolicyOr,
        CommandCode::StartAuthSession => match handle {
            Some(session) => return session::read_start_auth_session_reply(cursor, session, body),
            None => unreachable!(),
        },
        CommandCode::PcrRead => return pcr::read_pcr_read_reply(cursor, body),
        CommandCode::PolicyPcr => ReplyBody::PolicyPcr,
        CommandCode::PolicyRestart => ReplyBody::PolicyRestart,
        CommandCode::PcrExtend => ReplyBody::PcrExtend,
        CommandCode::PolicyGetDigest => ReplyBody::PolicyGetDigest(Digest::default()),
    };
    match body {
        ReplyBody::NvRead(bytes) => read_only(cursor, bytes),
        ReplyBody::PolicyGetDigest(digest) => read_only(cursor, digest),
        _ => Ok(()),
    }
}

impl ReplyBody {
    /// The code of the command that is answered so.
    pub fn code(&self) -> CommandCode
        ensures { result ≡ code_for_reply self.now }
    {
        match self {
            ReplyBody::NvUndefineSpace => CommandCode::NvUndefineSpace,
            ReplyBody::NvDefineSpace => CommandCode::NvDefineSpace,
            ReplyBody::NvIncrement => CommandCode::NvIncrement,
            ReplyBody::PcrEvent(_) => CommandCode::PcrEvent,
            ReplyBody::PcrReset => CommandCode::PcrReset,
            ReplyBody::Startup => CommandCode::Startup,
            ReplyBody::NvRead(_) => CommandCode::NvRead,
            ReplyBody::FlushContext => CommandCode::FlushContext,
            ReplyBody::NvReadPublic { .. } => CommandCode::NvReadPublic,
            ReplyBody::PolicyAuthValue => CommandCode::PolicyAuthValue,
            ReplyBody::PolicyCommandCode => CommandCode::PolicyCommandCode,
            ReplyBody::PolicyOr => CommandCode::PolicyOr,
            ReplyBody::StartAuthSession(_) => CommandCode::StartAuthSession,
            ReplyBody::PcrRead { .. } => CommandCode::PcrRead,
            ReplyBody::PolicyPcr => CommandCode::PolicyPcr,
            ReplyBody::PolicyRestart => CommandCode::PolicyRestart,
            ReplyBody::PcrExtend => CommandCode::PcrExtend,
            ReplyBody::PolicyGetDigest(_) => CommandCode::PolicyGetDigest,
        }
    }

    /// How many bytes its handle has, 0 where it has none.
    #[tactic(auto, unfolding(crate::specs::Commands::Session::session_handle))]
    pub fn handles_len(&self) -> usize
        ensures value { result
            ≡ length
            (spelling (reply_handles (code_for_reply self.now)) (reply_handles_of self.now)) }
        ensures fits { result ≤ 4 }
    {
        match self {
            ReplyBody::StartAuthSession(reply) => reply.session.len(),
            _ => 0,
        }
    }

    /// Adds its handle at the end, where it has one.
    #[tactic(auto, unfolding(crate::specs::Commands::Session::session_handle, tpm_types::specs::Handles::session))]
    pub fn put_handles<R: Room>(&self, out: &mut R)
        requires { length (R.written out.old)
            + length
            (spelling (reply_handles (code_for_reply self.now))
            (reply_handles_of self.now))
            ≤ R.size }
        ensures { R.written out.new
            ≡ R.written out.old
            ++ spelling (reply_handles (code_for_reply self.now)) (reply_handles_of self.now) }
    {
        if let ReplyBody::StartAuthSession(reply) = self {
            reply.session.put(out);
        }
    }

    /// Its handle has a spelling.
    #[tactic(auto, unfolding(crate::specs::Commands::Session::session_handle))]
    pub fn known_handles(&self)
        ensures { (left : ℕ)
            → Fits left (reply_handles (code_for_reply self.now)) (reply_handles_of self.now) }
    {
        if let ReplyBody::StartAuthSession(reply) = self {
            reply.session.has_spelling();
        }
    }

    /// How many bytes its parameters have, 0 to 430.
    #[tactic(auto, unfolding(crate::specs::Commands::Pcr::pcr_event_reply, crate::specs::Commands::Nv::nv_read_reply, crate::specs::Commands::Policy::policy_get_digest_reply,))]
    #[inline(always)]
    pub fn params_len(&self) -> usize
        ensures value { result ≡ length (spelling (parameters_of_reply self.now) self.now) }
        ensures fits { result ≤ most_reply_params }
        ensures spelled { (left : ℕ) → Fits left (parameters_of_reply self.now) self.now }
    {
        match self {
            ReplyBody::PcrEvent(digests) => known_len(digests),
            ReplyBody::NvRead(bytes) => known_len(bytes),
            ReplyBody::NvReadPublic { public, name } => nv::nv_read_public_reply_len(public, name),
            ReplyBody::StartAuthSession(reply) => session::start_auth_session_reply_len(reply),
            ReplyBody::PcrRead {
                update_counter,
                selections,
                digests,
            } => pcr::pcr_read_reply_len(*update_counter, selections, digests),
            ReplyBody::PolicyGetDigest(digest) => known_len(digest),
            ReplyBody::NvUndefineSpace
            | ReplyBody::NvDefineSpace
            | ReplyBody::NvIncrement
            | ReplyBody::PcrReset
            | ReplyBody::Startup
            | ReplyBody::FlushContext
            | ReplyBody::PolicyAuthValue
            | ReplyBody::PolicyCommandCode
            | ReplyBody::PolicyOr
            | ReplyBody::PolicyPcr
            | ReplyBody::PolicyRestart
            | ReplyBody::PcrExtend => 0,
        }
    }

    /// Adds its parameters at the end.
    #[tactic(auto, unfolding(crate::specs::Commands::Pcr::pcr_event_reply, crate::specs::Commands::Nv::nv_read_reply, crate::specs::Commands::Policy::policy_get_digest_reply,))]
    pub fn put_params<R: Room>(&self, out: &mut R)
        requires { length (R.written out.old)
            + length (spelling (parameters_of_reply self.now) self.now)
            ≤ R.size }
        ensures { R.written out.new
            ≡ R.written out.old ++ spelling (parameters_of_reply self.now) self.now }
    {
        match self {
            ReplyBody::PcrEvent(digests) => digests.put(out),
            ReplyBody::NvRead(bytes) => bytes.put(out),
            ReplyBody::NvReadPublic { public, name } => nv::put_nv_read_public_reply(
                public, name, out,
            ),
            ReplyBody::StartAuthSession(reply) => session::put_start_auth_session_reply(reply, out),
            ReplyBody::PcrRead {
                update_counter,
                selections,
                digests,
            } => pcr::put_pcr_read_reply(*update_counter, selections, digests, out),
            ReplyBody::PolicyGetDigest(digest) => digest.put(out),
            ReplyBody::NvUndefineSpace
            | ReplyBody::NvDefineSpace
            | ReplyBody::NvIncrement
            | ReplyBody::PcrReset
            | ReplyBody::Startup
            | ReplyBody::FlushContext
            | ReplyBody::PolicyAuthValue
            | ReplyBody::PolicyCommandCode
            | ReplyBody::PolicyOr
            | ReplyBody::PolicyPcr
            | ReplyBody::PolicyRestart
            | ReplyBody::PcrExtend => {}
        }
    }
}
