//! The sessions of a device, by slot.

ghost use Rattle.std.specs.Prelude.{◌≡◌, ◌<◌, ℕ, true, List, [], ◌∷◌, None, option_map, IfOk, IsSome, OnOk, OnErr};
ghost use Rattle.tpm_commands.specs.declared.command.Command.{Command};
ghost use Rattle.tpm_commands.specs.Handles.{needs_authorization};
ghost use Rattle.tpm_commands.specs.declared.command.CommandBody.TheVariants as bodies;
ghost use Rattle.tpm_commands.specs.declared.command.ReplyBody.TheVariants as replies;
ghost use Rattle.tpm_buffer.specs.Responses.{Reply};
ghost use Rattle.tpm_buffer.specs.Commands.{code_for};
ghost use Rattle.tpm_hmac.specs.Sessions.{trim as trim_of};
ghost use Rattle.tpm_model.specs.Steps.{Origin, History, PowerCycle, Accepted};
ghost use Rattle.tpm_model.specs.Sessions.{slot_of as slot_number, handle_for as handle_of, loaded, free_slot};
ghost use Rattle.tpm_model.specs.Sessions.{session_in, sessions_at, assertions_of};
ghost use Rattle.tpm_model.specs.Actions.{check_flush, start_session, check_policy_pcr, check_policy_or};
ghost use Rattle.tpm_model.specs.Actions.{check_policy_code};
ghost use Rattle.tpm_model.specs.Policies.{policy_digest as digest_of};
ghost use Rattle.tpm_pcr.specs.Registers.{value_in, composite as composite_of, registers_after};
ghost use Rattle.tpm_model.specs.Changes.{changes};
ghost use Rattle.tpm_model.specs.Sessions as model;
ghost use Rattle.tpm_types.specs.declared.handle_sets.BindHandle.TheVariants as binds;
ghost use Rattle.tpm_session.specs.Answers.{started_reply};
ghost use Rattle.tpm_session.specs.Entities.{Authorizes};
ghost use Rattle.tpm_session.specs.Policies.{for_policy, as_assertion};
ghost use Rattle.tpm_session.specs.inner.Asserting.{after_command, asserting, restarted, with_slot};

use crate::authorize::Authorization;
use crate::policy::Assertion;
use crate::session::{NONCE_BYTES, Policy, Session, first_of};
use std::marker::Model;
use tpm_commands::{StartAuth, StartReply};
use tpm_hmac::SessionKey;
use tpm_pcr::Registers;
use tpm_types::{Alg, Digest, OrDigests, PolicyHandle, Selections, SessionHandle, SessionType};
use tpm_wire::Duplicate;
use tpm_wire::response_code::{HANDLE, REFERENCE_H0, SESSION_MEMORY, SIZE, of_parameter};

/// How many sessions there is room for.
const SLOTS: usize = 3;

// How many handles of sessions there are of one kind.
const HANDLES_OF_A_KIND: u32 = 0x0100_0000;

const FIRST_HMAC_SESSION: u32 = 0x0200_0000;

const FIRST_POLICY_SESSION: u32 = 0x0300_0000;

// How many bytes the nonce of a caller that starts a session has at least.
const LEAST_NONCE: usize = 16;

/// The sessions that are loaded, three at most, each in its slot (Part 1, "Session-Based
/// Authorizations"). All of them are in place: nothing is allocated.
#[derive(Drop)]
pub struct Sessions {
    slots: [Option<Session>; SLOTS],
    // The key of the session that was started or used last, hashed, so that its next command need not do it.
    pub(crate) hashed: SessionKey,
}

impl Model for Sessions {
    ghost use Rattle.std.specs.Prelude.{List, Option};
    ghost use Rattle.tpm_model.specs.Sessions as model;

    ghost Value = { List (Option model.Session) };

    ghost view = { λ s. s.slots };
}

// The slot of a handle, which is none where it is past the last.
pub(crate) fn slot_of(session: SessionHandle) -> usize
    ensures { result ≡ slot_number session }
{
    (session.number() % HANDLES_OF_A_KIND) as usize
}

// The handle of a session of this type in this slot.
fn handle_for(session_type: SessionType, slot: usize) -> SessionHandle
    requires { slot < 3 }
    ensures value { result ≡ handle_of session_type slot }
    ensures in_slot { slot_number result ≡ slot }
{
    let first = match session_type {
        SessionType::Hmac => FIRST_HMAC_SESSION,
        SessionType::Policy | SessionType::Trial => FIRST_POLICY_SESSION,
    };
    match SessionHandle::from_number(first + slot as u32) {
        Some(session) => session,
        None => unreachable!(),
    }
}

// The lowest slot that is free.
fn lowest_free(slots: &[Option<Session>; SLOTS]) -> Option<usize>
    ensures { result ≡ free_slot slots.now }
{
    match slots {
        [None, _, _] => Some(0),
        [_, None, _] => Some(1),
        [_, _, None] => Some(2),
        _ => None,
    }
}

impl Sessions {
    /// No sessions, as after a power cycle.
    pub fn new() -> Self
        ensures at_first { (o : Origin) → result ≡ sessions_at o [] }
        ensures cycled { (o : Origin) (h : History) → result ≡ sessions_at o (PowerCycle ∷ h) }
    {
        Sessions {
            slots: [None, None, None],
            hashed: no_key(),
        }
    }

    /// Frees every slot, as after a power cycle.
    pub fn clear(&mut self)
        ensures { self.new ≡ None ∷ None ∷ None ∷ [] }
    {
        free(&mut self.slots[0]);
        free(&mut self.slots[1]);
        free(&mut self.slots[2]);
        self.hashed = no_key();
    }

    /// The session of this handle, where it is loaded: a session of the handle's kind is in its slot.
    pub fn get(&self, session: SessionHandle) -> Option<&Session>
        ensures { option_map (λ s. s.now) result ≡ loaded self.now session }
    {
        match self.in_slot(slot_of(session)) {
            Some(found) if found.has_handle(session) => Some(found),
            _ => None,
        }
    }

    // The session in this slot, where there is one.
    pub(crate) fn in_slot(&self, slot: usize) -> Option<&Session>
        ensures { option_map (λ s. s.now) result ≡ session_in self.now slot }
    {
        self.slots.get(slot)?.as_ref()
    }

    /// TPM2_StartAuthSession: starts a session in the lowest free slot, with the first of these
    /// bytes for its nonce; `bind_auth` is the authorization value of what it is bound to, and is
    /// not looked at where bind is TPM_RH_NULL (Part 3, 11.1). Refused in this order: SIZE of
    /// parameter 1 for a nonce of fewer than 16 bytes or more than a digest has; SESSION_MEMORY
    /// where no slot is free.
    pub fn start(
        &mut self,
        start: &StartAuth,
        bind_auth: &[u8],
        nonce: &[u8; NONCE_BYTES],
    ) -> Result<StartReply, u32>
        ensures answer { started_reply result ≡ start_session self.old start.now nonce.now }
        ensures started { IfOk result (λ reply.
            (o : Origin) (h : History) (c : Command) (r : Reply) →
            (start.now.bind ≡ binds.Owner → trim_of bind_auth.now ≡ trim_of o.owner) →
            c.body ≡ bodies.StartAuthSession start.now →
            c.auths.items ≡ [] →
            r.body ≡ replies.StartAuthSession reply →
            self.old ≡ sessions_at o h →
            self.new ≡ sessions_at o (Accepted c r nonce.now ∷ h)) }
        ensures refused { OnErr result (self.new ≡ self.old) }
    {
        let len = start.params.nonce_caller.as_slice().len();
        if len < LEAST_NONCE || len > start.params.auth_hash.digest_len() {
            return Err(SIZE + of_parameter(1));
        }
        let Some(slot) = lowest_free(&self.slots) else {
            return Err(SESSION_MEMORY);
        };
        self.slots[slot] = Some(Session::started(start, bind_auth, nonce, &mut self.hashed));
        Ok(StartReply {
            session: handle_for(start.params.session_type, slot),
            nonce_tpm: first_of(start, nonce),
        })
    }

    /// TPM2_FlushContext: frees the session's slot (Part 3, 28.4). HANDLE of parameter 1 where it is not loaded.
    pub fn flush(&mut self, session: SessionHandle) -> Result<(), u32>
        ensures answer { result ≡ check_flush (loaded self.old session) }
        ensures flushed { OnOk result (
            (o : Origin) (h : History) (c : Command) (r : Reply) (nonce : List ℕ) →
            c.body ≡ bodies.FlushContext session →
            c.auths.items ≡ [] →
            self.old ≡ sessions_at o h →
            self.new ≡ sessions_at o (Accepted c r nonce ∷ h)) }
        ensures refused { OnErr result (self.new ≡ self.old) }
    {
        self.get(session).ok_or(HANDLE + of_parameter(1))?;
        self.slots[slot_of(session)] = None;
        Ok(())
    }

    /// After a command that was authorized so. The nonce of a session is then the first of these bytes,
    /// and its policy begins again; where continueSession is clear, its slot is freed (Part 1,
    /// "Session-Based Authorizations"). A password leaves the sessions as they are.
    pub fn roll(&mut self, how: &Authorization<'_, '_>, nonce: &[u8; NONCE_BYTES])
        ensures { (o : Origin) (h : History) (c : Command) (r : Reply) →
            Authorizes self.old c.auths.items how.now →
            needs_authorization (code_for c.body) ≡ true →
            self.old ≡ sessions_at o h →
            self.new ≡ sessions_at o (Accepted c r nonce.now ∷ h) }
    {
        let keep = how.first.attrs().continues();
        match how.slot {
            Some(slot) if slot < SLOTS => {
                roll(&mut self.slots[slot], nonce, keep, &mut self.hashed)
            }
            _ => {}
        }
    }

    /// The policy or trial session of this handle, where it is loaded.
    pub fn policy(&self, session: PolicyHandle) -> Option<&Session>
        ensures { option_map (λ s. s.now) result ≡ loaded self.now session }
    {
        self.get(any_session(session))
    }

    /// TPM2_PolicyRestart: the session asserts nothing any more (Part 3, 11.2). REFERENCE_H0 where
    /// it is not loaded, as for each policy command.
    pub fn restart(&mut self, session: PolicyHandle) -> Result<(), u32>
        ensures answer { result ≡ for_policy (loaded self.old session) (λ _. Ok tt) }
        ensures restarted { OnOk result (
            (o : Origin) (h : History) (c : Command) (r : Reply) (nonce : List ℕ) →
            c.body ≡ bodies.PolicyRestart session →
            c.auths.items ≡ [] →
            self.old ≡ sessions_at o h →
            self.new ≡ sessions_at o (Accepted c r nonce ∷ h)) }
        ensures refused { OnErr result (self.new ≡ self.old) }
    {
        self.policy(session).ok_or(REFERENCE_H0)?;
        restart(&mut self.slots[slot_of(any_session(session))]);
        Ok(())
    }

    /// TPM2_PolicyAuthValue: the entity's authorization value is part of the key (Part 3, 23.17). REFERENCE_H0 where
    /// the session is not loaded.
    pub fn policy_auth_value(&mut self, session: PolicyHandle) -> Result<(), u32>
        ensures answer { result ≡ for_policy (loaded self.old session) (λ _. Ok tt) }
        ensures asserted { OnOk result (
            (o : Origin) (h : History) (c : Command) (r : Reply) (nonce : List ℕ) →
            c.body ≡ bodies.PolicyAuthValue session →
            c.auths.items ≡ [] →
            self.old ≡ sessions_at o h →
            self.new ≡ sessions_at o (Accepted c r nonce ∷ h)) }
        ensures refused { OnErr result (self.new ≡ self.old) }
    {
        self.policy(session).ok_or(REFERENCE_H0)?;
        self.assert(session, &Assertion::AuthValue);
        Ok(())
    }

    /// TPM2_PolicyCommandCode: the command has this code, which may be any (Part 3, 23.11). Refused
    /// in this order: REFERENCE_H0; VALUE of parameter 1 where another code was set, in a trial
    /// too.
    pub fn policy_command_code(&mut self, session: PolicyHandle, code: u32) -> Result<(), u32>
        ensures answer { result ≡
            for_policy (loaded self.old session) (λ s. check_policy_code s code) }
        ensures asserted { OnOk result (
            (o : Origin) (h : History) (c : Command) (r : Reply) (nonce : List ℕ) →
            c.body ≡ bodies.PolicyCommandCode session code →
            c.auths.items ≡ [] →
            self.old ≡ sessions_at o h →
            self.new ≡ sessions_at o (Accepted c r nonce ∷ h)) }
        ensures refused { OnErr result (self.new ≡ self.old) }
    {
        let held = self.policy(session).ok_or(REFERENCE_H0)?;
        held.check_code(code)?;
        self.assert(session, &Assertion::Code(code));
        Ok(())
    }

    /// TPM2_PolicyOR: the policy is one of those with these digests (Part 3, 23.6). Refused in this
    /// order: REFERENCE_H0; VALUE of parameter 1 where the policy digest is none of them, unless it
    /// is a trial.
    pub fn policy_or(&mut self, session: PolicyHandle, digests: &OrDigests) -> Result<(), u32>
        ensures answer { result ≡
            for_policy (loaded self.old session) (λ s. check_policy_or s digests.now) }
        ensures asserted { OnOk result (
            (o : Origin) (h : History) (c : Command) (r : Reply) (nonce : List ℕ) →
            c.body ≡ bodies.PolicyOr session digests.now →
            c.auths.items ≡ [] →
            self.old ≡ sessions_at o h →
            self.new ≡ sessions_at o (Accepted c r nonce ∷ h)) }
        ensures refused { OnErr result (self.new ≡ self.old) }
    {
        let held = self.policy(session).ok_or(REFERENCE_H0)?;
        held.check_choice(digests)?;
        self.assert(session, &Assertion::Or(digests));
        Ok(())
    }

    /// TPM2_PolicyPCR: the selected registers have these values, and keep them until the policy is
    /// used (Part 3, 23.7). `pcr_digest` is the digest of the values that is wanted, or empty for
    /// that of the present ones. Refused in this order: REFERENCE_H0; PCR_CHANGED where registers
    /// changed since an earlier TPM2_PolicyPCR; VALUE of parameter 1 where the digest is another
    /// one. A trial refuses neither, takes the digest that is given as it is, and keeps no update
    /// counter.
    pub fn policy_pcr(
        &mut self,
        session: PolicyHandle,
        pcr_digest: &Digest,
        selections: &Selections,
        registers: &Registers,
    ) -> Result<(), u32>
        ensures answer { result ≡
            for_policy (loaded self.old session) (λ s.
            check_policy_pcr s (composite_of s.hash (value_in registers.now.banks) selections.now)
            registers.now.update_counter pcr_digest.now) }
        ensures asserted { OnOk result (
            (o : Origin) (h : History) (c : Command) (r : Reply) (nonce : List ℕ) →
            c.body ≡ bodies.PolicyPcr session
            (record { pcr_digest = pcr_digest.now; selections = selections.now }) →
            c.auths.items ≡ [] →
            registers.now ≡ registers_after (changes h) →
            self.old ≡ sessions_at o h →
            self.new ≡ sessions_at o (Accepted c r nonce ∷ h)) }
        ensures refused { OnErr result (self.new ≡ self.old) }
    {
        let held = self.policy(session).ok_or(REFERENCE_H0)?;
        let composite = registers.composite(held.hash(), selections);
        let update_counter = registers.update_counter();
        held.check_registers(&composite, update_counter, pcr_digest)?;
        let asserted = held.registers_asserted(selections, &composite, update_counter, pcr_digest);
        self.assert(session, &asserted);
        Ok(())
    }

    /// TPM2_PolicyGetDigest: the policy digest of what the session asserts (Part 3, 23.19). REFERENCE_H0 where the
    /// session is not loaded.
    pub fn policy_digest(&self, session: PolicyHandle) -> Result<Digest, u32>
        ensures answer { result ≡ for_policy (loaded self.now session) (λ s. Ok s.policy.digest) }
        ensures digest { IfOk result (λ digest.
            (o : Origin) (h : History) →
            self.now ≡ sessions_at o h →
            (s : model.Session) →
            loaded self.now session ≡ Some s →
            digest ≡ digest_of s.hash (assertions_of (slot_number session) h)) }
    {
        let held = self.policy(session).ok_or(REFERENCE_H0)?;
        Ok(held.policy_digest())
    }

    // The session asserts this too.
    fn assert(&mut self, session: PolicyHandle, assertion: &Assertion<'_>)
        requires { IsSome (loaded self.old session) }
        ensures { self.new ≡
            with_slot (slot_number session) (option_map (asserting (as_assertion assertion.now)))
            self.old }
    {
        assert(&mut self.slots[slot_of(any_session(session))], assertion);
    }
}

// A policy session is a session.
fn any_session(session: PolicyHandle) -> SessionHandle
    ensures { result ≡ session }
{
    match SessionHandle::from_number(session.number()) {
        Some(session) => session,
        None => unreachable!(),
    }
}

// What becomes of a policy session's slot.
fn assert(slot: &mut Option<Session>, assertion: &Assertion<'_>)
    ensures { slot.new ≡ option_map (asserting (as_assertion assertion.now)) slot.old }
{
    if let Some(session) = slot {
        session.assert(assertion);
    }
}

// What becomes of it by TPM2_PolicyRestart.
fn restart(slot: &mut Option<Session>)
    ensures { slot.new ≡ option_map restarted slot.old }
{
    if let Some(session) = slot {
        session.policy = Policy::new(session.hash);
    }
}

// The key that is hashed before there is a session: the empty one.
fn no_key() -> SessionKey {
    SessionKey::new(Alg::default(), Digest::default())
}

// The slot is free. One that is free already is left as it is, and not written from end to end.
fn free(slot: &mut Option<Session>)
    ensures { slot.new ≡ None }
{
    if slot.is_some() {
        *slot = None;
    }
}

// After a command of the slot's session: the session goes on, or the slot is free.
fn roll(slot: &mut Option<Session>, nonce: &[u8; NONCE_BYTES], keep: bool, hashed: &mut SessionKey)
    ensures { slot.new ≡ after_command nonce.now keep slot.old }
{
    if keep {
        if let Some(session) = slot {
            session.roll(nonce, hashed);
        }
    } else {
        *slot = None;
    }
}
