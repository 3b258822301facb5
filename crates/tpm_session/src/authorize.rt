//! Whether a command is authorized: the checks of its sessions, in their order (Part 1,
//! "Authorizations and Acknowledgments"; the order is this profile's).

ghost use Rattle.std.specs.Prelude.{◌≡◌, ◌<◌, suc, List, ◌∷◌, [], length, option_map, Ok, Err, IfOk, IfErr, IsErr};
ghost use Rattle.std.specs.Prelude.{MatchResult};
ghost use Rattle.tpm_types.specs.declared.tpms.Auth.{Auth};
ghost use Rattle.tpm_model.specs.Entities.{auth_value, is_owner_entity};
ghost use Rattle.tpm_model.specs.Authorization.{Evidence, access_of};
ghost use Rattle.tpm_model.specs.Authorization.{allows_auth as auth_allowed, allows_policy as policy_allowed};
ghost use Rattle.tpm_model.specs.Authorization.{check_session as session_checked};
ghost use Rattle.tpm_model.specs.Authorization.{check_policy_allowed as allowed_checked, has_policy as policy_held};
ghost use Rattle.tpm_model.specs.Authorization.{check_policy as policy_checked, check_entity as entity_checked};
ghost use Rattle.tpm_model.specs.Authorization.{reply_auths};
ghost use Rattle.tpm_session.specs.Entities.{entity_in, no_reply as no_reply_of, Claim as ClaimOf};
ghost use Rattle.tpm_session.specs.Entities.{Authorizes, IsAuthorization};
ghost use Rattle.tpm_session.specs.Entities.{evidence_of, authorized, with_session};
ghost use Rattle.tpm_session.specs.inner.Signing.{authorizer_in};

use crate::evidence::{Answered, Entity, Signed, check_evidence, no_reply, password_reply};
use crate::policy::differs;
use crate::session::Session;
use crate::sessions::{Sessions, slot_of};
use std::marker::Model;
use tpm_buffer::AuthRef;
use tpm_hmac::same;
use tpm_types::{AuthReply, CommandCode, Name, NvAttrs, SessionHandle, SessionType};
use tpm_wire::response_code::{
    ATTRIBUTES, AUTH_UNAVAILABLE, NONCE, PCR_CHANGED, POLICY_CC, POLICY_FAIL, REFERENCE_S0,
    of_session,
};

/// How a command is authorized: by its first session, and by who that names. `Sessions::authorization` finds it.
#[derive(Clone, Copy)]
pub struct Authorization<'a, 'b> {
    /// The first session.
    pub first: &'a AuthRef<'b>,
    /// How many sessions there are.
    pub count: usize,
    /// The slot of the session that the first names, counted from 0; or none for the password.
    pub slot: Option<usize>,
}

/// A command by what its authorization is judged, beside its sessions.
#[derive(Drop)]
pub struct Claim<'a> {
    /// What its first handle names.
    pub entity: Entity<'a>,
    /// Its code.
    pub command: CommandCode,
    /// The Names of its handles, in their order.
    pub names: &'a [Name],
    /// Its parameters, as they came.
    pub params: &'a [u8],
    /// The present update counter of the registers.
    pub update_counter: u32,
}

impl<'a> Model for Claim<'a> {
    ghost use Rattle.tpm_session.specs.Entities as specs;

    ghost Value = { specs.Claim };

    ghost view = { λ c. record {
      entity = specs.entity_in c.entity;
      command = c.command;
      names = c.names.now;
      params = c.params.now;
      update_counter = c.update_counter;
    } };
}

// ATTRIBUTES for audit or encryption, and for a trial session; NONCE for a password with a nonce;
// ATTRIBUTES of the second session, where there are so many sessions.
fn check_session(by: Option<&Session>, auth: &AuthRef<'_>, count: usize) -> Result<(), u32>
    ensures { (others : List Auth) →
        count ≡ suc (length others) →
        result ≡ session_checked (authorizer_in (option_map (λ s. s.now) by.entry)) auth.now others }
{
    if auth.attrs().audits_or_encrypts() {
        return Err(ATTRIBUTES + of_session(1));
    }
    match by {
        None => {
            if !auth.nonce().is_empty() {
                return Err(NONCE + of_session(1));
            }
        }
        Some(session) => {
            if session.session_type == SessionType::Trial {
                return Err(ATTRIBUTES + of_session(1));
            }
        }
    }
    if count > 1 {
        return Err(ATTRIBUTES + of_session(2));
    }
    Ok(())
}

// Whether an index lets its authorization value be used for the command: AUTHWRITE and AUTHREAD.
fn allows_auth(attrs: NvAttrs, command: CommandCode) -> bool
    ensures { result ≡ auth_allowed (access_of command) attrs }
{
    match command {
        CommandCode::NvIncrement => attrs.auth_writes(),
        CommandCode::NvRead => attrs.auth_reads(),
        _ => true,
    }
}

// Whether it lets its policy be used: POLICYWRITE and POLICYREAD.
fn allows_policy(attrs: NvAttrs, command: CommandCode) -> bool
    ensures { result ≡ policy_allowed (access_of command) attrs }
{
    match command {
        CommandCode::NvIncrement => attrs.policy_writes(),
        CommandCode::NvRead => attrs.policy_reads(),
        _ => true,
    }
}

// AUTH_UNAVAILABLE for anything but an index whose policy serves for the command.
fn check_policy_allowed(entity: &Entity<'_>, command: CommandCode) -> Result<(), u32>
    ensures { result ≡ allowed_checked (entity_in entity.now) command }
{
    match entity {
        Entity::Index(index) if allows_policy(index.attrs(), command) => Ok(()),
        Entity::Register | Entity::Null | Entity::Owner(_) | Entity::Index(_) => {
            Err(AUTH_UNAVAILABLE)
        }
    }
}

impl Session {
    // Whether it has the policy of the index, in its hash.
    fn has_policy(&self, entity: &Entity<'_>) -> bool
        ensures { result ≡ policy_held (entity_in entity.now) self.now }
    {
        match entity {
            Entity::Index(index) => {
                same(self.policy.digest.as_slice(), index.policy()) && self.hash() == index.alg()
            }
            Entity::Register | Entity::Null | Entity::Owner(_) => false,
        }
    }

    // AUTH_UNAVAILABLE; PCR_CHANGED where registers changed since TPM2_PolicyPCR; POLICY_FAIL where
    // the policy is not that of the index; POLICY_CC where it is for another command.
    fn check_policy(&self, claim: &Claim<'_>) -> Result<(), u32>
        ensures { result ≡
            policy_checked claim.now.entity claim.now.command claim.now.update_counter self.now }
    {
        check_policy_allowed(&claim.entity, claim.command)?;
        if differs(self.policy.update_counter, claim.update_counter) {
            return Err(PCR_CHANGED);
        }
        if !self.has_policy(&claim.entity) {
            return Err(POLICY_FAIL + of_session(1));
        }
        if differs(self.policy.code, claim.command.number()) {
            return Err(POLICY_CC + of_session(1));
        }
        Ok(())
    }
}

// Whether the entity lets itself be used so, and a policy is met: AUTH_UNAVAILABLE for an index whose authorization
// value does not serve for the command.
fn check_entity(by: Option<&Session>, claim: &Claim<'_>) -> Result<(), u32>
    ensures { result ≡
        entity_checked (authorizer_in (option_map (λ s. s.now) by.entry)) claim.now.entity
        claim.now.command claim.now.update_counter }
{
    if let Some(session) = by {
        if session.session_type != SessionType::Hmac {
            return session.check_policy(claim);
        }
    }
    match &claim.entity {
        Entity::Index(index) if !allows_auth(index.attrs(), claim.command) => Err(AUTH_UNAVAILABLE),
        Entity::Register | Entity::Null | Entity::Owner(_) | Entity::Index(_) => Ok(()),
    }
}

impl Sessions {
    /// How a command with these sessions is authorized, where it has any: by who the first of them names, the password,
    /// or the session that is loaded; else REFERENCE_S0 (Part 1, "Authorizations and Acknowledgments").
    #[tactic(auto, using(crate::proofs::Authorized::unnamed))]
    pub fn authorization<'a, 'b>(
        &self,
        auths: &'a [AuthRef<'b>],
    ) -> Result<Option<Authorization<'a, 'b>>, u32>
        ensures found { IfOk result (IsAuthorization self.now auths.now) }
        ensures missing { IfErr result (λ code.
            (claim : ClaimOf) → authorized self.now claim auths.now ≡ Err code) }
    {
        let [first, ..] = auths else {
            return Ok(None);
        };
        // What is no session's handle is the password.
        let slot = match SessionHandle::from_number(first.session().number()) {
            Some(session) if self.get(session).is_none() => return Err(REFERENCE_S0),
            Some(session) => Some(slot_of(session)),
            None => None,
        };
        Ok(Some(Authorization {
            first,
            count: auths.len(),
            slot,
        }))
    }

    // The session in this slot, where a command is authorized by one; or REFERENCE_S0 where there is none any more.
    fn session_of(&self, slot: Option<usize>) -> Result<Option<&Session>, u32>
        ensures { MatchResult result
            (λ session. with_session self.now slot
            ≡ Ok (authorizer_in (option_map (λ s. s.now) session)))
            (λ code. with_session self.now slot ≡ Err code) }
    {
        match slot {
            None => Ok(None),
            Some(slot) => Ok(Some(self.in_slot(slot).ok_or(REFERENCE_S0)?)),
        }
    }

    /// Whether a command is authorized by these sessions, one at least: the first authorizes it, by a password or by
    /// an HMAC over the command's Names and its parameters as they came.
    ///
    /// Else the code of the first check that fails, in this order: REFERENCE_S0 for a session that
    /// is not loaded. ATTRIBUTES of session 1 for audit or encryption, and for a trial session;
    /// NONCE of session 1 for a password with a nonce; ATTRIBUTES of session 2 where there is one.
    /// AUTH_UNAVAILABLE where the entity does not let itself be used so. For a policy session,
    /// PCR_CHANGED where another update counter is kept, POLICY_FAIL of session 1 where the policy
    /// is not that of the index or in another hash, POLICY_CC of session 1 where another command is
    /// set. AUTH_FAIL of session 1 where the password or the HMAC is wrong and the entity is an
    /// index without NO_DA, else BAD_AUTH of session 1 (Part 1, "Authorizations and
    /// Acknowledgments"; the order is this profile's).
    pub fn authorize(&self, auths: &[AuthRef<'_>], claim: &Claim<'_>) -> Result<(), u32>
        requires { 0 < length auths.now }
        ensures { result ≡ authorized self.now claim.now auths.now }
    {
        match self.authorization(auths)? {
            Some(how) => self.authorize_by(&how, claim),
            None => unreachable!(),
        }
    }

    /// As `authorize`, where this is how the command's sessions authorize it: of the others it matters only whether
    /// there are any.
    pub fn authorize_by(&self, how: &Authorization<'_, '_>, claim: &Claim<'_>) -> Result<(), u32>
        ensures { (auths : List Auth) →
            Authorizes self.now auths how.now →
            result ≡ authorized self.now claim.now auths }
    {
        let by = self.session_of(how.slot)?;
        check_session(by, how.first, how.count)?;
        check_entity(by, claim)?;
        check_evidence(by, &self.hashed, how.first, claim)
    }

    /// The session of the reply to a command that was authorized so, before it rolls: a password is
    /// answered with continueSession alone, a session with its next nonce, the command's attributes
    /// and its HMAC over the reply's parameters. The HMAC is empty where both the key and
    /// the command's HMAC are.
    /// The entity is that of the command, or as it is after the command with the same authorization
    /// value (Part 1, "HMAC Computation"). Of a slot without a session it is empty: no nonce, no
    /// attributes and no HMAC.
    pub fn reply_auth<'a>(
        &'a self,
        how: &'a Authorization<'a, 'a>,
        entity: &'a Entity<'a>,
        answered: &Answered<'_>,
    ) -> AuthReply
        ensures answer { (claim : ClaimOf) (auths : List Auth) (x : Evidence) →
            Authorizes self.now auths how.now →
            claim.command ≡ answered.now.command →
            auth_value claim.entity ≡ auth_value (entity_in entity.now) →
            is_owner_entity claim.entity ≡ is_owner_entity (entity_in entity.now) →
            evidence_of self.now claim auths ≡ Ok x →
            reply_auths x answered.now.command answered.now.params.now answered.now.nonce.now
            ≡ result ∷ [] }
        ensures unloaded { IsErr (with_session self.now how.now.slot) → result ≡ no_reply_of }
    {
        match self.session_of(how.slot) {
            Ok(Some(session)) => {
                let signed = Signed {
                    session,
                    hashed: &self.hashed,
                    follows: session.follows(entity),
                    auth: how.first,
                };
                signed.reply(answered)
            }
            Ok(None) => password_reply(),
            Err(_) => no_reply(),
        }
    }
}
