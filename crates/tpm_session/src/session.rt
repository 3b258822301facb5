//! One session, as it is held, and its policy.

ghost use Rattle.std.specs.Prelude.{◌≡◌, ◌≤◌, [], length};
ghost use Rattle.tpm_types.specs.declared.handle_sets.BindHandle.TheVariants as binds;
ghost use Rattle.tpm_hmac.specs.Sessions.{trim as trim_of};
ghost use Rattle.tpm_model.specs.Steps.{Origin};
ghost use Rattle.tpm_model.specs.Policies.{policy_of, policy_digest};
ghost use Rattle.tpm_pcr.specs.Registers.{Registers, value_in, composite as composite_of};
ghost use Rattle.tpm_model.specs.Sessions.{is_handle_of, is_trial as is_trial_type, pcr_assertion, nonce_from};
ghost use Rattle.tpm_model.specs.Sessions.{as_session};
ghost use Rattle.tpm_model.specs.Actions.{check_policy_pcr, check_policy_or, check_policy_code};
ghost use Rattle.tpm_session.specs.Policies.{as_assertion};
ghost use Rattle.tpm_session.specs.inner.Asserting.{rolled, asserting};

use crate::policy::{Assertion, differs, is_listed};
use std::marker::Model;
use tpm_commands::StartAuth;
use tpm_hmac::{SessionKey, session_key};
use tpm_types::{
    Alg, BindHandle, DIGEST_BYTES, Digest, Nonce, OrDigests, Packed, Selections, SessionHandle,
    SessionType,
};
use tpm_wire::response_code::{PCR_CHANGED, VALUE, of_parameter};

/// How many bytes are handed in for a nonce.
pub const NONCE_BYTES: usize = 64;

/// What a policy session holds of its assertions.
#[derive(Drop)]
pub(crate) struct Policy {
    pub(crate) digest: Packed<DIGEST_BYTES>,
    pub(crate) auth_value: bool,
    pub(crate) code: Option<u32>,
    pub(crate) update_counter: Option<u32>,
}

impl Model for Policy {
    ghost use Rattle.tpm_model.specs.Policies as model;

    ghost Value = { model.Policy };

    ghost view = { λ p. record {
      digest = p.digest;
      code = p.code;
      update_counter = p.update_counter;
      auth_value = p.auth_value;
    } };
}

impl Policy {
    /// Nothing is asserted.
    pub(crate) fn new(alg: Alg) -> Self
        ensures { result ≡ policy_of alg [] }
    {
        Policy {
            digest: Packed::new(empty_policy(alg).as_slice()),
            code: None,
            update_counter: None,
            auth_value: false,
        }
    }
}

/// The digest of a policy that asserts nothing, in this hash: as many zeros as its digests have
/// (Part 3, 23.1 and 11.2).
pub fn empty_policy(alg: Alg) -> Digest
    ensures { result ≡ policy_digest alg [] }
{
    Digest::of(&[0; DIGEST_BYTES][..alg.digest_len()])
}

/// A session that is loaded.
#[derive(Drop)]
pub struct Session {
    pub(crate) session_type: SessionType,
    pub(crate) hash: Alg,
    pub(crate) is_bound: bool,
    pub(crate) key: Packed<DIGEST_BYTES>,
    pub(crate) nonce: Packed<DIGEST_BYTES>,
    pub(crate) policy: Policy,
}

impl Model for Session {
    ghost use Rattle.std.specs.Prelude.{length};
    ghost use Rattle.tpm_model.specs.Sessions as model;

    ghost Value = { model.Session };

    ghost view = { λ s. record {
      session_type = s.session_type;
      hash = s.hash;
      key = s.key;
      nonce = s.nonce;
      nonce_length = length s.nonce;
      is_bound = s.is_bound;
      policy = s.policy;
    } };
}

impl Session {
    /// Its hash.
    pub fn hash(&self) -> Alg
        ensures { result ≡ self.now.hash }
    {
        self.hash
    }

    /// sessionKey: as long as a digest where the session is bound, else empty.
    pub fn key(&self) -> &[u8]
        ensures { result.now ≡ self.now.key }
    {
        self.key.as_slice()
    }

    /// nonceTPM: the session's part of the nonces of its next command.
    pub fn nonce(&self) -> &[u8]
        ensures { result.now ≡ self.now.nonce }
    {
        self.nonce.as_slice()
    }

    // Whether the handle is of the session's kind.
    pub(crate) fn has_handle(&self, session: SessionHandle) -> bool
        ensures { result ≡ is_handle_of session self.now }
    {
        match self.session_type {
            SessionType::Hmac => session.number() >> 24 == HMAC_SESSION,
            SessionType::Policy | SessionType::Trial => session.number() >> 24 == POLICY_SESSION,
        }
    }

    // A session that is started with these bytes for its nonce, bound to an entity with this authorization value. Its
    // key is hashed, where it has one.
    pub(crate) fn started(
        start: &StartAuth,
        bind_auth: &[u8],
        nonce: &[u8; NONCE_BYTES],
        hashed: &mut SessionKey,
    ) -> Self
        requires { length start.now.params.nonce_caller ≤ 48 }
        ensures { (o : Origin) →
            (start.now.bind ≡ binds.Owner → trim_of bind_auth.now ≡ trim_of o.owner) →
            result ≡ as_session o nonce.now [] (record { request = start.now; nonce = nonce.now }) }
    {
        let nonce = first_of(start, nonce);
        let key = match start.bind {
            BindHandle::Owner => session_key(
                start.params.auth_hash,
                bind_auth,
                nonce.as_slice(),
                start.params.nonce_caller.as_slice(),
            ),
            BindHandle::Null => Digest::default(),
        };
        let session = Session {
            session_type: start.params.session_type,
            hash: start.params.auth_hash,
            is_bound: start.bind == BindHandle::Owner,
            key: Packed::new(key.as_slice()),
            nonce: Packed::new(nonce.as_slice()),
            policy: Policy::new(start.params.auth_hash),
        };
        if session.is_bound {
            session.hash_key(hashed);
        }
        session
    }

    /// Whether it is a trial, in which a policy digest is computed and nothing is checked.
    pub(crate) fn is_trial(&self) -> bool
        ensures { result ≡ is_trial_type self.now.session_type }
    {
        match self.session_type {
            SessionType::Trial => true,
            SessionType::Hmac | SessionType::Policy => false,
        }
    }

    // TPM2_PolicyPCR is refused where the registers changed since an earlier one, or don't have the
    // digest that is given.
    pub(crate) fn check_registers(
        &self,
        composite: &Digest,
        update_counter: u32,
        pcr_digest: &Digest,
    ) -> Result<(), u32>
        ensures { result ≡ check_policy_pcr self.now composite.now update_counter pcr_digest.now }
    {
        let pcr_digest = pcr_digest.as_slice();
        if self.is_trial() {
            return Ok(());
        }
        if differs(self.policy.update_counter, update_counter) {
            return Err(PCR_CHANGED);
        }
        if !pcr_digest.is_empty() && pcr_digest != composite.as_slice() {
            return Err(VALUE + of_parameter(1));
        }
        Ok(())
    }

    // TPM2_PolicyOR is refused where the policy digest is none of those that are given.
    pub(crate) fn check_choice(&self, digests: &OrDigests) -> Result<(), u32>
        ensures { result ≡ check_policy_or self.now digests.now }
    {
        if !self.is_trial() && !is_listed(self.policy.digest.as_slice(), digests.as_slice()) {
            return Err(VALUE + of_parameter(1));
        }
        Ok(())
    }

    // TPM2_PolicyCommandCode is refused where another code was set.
    pub(crate) fn check_code(&self, code: u32) -> Result<(), u32>
        ensures { result ≡ check_policy_code self.now code }
    {
        if differs(self.policy.code, code) {
            return Err(VALUE + of_parameter(1));
        }
        Ok(())
    }

    // What TPM2_PolicyPCR asserts. A trial takes any digest that it is given for that of the registers.
    pub(crate) fn registers_asserted<'a>(
        &self,
        selections: &'a Selections,
        composite: &'a Digest,
        update_counter: u32,
        pcr_digest: &'a Digest,
    ) -> Assertion<'a>
        ensures { (now : Registers) →
            composite.now ≡ composite_of self.now.hash (value_in now.banks) selections.now →
            update_counter ≡ now.update_counter →
            as_assertion result ≡
            pcr_assertion now self.now.session_type self.now.hash pcr_digest.now selections.now }
    {
        if !self.is_trial() {
            return Assertion::Pcr {
                selections,
                pcr_digest: composite,
                update_counter: Some(update_counter),
            };
        }
        let is_given = !pcr_digest.as_slice().is_empty();
        Assertion::Pcr {
            selections,
            pcr_digest: if is_given { pcr_digest } else { composite },
            update_counter: None,
        }
    }

    // The policy digest.
    pub(crate) fn policy_digest(&self) -> Digest
        ensures { result ≡ self.now.policy.digest }
    {
        Digest::of(self.policy.digest.as_slice())
    }

    // This is asserted too.
    pub(crate) fn assert(&mut self, assertion: &Assertion<'_>)
        ensures { self.new ≡ asserting (as_assertion assertion.now) self.old }
    {
        self.policy.assert(self.hash, assertion);
    }

    // The next nonce, and nothing asserted any more. The key of an HMAC session is hashed for its next command.
    pub(crate) fn roll(&mut self, nonce: &[u8; NONCE_BYTES], hashed: &mut SessionKey)
        ensures { self.new ≡ rolled nonce.now self.old }
    {
        let len = self.nonce.as_slice().len();
        self.nonce.set(&nonce[..len]);
        if self.session_type == SessionType::Hmac {
            self.hash_key(hashed);
        }
        self.policy = Policy::new(self.hash);
    }

    // Makes it the session's key, hashed.
    fn hash_key(&self, hashed: &mut SessionKey)
        ensures { hashed.new ≡ record { hash = self.now.hash; bytes = self.now.key } }
    {
        if !hashed.is_of(self.hash, self.key.as_slice()) {
            *hashed = SessionKey::new(self.hash, Digest::of(self.key.as_slice()));
        }
        hashed.keep();
    }
}

// Kinds of handles: their most significant byte, TPM_HT (Part 2, 7.2).
const HMAC_SESSION: u32 = 0x02;

const POLICY_SESSION: u32 = 0x03;

// The first bytes that are handed in, as many as the caller's nonce has.
pub(crate) fn first_of(start: &StartAuth, nonce: &[u8; NONCE_BYTES]) -> Nonce
    requires { length start.now.params.nonce_caller ≤ 48 }
    ensures { result ≡ nonce_from start.now nonce.now }
{
    let len = start.params.nonce_caller.as_slice().len();
    Nonce::of(&nonce[..len])
}
