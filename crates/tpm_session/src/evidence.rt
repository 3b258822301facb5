//! What authorizes a command, the evidence that it does, a password or an HMAC, and the session of the reply
//! (Part 1, "HMAC Computation" and "Password Authorizations").

ghost use Rattle.std.specs.Prelude.{◌≡◌, ℕ, List, [], ◌∷◌, option_map};
ghost use Rattle.tpm_types.specs.CommandCodes.{code_number};
ghost use Rattle.tpm_hmac.specs.Hmac.{hmac};
ghost use Rattle.tpm_hmac.specs.Sessions.{mac_text, whole_key, cp_hash as cp_hash_of};
ghost use Rattle.tpm_model.specs.Entities.{auth_value, is_owner_entity};
ghost use Rattle.tpm_model.specs.Authorization.{follows, needs_none, is_signed};
ghost use Rattle.tpm_model.specs.Authorization.{failure as failure_of, Evidence, evidence_by};
ghost use Rattle.tpm_model.specs.Authorization.{check_evidence as evidence_checked, reply_auths};
ghost use Rattle.tpm_model.specs.Authorization.{password_reply as password_reply_of};
ghost use Rattle.tpm_session.specs.Entities.{entity_in, no_reply as no_reply_of};
ghost use Rattle.tpm_session.specs.inner.Signing.{authorizer_in, signed_in};

use crate::authorize::Claim;
use crate::session::{NONCE_BYTES, Session};
use tpm_buffer::AuthRef;
use tpm_hmac::{SessionKey, command_mac, cp_hash, rp_hash, same, trim};
use tpm_nv::Definition;
use tpm_types::{AuthReply, AuthValue, CommandCode, Digest, Nonce, SessionAttrs, SessionType};
use tpm_wire::response_code::{AUTH_FAIL, BAD_AUTH, of_session};

/// What the first handle of a command names, whose authorization the command needs. Authorization
/// values may have trailing zeros, which are no part of them (Part 1, "Authorization Values").
#[derive(Clone, Copy)]
pub enum Entity<'a> {
    /// A register: its authorization value is empty.
    Register,
    /// TPM_RH_NULL: its authorization value is empty.
    Null,
    /// The owner, with this authorization value.
    Owner(&'a [u8]),
    /// An NV index, with its public area as it is now, and its authorization value.
    Index(&'a Definition),
}

impl<'a> Entity<'a> {
    pub(crate) fn is_owner(&self) -> bool
        ensures { result ≡ is_owner_entity (entity_in self.now) }
    {
        matches!(self, Entity::Owner(_))
    }

    // Its authorization value, without trailing zeros.
    pub(crate) fn auth_value(&self) -> &'a [u8]
        ensures { result.now ≡ auth_value (entity_in self.now) }
    {
        match self {
            Entity::Register | Entity::Null => &[],
            Entity::Owner(auth) => trim(auth),
            Entity::Index(index) => trim(index.auth()),
        }
    }
}

impl Session {
    /// What follows the session key in the key of its HMACs, where it authorizes a command of this
    /// entity: the entity's authorization value without trailing zeros. Nothing follows it in an
    /// HMAC session that is bound to the owner, where the entity is the owner, nor in a policy
    /// session, but after TPM2_PolicyAuthValue (Part 1, "HMAC Computation").
    pub fn follows<'e>(&self, entity: &Entity<'e>) -> &'e [u8]
        ensures { result.now ≡ follows self.now (entity_in entity.now) }
    {
        let is_included = match self.session_type {
            SessionType::Hmac => !(self.is_bound && entity.is_owner()),
            SessionType::Policy | SessionType::Trial => self.policy.auth_value,
        };
        if is_included {
            entity.auth_value()
        } else {
            &[]
        }
    }
}

/// A command's answer, by what its session is made of.
#[derive(Clone, Copy)]
pub struct Answered<'a> {
    /// The command's code.
    pub command: CommandCode,
    /// The reply's parameters, as they are sent.
    pub params: &'a [u8],
    /// The bytes of which the session's next nonce is the first.
    pub nonce: &'a [u8; NONCE_BYTES],
}

/// What the HMACs of a session are made of, for a command of an entity and for its reply.
#[derive(Clone, Copy)]
pub(crate) struct Signed<'a> {
    pub session: &'a Session,
    // A key that is hashed, which may be any.
    pub hashed: &'a SessionKey,
    // What follows the session key, by the entity.
    pub follows: &'a [u8],
    // What the command has of the session.
    pub auth: &'a AuthRef<'a>,
}

impl Signed<'_> {
    // Whether an empty HMAC is none: the command has no other, and there is no key, of which what follows the session
    // key is a part.
    #[tactic(auto, using(crate::proofs::Keys::empty_key))]
    fn needs_none(&self) -> bool
        ensures { result ≡ needs_none (signed_in self.now []) }
    {
        self.auth.hmac().is_empty()
            && self.session.key().is_empty()
            && trim(self.follows).is_empty()
    }

    // The MAC of a command or of a response under the session key and what follows it, by the key that was hashed where
    // that is the session's and nothing follows it (Part 1, "HMAC Computation").
    #[inline(never)]
    fn mac(&self, p_hash: &[u8], newer: &[u8], older: &[u8]) -> Digest
        ensures { result ≡
            hmac self.now.session.now.hash
            (whole_key self.now.session.now.key self.now.follows.now)
            (mac_text p_hash.now newer.now older.now self.now.auth.now.attrs) }
    {
        let session = self.session;
        let key = session.key.as_slice();
        let follows = self.follows;
        let attrs = self.auth.attrs();
        if follows.is_empty() && self.hashed.is_of(session.hash, key) {
            return self
                .hashed
                .session_mac(follows, p_hash, newer, older, attrs);
        }
        command_mac(session.hash, key, follows, p_hash, newer, older, attrs)
    }

    // Whether the command has the session's HMAC, whole: that of its code, Names and parameters, under the session key
    // and what follows it; or needs none.
    fn is_right(&self, claim: &Claim<'_>) -> bool
        ensures { result ≡
            is_signed (signed_in self.now
            (cp_hash_of self.now.session.now.hash (code_number claim.now.command) claim.now.names
            claim.now.params)) }
    {
        if self.needs_none() {
            return true;
        }
        let session = self.session;
        let p_hash = cp_hash(session.hash, claim.command, claim.names, claim.params);
        let mac = self.mac(
            p_hash.as_slice(),
            self.auth.nonce(),
            session.nonce.as_slice(),
        );
        same(self.auth.hmac(), mac.as_slice())
    }

    /// The session's part of the reply to the command that it authorized.
    pub(crate) fn reply(&self, answered: &Answered<'_>) -> AuthReply
        ensures { (p_hash : List ℕ) →
            reply_auths (Evidence.ByMac (signed_in self.now p_hash)) answered.now.command
            answered.now.params.now answered.now.nonce.now
            ≡ result ∷ [] }
    {
        let session = self.session;
        let nonce = Nonce::of(&answered.nonce[..session.nonce.as_slice().len()]);
        let hmac = if self.needs_none() {
            AuthValue::default()
        } else {
            let p_hash = rp_hash(session.hash, answered.command, answered.params);
            self.mac(p_hash.as_slice(), nonce.as_slice(), self.auth.nonce())
        };
        AuthReply {
            nonce,
            attrs: self.auth.attrs(),
            hmac,
        }
    }
}

/// The session of the reply to a command that a password authorized: continueSession is set, and
/// nothing else (Part 1, "Password Authorizations").
pub fn password_reply() -> AuthReply
    ensures { result ≡ password_reply_of }
{
    match SessionAttrs::from_number(0x01) {
        Some(attrs) => AuthReply {
            nonce: Nonce::default(),
            attrs,
            hmac: AuthValue::default(),
        },
        None => unreachable!(),
    }
}

// That of a session that is not loaded.
pub(crate) fn no_reply() -> AuthReply
    ensures { result ≡ no_reply_of }
{
    AuthReply {
        nonce: Nonce::default(),
        attrs: SessionAttrs::default(),
        hmac: AuthValue::default(),
    }
}

// The code of a wrong password or HMAC: BAD_AUTH of what has no lockout, else AUTH_FAIL. Nothing is counted here.
fn failure(entity: &Entity<'_>) -> u32
    ensures { result ≡ failure_of (entity_in entity.now) }
{
    match entity {
        Entity::Index(index) if !index.attrs().no_da() => AUTH_FAIL + of_session(1),
        Entity::Register | Entity::Null | Entity::Owner(_) | Entity::Index(_) => BAD_AUTH
            + of_session(1),
    }
}

/// AUTH_FAIL or BAD_AUTH unless the command has the password, or the HMAC of this session.
pub(crate) fn check_evidence<'a>(
    by: Option<&'a Session>,
    hashed: &'a SessionKey,
    auth: &'a AuthRef<'a>,
    claim: &'a Claim<'a>,
) -> Result<(), u32>
    ensures { result ≡
        evidence_checked claim.now.entity
        (evidence_by (authorizer_in (option_map (λ s. s.now) by.entry)) claim.now.entity claim.now.command
        claim.now.names claim.now.params auth.now) }
{
    let entity = &claim.entity;
    let is_right = match by {
        None => same(trim(auth.hmac()), entity.auth_value()),
        Some(session) => {
            let signed = Signed {
                session,
                hashed,
                follows: session.follows(entity),
                auth,
            };
            signed.is_right(claim)
        }
    };
    if is_right {
        Ok(())
    } else {
        Err(failure(entity))
    }
}
