//! The sessions of commands and of responses, lent from their bytes, and the sizes that stand before them (Part 1,
//! "Command/Response Structure").

ghost use Rattle.std.specs.Prelude.{◌≡◌, ◌≤◌, ◌<◌, ◌+◌, [], ◌∷◌, ◌++◌, IfOk, OnOk, drop, length, ◌≢◌, List};
ghost use Rattle.tpm_wire.specs.Spelling.{spelling, joined_all};
ghost use Rattle.tpm_wire.specs.Buffers.{Takes, TakesNumbered};
ghost use Rattle.tpm_types.specs.Limits.{digest_bytes};
ghost use Rattle.tpm_types.specs.Tpms.{auth_response, auth_command};
ghost use Rattle.tpm_buffer.specs.Responses.{further_sessions, parameter_size, reply_sessions};
ghost use Rattle.tpm_types.specs.declared.tpms.Auth.{Auth};
ghost use Rattle.tpm_buffer.specs.Commands.{sessions, authorization_size, authorization};

use crate::command_areas::SESSIONS;
use arrayvec::ArrayVec;
use std::marker::Model;
use tpm_types::{Auth, AuthReply, AuthSession, DIGEST_BYTES, SessionAttrs};
use tpm_wire::response_code::{AUTHSIZE, SIZE, of_session};
use tpm_wire::{Bounded, Cursor, Refusal, Wire, read_rest, take_sized};

/// A session of a response, lent from its bytes: TPMS_AUTH_RESPONSE (Part 2, 10.13.3).
#[derive(Drop)]
pub struct ReplyRef<'a> {
    nonce: &'a [u8],
    attrs: SessionAttrs,
    hmac: &'a [u8],
}

impl<'a> Model for ReplyRef<'a> {
    ghost use Rattle.std.specs.Prelude.{◌≤◌, length};
    ghost use Rattle.tpm_types.specs.Limits.{digest_bytes};
    ghost use Rattle.tpm_types.specs.declared.tpms.AuthReply.{AuthReply};

    ghost Value = { AuthReply };

    ghost view = { λ r. record { nonce = r.nonce.now; attrs = r.attrs; hmac = r.hmac.now } };

    ghost invariant = { λ r. (length r.nonce.now ≤ digest_bytes)
        × (length r.hmac.now ≤ digest_bytes) };
}

impl Default for ReplyRef<'_> {
    fn default() -> Self {
        ReplyRef {
            nonce: &[],
            attrs: SessionAttrs::default(),
            hmac: &[],
        }
    }
}

impl<'a> ReplyRef<'a> {
    // The session that begins here. It is out of line, since both cuts and both of what they lend read one so.
    #[tactic(auto, unfolding(tpm_types::specs::Tpms::auth_response))]
    #[inline(never)]
    fn take(cursor: &mut Cursor<'a>) -> Result<Self, Refusal>
        ensures reads { Takes auth_response cursor.old cursor.new result }
        ensures spelled { IfOk result
            (λ a. cursor.old.here.rest ≡ spelling auth_response a ++ cursor.new.here.rest) }
    {
        let nonce = take_sized(cursor, DIGEST_BYTES)?;
        let attrs = SessionAttrs::take(cursor)?;
        let hmac = take_sized(cursor, DIGEST_BYTES)?;
        Ok(ReplyRef { nonce, attrs, hmac })
    }

    // The same session.
    pub(crate) fn again(&self) -> Self
        ensures { result ≡ self.now }
    {
        ReplyRef {
            nonce: self.nonce,
            attrs: self.attrs,
            hmac: self.hmac,
        }
    }

    // Makes the other one this session.
    fn copy_to(&self, other: &mut AuthReply)
        ensures { other.new ≡ self.now }
    {
        copy_part(&mut other.nonce, self.nonce);
        other.attrs = self.attrs;
        copy_part(&mut other.hmac, self.hmac);
    }

    /// The device's nonce, nonceTPM: at most `DIGEST_BYTES`.
    pub fn nonce(&self) -> &'a [u8]
        ensures value { result.now ≡ self.now.nonce }
        ensures fits { length result.now ≤ digest_bytes }
    {
        self.nonce
    }

    /// sessionAttributes.
    pub fn attrs(&self) -> SessionAttrs
        ensures { result ≡ self.now.attrs }
    {
        self.attrs
    }

    /// The HMAC: at most `DIGEST_BYTES`.
    pub fn hmac(&self) -> &'a [u8]
        ensures value { result.now ≡ self.now.hmac }
        ensures fits { length result.now ≤ digest_bytes }
    {
        self.hmac
    }
}

/// Reads parameterSize, which is there where sessions follow the parameters (Part 1, "Command/Response Structure").
/// SIZE at its place where it is more than the bytes behind it; INSUFFICIENT where it is cut.
#[tactic(auto, unfolding(crate::specs::Responses::parameter_size))]
pub fn take_parameter_size(cursor: &mut Cursor<'_>) -> Result<u32, Refusal>
    ensures reads { Takes parameter_size cursor.old cursor.new result }
    ensures spelled { IfOk result
        (λ n. cursor.old.here.rest ≡ spelling parameter_size n ++ cursor.new.here.rest) }
    ensures fits { IfOk result (λ n. n ≤ length cursor.new.here.rest) }
    ensures length { IfOk result
        (λ n. length cursor.old.here.rest ≡ 4 + length cursor.new.here.rest) }
{
    let refusal = cursor.refusal(SIZE);
    let size = u32::take(cursor)?;
    if size as usize > cursor.left() {
        return Err(refusal);
    }
    Ok(size)
}

// Takes the sessions behind the first, which is there, to the end of the response: at most two.
#[tactic(auto, unfolding(crate::specs::Responses::further_sessions))]
fn take_further_sessions<'a>(
    cursor: &mut Cursor<'a>,
    auths: &mut ArrayVec<ReplyRef<'a>, 3>,
) -> Result<(), Refusal>
    requires { length auths.old.items ≡ 1 }
    ensures reads { TakesNumbered (λ _. drop 1 auths.new.items) further_sessions
        cursor.old cursor.new result }
    ensures spelled { OnOk result
        (cursor.old.here.rest
        ≡ joined_all auth_response (drop 1 auths.new.items) ++ cursor.new.here.rest) }
    ensures first { OnOk result (auths.new.items ≡ auths.old.items ++ drop 1 auths.new.items) }
{
    while cursor.left() > 0 && auths.len() < 3 {
        cursor.number(of_session(1 + auths.len() as u32));
        let session = ReplyRef::take(cursor)?;
        auths.push(session);
    }
    Ok(())
}

/// Takes the sessions of a response: one at least. They are put where they stay, since what is answered is copied.
#[tactic(auto, unfolding(crate::specs::Responses::reply_sessions))]
pub(crate) fn take_sessions<'a>(
    cursor: &mut Cursor<'a>,
    auths: &mut ArrayVec<ReplyRef<'a>, 3>,
) -> Result<(), Refusal>
    requires { auths.old.items ≡ [] }
    ensures reads { TakesNumbered (λ _. auths.new.items) reply_sessions
        cursor.old cursor.new result }
    ensures spelled { OnOk result
        (cursor.old.here.rest ≡ spelling reply_sessions auths.new.items ++ cursor.new.here.rest) }
    ensures some { OnOk result (0 < length auths.new.items) }
{
    cursor.number(of_session(1));
    let first = ReplyRef::take(cursor)?;
    auths.push(first);
    take_further_sessions(cursor, auths)?;
    Ok(())
}

// Makes a nonce or an HMAC these bytes. It is out of line, since it is called four times.
#[inline(never)]
fn copy_part(part: &mut Bounded<DIGEST_BYTES>, bytes: &[u8])
    requires { length bytes.now ≤ digest_bytes }
    ensures { part.new ≡ bytes.now }
{
    part.set(bytes);
}

// Adds a copy of the session. It is out of line, where it is made in its place.
#[inline(never)]
fn push_copy(auths: &mut ArrayVec<AuthReply, 3>, session: &ReplyRef<'_>)
    requires { length auths.old.items < 3 }
    ensures { auths.new.items ≡ auths.old.items ++ session.now ∷ [] }
{
    let last = auths.len();
    auths.push(AuthReply::default());
    session.copy_to(&mut auths.as_mut_slice()[last]);
}

// Puts copies of these sessions in the place of others.
fn copy_all(sessions: &[ReplyRef<'_>], auths: &mut ArrayVec<AuthReply, 3>)
    requires { length sessions.now ≤ 3 }
    ensures { auths.new.items ≡ sessions.now }
{
    auths.clear();
    for session in sessions {
        push_copy(auths, session);
    }
}

/// Reads the sessions of a response in the place of others: one at least.
pub(crate) fn read_sessions(
    cursor: &mut Cursor<'_>,
    auths: &mut ArrayVec<AuthReply, 3>,
) -> Result<(), Refusal>
    ensures reads { TakesNumbered (λ _. auths.new.items) reply_sessions
        cursor.old cursor.new result }
    ensures spelled { OnOk result
        (cursor.old.here.rest ≡ spelling reply_sessions auths.new.items ++ cursor.new.here.rest) }
    ensures some { OnOk result (0 < length auths.new.items) }
{
    let mut lent = ArrayVec::new();
    take_sessions(cursor, &mut lent)?;
    copy_all(lent.as_slice(), auths);
    Ok(())
}

/// A session of a command, lent from its bytes: TPMS_AUTH_COMMAND (Part 2, 10.13.2).
#[derive(Drop)]
pub struct AuthRef<'a> {
    session: AuthSession,
    // what a session of a response has too: the nonce, the attributes and the HMAC
    shared: ReplyRef<'a>,
}

impl<'a> Model for AuthRef<'a> {
    ghost use Rattle.tpm_types.specs.declared.tpms.Auth.{Auth};

    ghost Value = { Auth };

    ghost view = { λ a. record {
      session = a.session;
      nonce = a.shared.nonce;
      attrs = a.shared.attrs;
      hmac = a.shared.hmac;
    } };
}

impl Default for AuthRef<'_> {
    fn default() -> Self {
        AuthRef {
            session: AuthSession::default(),
            shared: ReplyRef::default(),
        }
    }
}

impl<'a> AuthRef<'a> {
    // The session that begins here.
    #[tactic(auto, unfolding(tpm_types::specs::Tpms::auth_command, tpm_types::specs::Tpms::auth_response))]
    #[inline(always)]
    fn take(cursor: &mut Cursor<'a>) -> Result<Self, Refusal>
        ensures reads { Takes auth_command cursor.old cursor.new result }
        ensures spelled { IfOk result
            (λ a. cursor.old.here.rest ≡ spelling auth_command a ++ cursor.new.here.rest) }
    {
        let session = AuthSession::take(cursor)?;
        let shared = ReplyRef::take(cursor)?;
        Ok(AuthRef { session, shared })
    }

    // The same session.
    pub(crate) fn again(&self) -> Self
        ensures { result ≡ self.now }
    {
        AuthRef {
            session: self.session,
            shared: self.shared.again(),
        }
    }

    /// The session, or the password.
    pub fn session(&self) -> AuthSession
        ensures { result ≡ self.now.session }
    {
        self.session
    }

    /// The caller's nonce, nonceCaller: at most `DIGEST_BYTES`.
    pub fn nonce(&self) -> &'a [u8]
        ensures value { result.now ≡ self.now.nonce }
        ensures fits { length result.now ≤ digest_bytes }
    {
        self.shared.nonce
    }

    /// sessionAttributes.
    pub fn attrs(&self) -> SessionAttrs
        ensures { result ≡ self.now.attrs }
    {
        self.shared.attrs
    }

    /// The HMAC, or the password: at most `DIGEST_BYTES`.
    pub fn hmac(&self) -> &'a [u8]
        ensures value { result.now ≡ self.now.hmac }
        ensures fits { length result.now ≤ digest_bytes }
    {
        self.shared.hmac
    }
}

/// Where the sessions of a command are read to: lent from its bytes, or owned.
pub(crate) trait SessionList<'a> {
    /// The sessions that are in it.
    ghost listed: { Self → List Auth };

    /// Reads the sessions to the end of the area, at most three, to where there are none yet.
    fn read_sessions(&mut self, cursor: &mut Cursor<'a>) -> Result<(), Refusal>
        requires { listed self.old ≡ [] }
        ensures reads { TakesNumbered (λ _. listed self.new) sessions cursor.old cursor.new result }
        ensures spelled { OnOk result
            (cursor.old.here.rest ≡ spelling sessions (listed self.new) ++ cursor.new.here.rest) }
        ensures some { OnOk result
            (length cursor.new.here.rest < length cursor.old.here.rest
            → 0 < length (listed self.new)) };
}

impl<'a> SessionList<'a> for ArrayVec<AuthRef<'a>, 3> {
    ghost listed = { λ v. v.items };

    // They are put where they stay, since what is answered is copied.
    #[tactic(auto, unfolding(crate::specs::Commands::sessions))]
    fn read_sessions(&mut self, cursor: &mut Cursor<'a>) -> Result<(), Refusal> {
        while cursor.left() > 0 && self.len() < 3 {
            cursor.number(of_session(1 + self.len() as u32));
            let session = AuthRef::take(cursor)?;
            self.push(session);
        }
        Ok(())
    }
}

impl<'a> SessionList<'a> for ArrayVec<Auth, 3> {
    ghost listed = { λ v. v.items };

    #[tactic(auto, unfolding(crate::specs::Commands::sessions))]
    fn read_sessions(&mut self, cursor: &mut Cursor<'a>) -> Result<(), Refusal> {
        read_rest(cursor, 3, of_session(1), self)
    }
}

/// Reads the sessions of a command with this tag, none for another than 0x8002, to where there are none yet; or answers
/// the authorization area's first fault, as `Handled::areas` does (Part 1, "Command/Response Structure").
#[tactic(auto, unfolding(crate::specs::Commands::authorization, crate::specs::Commands::authorization_size))]
pub(crate) fn read_authorization<'a, S: SessionList<'a>>(
    cursor: &mut Cursor<'a>,
    tag: u16,
    auths: &mut S,
) -> Result<(), Refusal>
    requires { S.listed auths.old ≡ [] }
    ensures reads { TakesNumbered (λ _. S.listed auths.new) (authorization tag)
        cursor.old cursor.new result }
    ensures spelled { OnOk result
        (cursor.old.here.rest
        ≡ spelling (authorization tag) (S.listed auths.new) ++ cursor.new.here.rest) }
    ensures none { OnOk result (tag ≢ 0x8002 → length (S.listed auths.new) ≡ 0) }
    ensures some { OnOk result (tag ≡ 0x8002 → 0 < length (S.listed auths.new)) }
{
    if tag != SESSIONS {
        return Ok(());
    }
    cursor.number(0);
    let refusal = cursor.refusal(AUTHSIZE);
    let size = u32::take(cursor)?;
    // Of one session at least, and of what is left of the buffer at most.
    if size < 9 || size as usize > cursor.left() {
        return Err(refusal);
    }
    let behind = cursor.enter(size as usize)?;
    auths.read_sessions(cursor)?;
    cursor.number(0);
    if cursor.left() > 0 {
        return Err(cursor.refusal(AUTHSIZE));
    }
    cursor.leave(behind)
}

/// The sessions of a command with this tag, which lend their nonces and their HMACs from the input; or the
/// authorization area's first fault, as `Handled::areas` answers it (Part 1, "Command/Response Structure").
pub fn take_authorization<'a>(
    cursor: &mut Cursor<'a>,
    tag: u16,
) -> Result<ArrayVec<AuthRef<'a>, 3>, Refusal>
    ensures reads { TakesNumbered (λ v. v.items) (authorization tag) cursor.old cursor.new result }
    ensures spelled { IfOk result
        (λ v. cursor.old.here.rest ≡ spelling (authorization tag) v.items ++ cursor.new.here.rest) }
    ensures none { IfOk result (λ v. tag ≢ 0x8002 → length v.items ≡ 0) }
    ensures some { IfOk result (λ v. tag ≡ 0x8002 → 0 < length v.items) }
{
    let mut auths = ArrayVec::new();
    read_authorization(cursor, tag, &mut auths)?;
    Ok(auths)
}
