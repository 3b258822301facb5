//! A session, as its caller holds it.

ghost use Rattle.std.specs.Prelude.{◌≡◌, ◌∷◌, [], ◌+◌, ◌*◌, ◌^◌, ◌<◌, ◌≤◌, ◌++◌, true, length, drop};
ghost use Rattle.tpm_types.specs.declared.tpms.Auth.{Auth as AuthOf};
ghost use Rattle.tpm_types.specs.Alg.{digest_len};
ghost use Rattle.tpm_types.specs.Handles.{is_session};
ghost use Rattle.tpm_types.specs.Limits.{block_bytes, digest_bytes};
ghost use Rattle.tpm_types.specs.CommandCodes.{code_number};
ghost use Rattle.tpm_commands.specs.declared.command.CommandBody.{CommandBody as CommandBodyOf};
ghost use Rattle.tpm_commands.specs.Handles.{needs_authorization};
ghost use Rattle.tpm_wire.specs.Spelling.{spelling, Fits};
ghost use Rattle.tpm_types.specs.Tpms.{auth_command};
ghost use Rattle.tpm_buffer.specs.Commands.{command as command_layout, code_for, handles_of, with_auths};
ghost use Rattle.tpm_buffer.specs.Parts.{joined as joined_of};
ghost use Rattle.tpm_hmac.specs.Hmac.{hmac};
ghost use Rattle.tpm_hmac.specs.Sessions.{session_key as session_key_of, whole_key, cp_hash as cp_hash_of, mac_text};
ghost use Rattle.tpm_model.specs.Callers.{started_with, bound_to, attrs_for as attrs_of, with_nonce};
ghost use Rattle.tpm_caller.specs.Sent.{sent, IsSpelled, hmac_key};
ghost use Rattle.tpm_caller.specs.Plain.{parts_of, PartsFit, IsAtFront, IsSentFrom};
ghost use Rattle.tpm_caller.specs.inner.Placing.{hmac_at, with_hmac, Appends};

use crate::pending::Pending;
use crate::plain::Plain;
use crate::waiting::Waiting;
use arrayvec::ArrayVec;
use std::marker::Model;
use tpm_buffer::{SESSIONS, put_command};
use tpm_commands::{Command, CommandBody, StartAuth, StartReply};
use tpm_hmac::{SessionKey, command_mac, cp_hash, hash, same, session_key, trim};
use tpm_types::{
    Alg, Auth, AuthSession, AuthValue, BLOCK_BYTES, BindHandle, CommandCode, DIGEST_BYTES, Digest,
    Name, Nonce, SessionAttrs, SessionHandle,
};
use tpm_wire::{Bounded, Buffer, Duplicate};

// How many bytes are before the HMAC of a session, beside the handles and the nonce: the header, authorizationSize,
// the session's handle, the nonce's size, the attributes and the HMAC's size.
const BEFORE_HMAC: usize = 10 + 4 + 4 + 2 + 1 + 2;

// How many bytes a nonce of a session has at least.
const LEAST_NONCE: usize = 16;

/// A session that is free for its next command. It is spent by that command, and comes back with the reply.
#[derive(Drop)]
pub struct Caller {
    handle: SessionHandle,
    key: SessionKey,
    nonce: Nonce,
}

impl Model for Caller {
    ghost use Rattle.tpm_model.specs.InStep as model;

    ghost Value = { model.CallerSession };

    ghost view = { λ c. record
        { handle = c.handle; hash = c.key.hash; key = c.key.bytes; nonce = c.nonce } };
}

// The key of a session that is started so.
fn key_of_start(request: &StartAuth, reply: &StartReply, bind_auth: &[u8]) -> Digest
    ensures { result
        ≡ session_key_of request.now.params.auth_hash (bound_to request.now.bind bind_auth.now)
        reply.now.nonce_tpm request.now.params.nonce_caller }
{
    match request.bind {
        BindHandle::Owner => session_key(
            request.params.auth_hash,
            bind_auth,
            reply.nonce_tpm.as_slice(),
            request.params.nonce_caller.as_slice(),
        ),
        BindHandle::Null => Digest::default(),
    }
}

// continueSession or nothing.
fn attrs_for(keep: bool) -> SessionAttrs
    ensures { result ≡ attrs_of keep }
{
    match SessionAttrs::from_number(keep as u8) {
        Some(attrs) => attrs,
        None => unreachable!(),
    }
}

// What stands for an HMAC that is not made yet.
fn no_mac(alg: Alg) -> AuthValue
    ensures { length result ≡ digest_len alg }
{
    match AuthValue::new(&[0; DIGEST_BYTES][..alg.digest_len()]) {
        Some(mac) => mac,
        None => unreachable!(),
    }
}

// Both parts, joined. It is out of line, since what it makes is filled where its function begins.
#[inline(never)]
fn joined(front: &[u8], back: &[u8]) -> ArrayVec<u8, BLOCK_BYTES>
    requires { length front.now + length back.now ≤ block_bytes }
    ensures { result.items ≡ front.now ++ back.now }
{
    let mut both = ArrayVec::new();
    let _ = both.try_extend_from_slice(front);
    let _ = both.try_extend_from_slice(back);
    both
}

// Writes the bytes behind the first ones, and says how many there are then.
#[inline(never)]
fn append(out: &mut [u8], written: usize, bytes: &[u8]) -> usize
    requires { written + length bytes.now ≤ length out.old }
    ensures bytes { Appends bytes.now (out.old, written) (out.new, result) }
    ensures count { result ≡ written + length bytes.now }
    ensures room { length out.new ≡ length out.old }
{
    let end = written + bytes.len();
    out[written..end].copy_from_slice(bytes);
    end
}

impl Caller {
    /// The session that this TPM2_StartAuthSession and its reply make, bound to an entity with this authorization
    /// value, which is not looked at where bind is TPM_RH_NULL (Part 1, "sessionKey Creation"). None where the two
    /// nonces differ in length, or have fewer than 16 bytes or more than a digest. The kinds of the session and of its
    /// handle are not looked at: a trial's session is held, too, though it authorizes nothing.
    pub fn start(request: &StartAuth, reply: &StartReply, bind_auth: &[u8]) -> Option<Caller>
        ensures { result ≡ started_with request.now reply.now bind_auth.now }
    {
        let len = request.params.nonce_caller.as_slice().len();
        if reply.nonce_tpm.as_slice().len() != len
            || len < LEAST_NONCE
            || len > request.params.auth_hash.digest_len()
        {
            return None;
        }
        Some(Caller {
            handle: reply.session,
            key: SessionKey::new(
                request.params.auth_hash,
                key_of_start(request, reply, bind_auth),
            ),
            nonce: reply.nonce_tpm.duplicate(),
        })
    }

    pub(crate) fn hash(&self) -> Alg
        ensures { result ≡ self.now.hash }
    {
        self.key.hash()
    }

    pub(crate) fn nonce(&self) -> &[u8]
        ensures value { result.now ≡ self.now.nonce }
        ensures fits { length result.now ≤ digest_bytes }
    {
        self.nonce.as_slice()
    }

    // The caller after a reply with this nonceTPM.
    pub(crate) fn after(self, nonce: &[u8]) -> Caller
        requires { length nonce.now ≤ digest_bytes }
        ensures { result ≡ with_nonce self nonce.now }
    {
        let mut caller = self;
        caller.nonce.set(nonce);
        caller
    }

    // Sets the key to sessionKey || authValue. One that is longer than a block is
    // hashed, as HMAC would hash it each time.
    fn set_key(&self, auth: &[u8], key: &mut Bounded<BLOCK_BYTES>)
        ensures { key.new ≡ hmac_key self.now.hash (whole_key self.now.key auth.now) }
    {
        let session_key = self.key.bytes();
        let auth = trim(auth);
        if session_key.len() + auth.len() > self.hash().block_len() {
            key.set(hash(self.hash(), &[session_key, auth]).as_slice());
        } else if auth.is_empty() {
            key.set(session_key);
        } else {
            key.set(joined(session_key, auth).as_slice());
        }
    }

    // The MAC of a command or of a response under this key. Where it is the session
    // key alone, what is kept of that is used.
    #[inline(never)]
    pub(crate) fn mac(
        &self,
        key: &[u8],
        p_hash: &[u8],
        newer: &[u8],
        older: &[u8],
        attrs: SessionAttrs,
    ) -> Digest
        ensures value { result
            ≡ hmac self.now.hash (whole_key key.now [])
            (mac_text p_hash.now newer.now older.now attrs) }
        ensures len { length result ≡ digest_len self.now.hash }
    {
        if same(key, self.key.bytes()) {
            return self.key.session_mac(&[], p_hash, newer, older, attrs);
        }
        command_mac(self.hash(), key, &[], p_hash, newer, older, attrs)
    }

    // The command with the session, whose HMAC is not made yet.
    fn unsigned<'a>(&self, body: CommandBody<'a>, nonce: &Nonce, attrs: SessionAttrs) -> Command<'a>
        ensures body { result.body ≡ body.entry }
        ensures session { (auth : AuthOf) × (result.auths.items ≡ auth ∷ [])
            × (auth.session ≡ self.now.handle)
            × (auth.nonce ≡ nonce.now)
            × (auth.attrs ≡ attrs)
            × (length auth.hmac ≡ digest_len self.now.hash) }
    {
        let session = match AuthSession::from_number(self.handle.number()) {
            Some(session) => session,
            None => unreachable!(),
        };
        let mut command = Command {
            body,
            auths: ArrayVec::new(),
        };
        command.auths.push(Auth {
            session,
            nonce: nonce.duplicate(),
            attrs,
            hmac: no_mac(self.hash()),
        });
        command
    }

    // Writes that command into this buffer, whatever is in it. It is out of line, so that the command is off the stack
    // when its HMAC is made.
    #[inline(never)]
    fn put_unsigned(
        &self,
        body: CommandBody<'_>,
        nonce: &Nonce,
        attrs: SessionAttrs,
        bytes: &mut Buffer,
    )
        ensures { (auth : AuthOf)
            × (auth.session ≡ self.now.handle)
            × (auth.nonce ≡ nonce.now)
            × (auth.attrs ≡ attrs)
            × (length auth.hmac ≡ digest_len self.now.hash)
            × (bytes.new.items ≡ spelling command_layout (with_auths body.entry (auth ∷ [])))
            × Fits (length bytes.new.items) command_layout (with_auths body.entry (auth ∷ [])) }
    {
        let command = self.unsigned(body, nonce, attrs);
        bytes.clear();
        put_command(&command, bytes);
    }

    // Puts the HMAC in its place: behind the header, the handles and what is before it of the
    // session, and right before the parameters.
    #[inline(never)]
    fn sign(
        &self,
        code: CommandCode,
        names: &[Name],
        key: &[u8],
        nonce: &[u8],
        attrs: SessionAttrs,
        bytes: &mut Buffer,
    )
        requires few { length names.now ≤ 2 }
        requires short { length nonce.now ≤ digest_bytes }
        requires room { hmac_at names.now nonce.now + digest_len self.now.hash
            ≤ length bytes.old.items }
        ensures { bytes.new.items
            ≡ with_hmac (hmac_at names.now nonce.now)
            (hmac self.now.hash (whole_key key.now [])
            (mac_text
            (cp_hash_of self.now.hash (code_number code) names.now
            (drop (hmac_at names.now nonce.now + digest_len self.now.hash)
            bytes.old.items)) nonce.now self.now.nonce attrs)) bytes.old.items }
    {
        let begin = BEFORE_HMAC + 4 * names.len() + nonce.len();
        let end = begin + self.hash().digest_len();
        let p_hash = cp_hash(self.hash(), code, names, &bytes.as_slice()[end..]);
        let mac = self.mac(key, p_hash.as_slice(), nonce, self.nonce.as_slice(), attrs);
        bytes.as_mut_slice()[begin..end].copy_from_slice(mac.as_slice());
    }

    /// The command with this session as its authorization, which is spent by it: the bytes to be sent, and what
    /// opens their reply. `names` are the Names of the command's handles, in their order, as many as
    /// `CommandCode::handles` of its code says (law `as_many_handles`). `auth` is what follows the session key in
    /// that of the HMAC: the authorization value of what the first handle names, whose trailing zeros do not count,
    /// or nothing where the rules leave it out. `nonce` is nonceCaller, a fresh random one; with `keep` the session
    /// goes on after the command (continueSession). The HMAC is always there, and the bytes spell the command (Part 1,
    /// "Session-Based Authorizations").
    pub fn seal(
        self,
        body: CommandBody<'_>,
        names: ArrayVec<Name, 2>,
        auth: &[u8],
        nonce: Nonce,
        keep: bool,
    ) -> Waiting
        requires authorized { needs_authorization (code_for body) ≡ true }
        requires named { length names.items ≡ length (handles_of body) }
        ensures sealed { result
            ≡ sent
            (record {
              caller = self;
              body = body.entry;
              names = names.items;
              auth = auth.now;
              nonce = nonce;
              keep = keep;
            }) }
        ensures spelled { IsSpelled
            (record {
              caller = self;
              body = body.entry;
              names = names.items;
              auth = auth.now;
              nonce = nonce;
              keep = keep;
            }) }
    {
        let mut bytes = Buffer::new();
        let pending = self.seal_into(body, names, auth, nonce, keep, &mut bytes);
        Waiting { pending, bytes }
    }

    /// As `seal`, into this buffer, whatever is in it: its bytes are to be sent, and what is answered opens their
    /// reply.
    pub fn seal_into(
        self,
        body: CommandBody<'_>,
        names: ArrayVec<Name, 2>,
        auth: &[u8],
        nonce: Nonce,
        keep: bool,
        bytes: &mut Buffer,
    ) -> Pending
        requires authorized { needs_authorization (code_for body) ≡ true }
        requires named { length names.items ≡ length (handles_of body) }
        ensures sealed { record { waiting = result; bytes = bytes.new.items }
            ≡ sent
            (record {
              caller = self;
              body = body.entry;
              names = names.items;
              auth = auth.now;
              nonce = nonce;
              keep = keep;
            }) }
        ensures spelled { IsSpelled
            (record {
              caller = self;
              body = body.entry;
              names = names.items;
              auth = auth.now;
              nonce = nonce;
              keep = keep;
            }) }
    {
        let code = body.code();
        let mut key = Bounded::default();
        self.set_key(auth, &mut key);
        let attrs = attrs_for(keep);
        self.put_unsigned(body, &nonce, attrs, bytes);
        self.sign(
            code,
            names.as_slice(),
            key.as_slice(),
            nonce.as_slice(),
            attrs,
            bytes,
        );
        Pending {
            caller: self,
            code,
            key,
            nonce,
            keep,
        }
    }

    // Writes the command with the session behind its handles, whose HMAC this is, to the beginning of `out`, and says
    // how many bytes it has.
    #[inline(never)]
    fn splice(
        &self,
        plain: &Plain<'_>,
        nonce: &[u8],
        attrs: SessionAttrs,
        mac: &[u8],
        out: &mut [u8],
    ) -> usize
        requires nonce { length nonce.now ≤ digest_bytes }
        requires mac { length mac.now ≤ digest_bytes }
        requires room { 4096 ≤ length out.old }
        ensures bytes { IsAtFront
            (joined_of plain.now.code plain.now.handles
            (spelling auth_command
            (record {
              session = self.now.handle;
              nonce = nonce.now;
              attrs = attrs;
              hmac = mac.now;
            })) plain.now.params) out.old out.new result }
        ensures session { is_session self.now.handle ≡ true }
        ensures number { self.now.handle < 2 ^ 32 }
        ensures few { result ≤ 4096 }
    {
        let session = 9 + nonce.len() + mac.len();
        let size = 14 + plain.handles.len() + session + plain.params.len();
        let len = append(out, 0, &SESSIONS.to_be_bytes());
        let len = append(out, len, &(size as u32).to_be_bytes());
        let len = append(out, len, &plain.code.number().to_be_bytes());
        let len = append(out, len, plain.handles);
        let len = append(out, len, &(session as u32).to_be_bytes());
        let len = append(out, len, &self.handle.number().to_be_bytes());
        let len = append(out, len, &(nonce.len() as u16).to_be_bytes());
        let len = append(out, len, nonce);
        let len = append(out, len, &attrs.number().to_be_bytes());
        let len = append(out, len, &(mac.len() as u16).to_be_bytes());
        let len = append(out, len, mac);
        append(out, len, plain.params)
    }

    /// As `seal`, of a command in bytes: its handles and its parameters are copied from where they lie, and the session
    /// is written behind the handles. The sealed command stands at the beginning of `out`, which has room for at least
    /// 4,096 bytes, and is spelled by its bytes, since what `Plain::read` reads has spellings. What is answered opens
    /// its reply, and says how many bytes the command has.
    // It is out of line, so that what it has on the stack is not there while a command is read.
    #[inline(never)]
    pub fn seal_plain(
        self,
        plain: &Plain<'_>,
        names: &[Name],
        auth: &[u8],
        nonce: Nonce,
        keep: bool,
        out: &mut [u8],
    ) -> (Pending, usize)
        requires { 4096 ≤ length out.old }
        ensures sealed { (body : CommandBodyOf) → plain.now ≡ parts_of body →
            IsSentFrom
            (sent
            (record {
              caller = self;
              body = body;
              names = names.now;
              auth = auth.now;
              nonce = nonce;
              keep = keep;
            })) out.old out.new result }
        ensures spelled { (body : CommandBodyOf) → plain.now ≡ parts_of body → PartsFit body →
            IsSpelled
            (record {
              caller = self;
              body = body;
              names = names.now;
              auth = auth.now;
              nonce = nonce;
              keep = keep;
            }) }
        ensures few { result.1 ≤ 4096 }
    {
        let mut key = Bounded::default();
        self.set_key(auth, &mut key);
        let attrs = attrs_for(keep);
        let p_hash = cp_hash(self.hash(), plain.code, names, plain.params);
        let mac = self.mac(
            key.as_slice(),
            p_hash.as_slice(),
            nonce.as_slice(),
            self.nonce(),
            attrs,
        );
        let len = self.splice(plain, nonce.as_slice(), attrs, mac.as_slice(), out);
        let pending = Pending {
            caller: self,
            code: plain.code,
            key,
            nonce,
            keep,
        };
        (pending, len)
    }
}
