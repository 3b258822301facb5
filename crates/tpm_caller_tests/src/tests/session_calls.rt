//! Commands on sessions, and what sessions are asked for.

use crate::tests::session_scripts::Bench;
use tpm_buffer::{areas, decode_command};
use tpm_commands::{CommandBody, StartAuth};
use tpm_session::{NONCE_BYTES, Session, Sessions};
use tpm_testing::{is_spelled, next_number, next_value, spelled};
use tpm_types::{Alg, Digest, PcrOrNull, PolicyHandle, SessionHandle};

/// The owner's authorization value, with zeros that are no part of it.
pub const OWNER: &[u8] = b"owner\0\0";

// What is handed in for the nonce of a session.
static FRESH: [u8; NONCE_BYTES] = [
    0x00, 0x01, 0x02, 0x03, 0x04, 0x05, 0x06, 0x07, 0x08, 0x09, 0x0A, 0x0B, 0x0C, 0x0D, 0x0E, 0x0F,
    0x10, 0x11, 0x12, 0x13, 0x14, 0x15, 0x16, 0x17, 0x18, 0x19, 0x1A, 0x1B, 0x1C, 0x1D, 0x1E, 0x1F,
    0x20, 0x21, 0x22, 0x23, 0x24, 0x25, 0x26, 0x27, 0x28, 0x29, 0x2A, 0x2B, 0x2C, 0x2D, 0x2E, 0x2F,
    0x30, 0x31, 0x32, 0x33, 0x34, 0x35, 0x36, 0x37, 0x38, 0x39, 0x3A, 0x3B, 0x3C, 0x3D, 0x3E, 0x3F,
];

/// The session of the handle that is the next word.
pub fn held<'a>(sessions: &'a Sessions, rest: &mut &str) -> Option<&'a Session> {
    match next_value::<SessionHandle>(rest) {
        Some(session) => sessions.get(session),
        None => None,
    }
}

/// The code of an answer, 0 where it is done.
pub fn code(answer: Result<(), u32>) -> u32 {
    match answer {
        Ok(()) => 0,
        Err(code) => code,
    }
}

/// The code that a command on sessions or registers is answered with, 0 where it is done.
pub fn answer(bench: &mut Bench, text: &str) -> u32 {
    match decode_command(spelled(text).as_slice()) {
        Ok(command) => code(done(bench, &command.body)),
        Err(refusal) => refusal.code,
    }
}

// Has a command done, with any other answered by a code that none has.
fn done(bench: &mut Bench, body: &CommandBody<'_>) -> Result<(), u32> {
    let sessions = &mut bench.sessions;
    match body {
        CommandBody::StartAuthSession(start) => match sessions.start(start, OWNER, &FRESH) {
            Ok(_) => Ok(()),
            Err(code) => Err(code),
        },
        CommandBody::FlushContext(session) => sessions.flush(*session),
        CommandBody::PolicyRestart { session } => sessions.restart(*session),
        CommandBody::PolicyAuthValue { session } => sessions.policy_auth_value(*session),
        CommandBody::PolicyCommandCode { session, code } => {
            sessions.policy_command_code(*session, *code)
        }
        CommandBody::PolicyOr { session, digests } => sessions.policy_or(*session, digests),
        CommandBody::PolicyPcr { session, params } => sessions.policy_pcr(
            *session,
            &params.pcr_digest,
            &params.selections,
            &bench.registers,
        ),
        CommandBody::PcrExtend {
            register: PcrOrNull::Pcr(register),
            digests,
        } => bench.registers.extend(*register, digests),
        _ => Err(u32::MAX),
    }
}

/// Whether this TPM2_StartAuthSession is answered with this handle and the first bytes of what is handed in.
pub fn is_started(sessions: &mut Sessions, handle: u32, text: &str) -> bool {
    match decode_command(spelled(text).as_slice()) {
        Ok(command) => match &command.body {
            CommandBody::StartAuthSession(start) => is_answered(sessions, handle, start),
            _ => false,
        },
        Err(_) => false,
    }
}

fn is_answered(sessions: &mut Sessions, handle: u32, start: &StartAuth) -> bool {
    match sessions.start(start, OWNER, &FRESH) {
        Ok(reply) => {
            reply.session.number() == handle && reply.nonce_tpm.as_slice() == &FRESH[..16]
        }
        Err(_) => false,
    }
}

/// After a command that the session of this handle authorized, with a nonce of zeros. Whether it was loaded.
pub fn rolls(sessions: &mut Sessions, session: u32, keep: bool) -> bool {
    // a command on register 0 with an empty nonce and an empty HMAC
    let [a, b, c, d] = session.to_be_bytes();
    let command = [
        0x80, 2, 0, 0, 0, 27, 0, 0, 1, 0x82, 0, 0, 0, 0, 0, 0, 0, 9, a, b, c, d, 0, 0, keep as u8,
        0, 0,
    ];
    let Ok(cut) = areas(&command) else {
        return false;
    };
    match sessions.authorization(cut.auths()) {
        Ok(Some(how)) => sessions.roll(&how, &[0; NONCE_BYTES]),
        _ => return false,
    }
    true
}

// The policy digest of the session of this handle.
fn policy_digest(sessions: &Sessions, handle: u32) -> Result<Digest, u32> {
    match PolicyHandle::from_number(handle) {
        Some(session) => sessions.policy_digest(session),
        None => Err(0),
    }
}

/// Whether the policy session in slot 0 has this policy digest.
pub fn has_digest(sessions: &Sessions, expected: &str) -> bool {
    match policy_digest(sessions, 0x0300_0000) {
        Ok(digest) => is_spelled(digest.as_slice(), expected),
        Err(_) => false,
    }
}

/// Whether the policy digest of this session is refused with this code.
pub fn has_no_digest(sessions: &Sessions, mut rest: &str) -> bool {
    let refused = policy_digest(sessions, next_number(&mut rest)).err();
    refused == Some(next_number(&mut rest))
}

/// Whether the session of this handle has this nonce.
pub fn has_nonce(sessions: &Sessions, mut rest: &str) -> bool {
    match held(sessions, &mut rest) {
        Some(session) => is_spelled(session.nonce(), rest),
        None => false,
    }
}

/// Whether the session of this handle has this hash and key, and for its nonce the first bytes of what is handed in.
pub fn has_key(sessions: &Sessions, mut rest: &str) -> bool {
    match held(sessions, &mut rest) {
        Some(session) => {
            next_value::<Alg>(&mut rest) == Some(session.hash())
                && is_spelled(session.key(), rest)
                && session.nonce() == &FRESH[..16]
        }
        None => false,
    }
}
