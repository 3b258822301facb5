//! The digest of a policy.

use crate::print_bytes;
use std::io;
use tpm_commands::{StartAuth, StartParams};
use tpm_session::Sessions;
use tpm_types::{Alg, BindHandle, Nonce, PolicyHandle, SessionType, SymDef};

/// A trial session gives the digest of the policy that its commands make, here of TPM2_PolicyAuthValue alone.
pub fn digest(rt: &impl Print) -> io::Result<()> {
    let mut sessions = Sessions::new();
    let trial = StartAuth {
        bind: BindHandle::Null,
        params: StartParams {
            nonce_caller: Nonce::new(&[0; 16]).unwrap_or_default(),
            session_type: SessionType::Trial,
            symmetric: SymDef::Null,
            auth_hash: Alg::Sha256,
        },
    };
    let Ok(started) = sessions.start(&trial, &[], &[0; 64]) else {
        return println!(rt; "no session");
    };
    let Some(session) = PolicyHandle::from_number(started.session.number()) else {
        return println!(rt; "no policy session");
    };
    match sessions.policy_auth_value(session) {
        Ok(()) => {}
        Err(code) => return println!(rt; "{code:#x}"),
    }
    match sessions.policy_digest(session) {
        Ok(digest) => print_bytes(rt, digest.as_slice()),
        Err(code) => println!(rt; "{code:#x}"),
    }
}
