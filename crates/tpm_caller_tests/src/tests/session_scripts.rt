//! Scripts: what is done to sessions and registers, and what they answer.
//!
//! Each line is a word and what it is about; one that begins with `#` says what the next are about.
//! Numbers and bytes are hexadecimal, and `-` is no byte.
//!
//! - `new`: from here on, sessions and registers as they are at first. `begin`: sessions as they are at first, and the
//!   policy session of the run.
//! - `command CODE BYTES`: this command on sessions or registers is answered with this code, 0 where it is done.
//! - `started HANDLE BYTES`: this TPM2_StartAuthSession is answered with this handle.
//! - `kept HANDLE` and `ended HANDLE`: after a command that the session authorized, with
//!   continueSession and without. The next nonce is made of zeros.
//! - `loaded HANDLE` and `absent HANDLE`: whether there is such a session.
//! - `nonce HANDLE BYTES`: what nonce the session has.
//! - `key HANDLE HASH BYTES`: what hash and key the session has, whose nonce is the one that was handed in.
//! - `digest BYTES` and `no-digest HANDLE CODE`: the policy digest of the session in slot 0, and a
//!   refusal to tell one.
//! - `index AUTH BYTES`: from here on, the index is one with this authorization value and this
//!   TPM2B_NV_PUBLIC.
//! - `follows HANDLE ENTITY BYTES`: what follows the session key where the session authorizes a
//!   command of `owner`, `register`, `null` or `index`.
//! - `authorize ENTITY NAME CODE BYTES`: the sessions of this command, each of whose handles has
//!   this Name, are answered with this code, 0 for a yes.
//! - `reply ENTITY PARAMETERS NONCE ATTRIBUTES HMAC BYTES`: the session of the reply to this
//!   command with these parameters.
//! - `hash HASH MESSAGE DIGEST`, `hmac HASH KEY TEXT MAC` and
//!   `kdfa HASH KEY LABEL CONTEXT_U CONTEXT_V DERIVED`: hashes, HMACs and derived keys.
//! - `mac SIDE ..`: the MAC of a command or a response, as `hmac_macs` tells.
//!
//! `pcr_values` tells the lines on registers, and `nv_values` those on counters.

use crate::tests::hmac_hashes::is_hashed;
use crate::tests::hmac_macs::is_authentic;
use crate::tests::nv_values::are_counters;
use crate::tests::pcr_values::are_registers;
use crate::tests::session_authorize::{answers, follows, replies};
use crate::tests::session_calls::{
    answer, has_digest, has_key, has_no_digest, has_nonce, held, is_started, rolls,
};
use std::process::Abort;
use std::test::*;
use tpm_nv::{COUNTER_BYTES, Counters, Definition};
use tpm_pcr::Registers;
use tpm_session::Sessions;
use tpm_testing::{bytes, next_number, next_value, spelled, word};
use tpm_types::{DIGEST_BYTES, NvPublic, SessionHandle};
use tpm_wire::take_whole;

/// Sessions, registers and counters, what an index is defined with, and how a policy session is started.
#[derive(Drop)]
pub struct Bench {
    pub sessions: Sessions,
    pub registers: Registers,
    pub counters: Counters,
    pub index: Option<Definition>,
    pub policy: &'static str,
}

/// Goes through a script.
pub fn run(rt: &impl Abort, script: &str) {
    run_of(rt, "", script);
}

/// Goes through a script whose policy session is started by this TPM2_StartAuthSession.
pub fn run_of(rt: &impl Abort, policy: &'static str, script: &str) {
    let mut bench = Bench {
        sessions: Sessions::new(),
        registers: Registers::new(),
        counters: Counters::new(0),
        index: None,
        policy,
    };
    for line in script.lines() {
        let line = line.trim();
        let is_said = line.is_empty() || line.starts_with('#');
        assert!(rt; is_said || step(&mut bench, line), "{line}");
    }
}

// What an index is defined with, by its authorization value and its TPM2B_NV_PUBLIC; none where it is not that of a
// counter.
fn definition(mut rest: &str) -> Option<Definition> {
    let Some(auth) = bytes(word(&mut rest)) else {
        return None;
    };
    match take_whole::<NvPublic>(spelled(rest).as_slice()) {
        Ok(public) if public.data_size as usize == COUNTER_BYTES && auth.len() <= DIGEST_BYTES => {
            Some(Definition::new(&public, auth.as_slice()))
        }
        _ => None,
    }
}

// Does what the line says, and answers whether all of it is so.
fn step(bench: &mut Bench, line: &str) -> bool {
    let mut rest = line;
    match word(&mut rest) {
        "new" => {
            bench.sessions = Sessions::new();
            bench.registers = Registers::new();
            true
        }
        "begin" => {
            bench.sessions = Sessions::new();
            let policy = bench.policy;
            answer(bench, policy) == 0
        }
        "command" => next_number(&mut rest) == answer(bench, rest),
        "started" => is_started(&mut bench.sessions, next_number(&mut rest), rest),
        "kept" => rolls(&mut bench.sessions, next_number(&mut rest), true),
        "ended" => rolls(&mut bench.sessions, next_number(&mut rest), false),
        "index" => {
            bench.index = definition(rest);
            bench.index.is_some()
        }
        asked => is_so(bench, asked, rest),
    }
}

// Whether what the line says of the sessions is so.
fn is_so(bench: &mut Bench, asked: &str, mut rest: &str) -> bool {
    match asked {
        "loaded" => held(&bench.sessions, &mut rest).is_some(),
        "absent" => match next_value::<SessionHandle>(&mut rest) {
            Some(session) => bench.sessions.get(session).is_none(),
            None => false,
        },
        "nonce" => has_nonce(&bench.sessions, rest),
        "key" => has_key(&bench.sessions, rest),
        "digest" => has_digest(&bench.sessions, rest),
        "no-digest" => has_no_digest(&bench.sessions, rest),
        "follows" => follows(bench, rest),
        "authorize" => answers(bench, rest),
        "reply" => replies(bench, rest),
        "mac" => is_authentic(rest),
        _ => {
            are_registers(&mut bench.registers, asked, rest)
                || are_counters(&mut bench.counters, asked, rest)
                || is_hashed(asked, rest)
        }
    }
}
