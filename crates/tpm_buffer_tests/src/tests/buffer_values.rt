//! Commands and responses: their values, their areas, and parameters alone. Each row is a word, bytes, and what they
//! are told as, one value behind the other and without its size. Numbers and bytes are hexadecimal. A row fails where
//! nothing is told, as of a word that is none of these, or of bytes that aren't taken and whose fault isn't told.
//!
//! - `command BYTES`: the values of a command that has several of one kind, whose spelling the bytes are.
//! - `reply CODE BYTES`: the same of a reply to the command with this code.
//! - `steps BYTES`: a command's code, tag and handles; then of its areas the code, the handles, how many sessions there
//!   are, and where the parameters are, with their bytes.
//! - `areas CODE BYTES`: of a response its code, its handle, how many sessions there are, and where the parameters are,
//!   with their bytes; or its fault.
//! - `session PLACE BYTES` and `answered PLACE BYTES`: the session there of a command, and of a reply to
//!   StartAuthSession; or `ff` where there is none.
//! - `params CODE BYTES`, `params-into CODE BYTES` and `start BYTES`: parameters alone, of the command with this code,
//!   the same in place of others, and of StartAuthSession; or their fault, with its place.

use std::test::*;
use tpm_buffer::{
    Areas, AuthRef, ReplyRef, areas, decode_command, decode_response, encode_command,
    encode_response, header, reply_areas,
};
use tpm_commands::{
    CommandBody, CommandTable, Params, PolicyPcr, ReplyBody, Response, StartParams, decode_params,
    decode_params_into, decode_start_into,
};
use tpm_testing::{is_spelled, next_number, next_value, spelled, word};
use tpm_types::{Alg, CommandCode, Nonce, SessionType, SymDef};
use tpm_wire::{Buffer, Refusal};

fn put(told: &mut Buffer, bytes: &[u8]) {
    let _ = told.try_extend_from_slice(bytes);
}

fn put_number(told: &mut Buffer, number: u32) {
    put(told, &number.to_be_bytes());
}

fn put_numbers(told: &mut Buffer, numbers: &[u32]) {
    for number in numbers {
        put_number(told, *number);
    }
}

fn put_fault(told: &mut Buffer, fault: Refusal) {
    put_number(told, fault.code);
    put_number(told, fault.at);
}

fn put_start(told: &mut Buffer, start: &StartParams) {
    put(told, start.nonce_caller.as_slice());
    put(told, &[start.session_type.number()]);
    match &start.symmetric {
        SymDef::Null => {}
        SymDef::Aes(bits) => put(told, &bits.number().to_be_bytes()),
        SymDef::Xor(hash) => put(told, &hash.number().to_be_bytes()),
    }
    put(told, &start.auth_hash.number().to_be_bytes());
}

fn put_registers(told: &mut Buffer, registers: &PolicyPcr) {
    put(told, registers.pcr_digest.as_slice());
    for selection in registers.selections.as_slice() {
        put(told, &selection.hash.number().to_be_bytes());
        put(told, &selection.select);
    }
}

fn put_values(told: &mut Buffer, body: &CommandBody<'_>) {
    match body {
        CommandBody::NvDefineSpace(asked) => {
            put(told, asked.auth.as_slice());
            put(told, asked.public.policy.as_slice());
        }
        CommandBody::NvIncrement { by, index } => {
            put_numbers(told, &[by.number(), index.number()]);
        }
        CommandBody::NvRead { params, .. } => {
            put(told, &params.size.to_be_bytes());
            put(told, &params.offset.to_be_bytes());
        }
        CommandBody::PolicyCommandCode { session, code } => {
            put_numbers(told, &[session.number(), *code]);
        }
        CommandBody::PolicyOr { digests, .. } => {
            for digest in digests.as_slice() {
                put(told, digest.as_slice());
            }
        }
        CommandBody::StartAuthSession(start) => {
            put_number(told, start.bind.number());
            put_start(told, &start.params);
        }
        CommandBody::PolicyPcr { params, .. } => put_registers(told, params),
        CommandBody::PcrExtend { digests, .. } => {
            for hashed in digests.as_slice() {
                put(told, &hashed.hash().number().to_be_bytes());
                put(told, hashed.digest());
            }
        }
        CommandBody::PcrEvent { register, event } => {
            put_number(told, register.number());
            put(told, event.as_slice());
        }
        _ => {}
    }
}

fn put_reply_values(told: &mut Buffer, body: &ReplyBody) {
    match body {
        ReplyBody::NvReadPublic { public, name } => {
            put(told, public.policy.as_slice());
            put(told, name.as_slice());
        }
        ReplyBody::StartAuthSession(start) => {
            put_number(told, start.session.number());
            put(told, start.nonce_tpm.as_slice());
        }
        ReplyBody::PcrRead {
            update_counter,
            digests,
            ..
        } => {
            put_number(told, *update_counter);
            for digest in digests.as_slice() {
                put(told, digest.as_slice());
            }
        }
        ReplyBody::NvRead(data) => put(told, data.as_slice()),
        _ => {}
    }
}

fn put_command(told: &mut Buffer, bytes: &[u8]) {
    if let Ok(command) = decode_command(bytes) {
        if encode_command(&command).as_slice() == bytes {
            put_values(told, &command.body);
        }
    }
}

fn put_reply(told: &mut Buffer, code: CommandCode, bytes: &[u8]) {
    if let Ok(response) = decode_response(code, bytes) {
        match &response {
            Response::Done { body, .. }
                if body.code() == code && encode_response(&response).as_slice() == bytes => {
                put_reply_values(told, body)
            }
            _ => {}
        }
    }
}

fn put_areas(told: &mut Buffer, cut: &Areas<'_>) {
    put_number(told, cut.code().number());
    put_numbers(told, cut.handles());
    put(told, &(cut.auth_count() as u64).to_be_bytes());
    put_number(told, cut.params_at());
    put(told, cut.params());
}

fn put_steps(told: &mut Buffer, bytes: &[u8]) {
    if let Ok(headed) = header(bytes) {
        put_number(told, headed.code().number());
        put(told, &headed.tag().to_be_bytes());
        if let Ok(handled) = headed.handles() {
            put_numbers(told, handled.list());
            if let Ok(cut) = handled.areas() {
                put_areas(told, &cut);
            }
        }
    }
}

fn put_reply_areas(told: &mut Buffer, code: CommandCode, bytes: &[u8]) {
    match reply_areas(code, bytes) {
        Ok(cut) => {
            put_number(told, cut.code());
            if let Some(handle) = cut.handle() {
                put_number(told, handle);
            }
            put(told, &(cut.auth_count() as u64).to_be_bytes());
            put_number(told, cut.params_at());
            put(told, cut.params());
        }
        Err(fault) => put_fault(told, fault),
    }
}

// The session at this place of a command, if there is one. Its areas are dropped here.
fn session(bytes: &[u8], place: usize) -> Result<Option<AuthRef<'_>>, Refusal> {
    match areas(bytes) {
        Ok(cut) => Ok(cut.auth(place)),
        Err(fault) => Err(fault),
    }
}

// The same of a response to StartAuthSession.
fn reply_session(bytes: &[u8], place: usize) -> Result<Option<ReplyRef<'_>>, Refusal> {
    match reply_areas(CommandCode::StartAuthSession, bytes) {
        Ok(cut) => Ok(cut.auth(place)),
        Err(fault) => Err(fault),
    }
}

fn put_session(told: &mut Buffer, mut row: &str) {
    if let Some(place) = next_value::<u8>(&mut row) {
        match session(spelled(row).as_slice(), place as usize) {
            Ok(Some(auth)) => {
                put_number(told, auth.session().number());
                put(told, auth.nonce());
                put(told, &[auth.attrs().number()]);
                put(told, auth.hmac());
            }
            Ok(None) => put(told, &[0xFF]),
            Err(_) => {}
        }
    }
}

fn put_reply_session(told: &mut Buffer, mut row: &str) {
    if let Some(place) = next_value::<u8>(&mut row) {
        match reply_session(spelled(row).as_slice(), place as usize) {
            Ok(Some(auth)) => {
                put(told, auth.nonce());
                put(told, &[auth.attrs().number()]);
                put(told, auth.hmac());
            }
            Ok(None) => put(told, &[0xFF]),
            Err(_) => {}
        }
    }
}

fn put_decoded(told: &mut Buffer, params: &Params<'_>) {
    match params {
        Params::NvRead(asked) => {
            put(told, &asked.size.to_be_bytes());
            put(told, &asked.offset.to_be_bytes());
        }
        Params::PolicyPcr(asked) => put_registers(told, asked),
        _ => {}
    }
}

fn put_params(told: &mut Buffer, code: CommandCode, bytes: &[u8]) {
    match decode_params(code, bytes) {
        Ok(params) => put_decoded(told, &params),
        Err(fault) => put_fault(told, fault),
    }
}

fn put_params_into(told: &mut Buffer, code: CommandCode, bytes: &[u8]) {
    let mut params = Params::PcrReset;
    match decode_params_into(code, bytes, &mut params) {
        Ok(()) => put_decoded(told, &params),
        Err(fault) => put_fault(told, fault),
    }
}

fn put_start_alone(told: &mut Buffer, bytes: &[u8]) {
    let mut start = StartParams {
        nonce_caller: Nonce::default(),
        session_type: SessionType::Hmac,
        symmetric: SymDef::Null,
        auth_hash: Alg::Sha1,
    };
    match decode_start_into(bytes, &mut start) {
        Ok(()) => put_start(told, &start),
        Err(fault) => put_fault(told, fault),
    }
}

// Tells what a row has before `: `.
fn tell(told: &mut Buffer, mut row: &str) {
    match word(&mut row) {
        "command" => put_command(told, spelled(row).as_slice()),
        "steps" => put_steps(told, spelled(row).as_slice()),
        "start" => put_start_alone(told, spelled(row).as_slice()),
        "session" => put_session(told, row),
        "answered" => put_reply_session(told, row),
        asked => {
            if let Some(code) = CommandCode::from_number(next_number(&mut row)) {
                tell_of(told, asked, code, spelled(row).as_slice());
            }
        }
    }
}

fn tell_of(told: &mut Buffer, asked: &str, code: CommandCode, bytes: &[u8]) {
    match asked {
        "reply" => put_reply(told, code, bytes),
        "areas" => put_reply_areas(told, code, bytes),
        "params" => put_params(told, code, bytes),
        "params-into" => put_params_into(told, code, bytes),
        _ => {}
    }
}

// Whether a row is told so, or says what the next are about.
fn is_told(line: &str) -> bool {
    if line.is_empty() || line.starts_with('#') {
        return true;
    }
    let Some((row, expected)) = line.split_once(": ") else {
        return false;
    };
    let mut told = Buffer::new();
    tell(&mut told, row);
    !told.is_empty() && is_spelled(told.as_slice(), expected)
}

#[test]
fn commands_and_responses_have_their_values_and_areas(rt: HostRuntime) {
    let rows = "
        command 8001 00000036 0000012a 40000001 0002 6100 0022 01abcdef 0004 02020018 0014 000102030405060708090a0b0c0d0e0f10111213 0008: 6100 000102030405060708090a0b0c0d0e0f10111213
        command 8001 00000012 00000134 01800002 01800001: 01800002 01800001
        command 8001 00000016 0000014e 40000001 01800001 0008 0102: 0008 0102
        command 8001 00000012 0000016c 03000002 0000ffff: 03000002 0000ffff
        command 8001 00000018 00000171 03000000 00000002 0002 aabb 0000: aabb
        command 8001 0000001a 00000171 03000000 00000002 0001 aa 0003 bbccdd: aa bbccdd
        command 8001 0000002f 00000176 40000007 40000001 0010 f0f1f2f3f4f5f6f7f8f9fafbfcfdfeff 0000 01 0006 0080 0043 000b: 40000001 f0f1f2f3f4f5f6f7f8f9fafbfcfdfeff 01 0080 000b
        command 8001 0000001d 00000176 40000007 40000007 0000 0000 03 000a 0004 000b: 40000007 03 0004 000b
        command 8001 0000001b 00000176 40000007 40000007 0000 0000 00 0010 0004: 40000007 00 0004
        command 8001 00000023 0000017f 03000000 0003 c0ffee 00000002 0004 03 ffffff 000b 03 010080: c0ffee 0004 ffffff 000b 010080
        command 8001 00000028 00000182 40000007 00000001 0004 202122232425262728292a2b2c2d2e2f30313233: 0004 202122232425262728292a2b2c2d2e2f30313233
        command 8001 00000014 0000013c 40000007 0004 61626364: 40000007 61626364
        reply 0000014e 8002 0000001d 00000000 0000000a 0008 0000000000000004 0000 01 0000: 0000000000000004
        reply 00000169 8001 00000042 00000000 0012 01800001 000b 02060016 0004 01020304 0008 0022 000b 6cc3923be0a3f8fb590381ef572345c85bdc934addbf43f628136f1405b85fd6: 01020304 000b 6cc3923be0a3f8fb590381ef572345c85bdc934addbf43f628136f1405b85fd6
        reply 00000176 8001 00000020 00000000 02000000 0010 00000000000000000000000000000002: 02000000 00000000000000000000000000000002
        reply 0000017e 8001 00000026 00000000 0000002a 00000001 000b 03 010000 00000002 0003 a1a2a3 0003 b1b2b3: 0000002a a1a2a3 b1b2b3
        # NV_Read of the index 01800001 by the owner, with a password of one byte
        steps 8002 00000024 0000014e 40000001 01800001 0000000a 40000009 0000 01 0001 61 0008 0000: 0000014e 8002 40000001 01800001 0000014e 40000001 01800001 0000000000000001 00000020 00080000
        # Of a StartAuthSession: the session 03000001, the parameters 000161, and two sessions
        areas 00000176 8002 00000022 00000000 03000001 00000003 000161 0002 a1a2 20 0001 b1 0000 01 0000: 00000000 03000001 0000000000000002 00000012 000161
        # One byte of the parameters less, so that the session begins with 04: a nonce of 1,024 bytes
        areas 0000014e 8002 0000001d 00000000 00000009 0008 0000000000000004 0000 01 0000: 00000995 00000017
        # Parameters of another command, which areas don't judge
        areas 0000014e 8002 00000016 00000000 00000003 000161 0000 01 0000: 00000000 0000000000000001 0000000e 000161
        # An HMAC session, and a policy session with each attribute there is; and no third
        session 00 8002 0000002a 0000013d 00000010 00000018 02000001 0002 a1a2 20 0003 b1b2b3 03000002 0001 c1 e7 0000: 02000001 a1a2 20 b1b2b3
        session 01 8002 0000002a 0000013d 00000010 00000018 02000001 0002 a1a2 20 0003 b1b2b3 03000002 0001 c1 e7 0000: 03000002 c1 e7
        session 02 8002 0000002a 0000013d 00000010 00000018 02000001 0002 a1a2 20 0003 b1b2b3 03000002 0001 c1 e7 0000: ff
        answered 00 8002 00000022 00000000 03000001 00000003 000161 0002 a1a2 20 0001 b1 0000 01 0000: a1a2 20 b1
        answered 01 8002 00000022 00000000 03000001 00000003 000161 0002 a1a2 20 0001 b1 0000 01 0000: 01
        answered 02 8002 00000022 00000000 03000001 00000003 000161 0002 a1a2 20 0001 b1 0000 01 0000: ff
        # Parameters alone: places are counted from their first byte.
        params-into 0000014e 00080102: 0008 0102
        params 0000017f 0002 c1c2 00000001 000b 03 800000: c1c2 000b 800000
        params 0000014e 0008: 000002da 00000002
        # Those of a StartAuthSession; the last byte of authHash is not there, or there is one more.
        start 0002 a1a2 0000 01 0010 000b: a1a2 01 000b
        start 0002 a1a2 0000 01 0010 00: 000005da 00000009
        start 0002 a1a2 0000 01 0010 000b 00: 00000095 0000000b
        ";
    for row in rows.lines() {
        assert!(rt; is_told(row.trim()), "{row}");
    }
}

// The number of each command, how many handles it has, and whether it needs authorization.
const COMMANDS: &str = "00000122 02 01 \
    0000012a 01 01 \
    00000134 02 01 \
    0000013c 01 01 \
    0000013d 01 01 \
    00000144 00 00 \
    0000014e 02 01 \
    00000165 00 00 \
    00000169 01 00 \
    0000016b 01 00 \
    0000016c 01 00 \
    00000171 01 00 \
    00000176 02 00 \
    0000017e 00 00 \
    0000017f 01 00 \
    00000180 01 00 \
    00000182 01 01 \
    00000189 01 00";

#[test]
fn each_command_has_its_handles_and_authorization(rt: HostRuntime) {
    let mut all = Buffer::new();
    for number in 0..0x1000 {
        if let Some(code) = CommandCode::from_number(number) {
            put_number(&mut all, code.number());
            put(
                &mut all,
                &[code.handles() as u8, code.needs_authorization() as u8],
            );
        }
    }
    assert!(rt; all.as_slice() == spelled(COMMANDS).as_slice());
    // a vendor's bit before Startup, and numbers that end as one of the table
    for number in [0x2000_0144, 0x0001_0144, 0x8000_0182, 0xFFFF_FFFF] {
        assert!(rt; CommandCode::from_number(number).is_none());
    }
}
