//! The caller's end of a session, and both ends.

ghost use Rattle.std.specs.Prelude.{◌≤◌};

use arrayvec::ArrayVec;
use tpm_buffer::{decode_response, encode_command};
use tpm_caller::{Caller, CallerFault, Pending};
use tpm_commands::{Command, CommandBody, ReplyBody, Response, StartAuth, StartParams};
use tpm_device::{Device, ResponseBuffer};
use tpm_types::{
    Alg, AuthValue, BindHandle, CommandCode, DigestValues, HashedDigest, Nonce, PcrIndex,
    PcrOrNull, SessionType, SymDef, name_of_handle,
};
use tpm_wire::Buffer;

// TPM2_Startup with TPM_SU_CLEAR.
const STARTUP: [u8; 12] = [
    0x80, 0x01, 0x00, 0x00, 0x00, 0x0C, 0x00, 0x00, 0x01, 0x44, 0x00, 0x00,
];

// The response TPM_RC_INITIALIZE.
const REFUSAL: [u8; 10] = [0x80, 0x01, 0x00, 0x00, 0x00, 0x0A, 0x00, 0x00, 0x01, 0x00];

// What the device is handed for random numbers: the same each time, so that each reply leaves the caller as it was.
const NONCE: [u8; 64] = [0; 64];

fn started() -> Device {
    let mut device = Device::new(&AuthValue::default(), 0);
    let _answer = device.execute(&STARTUP, &NONCE);
    device
}

// An HMAC session of SHA-256 with nonces of 32 bytes, bound to the owner.
fn request() -> StartAuth {
    StartAuth {
        bind: BindHandle::Owner,
        params: StartParams {
            nonce_caller: Nonce::new(&[0; 32]).unwrap(),
            session_type: SessionType::Hmac,
            symmetric: SymDef::Null,
            auth_hash: Alg::Sha256,
        },
    }
}

// The caller of such a session.
fn bound(device: &mut Device) -> Option<Caller> {
    let start = Command {
        body: CommandBody::StartAuthSession(request()),
        auths: ArrayVec::new(),
    };
    let reply = device.execute(encode_command(&start).as_slice(), &NONCE);
    let response = decode_response(CommandCode::StartAuthSession, reply.as_slice());
    match &response {
        Ok(Response::Done { body, .. }) => caller_of(body),
        Ok(Response::Code(_)) => None,
        Err(_) => None,
    }
}

fn caller_of(reply: &ReplyBody) -> Option<Caller> {
    match reply {
        ReplyBody::StartAuthSession(reply) => Caller::start(&request(), reply, &[]),
        _ => None,
    }
}

// TPM2_PCR_Extend of register 16 with a digest for each of two banks, sealed into this buffer.
#[inline(never)]
fn extend(caller: Caller, sent: &mut Buffer) -> Pending {
    let digests = [
        HashedDigest::new(Alg::Sha1, &[0; 20]).unwrap(),
        HashedDigest::new(Alg::Sha256, &[0; 32]).unwrap(),
    ];
    let mut names = ArrayVec::new();
    names.push(name_of_handle(16));
    caller.seal_into(
        CommandBody::PcrExtend {
            register: PcrOrNull::Pcr(PcrIndex::from_number(16).unwrap()),
            digests: DigestValues::new(&digests).unwrap(),
        },
        names,
        &[],
        Nonce::new(&[0xC1; 32]).unwrap(),
        true,
        sent,
    )
}

/// Seals a TPM2_PCR_Extend of register 16 so many times, and gives each up. It answers how many times the caller came
/// back, which is 0 too where no session is started.
#[unsafe(no_mangle)]
pub extern "C" fn tpm_bench_seal(times: u32) -> u32
    ensures { result ≤ times }
{
    let Some(mut caller) = bound(&mut started()) else {
        return 0;
    };
    let mut sent = Buffer::new();
    for given_up in 0..times {
        caller = match extend(caller, &mut sent).give_up(&REFUSAL) {
            Ok(caller) => caller,
            Err(_) => return given_up,
        };
    }
    times
}

/// Opens the reply to such a command so many times, whose HMAC is wrong in its last byte, so that it may be opened
/// again. It answers how many times this was found.
#[unsafe(no_mangle)]
pub extern "C" fn tpm_bench_open(times: u32) -> u32
    ensures { result ≤ times }
{
    let mut device = started();
    let Some(caller) = bound(&mut device) else {
        return 0;
    };
    let mut sent = Buffer::new();
    let mut pending = extend(caller, &mut sent);
    let mut reply = device.execute(sent.as_slice(), &NONCE);
    if let Some(last) = reply.as_mut_slice().last_mut() {
        *last ^= 1;
    }
    for opened in 0..times {
        match pending.open(reply.as_slice()) {
            Ok(_) => return opened,
            Err(unopened) => {
                let (again, fault) = unopened;
                if fault != CallerFault::WrongMac {
                    return opened;
                }
                pending = again;
            }
        }
    }
    times
}

/// Seals a TPM2_PCR_Extend of register 16, has a device execute it and opens the reply, so many times. It answers how
/// many replies were opened, which is 0 where no session is started.
#[unsafe(no_mangle)]
pub extern "C" fn tpm_bench_both_ends(times: u32) -> u32
    ensures { result ≤ times }
{
    let mut device = started();
    let Some(mut caller) = bound(&mut device) else {
        return 0;
    };
    let mut sent = Buffer::new();
    let mut reply = ResponseBuffer::new();
    for opened in 0..times {
        match both_ends(&mut device, caller, &mut sent, &mut reply) {
            Some(next) => caller = next,
            None => return opened,
        }
    }
    times
}

// Extends register 16 in the session and opens the reply: the caller after it, or none where it isn't opened.
fn both_ends(
    device: &mut Device,
    caller: Caller,
    sent: &mut Buffer,
    reply: &mut ResponseBuffer,
) -> Option<Caller> {
    let pending = extend(caller, sent);
    device.execute_into(sent.as_slice(), &NONCE, reply);
    match pending.open(reply.as_slice()) {
        Ok(opened) => {
            let (caller, _response) = opened;
            caller
        }
        Err(_) => None,
    }
}
