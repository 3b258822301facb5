//! A caller's session in the caller's memory (Part 1, "Session-Based Authorizations").

ghost use Rattle.std.specs.Prelude.{◌≡◌, ◌≤◌, true, length, take, [], ◌∷◌, Ok, IfOk, IfErr, IfSome};
ghost use Rattle.std.specs.Borrow.{sem};
ghost use denote.RawPtr.{room_at};
ghost use Rattle.tpm_wire.specs.Reading.{read_all};
ghost use Rattle.tpm_types.specs.Limits.{digest_bytes, name_bytes};
ghost use Rattle.tpm_commands.specs.declared.command.CommandBody.{CommandBody as CommandBodyOf};
ghost use Rattle.tpm_commands.specs.Handles.{handle_kinds};
ghost use Rattle.tpm_buffer.specs.Commands.{command as command_layout};
ghost use Rattle.tpm_model.specs.Callers.{Opened, Waiting, opened};
ghost use Rattle.tpm_caller.specs.Sent.{caller_with, sent, IsSpelled};
ghost use Rattle.tpm_caller.specs.Plain.{parts_of, PartsFit, IsSentFrom};
ghost use Rattle.tpm_c.specs.declared.caller.CallerState.TheVariants.{Sealed, Spent};
ghost use Rattle.tpm_c.specs.declared.caller.CallerState.{CallerState as CallerStateOf};
ghost use Rattle.tpm_c.specs.contracts.caller.CallerState.{the_row};
ghost use Rattle.tpm_c.specs.Written.{IsIn};
ghost use Rattle.tpm_c.specs.Callers.{state_at, request_in, start_reply_in, started_by, start_code, after_start};
ghost use Rattle.tpm_c.specs.Callers.{fault_number, open_code, kept, after_open, give_up_code, after_give_up};
ghost use Rattle.tpm_c.specs.Callers.{are_short, do_fit, is_set, seal_of, sealing, sealed_bytes, after_seal};

use crate::handed::BUFFER_BYTES;
use arrayvec::ArrayVec;
use tpm_buffer::{areas, decode_response};
use tpm_caller::{Caller, CallerFault, Pending, Plain};
use tpm_commands::{
    CommandTable, ReplyBody, Response, StartAuth, StartParams, StartReply, bind_in,
    decode_start_into, second_handle,
};
use tpm_types::{CommandCode, DIGEST_BYTES, NAME_BYTES, Name, Nonce};

/// Nothing is waited for.
const NOT_WAITING: u32 = 5;

/// What is held of a session.
#[derive(Drop)]
pub(crate) enum CallerState {
    /// Nothing: none was started, or it has ended.
    Spent,
    /// A session that is free for its next command.
    Free(Caller),
    /// What waits for the reply to a sealed command.
    Sealed(Pending),
}

fn nothing() -> CallerState
    ensures { result ≡ Spent }
{
    CallerState::Spent
}

/// Makes a caller in the room, which holds no session.
#[unsafe(no_mangle)]
pub unsafe extern "C" fn tpm_caller_init(place: *mut u8)
    requires* { sem 𝓛 (room_at the_row place) }
    ensures* { sem 𝓛 (state_at Spent place) }
{
    std::ptr::write(place as *mut CallerState, nothing());
}

// The parameters of this command alone are read, and no command of any code is decoded. It is out of line: so its room
// is free again before the key is made.
#[inline(never)]
fn request_in(command: &[u8]) -> Option<StartAuth>
    ensures { result ≡ request_in (read_all command_layout command.now) }
{
    let Ok(areas) = areas(command) else {
        return None;
    };
    if areas.code() != CommandCode::StartAuthSession {
        return None;
    }
    let mut request = StartAuth {
        bind: bind_in(second_handle(areas.handles())),
        params: StartParams::any(),
    };
    match decode_start_into(areas.params(), &mut request.params) {
        Ok(()) => Some(request),
        Err(_) => None,
    }
}

fn start_reply_in(reply: &[u8]) -> Option<StartReply>
    ensures { result ≡ start_reply_in reply.now }
{
    match decode_response(CommandCode::StartAuthSession, reply) {
        Ok(Response::Done { body, .. }) => match body {
            ReplyBody::StartAuthSession(reply) => Some(reply),
            _ => None,
        },
        Ok(Response::Code(_)) => None,
        Err(_) => None,
    }
}

fn started(command: &[u8], reply: &[u8], bind_auth: &[u8]) -> Option<Caller>
    ensures { result ≡ started_by command.now reply.now bind_auth.now }
{
    let request = request_in(command)?;
    let reply = start_reply_in(reply)?;
    Caller::start(&request, &reply, bind_auth)
}

fn start(state: &mut CallerState, command: &[u8], reply: &[u8], bind_auth: &[u8]) -> u32
    ensures { (result ≡ start_code (started_by command.now reply.now bind_auth.now))
        × (state.new ≡ after_start state.old (started_by command.now reply.now bind_auth.now)) }
{
    match started(command, reply, bind_auth) {
        Some(caller) => {
            *state = CallerState::Free(caller);
            1
        }
        None => 0,
    }
}

/// Holds the session that these bytes of TPM2_StartAuthSession and of its reply make, in the place
/// of what was held, and answers 1. `bind_auth` is the authorization value of what it is bound to.
/// It answers 0, and nothing changes, where the bytes are no such command or no reply to it of code
/// 0, or where the two nonces differ in length, or have fewer than 16 bytes or more than a digest.
#[unsafe(no_mangle)]
pub unsafe extern "C" fn tpm_caller_start(
    place: *mut u8,
    command: &[u8],
    reply: &[u8],
    bind_auth: &[u8],
) -> u32
    ghost state: { CallerStateOf }
    requires* { sem 𝓛 (state_at state place) }
    ensures* { sem 𝓛
        (state_at (after_start state (started_by command.now reply.now bind_auth.now)) place)
        ∗ ⌜ result ≡ start_code (started_by command.now reply.now bind_auth.now) ⌝ }
{
    start(&mut *(place as *mut CallerState), command, reply, bind_auth)
}

// Neither the first so many of the two Names nor the nonce is too long.
fn do_fit(count: usize, first: &[u8], second: &[u8], nonce: &[u8]) -> bool
    requires { count ≤ 2 }
    ensures { result ≡ do_fit (take count (first.now ∷ second.now ∷ [])) nonce.now }
{
    (count < 1 || first.len() <= NAME_BYTES)
        && (count < 2 || second.len() <= NAME_BYTES)
        && nonce.len() <= DIGEST_BYTES
}

// The Name that these bytes are, which is not too long.
fn name(bytes: &[u8]) -> Name
    requires { length bytes.now ≤ name_bytes }
    ensures { result ≡ bytes.now }
{
    match Name::new(bytes) {
        Some(name) => name,
        None => unreachable!(),
    }
}

// The nonce that these bytes are, which is not too long.
fn nonce_of(bytes: &[u8]) -> Nonce
    requires { length bytes.now ≤ digest_bytes }
    ensures { result ≡ bytes.now }
{
    match Nonce::new(bytes) {
        Some(nonce) => nonce,
        None => unreachable!(),
    }
}

// The first so many of the two.
fn names(count: usize, first: &[u8], second: &[u8]) -> ArrayVec<Name, 2>
    requires count { count ≤ 2 }
    requires short { are_short (take count (first.now ∷ second.now ∷ [])) ≡ true }
    ensures { result.items ≡ take count (first.now ∷ second.now ∷ []) }
{
    let mut names = ArrayVec::new();
    if count > 0 {
        names.push(name(first));
    }
    if count > 1 {
        names.push(name(second));
    }
    names
}

// The command is sealed into `out`, at its beginning.
fn sealed(
    caller: Caller,
    plain: &Plain<'_>,
    first: &[u8],
    second: &[u8],
    auth: &[u8],
    nonce: &[u8],
    keep: bool,
    out: &mut [u8],
) -> (Pending, usize)
    requires room { 4096 ≤ length out.old }
    requires fit { do_fit
        (take (length (handle_kinds plain.now.code)) (first.now ∷ second.now ∷ [])) nonce.now
        ≡ true }
    ensures sealed { (body : CommandBodyOf) → plain.now ≡ parts_of body →
        IsSentFrom (sent (seal_of caller body (record {
          first = first.now;
          second = second.now;
          auth = auth.now;
          nonce = nonce.now;
          keep = keep;
        }))) out.old out.new result }
    ensures spelled { (body : CommandBodyOf) → plain.now ≡ parts_of body → PartsFit body →
        IsSpelled (seal_of caller body (record {
          first = first.now;
          second = second.now;
          auth = auth.now;
          nonce = nonce.now;
          keep = keep;
        })) }
{
    let names = names(plain.code().handles(), first, second);
    caller.seal_plain(plain, names.as_slice(), auth, nonce_of(nonce), keep, out)
}

fn seal(
    state: &mut CallerState,
    command: &[u8],
    first: &[u8],
    second: &[u8],
    auth: &[u8],
    nonce: &[u8],
    keep: u32,
    out: &mut [u8],
) -> usize
    ensures { let seal = sealing state.old command.now (record {
      first = first.now;
      second = second.now;
      auth = auth.now;
      nonce = nonce.now;
      keep = is_set keep;
    }) (length out.old) in
        (IsIn (sealed_bytes seal) out.old out.new result × IfSome seal IsSpelled)
        × (state.new ≡ after_seal state.old seal) }
{
    if out.len() < BUFFER_BYTES {
        return 0;
    }
    let Some(plain) = Plain::read(command) else {
        return 0;
    };
    if !do_fit(plain.code().handles(), first, second, nonce) {
        return 0;
    }
    match std::mem::replace(state, CallerState::Spent) {
        CallerState::Free(caller) => {
            let (waiting, len) = sealed(caller, &plain, first, second, auth, nonce, keep != 0, out);
            *state = CallerState::Sealed(waiting);
            len
        }
        other => {
            *state = other;
            0
        }
    }
}

/// Seals a command with the session that is free, writes its bytes to the beginning of `out`, and
/// says how many they are. The command is given in bytes, of which the sessions are left out, so it
/// may have none; `first` and `second` are the Names of its handles, the second of which is not
/// looked at where there is one handle; `auth` is what follows the session key in the key of the
/// HMAC, and `nonce` is nonceCaller, a fresh random one. With a `keep` other than 0 the session
/// goes on after the command. It answers 0, and nothing changes, where no session is free, where
/// `out` has room for fewer than 4,096 bytes, where the bytes are no command whose first handle
/// needs authorization, or where the Name of a handle or the nonce is too long.
#[unsafe(no_mangle)]
pub unsafe extern "C" fn tpm_caller_seal(
    place: *mut u8,
    command: &[u8],
    first: &[u8],
    second: &[u8],
    auth: &[u8],
    nonce: &[u8],
    keep: u32,
    out: &mut [u8],
) -> usize
    ghost state: { CallerStateOf }
    requires* { sem 𝓛 (state_at state place) }
    ensures* { let seal = sealing state command.now (record {
      first = first.now;
      second = second.now;
      auth = auth.now;
      nonce = nonce.now;
      keep = is_set keep;
    }) (length out.old) in
        sem 𝓛 (state_at (after_seal state seal) place)
        ∗ ⌜ IsIn (sealed_bytes seal) out.old out.new result × IfSome seal IsSpelled ⌝ }
{
    seal(
        &mut *(place as *mut CallerState),
        command,
        first,
        second,
        auth,
        nonce,
        keep,
        out,
    )
}

fn fault_number(fault: CallerFault) -> u32
    ensures { result ≡ fault_number fault }
{
    match fault {
        CallerFault::Refused(_) => 1,
        CallerFault::Code(_) => 2,
        CallerFault::NotExpected => 3,
        CallerFault::WrongMac => 4,
    }
}

// What is held after a reply.
fn kept(caller: Option<Caller>) -> CallerState
    ensures { result ≡ kept caller }
{
    match caller {
        Some(caller) => CallerState::Free(caller),
        None => CallerState::Spent,
    }
}

fn open(state: &mut CallerState, reply: &[u8]) -> u32
    ensures { (result ≡ open_code state.old reply.now) × (state.new ≡ after_open state.old reply.now) }
{
    match judged(state, reply) {
        Ok(nonce) => {
            move_on(state, nonce);
            0
        }
        Err(code) => code,
    }
}

// The nonceTPM with which the reply opens, or the number of its first fault, or that no command is sealed. What is
// held stays where it is.
fn judged<'a>(state: &CallerState, reply: &'a [u8]) -> Result<&'a [u8], u32>
    ensures ok { IfOk result (λ nonce. (w : Waiting)
        × (state.now ≡ Sealed w)
        × (x : Opened)
        × (opened w reply.now ≡ Ok x)
        × (x.caller ≡ caller_with w nonce.now)) }
    ensures err { IfErr result (λ code. (code ≡ open_code state.now reply.now)
        × (state.now ≡ after_open state.now reply.now)) }
    ensures fits { IfOk result (λ nonce. length nonce.now ≤ digest_bytes) }
{
    match state {
        CallerState::Sealed(waiting) => match waiting.judge(reply) {
            Ok(nonce) => Ok(nonce),
            Err(fault) => Err(fault_number(fault)),
        },
        CallerState::Spent | CallerState::Free(_) => Err(NOT_WAITING),
    }
}

// What waits for a reply moves on with its nonceTPM.
fn move_on(state: &mut CallerState, nonce: &[u8])
    requires { length nonce.now ≤ digest_bytes }
    ensures { (w : Waiting) → state.old ≡ Sealed w → state.new ≡ kept (caller_with w nonce.now) }
{
    match std::mem::replace(state, CallerState::Spent) {
        CallerState::Sealed(waiting) => {
            *state = kept(waiting.after(nonce));
        }
        other => {
            *state = other;
        }
    }
}

/// Opens the reply to the sealed command, and answers 0: the session is free again, with its new
/// nonceTPM, or it has ended where it was not kept. Otherwise nothing changes, and the answer is
/// the first fault: 1 where the bytes are no response to the command, 2 for a response whose code
/// is not 0, 3 where there is not exactly one session, or its nonceTPM has another length than the
/// session's, 4 where the HMAC is not that of the reply; and 5 where no command is sealed.
#[unsafe(no_mangle)]
pub unsafe extern "C" fn tpm_caller_open(place: *mut u8, reply: &[u8]) -> u32
    ghost state: { CallerStateOf }
    requires* { sem 𝓛 (state_at state place) }
    ensures* { sem 𝓛 (state_at (after_open state reply.now) place)
        ∗ ⌜ result ≡ open_code state reply.now ⌝ }
{
    open(&mut *(place as *mut CallerState), reply)
}

fn give_up(state: &mut CallerState, refusal: &[u8]) -> u32
    ensures { (result ≡ give_up_code state.old refusal.now)
        × (state.new ≡ after_give_up state.old refusal.now) }
{
    match std::mem::replace(state, CallerState::Spent) {
        CallerState::Sealed(waiting) => match waiting.give_up(refusal) {
            Ok(caller) => {
                *state = CallerState::Free(caller);
                1
            }
            Err(waiting) => {
                *state = CallerState::Sealed(waiting);
                0
            }
        },
        other => {
            *state = other;
            0
        }
    }
}

/// Frees the session as it was before it sealed the command, where these bytes are a response whose
/// code is not 0, and answers 1. It answers 0, and nothing changes, where they are none or where no
/// command is sealed.
#[unsafe(no_mangle)]
pub unsafe extern "C" fn tpm_caller_give_up(place: *mut u8, refusal: &[u8]) -> u32
    ghost state: { CallerStateOf }
    requires* { sem 𝓛 (state_at state place) }
    ensures* { sem 𝓛 (state_at (after_give_up state refusal.now) place)
        ∗ ⌜ result ≡ give_up_code state refusal.now ⌝ }
{
    give_up(&mut *(place as *mut CallerState), refusal)
}
