//! A response's verdict, and its areas by their places in its bytes.

ghost use Rattle.std.specs.Prelude.{◌≡◌, ◌≤◌, ◌+◌};
ghost use Rattle.tpm_c.specs.ResponseViews.{session_view, behind as behind_of, place, session_views, count_of};
ghost use Rattle.tpm_c.specs.ResponseViews.{number_of, response_view, ViewsResponse, JudgesResponse};

use crate::part::{DONE, NO_COMMAND, NO_PART, TpmPart, TpmRefusal, refuse};
use tpm_buffer::{ReplyAreas, ReplyRef, decode_response, reply_areas};
use tpm_types::CommandCode;

/// A session of a response: its nonce and its HMAC lie in the response.
#[repr(C)]
#[derive(Clone, Copy)]
pub struct TpmResponseSession {
    pub attributes: u8,
    pub nonce: TpmPart,
    pub hmac: TpmPart,
}

/// A response by its areas. There is a handle where one is counted, and as many sessions as are
/// counted; the others are 0.
#[repr(C)]
#[derive(Clone, Copy)]
pub struct TpmResponseAreas {
    pub code: u32,
    pub handle_count: usize,
    pub handle: u32,
    pub parameters: TpmPart,
    pub session_count: usize,
    pub sessions: [TpmResponseSession; 3],
}

/// Cuts a response to the command of this number, TPM_CC, into its areas and answers 0; or answers
/// 1, and `refusal` is their first fault: the parameters are not judged. It answers 3 where no
/// command has the number. What isn't written so stays as it was.
#[unsafe(no_mangle)]
pub extern "C" fn tpm_response_cut(
    command: u32,
    bytes: &[u8],
    view: &mut TpmResponseAreas,
    refusal: &mut TpmRefusal,
) -> u32
    ensures { ViewsResponse command bytes.now (record {
      answer = result;
      old = record { view = view.old; refusal = refusal.old };
      new = record { view = view.new; refusal = refusal.new };
    }) }
{
    match CommandCode::from_number(command) {
        Some(code) => match reply_areas(code, bytes) {
            Ok(areas) => {
                *view = areas_view(&areas);
                DONE
            }
            Err(fault) => refuse(refusal, fault),
        },
        None => NO_COMMAND,
    }
}

/// Answers 0 where the bytes spell a response to the command of this number, all of them; or 1, and
/// `refusal` is their fault; or 3 where no command has the number.
#[unsafe(no_mangle)]
pub extern "C" fn tpm_response_decode(command: u32, bytes: &[u8], refusal: &mut TpmRefusal) -> u32
    ensures { JudgesResponse command bytes.now
        (record { answer = result; old = refusal.old; new = refusal.new }) }
{
    match CommandCode::from_number(command) {
        Some(code) => match decode_response(code, bytes) {
            Ok(_) => DONE,
            Err(fault) => refuse(refusal, fault),
        },
        None => NO_COMMAND,
    }
}

fn areas_view(areas: &ReplyAreas<'_>) -> TpmResponseAreas
    ensures { result ≡ response_view areas.now }
{
    let handle = areas.handle();
    TpmResponseAreas {
        code: areas.code(),
        handle_count: count(handle),
        handle: number(handle),
        parameters: TpmPart {
            at: areas.params_at() as usize,
            len: areas.params().len(),
        },
        session_count: areas.auth_count(),
        sessions: sessions(areas),
    }
}

fn count(handle: Option<u32>) -> usize
    ensures { result ≡ count_of handle }
{
    match handle {
        Some(_) => 1,
        None => 0,
    }
}

fn number(handle: Option<u32>) -> u32
    ensures { result ≡ number_of handle }
{
    match handle {
        Some(number) => number,
        None => 0,
    }
}

fn sessions(areas: &ReplyAreas<'_>) -> [TpmResponseSession; 3]
    ensures { result ≡ session_views areas.now }
{
    let (one, second) = session(&areas.auth(0), first_place(areas));
    let (two, third) = session(&areas.auth(1), second);
    let (three, _) = session(&areas.auth(2), third);
    [one, two, three]
}

// Where the sessions begin: behind the parameters.
fn first_place(areas: &ReplyAreas<'_>) -> usize
    ensures value { result ≡ place areas.now 0 }
    ensures near { result ≤ 8192 }
{
    areas.params_at() as usize + areas.params().len()
}

// What a session says that begins at this place, and the place behind it.
fn session(auth: &Option<ReplyRef<'_>>, at: usize) -> (TpmResponseSession, usize)
    requires { at ≤ 9000 }
    ensures view { result.0 ≡ session_view at auth.now }
    ensures behind { result.1 ≡ behind_of at auth.now }
    ensures near { result.1 ≤ at + 101 }
{
    match auth {
        Some(auth) => {
            let nonce = TpmPart {
                at: at + 2,
                len: auth.nonce().len(),
            };
            let hmac = TpmPart {
                at: at + 5 + nonce.len,
                len: auth.hmac().len(),
            };
            let view = TpmResponseSession {
                attributes: auth.attrs().number(),
                nonce,
                hmac,
            };
            (view, hmac.at + hmac.len)
        }
        None => {
            let view = TpmResponseSession {
                attributes: 0,
                nonce: NO_PART,
                hmac: NO_PART,
            };
            (view, at)
        }
    }
}
