//! Sessions.

ghost use Rattle.std.specs.Prelude.{◌<◌, ◌≤◌, length};

use tpm_buffer::{Areas, areas};
use tpm_commands::{StartAuth, StartParams};
use tpm_session::{Claim, Entity, Sessions};
use tpm_types::{Alg, BindHandle, Name, Nonce, SessionType, SymDef, name_of_handle};

/// Starts an HMAC session of SHA-256 in slot 0, which is bound to none and whose nonceTPM is 32
/// zeros, and has it authorize the command so many times, which is one on a register. It answers
/// how many times it was authorized.
#[unsafe(no_mangle)]
pub extern "C" fn tpm_bench_authorize(bytes: &[u8], times: u32) -> u32
    ensures { result ≤ times }
{
    let sessions = started();
    let Ok(areas) = areas(bytes) else {
        return 0;
    };
    let [register, ..] = areas.handles() else {
        return 0;
    };
    if areas.auth_count() == 0 {
        return 0;
    }
    let names = [name_of_handle(*register)];
    let mut authorized = 0;
    for counter in 0..times {
        if is_authorized(&sessions, &areas, &names, counter) {
            authorized += 1;
        }
    }
    authorized
}

fn started() -> Sessions {
    let start = StartAuth {
        bind: BindHandle::Null,
        params: StartParams {
            nonce_caller: Nonce::new(&[0; 32]).unwrap_or_default(),
            session_type: SessionType::Hmac,
            symmetric: SymDef::Null,
            auth_hash: Alg::Sha256,
        },
    };
    let mut sessions = Sessions::new();
    let _started = sessions.start(&start, &[], &[0; 64]);
    sessions
}

// Whether a command of a register is authorized at this update counter. The counter is another one each time, so that
// the compiler cannot take one answer for all.
#[inline(never)]
fn is_authorized<'a>(
    sessions: &Sessions,
    areas: &Areas<'a>,
    names: &'a [Name],
    counter: u32,
) -> bool
    requires { 0 < length areas.now.auths }
{
    let claim = Claim {
        entity: Entity::Register,
        command: areas.code(),
        names,
        params: areas.params(),
        update_counter: counter,
    };
    sessions.authorize(areas.auths(), &claim).is_ok()
}
