//! The names of response codes (Part 2, 6.6.3).

ghost use Rattle.std.specs.Prelude.{◌≡◌, ◌≤◌, ◌++◌, length, if◌then◌else◌};
ghost use Rattle.tpm_names.specs.Codes.{name_of_code};
ghost use Rattle.tpm_c.specs.Written.{in_room, IsIn};

use crate::handed::put_parts;
use tpm_names::codes::{code_meaning, code_subject};

/// Writes the name of a response code to the beginning of `out`, as TPM_RC_LOCKOUT, or with what it is about, as
/// `TPM_RC_BAD_AUTH for session 1`, and says how many bytes it has. It answers 0, and nothing is written, where the
/// code isn't listed or there is less room.
#[unsafe(no_mangle)]
pub extern "C" fn tpm_code_name(code: u32, out: &mut [u8]) -> usize
    ensures { IsIn (in_room (length out.old) (name_of_code code)) out.old out.new result }
{
    let Some(meaning) = code_meaning(code) else {
        return 0;
    };
    let subject = code_subject(code);
    let parts = [
        b"TPM_RC_".as_slice(),
        meaning.name.as_bytes(),
        subject.words.as_bytes(),
        subject.number.as_bytes(),
    ];
    put_parts(out, &parts)
}
