//! The hash of bytes.

ghost use Rattle.std.specs.Prelude.{length, option_map};
ghost use Rattle.tpm_types.specs.Alg.{alg_of};
ghost use Rattle.tpm_hmac.specs.Hashes.{digest};
ghost use Rattle.tpm_c.specs.Written.{in_room, IsIn};

use crate::handed::put_in_room;
use tpm_types::Alg;

/// Writes the hash of the bytes (FIPS 180-4) to the beginning of `out`, and says how many bytes it has. `hash` is
/// TPM_ALG_SHA1, TPM_ALG_SHA256 or TPM_ALG_SHA384. It answers 0, and nothing is written, for any other number and where
/// there is less room.
#[unsafe(no_mangle)]
pub extern "C" fn tpm_hash(hash: u16, bytes: &[u8], out: &mut [u8]) -> usize
    ensures { IsIn (in_room (length out.old) (option_map (λ alg. digest alg bytes.now) (alg_of hash)))
        out.old out.new result }
{
    match Alg::from_number(hash) {
        Some(alg) => put_in_room(out, tpm_hmac::hash(alg, &[bytes]).as_slice()),
        None => 0,
    }
}
