//! The limits and the lists are those of the specification.

ghost use Rattle.std.specs.Prelude.{◌≡◌, ℕ};
ghost use Rattle.tpm_wire.specs.Token.{Here};
ghost use Rattle.tpm_wire.specs.Reading.{read};
ghost use Rattle.tpm_types.specs.Limits.{banks, digest_bytes, name_bytes, public_bytes, block_bytes};
ghost use Rattle.tpm_types.specs.Attest.{data_bytes};
ghost use Rattle.tpm_types.specs.Tpms.{select_bytes};
ghost use Rattle.tpm_types.specs.Tpml.{most_digests, selections, digests, or_digests, digest_values};

use crate::attest::DATA_BYTES;
use crate::limits::{BANKS, BLOCK_BYTES, DIGEST_BYTES, NAME_BYTES, PUBLIC_BYTES};
use crate::tpml::{DigestValues, Digests, MOST_DIGESTS, OrDigests, Selections};
use crate::tpms::SELECT_BYTES;
use tpm_wire::Wire;

/// Each limit of the code is the limit that the layouts have.
pub fn same_limits()
    ensures banks { BANKS ≡ banks }
    ensures digest { DIGEST_BYTES ≡ digest_bytes }
    ensures name { NAME_BYTES ≡ name_bytes }
    ensures public { PUBLIC_BYTES ≡ public_bytes }
    ensures block { BLOCK_BYTES ≡ block_bytes }
    ensures select { SELECT_BYTES ≡ select_bytes }
    ensures digests { MOST_DIGESTS ≡ most_digests }
    ensures data_bytes { DATA_BYTES ≡ data_bytes }
{}

/// Each counted list is read as its layout says, with the least and the greatest count of that.
pub fn same_lists()
    ensures selections { (number : ℕ) (h : Here)
        → read number ⟦<Selections as Wire>⟧.layout h ≡ read number selections h }
    ensures digests { (number : ℕ) (h : Here)
        → read number ⟦<Digests as Wire>⟧.layout h ≡ read number digests h }
    ensures or_digests { (number : ℕ) (h : Here)
        → read number ⟦<OrDigests as Wire>⟧.layout h ≡ read number or_digests h }
    ensures digest_values { (number : ℕ) (h : Here)
        → read number ⟦<DigestValues as Wire>⟧.layout h ≡ read number digest_values h }
{}
