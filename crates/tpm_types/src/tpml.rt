//! Counted lists: TPML (Part 2, 10.9).

use crate::limits::BANKS;
use crate::tpm2b::Digest;
use crate::tpms::Selection;
use crate::tpmt::HashedDigest;
use tpm_wire::Counted;

/// How many digests a list has at most.
pub const MOST_DIGESTS: usize = 8;

/// Registers of each bank: TPML_PCR_SELECTION (Part 2, 10.9.7), at most an entry for each bank.
pub type Selections = Counted<Selection, 0, BANKS>;

/// Digests in a response: TPML_DIGEST (Part 2, 10.9.5), at most 8.
pub type Digests = Counted<Digest, 0, MOST_DIGESTS>;

/// The digests of TPM2_PolicyOR: TPML_DIGEST, 2 to 8.
pub type OrDigests = Counted<Digest, 2, MOST_DIGESTS>;

/// Digests of one event, at most one for each bank: TPML_DIGEST_VALUES (Part 2, 10.9.6).
pub type DigestValues = Counted<HashedDigest, 0, BANKS>;
