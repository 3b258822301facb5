//! What a policy session asserts (Part 1, "Enhanced Authorization"; Part 3, 23).

ghost use Rattle.std.specs.Prelude.{◌≡◌, ◌+◌, ◌≤◌, [], ◌++◌, length};
ghost use Rattle.tpm_wire.specs.Spelling.{spelling};
ghost use Rattle.tpm_types.specs.Tpml.{selections as selections_layout};
ghost use Rattle.tpm_model.specs.Policies.Assertion.{PcrAsserted, OrAsserted};
ghost use Rattle.tpm_model.specs.Policies.{asserted};
ghost use Rattle.tpm_model.specs.Actions.{is_listed as listed};
ghost use Rattle.tpm_model.specs.Authorization.{differs as is_another};
ghost use Rattle.tpm_session.specs.Policies.{as_assertion};
ghost use Rattle.tpm_session.specs.inner.Asserting.{policy_after};

use crate::session::{Policy, empty_policy};
use arrayvec::ArrayVec;
use tpm_hmac::hash;
use tpm_types::{
    Alg, BANKS, CommandCode, Digest, MOST_DIGESTS, OrDigests, SELECT_BYTES, Selections,
};
use tpm_wire::Wire;

// How many parts the text of TPM2_PolicyOR has at most: zeros, the command's code, and the digests.
const OR_PARTS: usize = MOST_DIGESTS + 2;

// How many bytes a selection has: the number of a hash, how many bytes its bits are, and the bits.
const SELECTION_BYTES: usize = 2 + 1 + SELECT_BYTES;

// How many bytes a list of selections has at most: their number, and one for each bank.
const SELECTIONS_BYTES: usize = 4 + BANKS * SELECTION_BYTES;

/// What a policy command asserts.
#[derive(Drop)]
pub enum Assertion<'a> {
    /// That the selected registers have values of this digest, in the hash of the policy. The
    /// update counter is what a session keeps beside it, and is not hashed.
    Pcr {
        selections: &'a Selections,
        pcr_digest: &'a Digest,
        update_counter: Option<u32>,
    },
    /// That the policy is one of those with these digests.
    Or(&'a OrDigests),
    /// That the command has this code, TPM_CC.
    Code(u32),
    /// That the authorization value of the entity is known.
    AuthValue,
}

impl Policy {
    /// This is asserted too, in a session of this hash.
    pub(crate) fn assert(&mut self, alg: Alg, assertion: &Assertion<'_>)
        ensures { self.new ≡ policy_after alg (as_assertion assertion.now) self.old }
    {
        let digest = extend_policy(alg, assertion, self.digest.as_slice());
        self.digest.set(digest.as_slice());
        match assertion {
            Assertion::Pcr { update_counter, .. } => {
                self.update_counter = update_counter.or(self.update_counter)
            }
            Assertion::Or(_) => {}
            Assertion::Code(code) => self.code = Some(*code),
            Assertion::AuthValue => self.auth_value = true,
        }
    }
}

/// The digest of a policy in this hash that asserts this too, by the digest `old` of what it
/// asserts before: as TPM2_PolicyPCR, TPM2_PolicyOR, TPM2_PolicyCommandCode and
/// TPM2_PolicyAuthValue extend it (Part 3, 23.7, 23.6, 23.11 and 23.17).
pub fn extend_policy(alg: Alg, assertion: &Assertion<'_>, old: &[u8]) -> Digest
    ensures { result ≡ asserted alg (as_assertion assertion.now) old.now }
{
    match assertion {
        Assertion::Pcr {
            selections,
            pcr_digest,
            ..
        } => after_registers(alg, selections, pcr_digest.as_slice(), old),
        Assertion::Or(digests) => after_choice(alg, digests),
        Assertion::Code(code) => hash(
            alg,
            &[
                old,
                &CommandCode::PolicyCommandCode.number().to_be_bytes(),
                &code.to_be_bytes(),
            ],
        ),
        Assertion::AuthValue => hash(
            alg,
            &[old, &CommandCode::PolicyAuthValue.number().to_be_bytes()],
        ),
    }
}

// How they lie in bytes, TPML_PCR_SELECTION (Part 2, 10.9.7), in the room of the longest.
fn selections_bytes(selections: &Selections) -> ArrayVec<u8, SELECTIONS_BYTES>
    ensures { result.items ≡ spelling selections_layout selections.now }
{
    prove!(selections.len() <= SELECTIONS_BYTES);
    let mut bytes = ArrayVec::new();
    selections.put(&mut bytes);
    bytes
}

// That after TPM2_PolicyPCR (Part 3, 23.7).
fn after_registers(alg: Alg, selections: &Selections, pcr_digest: &[u8], old: &[u8]) -> Digest
    ensures { result ≡ asserted alg (PcrAsserted selections.now pcr_digest.now None) old.now }
{
    let code = CommandCode::PolicyPcr.number().to_be_bytes();
    let spelled = selections_bytes(selections);
    hash(alg, &[old, &code, spelled.as_slice(), pcr_digest])
}

// That after TPM2_PolicyOR, in which the digest before has no part (Part 3, 23.6).
fn after_choice(alg: Alg, digests: &OrDigests) -> Digest
    ensures { result ≡ asserted alg (OrAsserted digests.now) [] }
{
    let zeros = empty_policy(alg);
    let code = CommandCode::PolicyOr.number().to_be_bytes();
    let mut parts: ArrayVec<&[u8], OR_PARTS> = ArrayVec::new();
    parts.push(zeros.as_slice());
    parts.push(&code);
    for digest in digests.as_slice() {
        parts.push(digest.as_slice());
    }
    hash(alg, parts.as_slice())
}

/// Whether the digest is one of these.
pub(crate) fn is_listed(digest: &[u8], digests: &[Digest]) -> bool
    ensures { result ≡ listed digest.now digests.now }
{
    for listed in digests {
        if digest == listed.as_slice() {
            return true;
        }
    }
    false
}

/// Whether one number is kept, and it is another.
pub(crate) fn differs(kept: Option<u32>, number: u32) -> bool
    ensures { result ≡ is_another kept number }
{
    match kept {
        Some(kept) => kept != number,
        None => false,
    }
}
