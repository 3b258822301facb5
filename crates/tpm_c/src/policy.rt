//! The digest of a policy, without a device (Part 1, "Enhanced Authorization"; Part 3, 23).

ghost use Rattle.std.specs.Prelude.{◌≡◌};
ghost use Rattle.tpm_wire.specs.Reading.{read_all};
ghost use Rattle.tpm_types.specs.Alg.{alg_of};
ghost use Rattle.tpm_types.specs.Tpml.{selections as selections_layout, or_digests};
ghost use Rattle.tpm_model.specs.Policies.Assertion.{OrAsserted, CodeAsserted, AuthValueAsserted};
ghost use Rattle.tpm_session.specs.Policies.{as_assertion};
ghost use Rattle.tpm_c.specs.Policies.{IsEmpty, IsAsserted, AssertsSpelled, IsPcrAsserted, of_registers, with_digest};

use crate::handed::put;
use crate::part::{DONE, TpmRefusal, refuse};
use tpm_session::{Assertion, extend_policy};
use tpm_types::{Alg, DIGEST_BYTES, Digest, OrDigests, Selections};
use tpm_wire::{Refusal, take_whole};

/// There is no such hash.
const NO_HASH: u32 = 4;

/// The bytes are not as many as the digests of the hash have.
const NO_DIGEST: u32 = 5;

/// The digest of a policy: the number of its hash, TPM_ALG_ID, and 48 bytes, of which as many as
/// the digests of that hash have are the digest.
#[repr(C)]
#[derive(Clone, Copy)]
pub struct TpmPolicy {
    pub hash: u16,
    pub digest: [u8; 48],
}

fn or_digests_in(bytes: &[u8]) -> Result<OrDigests, Refusal>
    ensures { result ≡ read_all or_digests bytes.now }
{
    take_whole(bytes)
}

pub(crate) fn selections_in(bytes: &[u8]) -> Result<Selections, Refusal>
    ensures { result ≡ read_all selections_layout bytes.now }
{
    take_whole(bytes)
}

fn set(policy: &mut TpmPolicy, digest: &Digest)
    ensures { policy.new ≡ with_digest digest.now policy.old }
{
    put(policy.digest.as_mut_slice(), digest.as_slice());
}

fn assert(policy: &mut TpmPolicy, assertion: &Assertion<'_>) -> u32
    ensures { IsAsserted (alg_of policy.old.hash) (as_assertion assertion.now)
        (record { answer = result; old = policy.old; new = policy.new }) }
{
    let Some(alg) = Alg::from_number(policy.hash) else {
        return NO_HASH;
    };
    let digest = extend_policy(alg, assertion, &policy.digest[..alg.digest_len()]);
    set(policy, &digest);
    DONE
}

fn empty(policy: &mut TpmPolicy, hash: u16) -> u32
    ensures { IsEmpty (alg_of hash) hash
        (record { answer = result; old = policy.old; new = policy.new }) }
{
    if Alg::from_number(hash).is_none() {
        return NO_HASH;
    }
    *policy = TpmPolicy {
        hash,
        digest: [0; DIGEST_BYTES],
    };
    DONE
}

/// Makes the policy one that asserts nothing, in the hash of this number, and answers 0; or 4, and
/// nothing changes, where there is no such hash.
#[unsafe(no_mangle)]
pub extern "C" fn tpm_policy_start(policy: &mut TpmPolicy, hash: u16) -> u32
    ensures { IsEmpty (alg_of hash) hash
        (record { answer = result; old = policy.old; new = policy.new }) }
{
    empty(policy, hash)
}

/// TPM2_PolicyRestart: the policy asserts nothing any more (Part 3, 11.2). It answers 0; or 4, and
/// nothing changes, where the policy has no hash.
#[unsafe(no_mangle)]
pub extern "C" fn tpm_policy_restart(policy: &mut TpmPolicy) -> u32
    ensures { IsEmpty (alg_of policy.old.hash) policy.old.hash
        (record { answer = result; old = policy.old; new = policy.new }) }
{
    empty(policy, policy.hash)
}

/// TPM2_PolicyCommandCode: the command has this code, TPM_CC (Part 3, 23.11). It answers 0; or 4,
/// and nothing changes, where the policy has no hash.
#[unsafe(no_mangle)]
pub extern "C" fn tpm_policy_command_code(policy: &mut TpmPolicy, code: u32) -> u32
    ensures { IsAsserted (alg_of policy.old.hash) (CodeAsserted code)
        (record { answer = result; old = policy.old; new = policy.new }) }
{
    assert(policy, &Assertion::Code(code))
}

/// TPM2_PolicyAuthValue: the authorization value of the entity is known (Part 3, 23.17). It answers
/// 0; or 4, and nothing changes, where the policy has no hash.
#[unsafe(no_mangle)]
pub extern "C" fn tpm_policy_auth_value(policy: &mut TpmPolicy) -> u32
    ensures { IsAsserted (alg_of policy.old.hash) AuthValueAsserted
        (record { answer = result; old = policy.old; new = policy.new }) }
{
    assert(policy, &Assertion::AuthValue)
}

/// TPM2_PolicyOR: the policy is one of 2 to 8 with these digests, as TPML_DIGEST spells them (Part
/// 3, 23.6; Part 2, 10.9.5). It answers 0; 1, with the fault of the bytes in `refusal`, where they
/// spell no such list; or 4 where the policy has no hash. What isn't written so stays as it was.
#[unsafe(no_mangle)]
pub extern "C" fn tpm_policy_or(
    policy: &mut TpmPolicy,
    digests: &[u8],
    refusal: &mut TpmRefusal,
) -> u32
    ensures { AssertsSpelled (read_all or_digests digests.now) OrAsserted (record {
      answer = result;
      old = record { policy = policy.old; refusal = refusal.old };
      new = record { policy = policy.new; refusal = refusal.new };
    }) }
{
    match or_digests_in(digests) {
        Ok(digests) => assert(policy, &Assertion::Or(&digests)),
        Err(fault) => refuse(refusal, fault),
    }
}

fn pcr(
    policy: &mut TpmPolicy,
    selections: &[u8],
    pcr_digest: &Digest,
    refusal: &mut TpmRefusal,
) -> u32
    ensures { AssertsSpelled (read_all selections_layout selections.now)
        (of_registers pcr_digest.now)
        (record {
          answer = result;
          old = record { policy = policy.old; refusal = refusal.old };
          new = record { policy = policy.new; refusal = refusal.new };
        }) }
{
    match selections_in(selections) {
        Ok(selections) => {
            let assertion = Assertion::Pcr {
                selections: &selections,
                pcr_digest,
                update_counter: None,
            };
            assert(policy, &assertion)
        }
        Err(fault) => refuse(refusal, fault),
    }
}

/// TPM2_PolicyPCR: the registers of this TPML_PCR_SELECTION have values with this digest, in the
/// hash of the policy (Part 3, 23.7; Part 1, "Selecting Multiple PCR"). It answers 0, or the first
/// of these: 4 where the policy has no hash; 5 where the digest has another length than those of
/// the hash; 1, with the fault of the bytes in `refusal`, where they spell no selection. What isn't
/// written so stays as it was.
#[unsafe(no_mangle)]
pub extern "C" fn tpm_policy_pcr(
    policy: &mut TpmPolicy,
    selections: &[u8],
    pcr_digest: &[u8],
    refusal: &mut TpmRefusal,
) -> u32
    ensures { IsPcrAsserted (alg_of policy.old.hash) pcr_digest.now
        (read_all selections_layout selections.now) (record {
          answer = result;
          old = record { policy = policy.old; refusal = refusal.old };
          new = record { policy = policy.new; refusal = refusal.new };
        }) }
{
    let Some(alg) = Alg::from_number(policy.hash) else {
        return NO_HASH;
    };
    if pcr_digest.len() != alg.digest_len() {
        return NO_DIGEST;
    }
    match Digest::new(pcr_digest) {
        Some(pcr_digest) => pcr(policy, selections, &pcr_digest, refusal),
        None => NO_DIGEST,
    }
}
