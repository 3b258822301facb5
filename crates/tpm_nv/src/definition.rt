//! What an index is defined with (Part 3, "TPM2_NV_DefineSpace").

ghost use Rattle.std.specs.Prelude.{◌≡◌, ◌++◌, ◌≤◌, length};
ghost use Rattle.tpm_wire.specs.Spelling.{spelling};
ghost use Rattle.tpm_types.specs.Limits.{digest_bytes};
ghost use Rattle.tpm_types.specs.Tpms.{nv_public_area};
ghost use Rattle.tpm_hmac.specs.Hashes.{digest as digest_of};
ghost use Rattle.tpm_model.specs.Counters.{written};
ghost use Rattle.tpm_model.specs.Entities.{nv_name};

use arrayvec::ArrayVec;
use std::marker::Model;
use tpm_hmac::hash;
use tpm_types::{
    Alg, AuthValue, DIGEST_BYTES, Digest, NAME_BYTES, Name, NvAttrs, NvIndex, NvPublic, Packed,
};

/// How many bytes the value of a counter has.
pub const COUNTER_BYTES: usize = 8;

/// What a counter was defined with: its public area, without the size of its data, which is 8 bytes, and its
/// authorization value.
#[derive(Drop)]
pub struct Definition {
    index: NvIndex,
    // As they are now: WRITTEN is set from the first increment on.
    attrs: NvAttrs,
    alg: Alg,
    policy: Packed<DIGEST_BYTES>,
    // Without trailing zeros.
    auth: Packed<DIGEST_BYTES>,
}

impl Model for Definition {
    ghost use Rattle.tpm_nv.specs.Definitions as definitions;

    ghost Value = { definitions.Definition };

    ghost view = { λ d. record {
      public = record {
        index = d.index;
        alg = d.alg;
        attrs = d.attrs;
        policy = d.policy;
        data_size = 8;
      };
      auth = d.auth;
    } };
}

impl Definition {
    /// That of this public area and this authorization value.
    pub fn new(public: &NvPublic, auth: &[u8]) -> Self
        requires size { public.now.data_size ≡ 8 }
        requires short { length auth.now ≤ digest_bytes }
        ensures { result ≡ record { public = public.now; auth = auth.now } }
    {
        Definition {
            index: public.index,
            attrs: public.attrs,
            alg: public.alg,
            policy: Packed::new(public.policy.as_slice()),
            auth: Packed::new(auth),
        }
    }

    /// The index.
    pub fn index(&self) -> NvIndex
        ensures { result ≡ self.now.public.index }
    {
        self.index
    }

    /// Its attributes as they are now: WRITTEN is set from the first increment on.
    pub fn attrs(&self) -> NvAttrs
        ensures { result ≡ self.now.public.attrs }
    {
        self.attrs
    }

    /// The hash of its Name and its policy.
    pub fn alg(&self) -> Alg
        ensures { result ≡ self.now.public.alg }
    {
        self.alg
    }

    /// The digest of its policy, empty where it has none.
    pub fn policy(&self) -> &[u8]
        ensures { result.now ≡ self.now.public.policy }
    {
        self.policy.as_slice()
    }

    /// Its authorization value.
    pub fn auth(&self) -> &[u8]
        ensures value { result.now ≡ self.now.auth }
        ensures short { length result.now ≤ digest_bytes }
    {
        self.auth.as_slice()
    }

    /// Its public area.
    pub fn public(&self) -> NvPublic
        ensures { result ≡ self.now.public }
    {
        NvPublic {
            index: self.index,
            alg: self.alg,
            attrs: self.attrs,
            policy: Digest::of(self.policy.as_slice()),
            data_size: COUNTER_BYTES as u16,
        }
    }

    // Its authorization value, as one that is sent.
    pub(crate) fn auth_value(&self) -> AuthValue
        ensures { result ≡ self.now.auth }
    {
        AuthValue::of(self.auth.as_slice())
    }

    // Sets WRITTEN.
    pub(crate) fn write(&mut self)
        ensures { self.new
            ≡ record { public = written self.old.public; auth = self.old.auth } }
    {
        self.attrs = self.attrs.with_written();
    }

    // The hash of its public area, TPMS_NV_PUBLIC (Part 2, 13.5). The area is hashed field by field, and not made.
    fn area_digest(&self) -> Digest
        ensures { result ≡
            digest_of self.now.public.alg (spelling nv_public_area self.now.public) }
    {
        let policy = self.policy.as_slice();
        hash(
            self.alg,
            &[
                &self.index.number().to_be_bytes(),
                &self.alg.number().to_be_bytes(),
                &self.attrs.number().to_be_bytes(),
                &(policy.len() as u16).to_be_bytes(),
                policy,
                &(COUNTER_BYTES as u16).to_be_bytes(),
            ],
        )
    }

    // Its Name: the number of its hash, and the hash of its public area.
    pub(crate) fn name(&self) -> Name
        ensures { result ≡ nv_name self.now.public }
    {
        joined(
            &self.alg.number().to_be_bytes(),
            self.area_digest().as_slice(),
        )
    }
}

// The Name of a hash's number and a digest under it.
fn joined(alg: &[u8; 2], digest: &[u8]) -> Name
    requires { length digest.now ≤ digest_bytes }
    ensures { result ≡ alg.now ++ digest.now }
{
    let mut bytes: ArrayVec<u8, NAME_BYTES> = ArrayVec::new();
    let _ = bytes.try_extend_from_slice(alg);
    let _ = bytes.try_extend_from_slice(digest);
    Name::of(bytes.as_slice())
}
