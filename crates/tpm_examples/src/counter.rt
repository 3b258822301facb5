//! A counter in NV memory, and the commands on it.

ghost use Rattle.std.specs.Prelude.{◌≡◌, length};

use arrayvec::ArrayVec;
use tpm_caller::{Caller, Waiting};
use tpm_commands::{CommandBody, NvDefineSpace, NvRead};
use tpm_hmac::hash;
use tpm_types::{
    Alg, AuthValue, Digest, NAME_BYTES, Name, Nonce, NvAttrs, NvAuthHandle, NvIndex, NvPublic,
    PUBLIC_BYTES, RH_OWNER, name_of_handle,
};
use tpm_wire::Buffer;

/// Where the counter is.
const INDEX: u32 = 0x0180_0001;

/// TPMA_NV_OWNERWRITE, TPMA_NV_OWNERREAD, TPMA_NV_NO_DA and the type of a counter (Part 2, 13.4).
const ATTRIBUTES: u32 = 0x0202_0012;

/// How many bytes its value has.
const VALUE_BYTES: u16 = 8;

/// A counter that its owner increments and reads.
#[derive(Drop)]
pub(crate) struct Counter {
    attrs: NvAttrs,
}

impl Counter {
    pub(crate) fn new() -> Self {
        Counter {
            attrs: NvAttrs::from_number(ATTRIBUTES).unwrap(),
        }
    }

    /// The first increment sets TPMA_NV_WRITTEN in its public area, of which its Name is made.
    pub(crate) fn set_written(&mut self) {
        self.attrs = self.attrs.with_written();
    }

    fn index(&self) -> NvIndex {
        NvIndex::from_number(INDEX).unwrap()
    }

    fn public(&self) -> NvPublic {
        NvPublic {
            index: self.index(),
            alg: Alg::Sha256,
            attrs: self.attrs,
            policy: Digest::default(),
            data_size: VALUE_BYTES,
        }
    }

    // The number of its hash, and the hash of its public area (Part 1, "Names").
    fn name(&self) -> Name {
        let public = self.public();
        let mut area = Buffer::new();
        prove!(public.area_len() <= PUBLIC_BYTES);
        public.put_area(&mut area);
        let digest = hash(public.alg, &[area.as_slice()]);
        let mut name = ArrayVec::<u8, NAME_BYTES>::new();
        let _ = name.try_extend_from_slice(&public.alg.number().to_be_bytes());
        let _ = name.try_extend_from_slice(digest.as_slice());
        Name::new(name.as_slice()).unwrap()
    }

    // The Names of the owner, who authorizes, and of the counter.
    fn names(&self) -> ArrayVec<Name, 2>
        ensures { length result.items ≡ 2 }
    {
        let mut names = ArrayVec::new();
        names.push(name_of_handle(RH_OWNER));
        names.push(self.name());
        names
    }

    /// TPM2_NV_DefineSpace. The session is bound to the owner, who authorizes: so the key of the
    /// HMAC has no authorization value.
    pub(crate) fn define(&self, caller: Caller, nonce: Nonce) -> Waiting {
        let mut names = ArrayVec::new();
        names.push(name_of_handle(RH_OWNER));
        let body = CommandBody::NvDefineSpace(NvDefineSpace {
            auth: AuthValue::default(),
            public: self.public(),
        });
        caller.seal(body, names, &[], nonce, true)
    }

    /// TPM2_NV_Increment by the owner.
    pub(crate) fn increment(&self, caller: Caller, nonce: Nonce) -> Waiting {
        let body = CommandBody::NvIncrement {
            by: NvAuthHandle::Owner,
            index: self.index(),
        };
        caller.seal(body, self.names(), &[], nonce, true)
    }

    /// TPM2_NV_Read of the whole value by the owner.
    pub(crate) fn read(&self, caller: Caller, nonce: Nonce) -> Waiting {
        let body = CommandBody::NvRead {
            by: NvAuthHandle::Owner,
            index: self.index(),
            params: NvRead {
                size: VALUE_BYTES,
                offset: 0,
            },
        };
        caller.seal(body, self.names(), &[], nonce, true)
    }
}
