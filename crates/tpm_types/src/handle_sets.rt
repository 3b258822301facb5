//! The handles of a command that are of one kind or another.

ghost use Rattle.std.specs.Prelude.{◌≡◌, Some};

use crate::handles::{NvIndex, PcrIndex, RH_NULL, RH_OWNER};

/// A register, or none: TPMI_DH_PCR+ (Part 2, 9.7).
#[derive(Clone, Copy, Debug, PartialEq, Eq)]
pub enum PcrOrNull {
    /// A register.
    Pcr(PcrIndex),
    /// TPM_RH_NULL: no register.
    Null,
}

impl PcrOrNull {
    ghost use Rattle.tpm_types.specs.HandleSets.{pcr_or_null_of, pcr_or_null_number};

    /// The value of this number, if it is one.
    pub fn from_number(n: u32) -> Option<Self>
        ensures { result ≡ pcr_or_null_of n }
    {
        match n {
            RH_NULL => Some(PcrOrNull::Null),
            _ => PcrIndex::from_number(n).map(PcrOrNull::Pcr),
        }
    }

    /// Its number.
    pub fn number(self) -> u32
        ensures value { result ≡ pcr_or_null_number self }
        ensures in_set { pcr_or_null_of result ≡ Some self }
    {
        match self {
            PcrOrNull::Pcr(register) => register.number(),
            PcrOrNull::Null => RH_NULL,
        }
    }
}

/// Whose authorization an NV command takes: TPMI_RH_NV_AUTH (Part 2, 9.22) without the platform's.
#[derive(Clone, Copy, Debug, PartialEq, Eq)]
pub enum NvAuthHandle {
    /// TPM_RH_OWNER: the owner's.
    Owner,
    /// That of the index.
    Index(NvIndex),
}

impl NvAuthHandle {
    ghost use Rattle.tpm_types.specs.HandleSets.{nv_auth_of, nv_auth_number};

    /// The value of this number, if it is one.
    pub fn from_number(n: u32) -> Option<Self>
        ensures { result ≡ nv_auth_of n }
    {
        match n {
            RH_OWNER => Some(NvAuthHandle::Owner),
            _ => NvIndex::from_number(n).map(NvAuthHandle::Index),
        }
    }

    /// Its number.
    pub fn number(self) -> u32
        ensures value { result ≡ nv_auth_number self }
        ensures in_set { nv_auth_of result ≡ Some self }
    {
        match self {
            NvAuthHandle::Owner => RH_OWNER,
            NvAuthHandle::Index(index) => index.number(),
        }
    }
}

/// What a session is bound to: TPMI_DH_ENTITY+ (Part 2, 9.6), of which this profile has the owner and nothing.
#[derive(Clone, Copy, Debug, PartialEq, Eq)]
pub enum BindHandle {
    /// TPM_RH_OWNER: the owner's authorization value.
    Owner,
    /// TPM_RH_NULL: nothing.
    Null,
}

impl BindHandle {
    ghost use Rattle.tpm_types.specs.HandleSets.{bind_of, bind_number};

    /// The value of this number, if it is one.
    pub fn from_number(n: u32) -> Option<Self>
        ensures { result ≡ bind_of n }
    {
        match n {
            RH_OWNER => Some(BindHandle::Owner),
            RH_NULL => Some(BindHandle::Null),
            _ => None,
        }
    }

    /// Its number.
    pub fn number(self) -> u32
        ensures value { result ≡ bind_number self }
        ensures in_set { bind_of result ≡ Some self }
    {
        match self {
            BindHandle::Owner => RH_OWNER,
            BindHandle::Null => RH_NULL,
        }
    }
}
