//! The structures of the TPM 2.0 Library's Part 2 that this profile has, as values that can be spelled.
#![tactic(auto)]

mod alg;
mod attest;
mod command_code;
mod constants;
mod handle_sets;
mod handles;
mod laws;
mod limits;
mod tpm2b;
mod tpma;
mod tpml;
mod tpms;
mod tpmt;

pub use alg::Alg;
pub use attest::{Attest, ClockInfo, DATA_BYTES, QuoteInfo};
pub use command_code::CommandCode;
pub use constants::{KeyBits, SessionType, StartupType};
pub use handle_sets::{BindHandle, NvAuthHandle, PcrOrNull};
pub use handles::{
    AuthSession, AuthSessions, Handle, HandleSet, NvIndex, NvIndices, PcrIndex, Policies,
    PolicyHandle, REGISTERS, RH_NULL, RH_OWNER, RS_PW, Registers, SessionHandle, Sessions,
    register,
};
pub use laws::{same_limits, same_lists};
pub use limits::{BANKS, BLOCK_BYTES, DIGEST_BYTES, NAME_BYTES, PUBLIC_BYTES};
pub use tpm2b::{AuthValue, Digest, EncryptedSalt, Lent, Name, Nonce, Packed, name_of_handle};
pub use tpma::{NvAttrs, SessionAttrs};
pub use tpml::{DigestValues, Digests, MOST_DIGESTS, OrDigests, Selections};
pub use tpms::{Auth, AuthReply, NvPublic, SELECT_BYTES, Selection};
pub use tpmt::{HashedDigest, SymDef};
