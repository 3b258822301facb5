//! A quote of a TPM's registers (Part 2, 10.12): what its bytes say, whether it is the one that was asked for, and
//! whether its digest is that of registers; and the parts of its signature.
#![tactic(auto)]

mod attest;
pub mod laws;
mod quote;
mod signature;

pub use attest::{
    AttestFault, NotSelected, check_attest, decode_attest, first_not_selected, nonce_matches,
    selects, selects_none,
};
pub use quote::{check_quote, decode_quote};
pub use signature::{
    ECC_BYTES, EccSignature, RSA_BYTES, RsaSignature, Signature, decode_signature,
};
