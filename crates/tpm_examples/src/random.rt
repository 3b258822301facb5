//! What stands for random numbers.

use tpm_types::Nonce;

/// How many bytes the nonces of a session have.
const NONCE_BYTES: usize = 16;

/// A count, so that each run of this program is alike. Who relies on a session has random numbers
/// here: a TPM its own generator, a boot loader that of its processor.
#[derive(Drop)]
pub(crate) struct Random {
    count: u64,
}

impl Random {
    pub(crate) fn new() -> Self {
        Random { count: 0 }
    }

    /// Bytes that were not there before.
    pub(crate) fn bytes(&mut self) -> [u8; 64] {
        self.count = self.count.wrapping_add(1);
        let mut bytes = [0; 64];
        bytes[..8].copy_from_slice(&self.count.to_be_bytes());
        bytes
    }

    /// A nonce that was not there before.
    pub(crate) fn nonce(&mut self) -> Nonce {
        Nonce::new(&self.bytes()[..NONCE_BYTES]).unwrap()
    }
}
