//! The digests of variables' contents, which each bank tells again.

ghost use Rattle.std.specs.Prelude.{◌≡◌, IfSome, OnOk, option_map};
ghost use Rattle.tpm_types.specs.declared.alg.Alg.TheVariants.{Sha256};
ghost use Rattle.tpm_hmac.specs.Hashes.{digest};
ghost use Rattle.tpm_output.specs.Marks.{Bytes, Says};

use std::alloc::{AllocError, Global};
use tpm_hmac::hash;
use tpm_output::mark::{Mark, Value};
use tpm_output::teller::{Teller, Told};
use tpm_secure_boot::SecureBoot;
use tpm_types::{Alg, Digest};

// A content and its digest by SHA-256.
#[derive(Drop)]
struct Content<'a> {
    bytes: &'a [u8],
    sha256: Digest,
    ghost hashed: { sha256 ≡ digest Sha256 bytes.now },
}

/// The digests of the contents that were told, for the banks behind.
#[derive(Drop)]
pub(crate) struct ContentDigests<'a> {
    contents: Vec<Content<'a>>,
}

impl<'a> ContentDigests<'a> {
    /// Of no content.
    pub(crate) fn new(alloc: Global) -> Self {
        ContentDigests {
            contents: Vec::new(alloc),
        }
    }

    // The digest of a content that was told.
    fn known(&self, bytes: &[u8]) -> Option<&Digest>
        ensures { IfSome result (λ d. d.now ≡ digest Sha256 bytes.now) }
    {
        for content in &self.contents {
            if content.bytes == bytes {
                return Some(&content.sha256);
            }
        }
        None
    }

    /// Hashes the contents that are found in a bank, each once.
    pub(crate) fn add(&mut self, found: &SecureBoot<'a>) -> Result<(), AllocError> {
        for variable in [found.pk, found.kek, found.db, found.dbx] {
            if let Some(variable) = variable {
                let bytes = variable.value;
                if self.known(bytes).is_none() {
                    let sha256 = hash(Alg::Sha256, &[bytes]);
                    self.contents.push(Content { bytes, sha256 })?;
                }
            }
        }
        Ok(())
    }

    /// Tells the digest of a content by SHA-256. It is hashed where it wasn't before.
    pub(crate) fn tell<T: Teller>(&self, out: &mut T, name: Option<&str>, bytes: &[u8]) -> Told
        ensures { OnOk result (T.state out.new ≡ T.tells (T.state out.old)
            (Says (option_map (λ n. n.now) name.entry) (Bytes (digest Sha256 bytes.now)))) }
    {
        match self.known(bytes) {
            Some(sha256) => out.tell(&Mark::Says(name, Value::Bytes(sha256.as_slice()))),
            None => {
                let sha256 = hash(Alg::Sha256, &[bytes]);
                out.tell(&Mark::Says(name, Value::Bytes(sha256.as_slice())))
            }
        }
    }
}
