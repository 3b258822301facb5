//! What another bank of registers changes, with the hashes of `Alg`.

/// How many entries a list with one for each bank has at most.
pub const BANKS: usize = 3;

/// How many bytes a digest, a nonce and an authorization value have at most: the longest digest of a bank.
pub const DIGEST_BYTES: usize = 48;

/// How many bytes the longest block of a hash has, which the key of an HMAC fills.
pub const BLOCK_BYTES: usize = 128;

/// How many bytes a Name has at most: the number of a hash, and its digest.
pub const NAME_BYTES: usize = 2 + DIGEST_BYTES;

/// How many bytes the public area of an NV index has at most: nvIndex, nameAlg, attributes, a sized digest and
/// dataSize.
pub const PUBLIC_BYTES: usize = 4 + 2 + 4 + (2 + DIGEST_BYTES) + 2;
