//! Hashes and HMACs.
ghost use Rattle.std.specs.Prelude.{◌≡◌, ◌≤◌, length, take, MatchOption};
ghost use Rattle.tpm_types.specs.Alg.{alg_of, digest_len};
ghost use Rattle.tpm_types.specs.Limits.{digest_bytes};
ghost use Rattle.tpm_hmac.specs.Hashes.{digest};
ghost use Rattle.tpm_hmac.specs.Hmac.{hmac as hmac_of};

use tpm_hmac::{SessionKey, hash, hmac, same};
use tpm_types::{Alg, Digest};

// Writes the digest to the beginning of `out`, and answers its length.
fn put(out: &mut [u8], digest: &Digest) -> usize
    requires { length digest.now ≤ length out.old }
    ensures value { result ≡ length digest.now }
    ensures written { take (length digest.now) out.new ≡ digest.now }
{
    let bytes = digest.as_slice();
    out[..bytes.len()].copy_from_slice(bytes);
    bytes.len()
}

/// The hash of the message, at the beginning of `out`, which has room for the longest digest. It
/// answers the length, or 0 where the number is no hash's (Part 2, 6.3).
#[unsafe(no_mangle)]
pub extern "C" fn tpm_bench_hash(alg: u16, message: &[u8], out: &mut [u8]) -> usize
    requires { digest_bytes ≤ length out.old }
    ensures { MatchOption (alg_of alg) (result ≡ 0) (λ a. (result ≡ digest_len a)
        × (take (digest_len a) out.new ≡ digest a message.now)) }
{
    match Alg::from_number(alg) {
        Some(alg) => put(out, &hash(alg, &[message])),
        None => 0,
    }
}

/// The HMAC of the text under the key, as `tpm_bench_hash` gives the hash.
#[unsafe(no_mangle)]
pub extern "C" fn tpm_bench_hmac(alg: u16, key: &[u8], text: &[u8], out: &mut [u8]) -> usize
    requires { digest_bytes ≤ length out.old }
    ensures { MatchOption (alg_of alg) (result ≡ 0) (λ a. (result ≡ digest_len a)
        × (take (digest_len a) out.new ≡ hmac_of a key.now text.now)) }
{
    match Alg::from_number(alg) {
        Some(alg) => put(out, &hmac(alg, key, &[text])),
        None => 0,
    }
}

/// How often, of so many times, the two are found to be the same bytes.
#[unsafe(no_mangle)]
#[inline(never)]
pub extern "C" fn tpm_bench_same(a: &[u8], b: &[u8], times: u32) -> u32
    ensures { result ≤ times }
{
    let mut found = 0;
    for _ in 0..times {
        if are_same(a, b) {
            found += 1;
        }
    }
    found
}

#[inline(never)]
fn are_same(a: &[u8], b: &[u8]) -> bool {
    same(a, b)
}

/// Hashes the message, if it has bytes, and makes the HMAC of its digest and of the text, so many
/// times, by SHA-256 and a key that is hashed once. It answers the last HMAC's first byte and 1, or
/// 0 where nothing was done.
#[unsafe(no_mangle)]
pub extern "C" fn tpm_bench_session_hashes(
    key: &[u8],
    message: &[u8],
    text: &[u8],
    times: u32,
) -> u32 {
    let Some(key) = Digest::new(key) else {
        return 0;
    };
    let key = SessionKey::new(Alg::Sha256, key);
    let mut last = 0;
    for _ in 0..times {
        last = session_hashes(&key, message, text);
    }
    last
}

#[inline(never)]
fn session_hashes(key: &SessionKey, message: &[u8], text: &[u8]) -> u32 {
    let digest = if message.is_empty() {
        Digest::default()
    } else {
        hash(Alg::Sha256, &[message])
    };
    match key.mac(&[digest.as_slice(), text]).as_slice() {
        [first, ..] => *first as u32 + 1,
        [] => 0,
    }
}
