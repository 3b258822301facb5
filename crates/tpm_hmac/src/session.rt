//! What the HMACs of sessions are made of (Part 1, "Session-Based Authorizations").

ghost use Rattle.std.specs.Prelude.{◌≡◌, [], Some, ◌++◌, length, IfSome};
ghost use Rattle.std.specs.List.{flat_map};
ghost use Rattle.tpm_types.specs.Alg.{digest_len};
ghost use Rattle.tpm_types.specs.CommandCodes.{code_number};
ghost use Rattle.tpm_hmac.specs.Hashes.{digest};
ghost use Rattle.tpm_hmac.specs.Hmac.{hmac as hmac_of};
ghost use Rattle.tpm_hmac.specs.Sessions.{session_key as session_key_of, whole_key, mac_text, cp_hash as cp_hash_of};
ghost use Rattle.tpm_hmac.specs.Sessions.{rp_hash as rp_hash_of};

use crate::hashing::{Hasher, hash};
use crate::key::{SessionKey, trim};
use crate::mac::{Mac, kdfa};
use tpm_types::{Alg, CommandCode, DIGEST_BYTES, Digest, Name, SessionAttrs};

// The label of the key of a session that is bound.
const BOUND: &[u8; 3] = b"ATH";

/// sessionKey of a session that is bound to an entity with this authorization value: KDFa of the
/// trimmed value, as long as a digest (Part 1, "sessionKey Creation"). A session that is bound to
/// none has the empty key.
pub fn session_key(alg: Alg, auth_value: &[u8], nonce_tpm: &[u8], nonce_caller: &[u8]) -> Digest
    ensures { result ≡ session_key_of alg (Some auth_value.now) nonce_tpm.now nonce_caller.now }
{
    let mut bytes = [0; DIGEST_BYTES];
    let key = &mut bytes[..alg.digest_len()];
    kdfa(alg, trim(auth_value), BOUND, nonce_tpm, nonce_caller, key);
    Digest::of(key)
}

// The hash of the parts, with the Names between. It is out of line, since a hasher of any hash is filled where its
// function begins.
#[inline(never)]
fn hash_of_names(alg: Alg, number: &[u8], names: &[Name], params: &[u8]) -> Digest
    ensures { result ≡
        digest alg (number.now ++ (flat_map (λ name. name) names.now ++ params.now)) }
{
    let mut hasher = Hasher::new(alg);
    hasher.update(number);
    hasher.update_names(names);
    hasher.update(params);
    hasher.digest()
}

/// cpHash of a command: the hash of its code, the Name of each of its handles, in their order, and
/// its parameters as they are sent (Part 1, "Command Parameter Hash (cpHash)").
#[tactic(auto, using(crate::proofs::DigestLengths::lengths))]
pub fn cp_hash(alg: Alg, code: CommandCode, names: &[Name], params: &[u8]) -> Digest
    ensures value { result ≡ cp_hash_of alg (code_number code) names.now params.now }
    ensures len { length result ≡ digest_len alg }
{
    let number = code.number().to_be_bytes();
    match names {
        [] => hash(alg, &[&number, params]),
        [name] => hash(alg, &[&number, name.as_slice(), params]),
        _ => hash_of_names(alg, &number, names, params),
    }
}

/// rpHash of the response to a command with this code: the hash of the response code, which is 0,
/// the command code, and the parameters as they are sent (Part 1, "Response Parameter Hash
/// (rpHash)").
#[tactic(auto, using(crate::proofs::DigestLengths::lengths))]
pub fn rp_hash(alg: Alg, code: CommandCode, params: &[u8]) -> Digest
    ensures value { result ≡ rp_hash_of alg (code_number code) params.now }
    ensures len { length result ≡ digest_len alg }
{
    if params.is_empty() {
        if let Some(hash) = known_rp_hash(alg, code) {
            return Digest::of(hash);
        }
    }
    let success: u32 = 0;
    hash(
        alg,
        &[&success.to_be_bytes(), &code.number().to_be_bytes(), params],
    )
}

/// The MAC of a command, under the session key followed by the trimmed authorization value.
/// `p_hash` is its cpHash, `newer` its nonceCaller, and `older` the session's nonceTPM (Part 1,
/// "HMAC Computation").
#[tactic(auto, using(crate::proofs::DigestLengths::lengths))]
#[inline(never)]
pub fn command_mac(
    alg: Alg,
    session_key: &[u8],
    auth_value: &[u8],
    p_hash: &[u8],
    newer: &[u8],
    older: &[u8],
    attrs: SessionAttrs,
) -> Digest
    ensures value { result ≡
        hmac_of alg (whole_key session_key.now auth_value.now)
        (mac_text p_hash.now newer.now older.now attrs) }
    ensures len { length result ≡ digest_len alg }
{
    let mut mac = Mac::new(alg, session_key, trim(auth_value));
    mac.update(p_hash);
    mac.update(newer);
    mac.update(older);
    mac.update(&[attrs.number()]);
    mac.finish()
}

impl SessionKey {
    /// The MAC of a command or of a response, under this key followed by the trimmed authorization
    /// value, as `command_mac` and `response_mac` give it (Part 1, "HMAC Computation").
    #[tactic(auto, using(crate::proofs::DigestLengths::lengths))]
    pub fn session_mac(
        &self,
        auth_value: &[u8],
        p_hash: &[u8],
        newer: &[u8],
        older: &[u8],
        attrs: SessionAttrs,
    ) -> Digest
        ensures value { result ≡
            hmac_of self.now.hash (whole_key self.now.bytes auth_value.now)
            (mac_text p_hash.now newer.now older.now attrs) }
        ensures len { length result ≡ digest_len self.now.hash }
    {
        if trim(auth_value).is_empty() {
            return self.mac_of(p_hash, newer, older, &[attrs.number()]);
        }
        command_mac(
            self.hash(),
            self.bytes(),
            auth_value,
            p_hash,
            newer,
            older,
            attrs,
        )
    }

    // The MAC under this key alone. The parts live equally long, as those of one list do.
    fn mac_of<'a>(
        &self,
        p_hash: &'a [u8],
        newer: &'a [u8],
        older: &'a [u8],
        attrs: &'a [u8],
    ) -> Digest
        ensures value { result ≡
            hmac_of self.now.hash self.now.bytes
            (p_hash.now ++ (newer.now ++ (older.now ++ attrs.now))) }
        ensures len { length result ≡ digest_len self.now.hash }
    {
        self.mac(&[p_hash, newer, older, attrs])
    }
}

/// The MAC of a response, under the key of its command. `p_hash` is its rpHash, `newer` its nonceTPM, and `older` the
/// command's nonceCaller (Part 1, "HMAC Computation").
pub fn response_mac(
    alg: Alg,
    session_key: &[u8],
    auth_value: &[u8],
    p_hash: &[u8],
    newer: &[u8],
    older: &[u8],
    attrs: SessionAttrs,
) -> Digest
    ensures value { result ≡
        hmac_of alg (whole_key session_key.now auth_value.now)
        (mac_text p_hash.now newer.now older.now attrs) }
    ensures len { length result ≡ digest_len alg }
{
    command_mac(alg, session_key, auth_value, p_hash, newer, older, attrs)
}

// ---- rpHash of the replies without parameters, where a session can authorize their command

// The hash of eight bytes, the response code 0 and the command code (Part 1, "Response Parameter Hash (rpHash)").
const NV_UNDEFINE_SPACE_SHA1: [u8; 20] = [
    0x73, 0x84, 0x65, 0x60, 0x5C, 0xA3, 0x71, 0xBF, 0x3F, 0xB0, 0x2F, 0x98, 0x3B, 0xD8, 0x3F, 0xD2,
    0xE4, 0x23, 0xCB, 0x0F,
];

const NV_UNDEFINE_SPACE_SHA256: [u8; 32] = [
    0x03, 0x87, 0xEA, 0x96, 0x1C, 0x62, 0x03, 0x16, 0x43, 0x68, 0xA2, 0xCF, 0x5E, 0x59, 0xD3, 0xCA,
    0x49, 0xE6, 0xBF, 0x36, 0x7D, 0x59, 0xC2, 0xAA, 0x8F, 0xC3, 0x27, 0xE1, 0xF1, 0x94, 0x8D, 0x7A,
];

const NV_UNDEFINE_SPACE_SHA384: [u8; 48] = [
    0xB2, 0x94, 0x15, 0xBB, 0x30, 0x02, 0xB2, 0x75, 0x95, 0xE6, 0x60, 0x88, 0x0A, 0xE6, 0xEF, 0x6C,
    0x8C, 0xF7, 0x72, 0x13, 0xB9, 0xF9, 0xC4, 0xB9, 0x82, 0x6A, 0x31, 0x8C, 0x31, 0x8C, 0xE1, 0x8C,
    0x3E, 0x9D, 0xE1, 0xC5, 0xC1, 0xA6, 0x58, 0x49, 0x1E, 0xD0, 0x96, 0x70, 0xFD, 0x4C, 0x9F, 0x88,
];

const NV_DEFINE_SPACE_SHA1: [u8; 20] = [
    0x2B, 0x43, 0x4F, 0x99, 0xBD, 0x34, 0xDF, 0x5F, 0xFA, 0x05, 0xAC, 0xB1, 0x5E, 0xD5, 0x3E, 0x16,
    0x88, 0xDF, 0x4C, 0x94,
];

const NV_DEFINE_SPACE_SHA256: [u8; 32] = [
    0x6E, 0xA2, 0x81, 0x41, 0xCC, 0x93, 0x63, 0x88, 0x72, 0xBF, 0x6D, 0x4C, 0xD2, 0xDF, 0x3F, 0x98,
    0xD5, 0x93, 0x5B, 0x95, 0x96, 0x7D, 0x22, 0xD4, 0x46, 0x6E, 0x9C, 0xA9, 0x06, 0xED, 0x47, 0xA7,
];

const NV_DEFINE_SPACE_SHA384: [u8; 48] = [
    0x5D, 0xDA, 0xA4, 0x23, 0x55, 0x46, 0xB6, 0x02, 0x4C, 0xC5, 0x82, 0x07, 0x26, 0x25, 0x1C, 0xFA,
    0x79, 0xAE, 0x97, 0x67, 0xD9, 0x3E, 0x34, 0xAE, 0x2F, 0xBC, 0xD7, 0x43, 0xDA, 0xD9, 0xAC, 0x5B,
    0x4F, 0x4F, 0x8D, 0xE4, 0x77, 0x3D, 0xE3, 0xA5, 0x75, 0xA6, 0x32, 0x97, 0x22, 0x58, 0xF4, 0xAC,
];

const NV_INCREMENT_SHA1: [u8; 20] = [
    0x90, 0xB7, 0x59, 0x19, 0xFF, 0x6E, 0xB8, 0xBB, 0xD0, 0x7E, 0x63, 0x6C, 0x54, 0xB5, 0x58, 0x5F,
    0xC1, 0x85, 0x47, 0x63,
];

const NV_INCREMENT_SHA256: [u8; 32] = [
    0x3C, 0x22, 0x8A, 0xAC, 0x88, 0x85, 0x13, 0x79, 0x49, 0x7B, 0x0A, 0xFF, 0x38, 0x6C, 0x33, 0x10,
    0x8D, 0x74, 0x8C, 0xB2, 0x12, 0xAB, 0x2B, 0x0A, 0xE5, 0xF0, 0x7A, 0x4E, 0xFA, 0xF9, 0xC9, 0xC2,
];

const NV_INCREMENT_SHA384: [u8; 48] = [
    0x4A, 0x5D, 0x19, 0xF1, 0xCB, 0x53, 0xAE, 0x1F, 0xC3, 0x77, 0x6A, 0x29, 0x8A, 0xC7, 0x5C, 0xFE,
    0xE5, 0x41, 0xBE, 0x10, 0x55, 0xDB, 0xE5, 0x64, 0xC2, 0x35, 0x10, 0x0C, 0x5C, 0xE6, 0xDB, 0xAE,
    0x4B, 0x13, 0x34, 0xAF, 0x0A, 0x24, 0x3C, 0x56, 0x7F, 0x7C, 0xA2, 0xB4, 0xD8, 0xE6, 0x6D, 0x85,
];

const PCR_RESET_SHA1: [u8; 20] = [
    0x4B, 0x56, 0x4D, 0xE9, 0x42, 0x3A, 0x34, 0xA9, 0xC7, 0x53, 0x3C, 0xC1, 0x89, 0x91, 0x76, 0xE0,
    0x64, 0x4D, 0x13, 0xCC,
];

const PCR_RESET_SHA256: [u8; 32] = [
    0x57, 0xBE, 0x70, 0x03, 0x1A, 0xE9, 0x82, 0x40, 0x93, 0xD8, 0x89, 0xBF, 0xA2, 0x1E, 0xED, 0x5F,
    0x67, 0x8F, 0x33, 0x7C, 0x67, 0xF1, 0x67, 0x2B, 0xEF, 0x3C, 0xD8, 0x78, 0x9C, 0x19, 0x1C, 0x80,
];

const PCR_RESET_SHA384: [u8; 48] = [
    0x8A, 0x01, 0xEE, 0x98, 0x0A, 0xBC, 0xA6, 0x91, 0xBD, 0xD8, 0xE8, 0x4F, 0x0D, 0x30, 0x14, 0x9B,
    0x76, 0xAA, 0x97, 0xF0, 0xB0, 0x13, 0x8C, 0x8D, 0x7D, 0xF0, 0x5A, 0x78, 0x61, 0x2F, 0x85, 0xFC,
    0xDC, 0xAD, 0x7E, 0x29, 0xB8, 0x17, 0x33, 0xAD, 0xF0, 0x79, 0x93, 0x20, 0xD5, 0xD5, 0x55, 0x53,
];

const PCR_EXTEND_SHA1: [u8; 20] = [
    0x38, 0x62, 0xAF, 0x84, 0x82, 0x60, 0x4D, 0x8E, 0x06, 0xEA, 0x9D, 0x3A, 0xB9, 0xEC, 0x85, 0x37,
    0xF2, 0x79, 0x6B, 0xFB,
];

const PCR_EXTEND_SHA256: [u8; 32] = [
    0xB8, 0xD6, 0x5E, 0x03, 0xB3, 0xAF, 0x91, 0x41, 0x86, 0xC7, 0xB4, 0xF6, 0x4B, 0x3F, 0x8D, 0x63,
    0x6F, 0xF1, 0x91, 0xFE, 0x0D, 0x03, 0x13, 0x22, 0x89, 0x39, 0x86, 0x1B, 0x26, 0x75, 0xAC, 0x7E,
];

const PCR_EXTEND_SHA384: [u8; 48] = [
    0x29, 0xE6, 0xD7, 0x91, 0xCA, 0x5E, 0x84, 0x06, 0x97, 0x59, 0xFF, 0x8F, 0x4C, 0x84, 0x2C, 0xE2,
    0x02, 0x16, 0x58, 0xC2, 0xB7, 0xBD, 0xEE, 0x31, 0xE8, 0x06, 0x36, 0xA2, 0xBF, 0xEC, 0x3E, 0x96,
    0x97, 0x0A, 0xBB, 0xB6, 0x84, 0x3C, 0xA4, 0x62, 0x6E, 0x6F, 0x2B, 0xBA, 0xEB, 0xBB, 0xC3, 0xA5,
];

/// rpHash of a reply without parameters to a command with this code, where it is known.
pub(crate) fn known_rp_hash(alg: Alg, code: CommandCode) -> Option<&'static [u8]>
    ensures { IfSome result (λ hash. hash.now ≡ rp_hash_of alg (code_number code) []) }
{
    match (alg, code) {
        (Alg::Sha1, CommandCode::NvUndefineSpace) => Some(&NV_UNDEFINE_SPACE_SHA1),
        (Alg::Sha256, CommandCode::NvUndefineSpace) => Some(&NV_UNDEFINE_SPACE_SHA256),
        (Alg::Sha384, CommandCode::NvUndefineSpace) => Some(&NV_UNDEFINE_SPACE_SHA384),
        (Alg::Sha1, CommandCode::NvDefineSpace) => Some(&NV_DEFINE_SPACE_SHA1),
        (Alg::Sha256, CommandCode::NvDefineSpace) => Some(&NV_DEFINE_SPACE_SHA256),
        (Alg::Sha384, CommandCode::NvDefineSpace) => Some(&NV_DEFINE_SPACE_SHA384),
        (Alg::Sha1, CommandCode::NvIncrement) => Some(&NV_INCREMENT_SHA1),
        (Alg::Sha256, CommandCode::NvIncrement) => Some(&NV_INCREMENT_SHA256),
        (Alg::Sha384, CommandCode::NvIncrement) => Some(&NV_INCREMENT_SHA384),
        (Alg::Sha1, CommandCode::PcrReset) => Some(&PCR_RESET_SHA1),
        (Alg::Sha256, CommandCode::PcrReset) => Some(&PCR_RESET_SHA256),
        (Alg::Sha384, CommandCode::PcrReset) => Some(&PCR_RESET_SHA384),
        (Alg::Sha1, CommandCode::PcrExtend) => Some(&PCR_EXTEND_SHA1),
        (Alg::Sha256, CommandCode::PcrExtend) => Some(&PCR_EXTEND_SHA256),
        (Alg::Sha384, CommandCode::PcrExtend) => Some(&PCR_EXTEND_SHA384),
        _ => None,
    }
}
