//! The names of response codes (Part 2, 6.6), and what they say.

ghost use Rattle.std.specs.Prelude.{◌≡◌, ◌≤◌, ◌++◌, codes, map, option_map};
ghost use Rattle.std.specs.Fmt.{decimal};
ghost use Rattle.tpm_names.specs.Codes.{code_of_name, format_one, format_zero, meaning_of, name_in};
ghost use Rattle.tpm_names.specs.Codes.{subject_number, subject_of, subject_text};
ghost use Rattle.tpm_names.specs.Meanings.{meaning_as, row_as};

use crate::meaning::{Meaning, Row, look_up, look_up_name};
use crate::meanings;

/// Set in a code with the number of a handle, session or parameter (Part 2, 6.6.2).
const FORMAT_ONE: u32 = 0x80;

/// Set in such a code where it is about a parameter.
const PARAMETER: u32 = 0x40;

/// Set in such a code where it is about a session, and no parameter.
const SESSION: u32 = 0x800;

// Codes without a number: success, those of TPM 1.2, errors and warnings (Part 2, 6.6.3).
const WITHOUT_NUMBER: [Row; 65] = meanings![
    0x000 "SUCCESS" "the command succeeded",
    0x01e "BAD_TAG" "the tag of the command is not a tag of TPM 2.0",
    0x100 "INITIALIZE" "the TPM has not been started, or was started already",
    0x101 "FAILURE" "the TPM is in failure mode",
    0x103 "SEQUENCE" "the handle of the sequence is used in a wrong way",
    0x10b "PRIVATE" "the private area is not usable",
    0x119 "HMAC" "the HMAC key is not usable",
    0x120 "DISABLED" "the command is disabled",
    0x121 "EXCLUSIVE" "the session of an exclusive audit was interrupted",
    0x124 "AUTH_TYPE" "the handle cannot be authorized in this way",
    0x125 "AUTH_MISSING" "the command needs an authorization and has none",
    0x126 "POLICY" "the policy of a use by an index or object is not right",
    0x127 "PCR" "a check of registers failed",
    0x128 "PCR_CHANGED" "registers have changed since the policy's check",
    0x12d "UPGRADE" "the TPM is in field upgrade mode",
    0x12e "TOO_MANY_CONTEXTS" "the counter of contexts is at its limit",
    0x12f "AUTH_UNAVAILABLE" "the authorization value or policy is not available for this entity",
    0x130 "REBOOT" "the TPM must be started anew before it goes on",
    0x131 "UNBALANCED" "the protection algorithms are not balanced",
    0x142 "COMMAND_SIZE" "the command's size is not that of its bytes",
    0x143 "COMMAND_CODE" "the command code is not supported",
    0x144 "AUTHSIZE" "the size of the authorization area is out of range",
    0x145 "AUTH_CONTEXT" "the command must not have an authorization",
    0x146 "NV_RANGE" "the offset or the size is outside the index",
    0x147 "NV_SIZE" "the size to be allocated is too large",
    0x148 "NV_LOCKED" "the index is locked for this access",
    0x149 "NV_AUTHORIZATION" "this entity must not access the index in this way",
    0x14a "NV_UNINITIALIZED" "the index has not been written",
    0x14b "NV_SPACE" "there is no space for another index",
    0x14c "NV_DEFINED" "the index or object is defined already",
    0x150 "BAD_CONTEXT" "the saved context is not valid",
    0x151 "CPHASH" "the parameters are not those that the session allows",
    0x152 "PARENT" "the handle of the parent is not right",
    0x153 "NEEDS_TEST" "a self-test is needed first",
    0x154 "NO_RESULT" "there is no result to be given",
    0x155 "SENSITIVE" "the sensitive area does not agree with the public area",
    0x901 "CONTEXT_GAP" "the gap between contexts is too large",
    0x902 "OBJECT_MEMORY" "there is no memory for another object",
    0x903 "SESSION_MEMORY" "there is no memory for another session",
    0x904 "MEMORY" "there is not enough memory",
    0x905 "SESSION_HANDLES" "there is no handle for another session",
    0x906 "OBJECT_HANDLES" "there is no handle for another object",
    0x907 "LOCALITY" "the locality must not do this",
    0x908 "YIELDED" "the command was suspended, and may be sent again",
    0x909 "CANCELED" "the command was cancelled",
    0x90a "TESTING" "self-tests are running",
    0x910 "REFERENCE_H0" "the first handle is not loaded",
    0x911 "REFERENCE_H1" "the second handle is not loaded",
    0x912 "REFERENCE_H2" "the third handle is not loaded",
    0x913 "REFERENCE_H3" "the fourth handle is not loaded",
    0x914 "REFERENCE_H4" "the fifth handle is not loaded",
    0x915 "REFERENCE_H5" "the sixth handle is not loaded",
    0x916 "REFERENCE_H6" "the seventh handle is not loaded",
    0x918 "REFERENCE_S0" "the first session is not loaded",
    0x919 "REFERENCE_S1" "the second session is not loaded",
    0x91a "REFERENCE_S2" "the third session is not loaded",
    0x91b "REFERENCE_S3" "the fourth session is not loaded",
    0x91c "REFERENCE_S4" "the fifth session is not loaded",
    0x91d "REFERENCE_S5" "the sixth session is not loaded",
    0x91e "REFERENCE_S6" "the seventh session is not loaded",
    0x920 "NV_RATE" "the non-volatile memory was written too often, and is slowed down",
    0x921 "LOCKOUT" "the TPM is locked out after failed authorizations",
    0x922 "RETRY" "the command was not run, and may be sent again",
    0x923 "NV_UNAVAILABLE" "the non-volatile memory is not accessible now",
    0x97f "NOT_USED" "no meaning is given to this code",
];

// The lowest six bits of codes with the number of a handle, session or parameter.
const WITH_NUMBER: [Row; 33] = meanings![
    0x01 "ASYMMETRIC" "the asymmetric algorithm is not supported or not correct",
    0x02 "ATTRIBUTES" "the attributes do not agree",
    0x03 "HASH" "the hash algorithm is not supported or not right here",
    0x04 "VALUE" "the value is out of range or not right here",
    0x05 "HIERARCHY" "the hierarchy is not enabled or not right for the use",
    0x07 "KEY_SIZE" "the key size is not supported",
    0x08 "MGF" "the mask generation function is not supported",
    0x09 "MODE" "the mode of operation is not supported",
    0x0a "TYPE" "the type of the value is not right for the use",
    0x0b "HANDLE" "the handle is not right for the use",
    0x0c "KDF" "the key derivation function is not supported or not right for the use",
    0x0d "RANGE" "the value is out of the allowed range",
    0x0e "AUTH_FAIL" "the authorization's HMAC failed, and the failure is counted",
    0x0f "NONCE" "the nonce's size or value does not agree",
    0x10 "PP" "physical presence must be asserted",
    0x12 "SCHEME" "the scheme is not supported or not right here",
    0x15 "SIZE" "the structure has the wrong size",
    0x16 "SYMMETRIC" "the symmetric algorithm or key size is not supported or not right here",
    0x17 "TAG" "the structure's tag is not right",
    0x18 "SELECTOR" "the union's selector is not right",
    0x1a "INSUFFICIENT" "there are fewer bytes than the value needs",
    0x1b "SIGNATURE" "the signature is not valid",
    0x1c "KEY" "the fields of the key do not agree with the use",
    0x1d "POLICY_FAIL" "a policy check failed",
    0x1f "INTEGRITY" "an integrity check failed",
    0x20 "TICKET" "the ticket is not valid",
    0x21 "RESERVED_BITS" "a reserved bit is set",
    0x22 "BAD_AUTH" "the authorization failed, and the failure is not counted",
    0x23 "EXPIRED" "the policy has expired",
    0x24 "POLICY_CC" "the policy names another command",
    0x25 "BINDING" "the public and the sensitive part do not belong together",
    0x26 "CURVE" "the curve is not supported",
    0x27 "ECC_POINT" "the point is not on the curve",
];

fn without_number() -> &'static [Row]
    ensures { map row_as result.now ≡ format_zero }
{
    &WITHOUT_NUMBER
}

fn with_number() -> &'static [Row]
    ensures { map row_as result.now ≡ format_one }
{
    &WITH_NUMBER
}

/// What a response code says, whatever its number.
pub fn code_meaning(code: u32) -> Option<Meaning>
    ensures { option_map meaning_as result ≡ meaning_of code }
{
    if code & FORMAT_ONE == 0 {
        return look_up(without_number(), code);
    }
    if code < 0x1000 {
        return look_up(with_number(), code & 0x3F);
    }
    None
}

// What stands behind `TPM_RC_`, or all where the name doesn't begin with it.
fn name_in(name: &[u8]) -> &[u8]
    ensures { result.now ≡ name_in name.now }
{
    match name.split_at_checked(7) {
        Some((front, rest)) if front.eq_ignore_ascii_case(b"TPM_RC_") => rest,
        _ => name,
    }
}

/// The response code of this name (Part 2, 6.6.3), in any letter case, with `TPM_RC_` before it or not; of one that has
/// the number of a handle, session or parameter, that without a number. None where no code has the name.
pub fn code_of_name(name: &str) -> Option<u32>
    ensures { result ≡ code_of_name name.now }
{
    let name = name_in(name.as_bytes());
    match look_up_name(without_number(), name) {
        Some(meaning) => Some(meaning.number),
        None => match look_up_name(with_number(), name) {
            Some(meaning) => Some(FORMAT_ONE | meaning.number),
            None => None,
        },
    }
}

// What a code with a number is about, between the name and the number.
fn words(code: u32) -> &'static str
    ensures { result.now ≡ codes " for " ++ (subject_of code ++ codes " ") }
{
    if code & PARAMETER != 0 {
        " for parameter "
    } else if code & SESSION != 0 {
        " for session "
    } else {
        " for handle "
    }
}

// The number of what it is about.
fn number(code: u32) -> u32
    ensures value { result ≡ subject_number code }
    ensures fits { result ≤ 15 }
{
    if code & PARAMETER != 0 {
        code >> 8 & 0xF
    } else {
        code >> 8 & 7
    }
}

// The digits of such a number.
fn digits(number: u32) -> &'static str
    requires { number ≤ 15 }
    ensures { result.now ≡ decimal number }
{
    match number {
        0 => "0",
        1 => "1",
        2 => "2",
        3 => "3",
        4 => "4",
        5 => "5",
        6 => "6",
        7 => "7",
        8 => "8",
        9 => "9",
        10 => "10",
        11 => "11",
        12 => "12",
        13 => "13",
        14 => "14",
        _ => "15",
    }
}

/// What a response code is about, as the text behind its name, in two pieces: ` for session ` and `1`. Both are empty
/// where the code has no number.
#[derive(Clone, Copy)]
pub struct Subject {
    pub words: &'static str,
    pub number: &'static str,
}

/// What a response code is about (Part 2, 6.6.2).
pub fn code_subject(code: u32) -> Subject
    ensures { result.words.now ++ result.number.now ≡ subject_text code }
{
    let number = number(code);
    if code & FORMAT_ONE == 0 || number == 0 {
        return Subject {
            words: "",
            number: "",
        };
    }
    Subject {
        words: words(code),
        number: digits(number),
    }
}
