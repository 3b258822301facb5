//! The names that Part 2 gives to numbers, by the types of the fields that they stand in.

ghost use Rattle.std.specs.Prelude.{◌≡◌, ◌++◌, map, option_map};
ghost use Rattle.tpm_output.specs.Named.{row_as};
ghost use Rattle.tpm_show.specs.FieldNames.{is_algorithm, is_handle, named_of, names_for, number_in, value_name};

use crate::command_names::command_of;
use crate::handle_names::handle_name;
use tpm_output::named::{Row, look_up};
use tpm_output::names;

/// A name of two parts.
#[derive(Clone, Copy)]
pub(crate) struct ValueName {
    pub(crate) front: &'static str,
    pub(crate) name: &'static str,
}

// TPM_ALG_ID (Part 2, 6.3)
const ALGORITHMS: [Row; 39] = names![
    0x0001 "TPM_ALG_RSA",
    0x0003 "TPM_ALG_TDES",
    0x0004 "TPM_ALG_SHA1",
    0x0005 "TPM_ALG_HMAC",
    0x0006 "TPM_ALG_AES",
    0x0007 "TPM_ALG_MGF1",
    0x0008 "TPM_ALG_KEYEDHASH",
    0x000a "TPM_ALG_XOR",
    0x000b "TPM_ALG_SHA256",
    0x000c "TPM_ALG_SHA384",
    0x000d "TPM_ALG_SHA512",
    0x0010 "TPM_ALG_NULL",
    0x0012 "TPM_ALG_SM3_256",
    0x0013 "TPM_ALG_SM4",
    0x0014 "TPM_ALG_RSASSA",
    0x0015 "TPM_ALG_RSAES",
    0x0016 "TPM_ALG_RSAPSS",
    0x0017 "TPM_ALG_OAEP",
    0x0018 "TPM_ALG_ECDSA",
    0x0019 "TPM_ALG_ECDH",
    0x001a "TPM_ALG_ECDAA",
    0x001b "TPM_ALG_SM2",
    0x001c "TPM_ALG_ECSCHNORR",
    0x001d "TPM_ALG_ECMQV",
    0x0020 "TPM_ALG_KDF1_SP800_56A",
    0x0021 "TPM_ALG_KDF2",
    0x0022 "TPM_ALG_KDF1_SP800_108",
    0x0023 "TPM_ALG_ECC",
    0x0025 "TPM_ALG_SYMCIPHER",
    0x0026 "TPM_ALG_CAMELLIA",
    0x0027 "TPM_ALG_SHA3_256",
    0x0028 "TPM_ALG_SHA3_384",
    0x0029 "TPM_ALG_SHA3_512",
    0x003f "TPM_ALG_CMAC",
    0x0040 "TPM_ALG_CTR",
    0x0041 "TPM_ALG_OFB",
    0x0042 "TPM_ALG_CBC",
    0x0043 "TPM_ALG_CFB",
    0x0044 "TPM_ALG_ECB",
];

// TPM_SU (Part 2, 6.10)
const STARTUP_TYPES: [Row; 2] = names![0x0000 "TPM_SU_CLEAR", 0x0001 "TPM_SU_STATE",];

// TPM_SE (Part 2, 6.11)
const SESSION_TYPES: [Row; 3] = names![
    0x00 "TPM_SE_HMAC",
    0x01 "TPM_SE_POLICY",
    0x03 "TPM_SE_TRIAL",
];

fn is_algorithm(kind: &str) -> bool
    ensures { result ≡ is_algorithm kind.now }
{
    kind == "TPMI_ALG_HASH" || kind == "TPMI_ALG_SYM" || kind == "TPMU_SYM_MODE"
}

// The table for a type, which is empty for any other.
#[tactic(auto, unfolding(crate::specs::FieldNames::names_for))]
fn names_for(kind: &str) -> &'static [Row]
    ensures { map row_as result.now ≡ names_for kind.now }
{
    if is_algorithm(kind) {
        &ALGORITHMS
    } else if kind == "TPM_SU" {
        &STARTUP_TYPES
    } else if kind == "TPM_SE" {
        &SESSION_TYPES
    } else {
        &[]
    }
}

// The number that one, two or four bytes spell.
fn number_in(bytes: &[u8]) -> Option<u32>
    ensures { result ≡ number_in bytes.now }
{
    match bytes {
        [n] => Some(u32::from(*n)),
        [high, low] => Some(u32::from(u16::from_be_bytes([*high, *low]))),
        [a, b, c, d] => Some(u32::from_be_bytes([*a, *b, *c, *d])),
        _ => None,
    }
}

fn is_handle(kind: &str) -> bool
    ensures { result ≡ is_handle kind.now }
{
    kind == "TPMI_DH_CONTEXT" || kind == "TPMI_RH_NV_INDEX"
}

#[tactic(auto, unfolding(crate::specs::FieldNames::named_of))]
fn named_of(kind: &str, number: u32) -> Option<&'static str>
    ensures { option_map (λ name. name.now) result ≡ named_of kind.now number }
{
    if is_handle(kind) {
        return handle_name(number);
    }
    look_up(names_for(kind), number)
}

/// The name of a field of this type and these bytes, where Part 2 has one.
#[tactic(auto, unfolding(crate::specs::FieldNames::value_name))]
pub(crate) fn value_name(kind: &str, bytes: &[u8]) -> Option<ValueName>
    ensures { option_map (λ name. name.front.now ++ name.name.now) result
        ≡ value_name kind.now bytes.now }
{
    let number = number_in(bytes)?;
    if kind == "TPM_CC" {
        let command = command_of(number)?;
        return Some(ValueName {
            front: "TPM_CC_",
            name: command.name,
        });
    }
    let name = named_of(kind, number)?;
    Some(ValueName { front: "", name })
}
