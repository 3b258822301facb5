//! The software layers of response codes, and their base codes.

ghost use Rattle.std.specs.Prelude.{◌≡◌, option_map};
ghost use Rattle.tpm_show.specs.Layers.{codes_of, layer_of, base_of};
ghost use Rattle.tpm_names.specs.Meanings.{meaning_as};

use tpm_names::meaning::{Meaning, Row, look_up};
use tpm_names::meanings;

/// Which codes a layer answers.
#[derive(Clone, Copy)]
pub(crate) enum Codes {
    /// Base codes.
    Base,
    /// Base codes, and under all other numbers those of a TPM.
    BaseOrTpm,
    /// Those of a TPM.
    Tpm,
}

// The layers, by their names in tss2_common.h (TCG TSS 2.0 Overview and Common Structures, response codes).
const LAYERS: [Row; 7] = meanings![
    6 "FEATURE" "the feature interface",
    7 "ESAPI" "the enhanced system interface",
    8 "SYS" "the system interface",
    9 "MU" "the spelling and reading of structures",
    10 "TCTI" "the transmission to the TPM",
    11 "RESMGR" "the resource manager",
    12 "RESMGR_TPM" "the resource manager, in the place of the TPM",
];

// The base codes, by their names in tss2_common.h.
const BASE_CODES: [Row; 53] = meanings![
    1 "GENERAL_FAILURE" "a failure that has no code of its own",
    2 "NOT_IMPLEMENTED" "the function is not implemented",
    3 "BAD_CONTEXT" "the context is bad",
    4 "ABI_MISMATCH" "the version of the interface is not that of the module that was called",
    5 "BAD_REFERENCE" "a pointer is null where it must not be",
    6 "INSUFFICIENT_BUFFER" "the buffer is too small",
    7 "BAD_SEQUENCE" "the function was called in the wrong order",
    8 "NO_CONNECTION" "the next lower layer cannot be reached",
    9 "TRY_AGAIN" "the operation has not ended, and the function must be called again",
    10 "IO_ERROR" "reading or writing failed",
    11 "BAD_VALUE" "a parameter has a bad value",
    12 "NOT_PERMITTED" "the operation is not permitted",
    13 "INVALID_SESSIONS" "there are sessions that the command does not use, or the wrong number of them",
    14 "NO_DECRYPT_PARAM" "the command has no parameter to decrypt",
    15 "NO_ENCRYPT_PARAM" "the command has no parameter to encrypt",
    16 "BAD_SIZE" "a parameter has the wrong size",
    17 "MALFORMED_RESPONSE" "the response is malformed",
    18 "INSUFFICIENT_CONTEXT" "the context is too small",
    19 "INSUFFICIENT_RESPONSE" "the response is too short",
    20 "INCOMPATIBLE_TCTI" "the transmission interface is of an unknown or unusable version",
    21 "NOT_SUPPORTED" "the function is not supported",
    22 "BAD_TCTI_STRUCTURE" "the context of the transmission interface is bad",
    23 "MEMORY" "there is not enough memory",
    24 "BAD_TR" "the handle of an ESYS_TR is not valid",
    25 "MULTIPLE_DECRYPT_SESSIONS" "more than one session decrypts",
    26 "MULTIPLE_ENCRYPT_SESSIONS" "more than one session encrypts",
    27 "RSP_AUTH_FAILED" "the HMAC of the TPM's response is not right",
    28 "NO_CONFIG" "there is no configuration",
    29 "BAD_PATH" "the path is bad",
    30 "NOT_DELETABLE" "the object cannot be deleted",
    31 "PATH_ALREADY_EXISTS" "the path exists already",
    32 "KEY_NOT_FOUND" "the key was not found",
    33 "SIGNATURE_VERIFICATION_FAILED" "the signature is not right",
    34 "HASH_MISMATCH" "the hash is another",
    35 "KEY_NOT_DUPLICABLE" "the key cannot be duplicated",
    36 "PATH_NOT_FOUND" "the path was not found",
    37 "NO_CERT" "there is no certificate",
    38 "NO_PCR" "there is no register",
    39 "PCR_NOT_RESETTABLE" "the register cannot be reset",
    40 "BAD_TEMPLATE" "the template is bad",
    41 "AUTHORIZATION_FAILED" "the authorization failed",
    42 "AUTHORIZATION_UNKNOWN" "the authorization is not known",
    43 "NV_NOT_READABLE" "the index cannot be read",
    44 "NV_TOO_SMALL" "the index is too small",
    45 "NV_NOT_WRITEABLE" "the index cannot be written",
    46 "POLICY_UNKNOWN" "the policy is not known",
    47 "NV_WRONG_TYPE" "the index has the wrong type",
    48 "NAME_ALREADY_EXISTS" "the name exists already",
    49 "NO_TPM" "there is no TPM",
    50 "BAD_KEY" "the key is bad",
    51 "NO_HANDLE" "there is no handle",
    52 "NOT_PROVISIONED" "the TPM is not provisioned",
    53 "ALREADY_PROVISIONED" "the TPM is provisioned already",
];

/// The software layer of a response code, or none for a TPM's code and for a layer that isn't listed.
pub(crate) fn layer_of(code: u32) -> Option<Meaning>
    ensures { option_map meaning_as result ≡ layer_of code }
{
    look_up(&LAYERS, code >> 16)
}

/// Which codes the layer with this number answers. Under the number of RESMGR the resource manager
/// of Linux answers in the place of the TPM, with a code of a TPM (drivers/char/tpm/tpm.h).
pub(crate) fn codes_of(layer: u32) -> Codes
    ensures { result ≡ codes_of layer }
{
    match layer {
        11 => Codes::BaseOrTpm,
        12 => Codes::Tpm,
        _ => Codes::Base,
    }
}

/// What a base code says, if it is listed.
pub(crate) fn base_meaning(code: u32) -> Option<Meaning>
    ensures { option_map meaning_as result ≡ base_of code }
{
    look_up(&BASE_CODES, code)
}
