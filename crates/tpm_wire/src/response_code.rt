//! Response codes, TPM_RC (Part 2, 6.6), under their names in the standard, and the numbers that are added to them.

ghost use Rattle.std.specs.Prelude.{◌≡◌, ◌≤◌, ◌+◌};
ghost use Rattle.tpm_wire.specs.ResponseCodes as rc;

/// TPM_RC_BAD_TAG: the tag is neither TPM_ST_NO_SESSIONS nor TPM_ST_SESSIONS.
pub const BAD_TAG: u32 = 0x01E;

/// TPM_RC_INITIALIZE: TPM2_Startup has not come yet, or comes again.
pub const INITIALIZE: u32 = 0x100;

/// TPM_RC_AUTH_MISSING: the first handle needs authorization and there is no session.
pub const AUTH_MISSING: u32 = 0x125;

/// TPM_RC_PCR_CHANGED: registers changed after a policy took in their values.
pub const PCR_CHANGED: u32 = 0x128;

/// TPM_RC_AUTH_UNAVAILABLE: the entity isn't authorized in this way.
pub const AUTH_UNAVAILABLE: u32 = 0x12F;

/// TPM_RC_COMMAND_SIZE: commandSize is not the number of bytes, or is outside 10 to 4,096.
pub const COMMAND_SIZE: u32 = 0x142;

/// TPM_RC_COMMAND_CODE: the command is none of this profile.
pub const COMMAND_CODE: u32 = 0x143;

/// TPM_RC_AUTHSIZE: the authorization area is of a wrong size, or has more than three sessions.
pub const AUTHSIZE: u32 = 0x144;

/// TPM_RC_AUTH_CONTEXT: there are sessions and no handle needs authorization.
pub const AUTH_CONTEXT: u32 = 0x145;

/// TPM_RC_NV_RANGE: bytes outside the index's data, or a counter past its greatest value.
pub const NV_RANGE: u32 = 0x146;

/// TPM_RC_NV_AUTHORIZATION: this authorization doesn't serve for this access to the index.
pub const NV_AUTHORIZATION: u32 = 0x149;

/// TPM_RC_NV_UNINITIALIZED: the index has no value yet.
pub const NV_UNINITIALIZED: u32 = 0x14A;

/// TPM_RC_NV_SPACE: there is no room for another index.
pub const NV_SPACE: u32 = 0x14B;

/// TPM_RC_NV_DEFINED: the index is defined already.
pub const NV_DEFINED: u32 = 0x14C;

/// TPM_RC_SESSION_MEMORY: there is no room for another session.
pub const SESSION_MEMORY: u32 = 0x903;

/// TPM_RC_LOCALITY: the register can't be changed from here.
pub const LOCALITY: u32 = 0x907;

/// TPM_RC_REFERENCE_H0: the first handle refers to no session that is loaded; one more for the second.
pub const REFERENCE_H0: u32 = 0x910;

/// TPM_RC_REFERENCE_S0: the first session is no password and is not loaded.
pub const REFERENCE_S0: u32 = 0x918;

/// TPM_RC_ATTRIBUTES: attributes that are not for this use. A number is added where they are part of a handle, session
/// or parameter.
pub const ATTRIBUTES: u32 = 0x082;

/// TPM_RC_HASH: the hash is none of this profile. A number is added where it is part of a session or parameter.
pub const HASH: u32 = 0x083;

/// TPM_RC_VALUE: a value outside its set. A number is added where it is part of a handle, session or parameter.
pub const VALUE: u32 = 0x084;

/// TPM_RC_MODE: the mode of a symmetric algorithm isn't CFB. A number is added.
pub const MODE: u32 = 0x089;

/// TPM_RC_HANDLE: a handle refers to nothing that is there. A number is added.
pub const HANDLE: u32 = 0x08B;

/// TPM_RC_AUTH_FAIL: a wrong authorization of what is not without a lockout (NO_DA), which a TPM counts. The session's
/// number is added.
pub const AUTH_FAIL: u32 = 0x08E;

/// TPM_RC_NONCE: a password has a nonce. The session's number is added.
pub const NONCE: u32 = 0x08F;

/// TPM_RC_SIZE: bytes left over in an area, or a size or count outside its bounds. A number is added where the token is
/// part of a handle, session or parameter.
pub const SIZE: u32 = 0x095;

/// TPM_RC_SYMMETRIC: the symmetric algorithm is none of NULL, AES and XOR. A number is added.
pub const SYMMETRIC: u32 = 0x096;

/// TPM_RC_INSUFFICIENT: too few bytes. A number is added where the token is part of a handle, session or parameter.
pub const INSUFFICIENT: u32 = 0x09A;

/// TPM_RC_POLICY_FAIL: the policy isn't met. The session's number is added.
pub const POLICY_FAIL: u32 = 0x09D;

/// TPM_RC_INTEGRITY: a digest is not that of the bytes before it.
pub const INTEGRITY: u32 = 0x09F;

/// TPM_RC_RESERVED_BITS: a reserved bit is set. A number is added.
pub const RESERVED_BITS: u32 = 0x0A1;

/// TPM_RC_BAD_AUTH: a wrong authorization. The session's number is added.
pub const BAD_AUTH: u32 = 0x0A2;

/// TPM_RC_POLICY_CC: the policy is for another command. The session's number is added.
pub const POLICY_CC: u32 = 0x0A4;

/// What is added to the codes of handle `n`, counted from 1: TPM_RC_H and the handle's number (Part 2, 6.6.2).
#[inline]
pub fn of_handle(n: u32) -> u32
    requires { n ≤ 7 }
    ensures value { result ≡ rc.of_handle n }
    ensures fits { result ≤ rc.greatest_number }
{
    0x100 * n
}

/// What is added to the codes of parameter `n`, counted from 1: TPM_RC_P and the parameter's number (Part 2, 6.6.2).
#[inline]
pub fn of_parameter(n: u32) -> u32
    requires { n ≤ 15 }
    ensures value { result ≡ rc.of_parameter n }
    ensures fits { result ≤ rc.greatest_number }
{
    0x040 + 0x100 * n
}

/// What is added to the codes of session `n`, counted from 1: TPM_RC_S and the session's number (Part 2, 6.6.2).
#[inline]
pub fn of_session(n: u32) -> u32
    requires { n ≤ 7 }
    ensures value { result ≡ rc.of_session n }
    ensures fits { result ≤ rc.greatest_number }
{
    0x800 + 0x100 * n
}
