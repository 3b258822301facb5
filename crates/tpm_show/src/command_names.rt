//! The commands of the library by their names.

ghost use Rattle.std.specs.Prelude.{◌≡◌, map, option_map};
ghost use Rattle.tpm_show.specs.CommandNames.{command_of, listed_in};
ghost use Rattle.tpm_show.specs.inner.CommandNames.{listed_as};

/// A command of the library.
#[derive(Clone, Copy)]
pub(crate) struct Listed {
    pub(crate) number: u32,
    // without TPM2_
    pub(crate) name: &'static str,
    // how many handles it has
    pub(crate) handles: u8,
    // how many handles its response has
    pub(crate) reply_handles: u8,
}

/// A table of them, a row in a line.
macro_rules! commands {
    ($($number:literal $name:literal $handles:literal $reply_handles:literal,)*) => {
        [$(Listed {
            number: $number,
            name: $name,
            handles: $handles,
            reply_handles: $reply_handles,
        }),*]
    };
}

// All commands (Part 2, 6.5.2, TPM_CC), each with how many handles it and its response have (Part 3).
const COMMANDS: [Listed; 120] = commands![
    0x11f "NV_UndefineSpaceSpecial" 2 0,
    0x120 "EvictControl" 2 0,
    0x121 "HierarchyControl" 1 0,
    0x122 "NV_UndefineSpace" 2 0,
    0x124 "ChangeEPS" 1 0,
    0x125 "ChangePPS" 1 0,
    0x126 "Clear" 1 0,
    0x127 "ClearControl" 1 0,
    0x128 "ClockSet" 1 0,
    0x129 "HierarchyChangeAuth" 1 0,
    0x12a "NV_DefineSpace" 1 0,
    0x12b "PCR_Allocate" 1 0,
    0x12c "PCR_SetAuthPolicy" 1 0,
    0x12d "PP_Commands" 1 0,
    0x12e "SetPrimaryPolicy" 1 0,
    0x12f "FieldUpgradeStart" 2 0,
    0x130 "ClockRateAdjust" 1 0,
    0x131 "CreatePrimary" 1 1,
    0x132 "NV_GlobalWriteLock" 1 0,
    0x133 "GetCommandAuditDigest" 2 0,
    0x134 "NV_Increment" 2 0,
    0x135 "NV_SetBits" 2 0,
    0x136 "NV_Extend" 2 0,
    0x137 "NV_Write" 2 0,
    0x138 "NV_WriteLock" 2 0,
    0x139 "DictionaryAttackLockReset" 1 0,
    0x13a "DictionaryAttackParameters" 1 0,
    0x13b "NV_ChangeAuth" 1 0,
    0x13c "PCR_Event" 1 0,
    0x13d "PCR_Reset" 1 0,
    0x13e "SequenceComplete" 1 0,
    0x13f "SetAlgorithmSet" 1 0,
    0x140 "SetCommandCodeAuditStatus" 1 0,
    0x141 "FieldUpgradeData" 0 0,
    0x142 "IncrementalSelfTest" 0 0,
    0x143 "SelfTest" 0 0,
    0x144 "Startup" 0 0,
    0x145 "Shutdown" 0 0,
    0x146 "StirRandom" 0 0,
    0x147 "ActivateCredential" 2 0,
    0x148 "Certify" 2 0,
    0x149 "PolicyNV" 3 0,
    0x14a "CertifyCreation" 2 0,
    0x14b "Duplicate" 2 0,
    0x14c "GetTime" 2 0,
    0x14d "GetSessionAuditDigest" 3 0,
    0x14e "NV_Read" 2 0,
    0x14f "NV_ReadLock" 2 0,
    0x150 "ObjectChangeAuth" 2 0,
    0x151 "PolicySecret" 2 0,
    0x152 "Rewrap" 2 0,
    0x153 "Create" 1 0,
    0x154 "ECDH_ZGen" 1 0,
    0x155 "HMAC" 1 0,
    0x156 "Import" 1 0,
    0x157 "Load" 1 1,
    0x158 "Quote" 1 0,
    0x159 "RSA_Decrypt" 1 0,
    0x15b "HMAC_Start" 1 1,
    0x15c "SequenceUpdate" 1 0,
    0x15d "Sign" 1 0,
    0x15e "Unseal" 1 0,
    0x160 "PolicySigned" 2 0,
    0x161 "ContextLoad" 0 1,
    0x162 "ContextSave" 1 0,
    0x163 "ECDH_KeyGen" 1 0,
    0x164 "EncryptDecrypt" 1 0,
    0x165 "FlushContext" 0 0,
    0x167 "LoadExternal" 0 1,
    0x168 "MakeCredential" 1 0,
    0x169 "NV_ReadPublic" 1 0,
    0x16a "PolicyAuthorize" 1 0,
    0x16b "PolicyAuthValue" 1 0,
    0x16c "PolicyCommandCode" 1 0,
    0x16d "PolicyCounterTimer" 1 0,
    0x16e "PolicyCpHash" 1 0,
    0x16f "PolicyLocality" 1 0,
    0x170 "PolicyNameHash" 1 0,
    0x171 "PolicyOR" 1 0,
    0x172 "PolicyTicket" 1 0,
    0x173 "ReadPublic" 1 0,
    0x174 "RSA_Encrypt" 1 0,
    0x176 "StartAuthSession" 2 1,
    0x177 "VerifySignature" 1 0,
    0x178 "ECC_Parameters" 0 0,
    0x179 "FirmwareRead" 0 0,
    0x17a "GetCapability" 0 0,
    0x17b "GetRandom" 0 0,
    0x17c "GetTestResult" 0 0,
    0x17d "Hash" 0 0,
    0x17e "PCR_Read" 0 0,
    0x17f "PolicyPCR" 1 0,
    0x180 "PolicyRestart" 1 0,
    0x181 "ReadClock" 0 0,
    0x182 "PCR_Extend" 1 0,
    0x183 "PCR_SetAuthValue" 1 0,
    0x184 "NV_Certify" 3 0,
    0x185 "EventSequenceComplete" 2 0,
    0x186 "HashSequenceStart" 0 1,
    0x187 "PolicyPhysicalPresence" 1 0,
    0x188 "PolicyDuplicationSelect" 1 0,
    0x189 "PolicyGetDigest" 1 0,
    0x18a "TestParms" 0 0,
    0x18b "Commit" 1 0,
    0x18c "PolicyPassword" 1 0,
    0x18d "ZGen_2Phase" 1 0,
    0x18e "EC_Ephemeral" 0 0,
    0x18f "PolicyNvWritten" 1 0,
    0x190 "PolicyTemplate" 1 0,
    0x191 "CreateLoaded" 1 1,
    0x192 "PolicyAuthorizeNV" 3 0,
    0x193 "EncryptDecrypt2" 1 0,
    0x194 "AC_GetCapability" 1 0,
    0x195 "AC_Send" 3 0,
    0x196 "Policy_AC_SendSelect" 1 0,
    0x197 "CertifyX509" 2 0,
    0x198 "ACT_SetTimeout" 1 0,
    0x199 "ECC_Encrypt" 1 0,
    0x19a "ECC_Decrypt" 1 0,
    0x20000000 "Vendor_TCG_Test" 0 0,
];

fn look_up(table: &'static [Listed], number: u32) -> Option<&'static Listed>
    ensures { option_map
        (λ c. listed_as c.now) result ≡ listed_in (map listed_as table.now) number }
{
    table.iter().find(|command| command.number == number)
}

/// The command of the library with this code.
pub(crate) fn command_of(code: u32) -> Option<&'static Listed>
    ensures { option_map (λ c. listed_as c.now) result ≡ command_of code }
{
    look_up(&COMMANDS, code)
}
