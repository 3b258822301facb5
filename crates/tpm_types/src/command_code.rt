//! The commands' numbers, TPM_CC (Part 2, 6.5.2), and names.

ghost use Rattle.std.specs.Prelude.{◌≡◌};
ghost use Rattle.tpm_types.specs.CommandCodes.{code_of, code_number, code_name};

/// A command of the profile, by its name in Part 3.
#[derive(Clone, Copy, Debug, PartialEq, Eq)]
pub enum CommandCode {
    NvUndefineSpace,
    NvDefineSpace,
    NvIncrement,
    PcrEvent,
    PcrReset,
    Startup,
    NvRead,
    FlushContext,
    NvReadPublic,
    PolicyAuthValue,
    PolicyCommandCode,
    PolicyOr,
    StartAuthSession,
    PcrRead,
    PolicyPcr,
    PolicyRestart,
    PcrExtend,
    PolicyGetDigest,
}

impl CommandCode {
    /// The commands of the profile, in the order of their numbers.
    pub const ALL: [CommandCode; 18] = [
        CommandCode::NvUndefineSpace,
        CommandCode::NvDefineSpace,
        CommandCode::NvIncrement,
        CommandCode::PcrEvent,
        CommandCode::PcrReset,
        CommandCode::Startup,
        CommandCode::NvRead,
        CommandCode::FlushContext,
        CommandCode::NvReadPublic,
        CommandCode::PolicyAuthValue,
        CommandCode::PolicyCommandCode,
        CommandCode::PolicyOr,
        CommandCode::StartAuthSession,
        CommandCode::PcrRead,
        CommandCode::PolicyPcr,
        CommandCode::PolicyRestart,
        CommandCode::PcrExtend,
        CommandCode::PolicyGetDigest,
    ];

    /// The command with this number, if the profile has it.
    pub fn from_number(number: u32) -> Option<Self>
        ensures { result ≡ code_of number }
    {
        match number {
            0x122 => Some(CommandCode::NvUndefineSpace),
            0x12A => Some(CommandCode::NvDefineSpace),
            0x134 => Some(CommandCode::NvIncrement),
            0x13C => Some(CommandCode::PcrEvent),
            0x13D => Some(CommandCode::PcrReset),
            0x144 => Some(CommandCode::Startup),
            0x14E => Some(CommandCode::NvRead),
            0x165 => Some(CommandCode::FlushContext),
            0x169 => Some(CommandCode::NvReadPublic),
            0x16B => Some(CommandCode::PolicyAuthValue),
            0x16C => Some(CommandCode::PolicyCommandCode),
            0x171 => Some(CommandCode::PolicyOr),
            0x176 => Some(CommandCode::StartAuthSession),
            0x17E => Some(CommandCode::PcrRead),
            0x17F => Some(CommandCode::PolicyPcr),
            0x180 => Some(CommandCode::PolicyRestart),
            0x182 => Some(CommandCode::PcrExtend),
            0x189 => Some(CommandCode::PolicyGetDigest),
            _ => None,
        }
    }

    /// Its number, TPM_CC.
    pub fn number(self) -> u32
        ensures { result ≡ code_number self }
    {
        match self {
            CommandCode::NvUndefineSpace => 0x122,
            CommandCode::NvDefineSpace => 0x12A,
            CommandCode::NvIncrement => 0x134,
            CommandCode::PcrEvent => 0x13C,
            CommandCode::PcrReset => 0x13D,
            CommandCode::Startup => 0x144,
            CommandCode::NvRead => 0x14E,
            CommandCode::FlushContext => 0x165,
            CommandCode::NvReadPublic => 0x169,
            CommandCode::PolicyAuthValue => 0x16B,
            CommandCode::PolicyCommandCode => 0x16C,
            CommandCode::PolicyOr => 0x171,
            CommandCode::StartAuthSession => 0x176,
            CommandCode::PcrRead => 0x17E,
            CommandCode::PolicyPcr => 0x17F,
            CommandCode::PolicyRestart => 0x180,
            CommandCode::PcrExtend => 0x182,
            CommandCode::PolicyGetDigest => 0x189,
        }
    }

    /// Its name in Part 3, without the leading `TPM2_`.
    pub fn name(self) -> &'static str
        ensures { result.now ≡ code_name self }
    {
        match self {
            CommandCode::NvUndefineSpace => "NV_UndefineSpace",
            CommandCode::NvDefineSpace => "NV_DefineSpace",
            CommandCode::NvIncrement => "NV_Increment",
            CommandCode::PcrEvent => "PCR_Event",
            CommandCode::PcrReset => "PCR_Reset",
            CommandCode::Startup => "Startup",
            CommandCode::NvRead => "NV_Read",
            CommandCode::FlushContext => "FlushContext",
            CommandCode::NvReadPublic => "NV_ReadPublic",
            CommandCode::PolicyAuthValue => "PolicyAuthValue",
            CommandCode::PolicyCommandCode => "PolicyCommandCode",
            CommandCode::PolicyOr => "PolicyOR",
            CommandCode::StartAuthSession => "StartAuthSession",
            CommandCode::PcrRead => "PCR_Read",
            CommandCode::PolicyPcr => "PolicyPCR",
            CommandCode::PolicyRestart => "PolicyRestart",
            CommandCode::PcrExtend => "PCR_Extend",
            CommandCode::PolicyGetDigest => "PolicyGetDigest",
        }
    }
}
