//! What keeps a subcommand from its answer.

ghost use Rattle.std.specs.Prelude.{◌≡◌};
ghost use Rattle.tpm_output.specs.declared.fault.ToolFault.TheVariants.{Memory, Read, Write};

use crate::written::WriteFailed;
use std::alloc::AllocError;
use thiserror::Error;
use tpm_wire::ReadFailed;

/// What keeps a subcommand from its answer. The program prints it on standard error and ends with
/// status 3.
#[derive(Debug, PartialEq, Eq, Drop, Error)]
pub enum ToolFault {
    /// A request for memory was refused.
    #[error("out of memory")]
    Memory,
    /// A read failed.
    #[error("reading failed")]
    Read,
    /// A write failed.
    #[error("writing failed")]
    Write(WriteFailed),
    /// A script or a list of registers has more than 16,777,216 bytes, or a capture more than 2^62.
    #[error("input too long")]
    InputTooLong,
}

impl From<AllocError> for ToolFault {
    ghost from_gives = { λ _ fault. fault ≡ Memory };

    fn from(_error: AllocError) -> ToolFault {
        ToolFault::Memory
    }
}

impl From<ReadFailed> for ToolFault {
    ghost from_gives = { λ _ fault. fault ≡ Read };

    fn from(_: ReadFailed) -> ToolFault {
        ToolFault::Read
    }
}

impl From<WriteFailed> for ToolFault {
    ghost from_gives = { λ failed fault. fault ≡ Write failed };

    fn from(failed: WriteFailed) -> ToolFault {
        ToolFault::Write(failed)
    }
}
