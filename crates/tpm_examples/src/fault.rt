//! What ends the program early.

use std::io;
use tpm_caller::CallerFault;
use tpm_commands::ErrorCode;
use tpm_wire::Refusal;

/// Why a step was not done.
#[derive(Debug, Drop)]
pub(crate) enum Fault {
    /// The TPM refused it.
    Code(ErrorCode),
    /// What came is no response to it.
    Bytes(Refusal),
    /// What came is not the TPM's reply to it, in its session.
    Reply(CallerFault),
    /// It is answered in another way than it should be.
    Answer,
    /// A line could not be written.
    Output(io::Error),
}

impl From<io::Error> for Fault {
    fn from(error: io::Error) -> Fault {
        Fault::Output(error)
    }
}
