//! How the program ends.

use tpm_output::written::WriteFailed;

/// How the program ends.
#[derive(Debug, Drop)]
pub struct Ended {
    /// The status: 0 where all was done, 1 where something was refused or differs, 2 for words at fault, and 3 for
    /// what kept the program from its answer.
    pub status: u8,
    /// Whether standard error has taken what was to be told there, or a write there failed. Where nothing was to be
    /// told, it is `Ok`.
    pub written: Result<(), WriteFailed>,
}
