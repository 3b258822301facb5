//! Why a file is not read.

ghost use Rattle.std.specs.Prelude.{◌≡◌};
ghost use Rattle.tpm_program.specs.FaultText.{cause_of};

use std::io::ErrorKind;

/// Why a file is not read.
#[derive(Clone, Copy, Debug, PartialEq, Eq)]
pub enum Cause {
    /// There is none.
    Missing,
    /// It may not be read.
    Denied,
    /// It is a directory.
    Directory,
    /// Reading failed.
    Other,
}

impl Cause {
    /// The cause of an error of this kind.
    pub fn of(kind: ErrorKind) -> Self
        ensures { result ≡ cause_of kind }
    {
        match kind {
            ErrorKind::NotFound => Cause::Missing,
            ErrorKind::PermissionDenied => Cause::Denied,
            ErrorKind::IsADirectory => Cause::Directory,
            _ => Cause::Other,
        }
    }
}
