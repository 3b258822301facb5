//! How a subcommand ends that gives its answer.

ghost use Rattle.std.specs.Prelude.{◌≡◌};
ghost use Rattle.tpm_output.specs.Status.{both, status_number};

/// How a subcommand ends that gives its answer.
#[derive(Clone, Copy, Debug, PartialEq, Eq)]
pub enum Status {
    /// All was done.
    Done,
    /// Something was refused, or doesn't match.
    Refused,
}

impl Status {
    /// The status with which the program ends: 0 or 1.
    pub fn number(self) -> u8
        ensures { result ≡ status_number self }
    {
        match self {
            Status::Done => 0,
            Status::Refused => 1,
        }
    }

    /// Done where both are.
    pub fn both(self, other: Status) -> Status
        ensures { result ≡ both self other }
    {
        match self {
            Status::Done => other,
            Status::Refused => Status::Refused,
        }
    }
}
