//! What keeps the program from its answer.

ghost use Rattle.std.specs.Prelude.{◌≡◌};
ghost use Rattle.tpm_program.specs.declared.fault.Fault.TheVariants.{Tool};
ghost use Rattle.tpm_program.specs.FaultText.{cause_text, tool_text};

use crate::cause::Cause;
use crate::shown_path::ShownPath;
use std::fmt::{self, Display, Formatter, Write};
use tpm_output::fault::ToolFault;

/// What keeps the program from its answer, as it is printed on standard error, with the control characters of a path
/// escaped.
#[derive(Debug, Drop)]
pub enum Fault<'a> {
    /// The file at this path can't be read.
    File {
        /// The path.
        path: &'a str,
        /// Why.
        cause: Cause,
    },
    /// A subcommand has no answer.
    Tool(ToolFault),
}

impl From<ToolFault> for Fault<'_> {
    ghost from_gives = { λ tool fault. fault ≡ Tool tool };

    fn from(fault: ToolFault) -> Self {
        Fault::Tool(fault)
    }
}

fn cause_text(cause: Cause) -> &'static str
    ensures { result.now ≡ cause_text cause }
{
    match cause {
        Cause::Missing => "it is not there",
        Cause::Denied => "permission is denied",
        Cause::Directory => "it is a directory",
        Cause::Other => "reading failed",
    }
}

fn tool_text(fault: &ToolFault) -> &'static str
    ensures { result.now ≡ tool_text fault.now }
{
    match fault {
        ToolFault::Memory => "out of memory",
        ToolFault::Read => "reading failed",
        ToolFault::Write(_) => "writing failed",
        ToolFault::InputTooLong => "input too long",
    }
}

impl Display for Fault<'_> {
    ghost use Rattle.std.specs.Prelude.{Some};
    ghost use Rattle.tpm_program.specs.FaultText.{fault_text};

    ghost output = { λ fault. Some (fault_text fault) };

    fn fmt<W: Write>(&self, f: &mut Formatter<W>) -> Result<(), fmt::Error> {
        match self {
            Fault::File { path, cause } => {
                let path = ShownPath { path };
                let cause = cause_text(*cause);
                write!(f, "cannot read {path}: {cause}")
            }
            Fault::Tool(fault) => f.write_str(tool_text(fault)),
        }
    }
}
