//! Why the words ask for nothing to be done.

ghost use Rattle.std.specs.Prelude.{◌≡◌, IfOk};
ghost use Rattle.clap.specs.Words.{kind_of};
ghost use Rattle.tpm_args.specs.declared.stop.Stop.TheVariants.{Memory};

use clap::Error;
use clap::error::ErrorKind;
use std::alloc::{AllocError, Global};

/// Why the words ask for nothing to be done.
#[derive(Debug, PartialEq, Eq, Drop)]
pub enum Stop {
    /// Help was asked for. The text belongs on standard output, and the status is 0.
    Help(String),
    /// The words are at fault. The text belongs on standard error, and the status is 2.
    Usage(String),
    /// A request for memory was refused.
    Memory,
}

impl Stop {
    ghost use Rattle.tpm_args.specs.Stop.{StopsFor};

    /// What the parse of the words answered in place of matches. Words stand in a usage fault as they came, so that it
    /// may have control characters, which a terminal obeys. An error is want of memory.
    pub(crate) fn of(alloc: Global, error: &Error) -> Result<Stop, AllocError>
        ensures { IfOk result (StopsFor (kind_of error.now)) }
    {
        if error.kind() == ErrorKind::OutOfMemory {
            return Err(AllocError);
        }
        let text = error.to_string(alloc)?;
        if error.use_stderr() {
            return Ok(Stop::Usage(without_controls(alloc, text.as_str())?));
        }
        Ok(Stop::Help(text))
    }
}

// A text with an escape for each control character but the line feed.
fn without_controls(alloc: Global, text: &str) -> Result<String, AllocError> {
    let mut shown = String::new(alloc);
    for character in text.chars() {
        if character.is_control() && character != '\n' {
            let escape = character.escape_default();
            write!(shown, "{escape}")?;
        } else {
            shown.push(character)?;
        }
    }
    Ok(shown)
}

impl From<AllocError> for Stop {
    ghost from_gives = { λ _ stop. stop ≡ Memory };

    fn from(_error: AllocError) -> Stop {
        Stop::Memory
    }
}
