//! How a capture is told.

use tpm_output::form::Form;

/// How a capture is told.
#[derive(Debug, Clone, Copy, PartialEq, Eq)]
pub struct Telling {
    /// Whether each parameter is told by its name and its type, too.
    pub fields: bool,
    /// Whether each frame is lines, or an object.
    pub form: Form,
}
