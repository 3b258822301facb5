//! Registers that a log gave, and how they are told.

use tpm_output::form::Form;
use tpm_pcr::Registers;

/// Registers that a log gave, and how what is said of them is told.
#[derive(Drop)]
pub(crate) struct Beside<'a> {
    pub registers: &'a Registers,
    pub form: Form,
}
