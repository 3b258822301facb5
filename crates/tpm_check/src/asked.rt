//! What a log is held against.

use tpm_lists::AllowFile;
use tpm_options::CheckOptions;

/// What is asked of a log, and what was read of the files beside it.
#[derive(Clone, Copy)]
pub struct Asked<'a, 'o> {
    /// What is asked, and what is expected of the quotes.
    pub options: &'a CheckOptions<'o>,
    /// A quote as it was signed: a TPMS_ATTEST (Part 2, 10.12.12).
    pub attest: Option<&'a [u8]>,
    /// A list of allowed digests. It says nothing without that quote.
    pub allow: Option<&'a AllowFile>,
}

/// A quote as it was signed, and what is expected of it.
#[derive(Clone, Copy)]
pub(crate) struct AskedQuote<'a, 'o> {
    pub(crate) options: &'a CheckOptions<'o>,
    pub(crate) attest: &'a [u8],
}
