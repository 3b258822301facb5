//! What words ask for, as tpm_args reads them and the subcommands take them. The path `-` is standard input.
#![tactic(auto)]

use tpm_names::selection::RegisterList;
use tpm_output::form::Form;
use tpm_types::{Alg, Selections};

/// A capture whose frames are printed.
#[derive(Drop)]
pub struct CaptureTask<'a> {
    /// Its path, or none where it is on standard input.
    pub file: Option<&'a str>,
    /// Whether it is a stream of frames in place of lines.
    pub binary: bool,
    /// Whether each parameter is printed by its name and its type, too.
    pub fields: bool,
    /// How the frames are told.
    pub form: Form,
}

/// Packets of which each frame is printed that went over a simulator's port.
#[derive(Drop)]
pub struct PacketsTask<'a> {
    /// The path of a file of libpcap or of pcapng.
    pub file: &'a str,
    /// The port.
    pub port: u16,
    /// Whether each parameter is printed by its name and its type, too.
    pub fields: bool,
    /// How the frames are told.
    pub form: Form,
}

/// A log, by itself.
#[derive(Drop)]
pub struct LogTask<'a> {
    /// Its path.
    pub log: &'a str,
    /// How what is said of it is told.
    pub form: Form,
}

/// A log that is checked.
#[derive(Drop)]
pub struct CheckTask<'a> {
    /// The files.
    pub files: CheckFiles<'a>,
    /// What is asked of them.
    pub options: CheckOptions<'a>,
}

/// A log whose records are printed.
#[derive(Drop)]
pub struct EventsTask<'a> {
    /// Its path.
    pub log: &'a str,
    /// The path of a quote as it was signed, behind which they come, each with what that vouches for.
    pub attest: Option<&'a str>,
    /// What is listed.
    pub listing: Listing<'a>,
    /// What is expected of the quote.
    pub options: CheckOptions<'a>,
}

/// What is listed of a log.
#[derive(Debug, Clone, Copy, PartialEq, Eq)]
pub struct Listing<'a> {
    /// The registers whose records alone are listed, or none for those of all.
    pub registers: Option<RegisterList<'a>>,
    /// Whether each record has its place.
    pub places: bool,
    /// Whether each record has its digests.
    pub digests: bool,
    /// Whether each record has its data.
    pub event_data: bool,
    /// Whether each record is a line of fields, or an object with all that it holds.
    pub form: Form,
}

/// The paths of the files of a check.
#[derive(Drop)]
pub struct CheckFiles<'a> {
    /// The log.
    pub log: &'a str,
    /// A list of registers.
    pub registers: Option<&'a str>,
    /// A quote as it was signed: a TPMS_ATTEST (Part 2, 10.12.12).
    pub attest: Option<&'a str>,
    /// A list of allowed digests.
    pub allow: Option<&'a str>,
}

/// What a log is checked for, and what is expected of the quotes beside it.
#[derive(Drop)]
pub struct CheckOptions<'a> {
    /// The nonce that was sent for the quote as it was signed.
    pub nonce: Option<Vec<u8>>,
    /// Whether any nonce is what was asked for. No nonce is given then.
    pub any_nonce: bool,
    /// The registers that this quote has to select at least.
    pub required: Option<Selections>,
    /// Whether any register that it selects is what was asked for, as where a list of allowed digests says which it has
    /// to select.
    pub any_selection: bool,
    /// The qualified name of the key that has to have signed it.
    pub signer: Option<Vec<u8>>,
    /// The information of another quote (TPMS_QUOTE_INFO; Part 2, 10.12.4), in hexadecimal digits.
    pub quote: Option<&'a str>,
    /// The hash of the digests in both. Where there is none it is the one whose digests are as long.
    pub hash: Option<Alg>,
    /// Whether it is asked if Secure Boot was on, in place of registers.
    pub secure_boot: bool,
    /// Whether `off` and `unset` are what was asked for, too.
    pub any_state: bool,
    /// Whether it is asked by which digests the log extends registers, in place of registers.
    pub extends: bool,
    /// How what is printed is told.
    pub form: Form,
}
