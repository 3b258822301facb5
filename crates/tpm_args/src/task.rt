//! What the words ask for.

use crate::stop::Stop;
use tpm_options::{CaptureTask, CheckTask, EventsTask, LogTask, PacketsTask};
use tpm_types::{AuthValue, CommandCode};

/// What the words of a subcommand ask for.
pub(crate) type Asked<'a> = Result<Task<'a>, Stop>;

/// What the words ask for. The path `-` is standard input.
#[derive(Drop)]
pub enum Task<'a> {
    /// `show [--reply NAME] [--fields] HEX`: print the command that the hexadecimal digits spell, or the response.
    Show {
        /// The command that a response answers, or none for a command.
        reply: Option<CommandCode>,
        /// Whether each parameter is printed by its name and its type, too.
        fields: bool,
        /// The digits.
        hex: &'a str,
    },
    /// `show [--binary] [--fields] [--json] -` and `show [--binary] [--fields] [--json] --file
    /// FILE`: print each frame of a capture.
    ShowCapture(CaptureTask<'a>),
    /// `show [--fields] [--json] --pcap FILE [--port N]`: print each frame that went over a simulator's port.
    ShowPackets(PacketsTask<'a>),
    /// `show --nv FILE`: print the NV memory of a device that is kept.
    ShowNv {
        /// The path of its bytes.
        file: &'a str,
    },
    /// `build NAME HANDLES SESSIONS PARAMETERS`: print the buffer of the parts.
    Build {
        /// The command.
        name: CommandCode,
        /// The handles, in hexadecimal digits, or `-` for none.
        handles: &'a str,
        /// The sessions as they are spelled in the authorization area, likewise.
        sessions: &'a str,
        /// The parameters, likewise.
        parameters: &'a str,
    },
    /// `run [--owner HEX] [--greatest N]`: run the script on standard input.
    Run {
        /// The owner's authorization value.
        owner: AuthValue,
        /// The greatest value that a counter of the device has had.
        greatest: u64,
    },
    /// `explain [--decimal] CODE`: print what a response code says, which is in hexadecimal, with `0x` before it or
    /// not, or in decimal.
    Explain {
        /// The code.
        code: u32,
    },
    /// `explain NAME`: print what a response code of this name says, or the kind of a log's fault. It begins with a
    /// letter, and is no number.
    ExplainName {
        /// The name.
        name: &'a str,
    },
    /// `check LOG ..`: print the registers that a log gives, or compare them; or, with `--secure-boot`, print whether
    /// Secure Boot was on in the boot that the log tells of; or, with `--extends`, by which digests it extends
    /// registers.
    Check(CheckTask<'a>),
    /// `check LOG --listed [--json]`: print the registers that a log gives in the banks that its header lists.
    CheckListed(LogTask<'a>),
    /// `events LOG --header [--json]`: print what the header of a log says.
    EventsHeader(LogTask<'a>),
    /// `events LOG [--register LIST] [--places] [--digests] [--data] [--json]`: print the records of a log; or, with
    /// `--attest`, what a quote says as it was signed, and then the records, with what that vouches for.
    Events(EventsTask<'a>),
}
