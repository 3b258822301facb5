//! The names of what the calls on logs answer.

ghost use Rattle.std.specs.Prelude.{length};
ghost use Rattle.tpm_output.specs.Named.{named_in};
ghost use Rattle.tpm_c.specs.AnswerNames.{answer_names};
ghost use Rattle.tpm_c.specs.Written.{in_room, IsIn};

use crate::handed::put_in_room;
use tpm_output::named::{Row, look_up};
use tpm_output::names;

// The faults of a log, what is said of a quote, the states of Secure Boot, and why none is told.
const NAMES: [Row; 33] = names![
    1 "Truncated",
    2 "TooLong",
    3 "NotCryptoAgile",
    4 "BadHeader",
    5 "DuplicateAlgorithm",
    6 "WrongDigestSize",
    7 "UnknownAlgorithm",
    8 "RepeatedDigest",
    9 "BadRegister",
    10 "BadLocality",
    11 "LateLocality",
    16 "digest differs",
    17 "quote refused",
    18 "no bank",
    19 "nonce differs",
    20 "selection lacks",
    21 "selects nothing",
    22 "requirement refused",
    48 "on",
    49 "off",
    50 "unset",
    64 "NotMeasured",
    65 "OtherType",
    66 "NoVariable",
    67 "Twice",
    68 "OtherValue",
    69 "Debugger",
    70 "BadSeparator",
    71 "NoSeparator",
    72 "Late",
    73 "NoKey",
    74 "NoAuthority",
    75 "NoSecureBoot",
];

/// Writes the name of what a call on a log or a quote answered, a log's fault, what is wrong with the quote, a state of
/// Secure Boot or why none is told, as `Truncated`, `nonce differs`, `on` or `NotMeasured`, to the beginning of `out`,
/// and says how many bytes it has. It answers 0, and nothing is written, for any other answer and where there is less
/// room.
#[unsafe(no_mangle)]
pub extern "C" fn tpm_log_answer_name(answer: u32, out: &mut [u8]) -> usize
    ensures { IsIn (in_room (length out.old) (named_in answer_names answer))
        out.old out.new result }
{
    match look_up(&NAMES, answer) {
        Some(name) => put_in_room(out, name.as_bytes()),
        None => 0,
    }
}
