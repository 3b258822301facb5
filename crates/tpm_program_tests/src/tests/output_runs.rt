//! A call of a subcommand, as a line tells it.

use std::alloc::Global;
use std::io::Write;
use std::mem;
use tpm_check::{Asked, check_boot, check_extends, check_log};
use tpm_device::Device;
use tpm_events::list_events;
use tpm_lists::{AllowFile, read_list};
use tpm_options::{CheckOptions, Listing};
use tpm_output::answer::not_hexadecimal;
use tpm_output::fault::ToolFault;
use tpm_output::form::Form;
use tpm_output::status::Status;
use tpm_script::{run_script, show_nv};
use tpm_show::{Telling, build, show, show_fields, show_lines, show_stream};
use tpm_testing::{Pieces, spelled};
use tpm_types::{AuthValue, CommandCode};
use tpm_wire::{SliceSource, Source};

/// The header, a record that extends nothing, and a separator at register 7.
pub(crate) const LOG: &str =
    "000000000300000000000000000000000000000000000000000000002900000053706563204944204576656e74303300000000000002000203000000040014000b0020000c003000000000000003000000000000000000000007000000040000000300000004009069ca78e7450a285173431b3e52c5c25299e4730b00df3f619804a92fdb4057192dc43dd748ea778adc52bc498ce80524c014b811190c00394341b7182cd227c5c6b07ef8000cdfd86136c4292b8e576573ad7ed9ae41019f5818b4b971c9effc60e1ad9f1289f00400000000000000";

// What register 7 is then, and what register 0 isn't.
const LIST: &str =
    "sha1 7 b2a83b0ebf2f8374299a5b2bdfc31ea955ad7236\nsha1 0 b2a83b0ebf2f8374299a5b2bdfc31ea955ad7236\n";

// The digests of the log, by a reading of its bytes in Python.
const EXTENDS: &str =
    "sha1 7 9069ca78e7450a285173431b3e52c5c25299e473 EV_SEPARATOR\nsha256 7 df3f619804a92fdb4057192dc43dd748ea778adc52bc498ce80524c014b81119 EV_SEPARATOR\nsha384 7 394341b7182cd227c5c6b07ef8000cdfd86136c4292b8e576573ad7ed9ae41019f5818b4b971c9effc60e1ad9f1289f0 EV_SEPARATOR\n";

// A quote of register 7 of SHA-256: the digest is that of Python's hashlib.
const QUOTE: &str =
    "00000001000b038000000020da301acd1cfa3963a46b39f70c3ce51e88a5a296769f49656b6598230817df89";

// The same as it is signed, by Python's struct and hashlib (checks/quotes/made.py).
const ATTEST: &str =
    "ff5443478018000000026e6f0000000000000357000000010000000001201910230016363600000001000b038000000020da301acd1cfa3963a46b39f70c3ce51e88a5a296769f49656b6598230817df89";

/// Lines with all that they may have.
pub(crate) const ALL: Listing<'static> = Listing {
    registers: None,
    places: true,
    digests: true,
    event_data: false,
    form: Form::Lines,
};

// Nothing but what this quote's information says; or any quote that fits the log, told as objects.
fn options(quote: Option<&'static str>, any: bool, form: Form) -> CheckOptions<'static> {
    CheckOptions {
        nonce: None,
        any_nonce: any,
        required: None,
        any_selection: any,
        signer: None,
        quote,
        hash: None,
        secure_boot: false,
        any_state: false,
        extends: false,
        form,
    }
}

// The same, beside a quote as it was signed and a list of allowed digests.
fn asked<'a, 'o>(
    options: &'a CheckOptions<'o>,
    attest: Option<&'a [u8]>,
    allow: Option<&'a AllowFile>,
) -> Asked<'a, 'o> {
    Asked {
        options,
        attest,
        allow,
    }
}

/// What the call answers, and writes to `out`.
pub(crate) fn run<W: Write>(
    alloc: Global,
    call: &str,
    input: &mut Pieces<'_>,
    out: &mut W,
) -> Result<Status, ToolFault> {
    let (name, words) = call.split_once(' ').unwrap_or((call, ""));
    match name {
        "show" => show(alloc, out, None, words),
        "show-reply" => show(alloc, out, Some(CommandCode::PcrReset), words),
        "show-fields" => show_fields(alloc, out, None, words),
        "show-reply-fields" => show_fields(alloc, out, Some(CommandCode::NvRead), words),
        "show-nv" => show_nv(alloc, out, spelled(words).as_slice()),
        "build" => Ok(build(alloc, out, CommandCode::Startup, "-", "-", words)?.status),
        "not-hexadecimal" => not_hexadecimal(alloc, out),
        "list" => is_list(read_list(alloc, input)?, words),
        _ => run_on(alloc, call, input, out),
    }
}

// `Done` where the list has so many digests, and `Refused` where the line of this number is its first wrong one.
fn is_list(list: AllowFile, number: &str) -> Result<Status, ToolFault> {
    let number = number.parse().ok();
    match list {
        AllowFile::Digests(digests) if number == Some(digests.as_slice().len() as u64) => Ok(
            Status::Done,
        ),
        AllowFile::Wrong(line) if number == Some(line) => Ok(Status::Refused),
        AllowFile::TooLong => Err(ToolFault::InputTooLong),
        _ => Err(ToolFault::Memory),
    }
}

fn run_on<W: Write>(
    alloc: Global,
    call: &str,
    input: &mut Pieces<'_>,
    out: &mut W,
) -> Result<Status, ToolFault> {
    let how = Telling {
        fields: call.ends_with("fields") || call.ends_with("json"),
        form: if call.ends_with("json") {
            Form::Json
        } else {
            Form::Lines
        },
    };
    match call {
        "lines" | "lines fields" | "lines json" => show_lines(alloc, input, out, how),
        "stream" | "stream json" => show_stream(alloc, input, out, how),
        "run" => run_script(alloc, input, out, Device::new(&AuthValue::default(), 0)),
        "events" => list_events(alloc, input, ALL, out),
        "extends" => check_extends(alloc, input, out),
        "secure-boot" => {
            let options = options(None, false, Form::Lines);
            check_boot(alloc, input, &asked(&options, None, None), out)
        }
        "boot" => check_quoted(alloc, input, &mut SliceSource::new(EXTENDS.as_bytes()), out),
        "boot-list" => check_quoted(
            alloc,
            &mut SliceSource::new(spelled(LOG).as_slice()),
            input,
            out,
        ),
        _ => check(alloc, call, input, out),
    }
}

// A log beside a quote as it was signed and a list of allowed digests.
fn check_quoted<L: Source, F: Source, W: Write>(
    alloc: Global,
    log: &mut L,
    list: &mut F,
    out: &mut W,
) -> Result<Status, ToolFault> {
    let allow = read_list(alloc, list)?;
    let attest = spelled(ATTEST);
    let options = options(None, true, Form::Json);
    let asked = asked(&options, Some(attest.as_slice()), Some(&allow));
    check_boot(alloc, log, &asked, out)
}

// A log beside the quote's information, and a list of registers.
fn check<W: Write>(
    alloc: Global,
    call: &str,
    input: &mut Pieces<'_>,
    out: &mut W,
) -> Result<Status, ToolFault> {
    match call {
        "check" => check_beside(alloc, input, &mut None::<SliceSource<'_>>, out),
        "check-log" => {
            let mut list = Some(SliceSource::new(LIST.as_bytes()));
            check_beside(alloc, input, &mut list, out)
        }
        _ => check_list(alloc, input, out),
    }
}

// The log beside the quote's information and a list of registers.
pub(crate) fn check_list<W: Write>(
    alloc: Global,
    list: &mut Pieces<'_>,
    out: &mut W,
) -> Result<Status, ToolFault> {
    let log = spelled(LOG);
    let mut lent = Some(mem::replace(list, Pieces::new(&[], 1)));
    let answer = check_beside(alloc, &mut SliceSource::new(log.as_slice()), &mut lent, out);
    if let Some(lent) = lent {
        *list = lent;
    }
    answer
}

pub(crate) fn check_beside<L: Source, F: Source, W: Write>(
    alloc: Global,
    log: &mut L,
    list: &mut Option<F>,
    out: &mut W,
) -> Result<Status, ToolFault> {
    let options = options(Some(QUOTE), false, Form::Lines);
    check_log(alloc, log, &asked(&options, None, None), list, out)
}
