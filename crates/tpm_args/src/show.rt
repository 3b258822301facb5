//! The words of the subcommand `show`.

ghost use Rattle.std.specs.Prelude.{◌≡◌, ◌≢◌, [], ◌∷◌, IfOk, MatchBool, None, Some, codes, option_map};
ghost use Rattle.clap.specs.Words.{first_value, found_of};
ghost use Rattle.tpm_args.specs.inner.Stop.{AsksIfAny, IsAsked, IsMemoryOr};
ghost use Rattle.tpm_args.specs.Task.{IsInput};
ghost use Rattle.tpm_args.specs.inner.Task.{HasNone, IsPlain};

use crate::given::{form_asked, has, is_given};
use crate::invalid::{Usage, invalid_value, no_command, wrong_words};
use crate::name::command_named;
use crate::stop::Stop;
use crate::task::{Asked, Task};
use clap::ArgMatches;
use std::alloc::AllocError;
use tpm_names::number::port;
use tpm_options::{CaptureTask, PacketsTask};

/// The port of a simulator where none is given: mssim's for commands, and swtpm's for data.
const PORT: &str = "2321";

// Whether no word is given that is of a buffer or of a capture alone.
fn is_plain(words: &ArgMatches<'_>) -> bool
    ensures { MatchBool result (IsPlain (first_value (found_of words.now)))
        (IsPlain (first_value (found_of words.now)) → ⊥) }
{
    !has(words, "HEX") && !has(words, "file") && !has(words, "reply") && !is_given(words, "binary")
}

// Packets, in this file. None where another of a buffer and three files is given, where they are to be read as a
// response or as a stream, and where the port is no number of one.
fn shown_packets<'a>(words: &ArgMatches<'a>, file: &'a str) -> Option<Task<'a>>
    requires { first_value (found_of words.now) (codes "pcap") ≡ Some file.now }
    ensures { AsksIfAny (codes "show") words.now result }
{
    if !is_plain(words) || has(words, "nv") {
        return None;
    }
    Some(Task::ShowPackets(PacketsTask {
        file,
        port: port(words.get_str("port").unwrap_or(PORT))?,
        fields: is_given(words, "fields"),
        form: form_asked(words),
    }))
}

// A buffer. None where no command has the name of the response's, and where it is to be read as a stream or printed as
// JSON.
fn shown_buffer<'a>(words: &ArgMatches<'a>, hex: &'a str) -> Option<Task<'a>>
    requires digits { (first_value (found_of words.now) (codes "HEX") ≡ Some hex.now) × (hex.now ≢ codes "-") }
    requires alone { HasNone (first_value (found_of words.now))
        (codes "file" ∷ codes "nv" ∷ codes "pcap" ∷ codes "port" ∷ []) }
    ensures { AsksIfAny (codes "show") words.now result }
{
    if is_given(words, "binary") || is_given(words, "json") {
        return None;
    }
    let reply = match words.get_str("reply") {
        Some(name) => Some(command_named(name)?),
        None => None,
    };
    Some(Task::Show {
        reply,
        fields: is_given(words, "fields"),
        hex,
    })
}

// A capture in a file, or on standard input. None where it is to be read as a response.
fn shown_capture<'a>(words: &ArgMatches<'a>, file: Option<&'a str>) -> Option<Task<'a>>
    requires input { (first_value (found_of words.now) (codes "file") ≡ option_map (λ f. f.now) file)
        × IsInput (first_value (found_of words.now) (codes "HEX")) (first_value (found_of words.now) (codes "file")) }
    requires alone { HasNone (first_value (found_of words.now)) (codes "nv" ∷ codes "pcap" ∷ codes "port" ∷ []) }
    ensures { AsksIfAny (codes "show") words.now result }
{
    if words.get_str("reply").is_some() {
        return None;
    }
    Some(Task::ShowCapture(CaptureTask {
        file,
        binary: is_given(words, "binary"),
        fields: is_given(words, "fields"),
        form: form_asked(words),
    }))
}

// Kept NV memory. None where another word is given.
fn shown_memory<'a>(words: &ArgMatches<'a>, file: &'a str) -> Option<Task<'a>>
    requires file { first_value (found_of words.now) (codes "nv") ≡ Some file.now }
    requires alone { HasNone (first_value (found_of words.now)) (codes "pcap" ∷ codes "port" ∷ []) }
    ensures { AsksIfAny (codes "show") words.now result }
{
    if !is_plain(words) || is_given(words, "fields") || is_given(words, "json") {
        return None;
    }
    Some(Task::ShowNv { file })
}

// A buffer, a capture, packets or kept NV memory. None where they have more than one of a buffer and three files, or
// none, and where a port is given without packets.
fn shown<'a>(words: &ArgMatches<'a>) -> Option<Task<'a>>
    ensures { AsksIfAny (codes "show") words.now result }
{
    if let Some(file) = words.get_str("pcap") {
        return shown_packets(words, file);
    }
    if words.get_str("port").is_some() {
        return None;
    }
    if let Some(file) = words.get_str("nv") {
        return shown_memory(words, file);
    }
    let file = words.get_str("file");
    match (words.get_str("HEX"), file) {
        (Some("-"), None) | (None, Some(_)) => shown_capture(words, file),
        (Some(hex), None) => shown_buffer(words, hex),
        _ => None,
    }
}

// Why they ask for nothing.
fn fault(words: &ArgMatches<'_>) -> &'static str {
    let pcap = has(words, "pcap");
    if !pcap & has(words, "port") {
        return "--port <N> goes with --pcap <FILE>";
    }
    let hex = words.get_str("HEX");
    match (pcap, has(words, "nv"), has(words, "file"), hex) {
        (false, false, false, None) => {
            "one of HEX, -, --file <FILE>, --pcap <FILE> and --nv <FILE> is wanted"
        }
        (true, false, false, None) => {
            "--pcap <FILE> goes with --port <N>, --fields and --json alone"
        }
        (false, true, false, None) => "--nv <FILE> goes with no other option",
        (false, false, true, None) | (false, false, false, Some("-")) => {
            "--reply <NAME> goes with HEX alone, since a capture tells replies by its marks"
        }
        (false, false, false, _) => "--binary and --json want a capture: - or --file <FILE>",
        _ => "only one of HEX, -, --file <FILE>, --pcap <FILE> and --nv <FILE> is wanted",
    }
}

fn not_shown(usage: Usage, words: &ArgMatches<'_>) -> Result<Stop, AllocError>
    ensures { IfOk result (IsMemoryOr (Unit {0})) }
{
    let text = words.get_str("port").unwrap_or(PORT);
    match words.get_str("reply") {
        Some(name) if command_named(name).is_none() => { no_command(usage, name, "--reply <NAME>") }
        _ if port(text).is_none() => {
            let reason = "it is no decimal number up to 65535";
            invalid_value(usage, text, "--port <N>", reason)
        }
        _ => wrong_words(usage, fault(words)),
    }
}

/// The task of the words of `show`.
pub(crate) fn show_task<'a>(usage: Usage, words: &ArgMatches<'a>) -> Asked<'a>
    ensures { IsAsked (codes "show") words.now result }
{
    match shown(words) {
        Some(task) => Ok(task),
        None => Err(not_shown(usage, words)?),
    }
}
