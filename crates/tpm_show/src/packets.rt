//! The subcommand `show` of the packets of a network.

ghost use Rattle.std.specs.Prelude.{◌≡◌, ◌==◌, ◌+◌, ◌^◌, ◌<◌, ◌≤◌, ℕ, List, length, IfOk, IsErrOf, OnOk};
ghost use Rattle.std.specs.Prelude.{string_bytes};
ghost use Rattle.std.specs.Io.KnownBytes.{Appends};
ghost use Rattle.tpm_pcap.specs.Entries.{Entry as WentOver, entry_as, entries_as};
ghost use Rattle.tpm_pcap.specs.Files.{left_told};
ghost use Rattle.tpm_output.specs.declared.fault.ToolFault.TheVariants.{InputTooLong};
ghost use Rattle.tpm_output.specs.Faults.{FailsByMemoryOrWrite};
ghost use Rattle.tpm_output.specs.InputLines.{AddedTo, CountsRead};
ghost use Rattle.tpm_show.specs.Packets.{awaited_past, most_packets, OfReadUpTo, reason_text, TellsPackets};
ghost use Rattle.tpm_show.specs.inner.PacketsTold.{TellsMany, TellsOne};

use crate::capture::Capture;
use crate::capture_frames::Awaited;
use crate::capture_lines::Direction;
use crate::remark::Remark;
use crate::reports::{print_remark, push_remark};
use crate::telling::Telling;
use std::alloc::Global;
use std::io::Write;
use tpm_output::answer::write;
use tpm_output::fault::ToolFault;
use tpm_output::reads::read_up_to;
use tpm_output::status::Status;
use tpm_output::text::Pushed;
use tpm_pcap::{Entry, FileHead, HEAD, PacketFile, Reason, read_head};
use tpm_wire::Source;

/// How many bytes of a file are read at most.
const MOST_PACKETS: usize = 1_073_741_824;

/// How many bytes are asked for at a time.
const PIECE: usize = 4096;

// ---- a packet that is not told

fn reason_text(reason: Reason) -> &'static str
    ensures { result.now ≡ reason_text reason }
{
    match reason {
        Reason::CutShort => "not told, cut short",
        Reason::Malformed => "not told, its block is malformed",
        Reason::UnknownLink => "not told, its link is not known",
        Reason::Fragment => "not told, a fragment",
        Reason::SentAgain => "not told, sent again",
        Reason::OutOfOrder => "not told, out of order",
        Reason::NoMessage => "not told, no message begins where one should",
        Reason::Unfinished => "a message before it did not come whole",
    }
}

fn awaited_past(reason: Reason, awaited: Awaited) -> Awaited
    ensures { result ≡ awaited_past reason awaited }
{
    match reason {
        Reason::SentAgain => awaited,
        _ => Awaited::Unknown,
    }
}

// ---- what went over the port

// Takes what went over the port, and adds what is told of it.
fn tell_entry(capture: &mut Capture, entry: &Entry, text: &mut String) -> Pushed
    requires number { capture.old.number + 1 < 2 ^ 64 }
    requires connection { capture.old.passage.connection + 1 < 2 ^ 64 }
    ensures { OnOk result (TellsOne (entry_as entry.now) capture.old capture.new
        (AddedTo (string_bytes text.old) (string_bytes text.new))) }
{
    match entry {
        Entry::Connection => {
            capture.awaited = Awaited::Nothing;
            capture.passage.connection += 1;
            Ok(())
        }
        Entry::Command(stamp, bytes) => {
            capture.passage.stamp = Some(*stamp);
            capture.tell_frame(Some(Direction::Command), bytes.as_slice(), text)
        }
        Entry::Reply(stamp, bytes) => {
            capture.passage.stamp = Some(*stamp);
            capture.tell_frame(Some(Direction::Reply), bytes.as_slice(), text)
        }
        Entry::Untold(packet, reason) => {
            let remark = Remark::Packet(*packet, reason_text(*reason));
            push_remark(capture.alloc, text, capture.how.form, remark)?;
            capture.awaited = awaited_past(*reason, capture.awaited);
            capture.status = Status::Refused;
            Ok(())
        }
    }
}

// Takes one entry, and prints what is told of it.
fn print_entry<W: Write>(capture: &mut Capture, entry: &Entry, out: &mut W) -> Result<(), ToolFault>
    requires number { capture.old.number + 1 < 2 ^ 64 }
    requires connection { capture.old.passage.connection + 1 < 2 ^ 64 }
    ensures ok { OnOk result (TellsOne (entry_as entry.now) capture.old capture.new
        (Appends (W.contents out.old) (W.contents out.new))) }
    ensures err { FailsByMemoryOrWrite result }
{
    let mut text = String::new(capture.alloc);
    tell_entry(capture, entry, &mut text)?;
    write(out, &text)
}

// Prints what is told of these, one after the other.
fn print_entries<W: Write>(
    capture: &mut Capture,
    entries: &[Entry],
    out: &mut W,
) -> Result<(), ToolFault>
    requires number { capture.old.number + length entries.now < 2 ^ 64 }
    requires connection { capture.old.passage.connection + length entries.now < 2 ^ 64 }
    ensures ok { OnOk result (TellsMany (entries_as entries.now) capture.old capture.new
        (Appends (W.contents out.old) (W.contents out.new))) }
    ensures err { FailsByMemoryOrWrite result }
{
    for entry in entries {
        print_entry(capture, entry, out)?;
    }
    Ok(())
}

// ---- a file

// Prints what is told of the packets that come, of which no more bytes are read than so many. Whether nothing went over
// the port.
fn print_traffic<R: Source, W: Write>(
    capture: &mut Capture,
    input: &mut R,
    out: &mut W,
    mut file: PacketFile,
    most: usize,
) -> Result<bool, ToolFault>
    requires number { capture.old.number ≡ 1 }
    requires connection { capture.old.passage.connection ≡ 0 }
    requires few { file.reader.packet + length file.held ≤ 25 }
    requires most { most ≤ most_packets }
    ensures failures { CountsRead (R.failed input.old) (R.failed input.new) result }
    ensures ok { IfOk result (λ silent. (told : List WentOver)
        × OfReadUpTo most (R.coming input.old) (R.coming input.new)
        (λ bytes. left_told file bytes ≡ told)
        × TellsMany told capture.old capture.new (Appends (W.contents out.old) (W.contents out.new))
        × (silent ≡ (length told == 0))) }
    ensures short { IsErrOf result InputTooLong → ⊥ }
{
    let mut entries = Vec::new(capture.alloc);
    let mut piece = [0; PIECE];
    let mut left = most;
    let mut silent = true;
    loop {
        let room = left.min(PIECE);
        let count = input.read(&mut piece[..room])?;
        let more = file.take(capture.alloc, &piece[..count], &mut entries)?;
        print_entries(capture, entries.as_slice(), out)?;
        silent = silent && entries.is_empty();
        if !more {
            return Ok(silent);
        }
        entries.clear();
        left -= count;
    }
}

/// Prints what `show` prints of each frame that went over this port of a TPM simulator, or what `show --fields` prints,
/// or an object of JSON in a line.
///
/// The bytes are those of a file of libpcap or of pcapng (`tpm_pcap::read_head`). Each frame is told as `show_lines`
/// tells that of a line with its mark, in the order in which the frames came, with their numbers from 1. A reply
/// belongs to the command before it on the same connection. Behind the header stands the line
/// `packet N time S connection C`: the packet in which the frame ends, by its number in the file, when that was
/// captured, in seconds since 1970 began (UTC) with nine digits behind the point, and the connection's number, all from
/// 1. Where the file has no time, or its units are not known, `time S` is missing. In JSON these are the members
/// `packet`, `time`, a text, and `connection`.
///
/// A packet that is not told has the line `packet N: not told, cut short`, or `its block is malformed`, `its link is
/// not known`, `a fragment`, `sent again`, `out of order` or `no message begins where one should`; where a message did
/// not come whole before the connection ended, or another began, the line is `packet N: a message before it did not
/// come whole`. N is the packet's number in the file, from 1. Behind each but one that was sent again the next reply is
/// told as one to a command that is not known. In JSON these are the members `packet` and `fault`.
///
/// A file that is a capture of neither has the line `no capture of libpcap at 0`, and libpcap's of another kind of link
/// `link type N is not known at 20`. In JSON these are the members `fault` and `at`, how many bytes of the file are
/// before what is at fault. Where no packet of the port has anything to tell the line is `no packet of port N`, and in
/// JSON that is `fault`.
///
/// The status is `Refused` where a frame was refused, a packet is not told, or the file is at fault, and else `Done`.
///
/// The frames are told as they come: no more is held than a piece, a packet's block and what has come of a message. At
/// most 2^30 bytes are read, and behind a block that is malformed none.
///
/// Where a request for memory is refused the answer is `Memory`, where a read fails `Read`, and where the writer fails
/// `Write`. What was written before is then left open, and a failed read isn't tried again.
pub fn show_packets<R: Source, W: Write>(
    alloc: Global,
    input: &mut R,
    out: &mut W,
    port: u16,
    how: Telling,
) -> Result<Status, ToolFault>
    ensures failures { CountsRead (R.failed input.old) (R.failed input.new) result }
    ensures ok { IfOk result (λ status. (text : List ℕ)
        × OfReadUpTo most_packets (R.coming input.old) (R.coming input.new) (λ bytes.
        TellsPackets how port bytes status text)
        × Appends (W.contents out.old) (W.contents out.new) text) }
    ensures short { IsErrOf result InputTooLong → ⊥ }
{
    let head = read_up_to(alloc, input, HEAD)?;
    match read_head(alloc, head.as_slice(), port)? {
        FileHead::NoCapture => print_remark(alloc, how.form, Remark::NoCapture, out),
        FileHead::OtherLink(number) => {
            print_remark(alloc, how.form, Remark::OtherLink(number), out)
        }
        FileHead::Packets(file) => {
            let most = if head.len() < HEAD {
                0
            } else {
                MOST_PACKETS - HEAD
            };
            let mut capture = Capture::new(alloc, how);
            let silent = print_traffic(&mut capture, input, out, file, most)?;
            if silent {
                return print_remark(alloc, how.form, Remark::NoPacket(port), out);
            }
            Ok(capture.status)
        }
    }
}
