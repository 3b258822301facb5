//! The subcommand `show` of a capture in lines.

ghost use Rattle.std.specs.Prelude.{◌≡◌, ◌+◌, ◌^◌, ◌<◌, ◌≤◌, ◌++◌, ℕ, false, List, None, IfOk, OnOk, IsErrOf};
ghost use Rattle.std.specs.Prelude.{flat_map, string_bytes};
ghost use Rattle.std.specs.Io.KnownBytes.{Appends, Consumes};
ghost use Rattle.tpm_wire.specs.Sources.{IsWhereItFailed};
ghost use Rattle.tpm_output.specs.declared.fault.ToolFault.TheVariants.{InputTooLong, Read};
ghost use Rattle.tpm_output.specs.declared.status.Status.TheVariants.{Done, Refused};
ghost use Rattle.tpm_output.specs.Faults.{FailsByMemoryOrWrite};
ghost use Rattle.tpm_output.specs.InputLines.{AddedTo, CountsRead};
ghost use Rattle.tpm_show.specs.declared.capture_frames.Awaited.TheVariants.{Unknown};
ghost use Rattle.tpm_show.specs.Capture.{Frame, frame_at, start, TellsCapture, TellsFrame, ReadsAll};
ghost use Rattle.tpm_show.specs.Capture.{ReadsTooMuchCapture, TellsEnded};
ghost use Rattle.tpm_show.specs.inner.Capturing.{frame_as, read_as, place, Passes, TellsNext};
ghost use Rattle.tpm_show.specs.FrameJson.{object_of};
ghost use Rattle.tpm_show.specs.FrameLines.{in_lines};
ghost use Rattle.tpm_show.specs.Pieces.{Piece};
ghost use Rattle.tpm_show.specs.Reports.{IsObjectLine, IsReport, front, kind_of, mark_of, numbered_told};

use crate::capture_frames::{Awaited, FrameAt, awaited_behind, direction_of, tell_frame};
use crate::capture_lines::{CaptureLine, Direction, MOST_LINE, read_line};
use crate::digits::is_blank;
use crate::lines::Lines;
use crate::object::Object;
use crate::passage::Passage;
use crate::piece::{in_line, says};
use crate::remark::Remark;
use crate::reports::push_remark;
use crate::teller::{Teller, tell_pieces};
use crate::telling::Telling;
use std::alloc::{AllocError, Global};
use std::io::Write;
use tpm_output::answer::write;
use tpm_output::fault::ToolFault;
use tpm_output::form::Form;
use tpm_output::input_lines::{LineSink, take_lines};
use tpm_output::status::Status;
use tpm_output::text::Pushed;
use tpm_wire::Source;

/// How many bytes a capture has at most, which is more than any has.
pub(crate) const MOST_BYTES: usize = 4_611_686_018_427_387_904;

/// A capture that is being told.
#[derive(Drop)]
pub(crate) struct Capture {
    pub(crate) alloc: Global,
    pub(crate) how: Telling,
    // the number of the next frame
    pub(crate) number: u64,
    pub(crate) awaited: Awaited,
    // where the frame stands among packets
    pub(crate) passage: Passage,
    // whether all frames so far are what they are taken for
    pub(crate) status: Status,
}

fn mark_of(direction: Direction) -> &'static str
    ensures { result.now ≡ mark_of direction }
{
    match direction {
        Direction::Command => ">",
        Direction::Reply => "<",
    }
}

fn kind_of(direction: Direction) -> &'static str
    ensures { result.now ≡ kind_of direction }
{
    match direction {
        Direction::Command => "command",
        Direction::Reply => "response",
    }
}

// Tells the number of a frame, and which way it went.
#[tactic(auto, unfolding(crate::specs::Reports::front))]
fn tell_front<T: Teller>(teller: &mut T, number: u64, direction: Direction) -> Pushed
    ensures { OnOk result (T.told teller.new
        ≡ T.told teller.old ++ flat_map T.marks (front number direction)) }
{
    tell_pieces!(teller; says!(Alone "number" Number number),
        in_line!(Behind Word mark_of(direction)), says!(Nowhere "kind" Word kind_of(direction)),
        in_line!(Alone Word " "))
}

impl Capture {
    /// A capture of which nothing is told.
    pub(crate) fn new(alloc: Global, how: Telling) -> Self
        ensures place { place result ≡ start how }
        ensures status { result.status ≡ Done }
    {
        Capture {
            alloc,
            how,
            number: 1,
            awaited: Awaited::Nothing,
            passage: Passage::NONE,
            status: Status::Done,
        }
    }

    // Goes on behind a frame.
    fn pass(&mut self, awaited: Awaited, status: Status)
        requires { self.old.number + 1 < 2 ^ 64 }
        ensures { Passes self.old awaited status self.new }
    {
        self.number += 1;
        self.awaited = awaited;
        self.status = self.status.both(status);
    }

    fn tell_fault(&mut self, text: &mut String, fault: &'static str) -> Pushed
        requires { self.old.number + 1 < 2 ^ 64 }
        ensures { OnOk result ((report : List ℕ)
            × IsReport self.old.how.form false (numbered_told self.old.number fault.now) report
            × (string_bytes text.new ≡ string_bytes text.old ++ report)
            × Passes self.old Unknown Refused self.new) }
    {
        let remark = Remark::Fault(self.number, fault);
        push_remark(self.alloc, text, self.how.form, remark)?;
        self.pass(Awaited::Unknown, Status::Refused);
        Ok(())
    }

    fn frame_at<'a>(&self, bytes: &'a [u8]) -> FrameAt<'a>
        ensures { frame_as result ≡ frame_at (place self.now) bytes.now }
    {
        FrameAt {
            bytes,
            awaited: self.awaited,
            passage: self.passage,
            fields: self.how.fields,
        }
    }

    // Adds the lines of a frame.
    #[tactic(auto, using(crate::proofs::Pieces::pieces))]
    fn push_lines<const FIELDS: bool>(
        &self,
        direction: Direction,
        bytes: &[u8],
        text: &mut String,
    ) -> Result<Status, AllocError>
        requires { self.now.how.fields ≡ FIELDS }
        ensures { IfOk result (λ status. (pieces : List Piece)
            × TellsFrame direction (frame_at (place self.now) bytes.now) status pieces
            × (string_bytes text.new ≡ string_bytes text.old
            ++ in_lines FIELDS (front self.now.number direction ++ pieces))) }
    {
        let mut lines = Lines::<FIELDS>::new(self.alloc);
        tell_front(&mut lines, self.number, direction)?;
        let status = tell_frame(&mut lines, direction, self.frame_at(bytes))?;
        text.push_str(lines.text.as_str())?;
        Ok(status)
    }

    // Adds the object of a frame.
    #[tactic(auto, using(crate::proofs::Pieces::pieces), unfolding(crate::specs::FrameJson::object_of))]
    fn push_object(
        &self,
        direction: Direction,
        bytes: &[u8],
        text: &mut String,
    ) -> Result<Status, AllocError>
        ensures { IfOk result (λ status. (pieces : List Piece)
            × TellsFrame direction (frame_at (place self.now) bytes.now) status pieces
            × (line : List ℕ)
            × IsObjectLine (object_of (front self.now.number direction ++ pieces)) line
            × (string_bytes text.new ≡ string_bytes text.old ++ line)) }
    {
        let mut object = Object::begin(self.alloc)?;
        tell_front(&mut object, self.number, direction)?;
        let status = tell_frame(&mut object, direction, self.frame_at(bytes))?;
        object.end_line(text)?;
        Ok(status)
    }

    // Adds what is told of a frame.
    fn push_frame(
        &self,
        direction: Direction,
        bytes: &[u8],
        text: &mut String,
    ) -> Result<Status, AllocError>
        ensures { IfOk result (λ status. (pieces : List Piece)
            × TellsFrame direction (frame_at (place self.now) bytes.now) status pieces
            × (report : List ℕ)
            × IsReport self.now.how.form self.now.how.fields
            (front self.now.number direction ++ pieces) report
            × (string_bytes text.new ≡ string_bytes text.old ++ report)) }
    {
        match (self.how.form, self.how.fields) {
            (Form::Json, _) => self.push_object(direction, bytes, text),
            (Form::Lines, true) => self.push_lines::<true>(direction, bytes, text),
            (Form::Lines, false) => self.push_lines::<false>(direction, bytes, text),
        }
    }

    /// Takes a frame, and adds what is told of it.
    pub(crate) fn tell_frame(
        &mut self,
        mark: Option<Direction>,
        bytes: &[u8],
        text: &mut String,
    ) -> Pushed
        requires { self.old.number + 1 < 2 ^ 64 }
        ensures { OnOk result (TellsNext (Frame mark bytes.now) self.old self.new
            (AddedTo (string_bytes text.old) (string_bytes text.new))) }
    {
        let direction = direction_of(mark, self.awaited, bytes);
        let status = self.push_frame(direction, bytes, text)?;
        self.pass(awaited_behind(direction, bytes), status);
        Ok(())
    }

    fn tell(&mut self, line: &CaptureLine, text: &mut String) -> Pushed
        requires { self.old.number + 1 < 2 ^ 64 }
        ensures { OnOk result (TellsNext (read_as line.now) self.old self.new
            (AddedTo (string_bytes text.old) (string_bytes text.new))) }
    {
        match line {
            CaptureLine::Nothing => Ok(()),
            CaptureLine::Frame(mark, bytes) => self.tell_frame(*mark, bytes.as_slice(), text),
            CaptureLine::NotHexadecimal => self.tell_fault(text, "not hexadecimal"),
            CaptureLine::TooLong => self.tell_fault(text, "too long"),
        }
    }

    /// Takes a frame without a mark, and prints what is told of it.
    pub(crate) fn print_frame<W: Write>(
        &mut self,
        bytes: &[u8],
        out: &mut W,
    ) -> Result<(), ToolFault>
        requires { self.old.number + 1 < 2 ^ 64 }
        ensures ok { OnOk result (TellsNext (Frame None bytes.now) self.old self.new
            (Appends (W.contents out.old) (W.contents out.new))) }
        ensures err { FailsByMemoryOrWrite result }
    {
        let mut text = String::new(self.alloc);
        self.tell_frame(None, bytes, &mut text)?;
        write(out, &text)
    }
}

impl LineSink for Capture {
    ghost use Rattle.tpm_show.specs.inner.Capturing.{TellsStep, capture_line};

    ghost limits = { capture_line };

    ghost takes = { TellsStep };

    // There is no more than one frame in a line.
    ghost is_at = { λ number capture. capture.number ≤ number };

    fn counts(byte: u8) -> bool {
        !is_blank(byte)
    }

    fn most_line() -> usize {
        MOST_LINE
    }

    fn long_ends() -> bool {
        false
    }

    fn line(
        &mut self,
        alloc: Global,
        _number: u64,
        line: &[u8],
        text: &mut String,
    ) -> Result<bool, AllocError> {
        let line = read_line(alloc, line)?;
        self.tell(&line, text)?;
        Ok(true)
    }
}

/// Prints what `show` prints of each frame of a capture, or what `show --fields` prints, or an object of JSON in a
/// line.
///
/// A line has a frame in hexadecimal digits, two to a byte and in either case, behind `0x` or without it. Spaces, tabs
/// and carriage returns count for nothing wherever they stand. `>` before it marks a command and `<` a reply. Without a
/// mark a frame is a command, but where a command or a line without a frame is before it and the frame is of ten bytes,
/// or has the code 0, it is a reply. A line that is empty, or begins with `#`, is skipped. A line ends with a line
/// feed, and the last may do without.
///
/// The first line of a frame begins with its number, from 1, and its mark, and tells its header, whatever is refused:
/// `command NAME size N tag XXXX`, or `reply NAME size N tag XXXX code XXX TPM_RC_NAME` (Part 1, "Command/Response
/// Structure"). NAME is that of the library's command with this code, or the code in eight digits. Fewer than ten
/// bytes have no header. Behind it stands what `show` tells of a command or of a response, but for its first line.
///
/// A command that the bytes don't spell has the line of its fault: `refused XXX at N`, or `beyond this profile, XXX at
/// N`. Then stand its handles, by Part 3's number of them, its sessions and its parameters, where the header has the
/// frame's size and a command's tag, and they are there. Only such a command is beyond this profile, and where its
/// fault is one that a larger profile would not have: it is of another command of the library (Part 2, 6.5.2), it has
/// the number of a hash that is no bank here (6.3), or a list of four to eight banks.
///
/// A reply is read as one to the command before it, by the code of that, and may be beyond this profile likewise. To a
/// command that the profile hasn't it is told by the library's table. With no command before it the line `no command is
/// before it` follows its header, and behind a line without a frame, or a command that has no code or one that the
/// library hasn't, `its command is not known`. A line of other text is `N not hexadecimal`, and one of more than 8,195
/// bytes beside its blanks `N too long`; the next is read all the same.
///
/// The object has the members `number` and `kind`, which is `command` or `response`. A header has `command`, where a
/// reply has one before it, `size`, `tag` and `tag_name`; then a command `command_code`, and a response `code` and
/// `code_name`, where these have names. What stands behind it has `handles`, `handle_names`, a list of the same length
/// with null where a handle has no name, `sessions` and `parameters`. A session's object has `attribute_names` behind
/// its attributes, a list of those that are set, and a command's `session_name`. What is refused has `refused`, the
/// code's name as `fault`, and `at`; what is beyond this profile has `beyond` in place of `refused`. A reply without
/// its command has `fault` alone.
///
/// Where parameters are told by their names there is `fields`, a list of objects with `name`, `type` and `value`, and
/// `value_name` where `show_fields` has a name behind the value. That of a structure has `fields` likewise, of its
/// members or entries; bits that are set, and registers, are objects with `name` and `number`, which is decimal. A line
/// without a frame has `number` and `fault`. Each says what its line says: bytes, handles, attributes and codes are in
/// hexadecimal, and no bytes are empty.
///
/// The status is `Refused` where a frame or a line was refused, where a reply has no command before it or one that is
/// not known, or where one to another command of the library is not one by its table; and else `Done`. What a read gave
/// is answered before the next read: where that fails, what was written is the text of the lines that had ended. No
/// more than one line and one piece is held.
///
/// Where a request for memory is refused the answer is `Memory`, where a read fails `Read`, where the writer fails
/// `Write`, and where more than 2^62 bytes come `InputTooLong`. What was written before is then left open, and a failed
/// read isn't tried again.
pub fn show_lines<R: Source, W: Write>(
    alloc: Global,
    input: &mut R,
    out: &mut W,
    how: Telling,
) -> Result<Status, ToolFault>
    ensures failures { CountsRead (R.failed input.old) (R.failed input.new) result }
    ensures stop { IsErrOf result Read → IsWhereItFailed (R.stopped input.new) }
    ensures answered { IsErrOf result Read → (bytes text : List ℕ)
        × Consumes (R.coming input.old) (R.coming input.new) bytes
        × TellsEnded how bytes text
        × Appends (W.contents out.old) (W.contents out.new) text }
    ensures ok { IfOk result (λ status. (bytes text : List ℕ)
        × ReadsAll (R.coming input.old) (R.coming input.new) bytes
        × TellsCapture how bytes status text
        × Appends (W.contents out.old) (W.contents out.new) text) }
    ensures too_long { IsErrOf result InputTooLong
        → ReadsTooMuchCapture (R.coming input.old) (R.coming input.new) }
{
    match take_lines(alloc, input, out, Capture::new(alloc, how), MOST_BYTES)? {
        Some(capture) => Ok(capture.status),
        None => unreachable!(),
    }
}
