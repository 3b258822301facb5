//! The subcommand `show` of a stream of frames.

ghost use Rattle.std.specs.Prelude.{ℕ, List, IfOk, IsErrOf};
ghost use Rattle.std.specs.Io.KnownBytes.{Appends, Consumes};
ghost use Rattle.tpm_wire.specs.Sources.{IsWhereItFailed};
ghost use Rattle.tpm_output.specs.declared.fault.ToolFault.TheVariants.{InputTooLong, Read};
ghost use Rattle.tpm_output.specs.InputLines.{CountsRead};
ghost use Rattle.tpm_show.specs.Capture.{ReadsTooMuchCapture};
ghost use Rattle.tpm_show.specs.Stream.{OfRead, TellsStream, TellsWhole};

use crate::capture::{Capture, MOST_BYTES};
use crate::remark::Remark;
use crate::reports::print_remark;
use crate::telling::Telling;
use std::alloc::Global;
use std::io::Write;
use tpm_output::fault::ToolFault;
use tpm_output::status::Status;
use tpm_stream::{ReadFault, read_frame_into};
use tpm_wire::{Buffer, Source};

/// Prints what `show` prints of each frame of a stream, or what `show --fields` prints, or an object of JSON in a line.
///
/// The stream is frames one after the other, each of 10 to 4,096 bytes that state their size in the third to sixth of
/// them (Part 1, "Command/Response Structure"). What is told of them is what `show_lines` tells of the same frames
/// without marks: a frame is a command, but where one is before it and the frame is of ten bytes, or has the code 0,
/// it is the reply.
///
/// A size that no frame has ends the stream: behind the frames before it the line is `N bad size at P`, and where the
/// input ends inside a frame `N cut short at P`. N is the number of that frame, from 1, and P is how many bytes
/// precede it. In JSON these are the members `number`, `fault` and `at`.
///
/// The status is `Refused` where a frame was refused or did not come whole, and else `Done`. Each frame is answered
/// before the next is read: where a read fails, what was written is the text of the frames that had come. No more than
/// one frame is held. Behind a size that no frame has nothing is read.
///
/// Where a request for memory is refused the answer is `Memory`, where a read fails `Read`, where the writer fails
/// `Write`, and where more than 2^62 bytes come `InputTooLong`. What was written before is then left open, and a failed
/// read isn't tried again.
pub fn show_stream<R: Source, W: Write>(
    alloc: Global,
    input: &mut R,
    out: &mut W,
    how: Telling,
) -> Result<Status, ToolFault>
    ensures failures { CountsRead (R.failed input.old) (R.failed input.new) result }
    ensures stop { IsErrOf result Read → IsWhereItFailed (R.stopped input.new) }
    ensures answered { IsErrOf result Read → (bytes text : List ℕ)
        × Consumes (R.coming input.old) (R.coming input.new) bytes
        × TellsWhole how bytes text
        × Appends (W.contents out.old) (W.contents out.new) text }
    ensures ok { IfOk result (λ status. (text : List ℕ)
        × OfRead (R.coming input.old) (R.coming input.new)
        (λ bytes. TellsStream how bytes status text)
        × Appends (W.contents out.old) (W.contents out.new) text) }
    ensures too_long { IsErrOf result InputTooLong
        → ReadsTooMuchCapture (R.coming input.old) (R.coming input.new) }
{
    let mut capture = Capture::new(alloc, how);
    let mut frame = Buffer::new();
    let mut read = 0;
    loop {
        match read_frame_into(input, &mut frame) {
            Ok(true) => {}
            Ok(false) => return Ok(capture.status),
            Err(ReadFault::Device) => return Err(ToolFault::Read),
            Err(ReadFault::EndInside) => {
                return print_remark(
                    alloc,
                    how.form,
                    Remark::Stop(capture.number, "cut short", read),
                    out,
                );
            }
            Err(ReadFault::Broken(_)) => {
                return print_remark(
                    alloc,
                    how.form,
                    Remark::Stop(capture.number, "bad size", read),
                    out,
                );
            }
        }
        read += frame.len();
        if read > MOST_BYTES {
            return Err(ToolFault::InputTooLong);
        }
        capture.print_frame(frame.as_slice(), out)?;
    }
}
