//! Frames from a source of bytes.

ghost use Rattle.std.specs.Prelude.{◌≡◌, ◌≤◌, ◌++◌, ◌⊎◌, ℕ, true, List, [], length, drop, Ok, IfErr, IsErrOf};
ghost use Rattle.tpm_stream.specs.declared.reader.ReadFault.TheVariants.{Device, Broken};
ghost use Rattle.tpm_stream.specs.Reads.{CountsDevice, ReadsFrame, ReadsInto};
ghost use Rattle.tpm_stream.specs.inner.Reads.{Fills, EndsFill, IsBuffer};
ghost use Rattle.tpm_stream.specs.Reads.{ends_for, ends_into};
ghost use Rattle.tpm_wire.specs.Sources.{CountsFailures, IsWhereItFailed, MeetsEnds};

use crate::framer::{SIZE_END, stated_size};
use tpm_wire::{Buffer, ReadFailed, Refusal, Source};

// By how many bytes a buffer is lengthened at once.
const PIECE: usize = 256;

const ZEROS: [u8; PIECE] = [0; PIECE];

/// Why there is no frame.
#[derive(Clone, Copy, Debug, PartialEq, Eq)]
pub enum ReadFault {
    /// A read failed.
    Device,
    /// The input ended after the first byte of a frame and before its last.
    EndInside,
    /// The size is outside of 10 to 4,096: COMMAND_SIZE at 2.
    Broken(Refusal),
}

impl From<ReadFailed> for ReadFault {
    ghost from_gives = { λ _ fault. fault ≡ Device };

    fn from(_: ReadFailed) -> Self {
        ReadFault::Device
    }
}

impl From<Refusal> for ReadFault {
    ghost from_gives = { λ refusal fault. fault ≡ Broken refusal };

    fn from(refusal: Refusal) -> Self {
        ReadFault::Broken(refusal)
    }
}

/// The next frame of the input, or none at its end. No byte behind the frame is read, and where there is no frame the
/// bytes that were read are lost. A failed read isn't tried again, and none comes behind one that met the end.
///
/// The error is `Device` where a read failed, `EndInside` where the input ends in a frame, and `Broken` where a frame
/// states a size outside of 10 to 4,096.
///
/// Each read that isn't the last gives at least one byte, so that there are at most 4,096.
pub fn read_frame<R: Source>(source: &mut R) -> Result<Option<Buffer>, ReadFault>
    ensures failures { CountsDevice (R.failed source.old) (R.failed source.new) result }
    ensures stop { IsErrOf result Device → IsWhereItFailed (R.stopped source.new) }
    ensures ends { MeetsEnds (R.ends source.old) (R.ends source.new) (ends_for result) }
    ensures frame { ReadsFrame (R.coming source.old) (R.coming source.new) result }
{
    let mut answer = Ok(Some(Buffer::new()));
    read_answer(source, &mut answer);
    answer
}

// The answer is made in the caller's place, which a buffer is in, so that a frame is not copied as it is returned.
#[inline(never)]
fn read_answer<R: Source>(source: &mut R, answer: &mut Result<Option<Buffer>, ReadFault>)
    requires { IsBuffer answer.old }
    ensures failures { CountsDevice (R.failed source.old) (R.failed source.new) answer.new }
    ensures stop { IsErrOf answer.new Device → IsWhereItFailed (R.stopped source.new) }
    ensures ends { MeetsEnds (R.ends source.old) (R.ends source.new) (ends_for answer.new) }
    ensures frame { ReadsFrame (R.coming source.old) (R.coming source.new) answer.new }
{
    if let Ok(Some(frame)) = answer {
        match read_frame_into(source, frame) {
            Ok(true) => {}
            Ok(false) => *answer = Ok(None),
            Err(fault) => *answer = Err(fault),
        }
    }
}

/// Reads the next frame into a buffer, whatever that holds, and says whether there is one: none at the
/// end of the input. The buffer holds the frame then, and nothing where there is none. Else it does
/// what `read_frame` does, and moves no buffer.
pub fn read_frame_into<R: Source>(source: &mut R, frame: &mut Buffer) -> Result<bool, ReadFault>
    ensures failures { CountsDevice (R.failed source.old) (R.failed source.new) result }
    ensures stop { IsErrOf result Device → IsWhereItFailed (R.stopped source.new) }
    ensures ends { MeetsEnds (R.ends source.old) (R.ends source.new) (ends_into result) }
    ensures frame { ReadsInto (R.coming source.old) (R.coming source.new) frame.new.items result }
    ensures none { (result ≡ Ok true) ⊎ (frame.new.items ≡ []) }
{
    let read = read_into(source, frame);
    if !matches!(read, Ok(true)) {
        frame.clear();
    }
    read
}

/// Reads the next frame into a buffer, and says whether there is one: none at the end of the input.
#[inline(never)]
fn read_into<R: Source>(source: &mut R, frame: &mut Buffer) -> Result<bool, ReadFault>
    ensures failures { CountsDevice (R.failed source.old) (R.failed source.new) result }
    ensures stop { IsErrOf result Device → IsWhereItFailed (R.stopped source.new) }
    ensures ends { MeetsEnds (R.ends source.old) (R.ends source.new) (ends_into result) }
    ensures frame { ReadsInto (R.coming source.old) (R.coming source.new) frame.new.items result }
{
    let mut head = [0; SIZE_END];
    let count = fill(source, &mut head)?;
    if count == 0 {
        return Ok(false);
    }
    if count < SIZE_END {
        return Err(ReadFault::EndInside);
    }
    let size = stated_size(&head)?;
    begin(frame, &head, size);
    let count = fill(source, &mut frame.as_mut_slice()[SIZE_END..size])?;
    if SIZE_END + count < size {
        return Err(ReadFault::EndInside);
    }
    Ok(true)
}

// Makes the buffer so long, and begins it with these bytes. The others, which are written over, are what it held, as
// far as that goes: so no more is filled than what it is longer or shorter by.
fn begin(frame: &mut Buffer, head: &[u8; SIZE_END], size: usize)
    requires { (10 ≤ size) × (size ≤ 4096) }
    ensures { (more : List ℕ) × (frame.new.items ≡ head.now ++ more)
        × (length frame.new.items ≡ size) }
{
    frame.truncate(size);
    lengthen(frame, size);
    put_head(frame.as_mut_slice(), head);
}

fn put_head(bytes: &mut [u8], head: &[u8; SIZE_END])
    requires { 6 ≤ length bytes.old }
    ensures { bytes.new ≡ head.now ++ drop 6 bytes.old }
{
    bytes[..SIZE_END].copy_from_slice(head);
}

// Adds zeros at the end, until there are so many bytes.
fn lengthen(frame: &mut Buffer, size: usize)
    requires { (length frame.old.items ≤ size) × (size ≤ 4096) }
    ensures { length frame.new.items ≡ size }
{
    while frame.len() < size {
        let count = (size - frame.len()).min(PIECE);
        let _ = frame.try_extend_from_slice(&ZEROS[..count]);
    }
}

/// Reads until there is no room left or the input ends, and says how many bytes came.
fn fill<R: Source>(source: &mut R, room: &mut [u8]) -> Result<usize, ReadFailed>
    ensures failures { CountsFailures (R.failed source.old) (R.failed source.new) result }
    ensures stop { IfErr result (λ _. IsWhereItFailed (R.stopped source.new)) }
    ensures ends { EndsFill (R.ends source.old) (R.ends source.new) room.new result }
    ensures bytes { Fills (R.coming source.old) (R.coming source.new) room.new result }
{
    let mut count = 0;
    while count < room.len() {
        let more = source.read(&mut room[count..])?;
        if more == 0 {
            return Ok(count);
        }
        count += more;
    }
    Ok(count)
}
