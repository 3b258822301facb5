//! A framer in the caller's memory (Part 1, "Command/Response Structure": a buffer states its size).

ghost use Rattle.std.specs.Prelude.{◌≡◌, ℕ, List, []};
ghost use Rattle.std.specs.Borrow.{sem};
ghost use denote.RawPtr.{room_at};
ghost use Rattle.tpm_stream.specs.Frames.{Pushes};
ghost use Rattle.tpm_stream.specs.declared.framer.FramerState.{FramerState as StateOf};
ghost use Rattle.tpm_stream.specs.contracts.framer.Framer.{the_row};
ghost use Rattle.tpm_c.specs.Framers.{framer_at, next_at, pushed_at, status_number, FrameIn};

use crate::handed::put;
use tpm_stream::{Framer, FramerState};

/// Makes a framer in the room, which holds nothing.
#[unsafe(no_mangle)]
pub unsafe extern "C" fn tpm_framer_init(place: *mut u8)
    requires* { sem 𝓛 (room_at the_row place) }
    ensures* { sem 𝓛 (framer_at [] place) }
{
    std::ptr::write(place as *mut Framer, Framer::new());
}

/// Takes bytes of the piece up to the end of the present frame, and says how many. The status is
/// then 0 for less than a frame, 1 for a frame, and 2 for a size that is refused, after which
/// nothing more is taken.
#[unsafe(no_mangle)]
pub unsafe extern "C" fn tpm_framer_push(place: *mut u8, piece: &[u8], status: &mut u32) -> usize
    ghost held: { List ℕ }
    requires* { sem 𝓛 (framer_at held place) }
    ensures* { sem 𝓛 (pushed_at held
        (record { piece = piece.now; taken = result; status = status.new }) place) }
{
    push(&mut *(place as *mut Framer), piece, status)
}

fn push(framer: &mut Framer, piece: &[u8], status: &mut u32) -> usize
    ensures { (s : StateOf)
        × Pushes (record {
          old = framer.old;
          piece = piece.now;
          new = framer.new;
          taken = result;
          state = s;
        })
        × (status.new ≡ status_number s) }
{
    let (taken, held) = framer.push(piece);
    *status = number(held);
    taken
}

fn number(state: FramerState) -> u32
    ensures { result ≡ status_number state }
{
    match state {
        FramerState::More => 0,
        FramerState::Ready => 1,
        FramerState::Broken(_) => 2,
    }
}

/// Writes the frame that is held to the beginning of `out`, and answers how many bytes it has; or
/// writes nothing and answers 0, where none is held or `out` has less room.
#[unsafe(no_mangle)]
pub unsafe extern "C" fn tpm_framer_frame(place: *mut u8, out: &mut [u8]) -> usize
    ghost held: { List ℕ }
    requires* { sem 𝓛 (framer_at held place) }
    ensures* { sem 𝓛 (framer_at held place) ∗ ⌜ FrameIn held out.old out.new result ⌝ }
{
    frame(&mut *(place as *mut Framer), out)
}

fn frame(framer: &mut Framer, out: &mut [u8]) -> usize
    ensures { FrameIn framer.old out.old out.new result × (framer.new ≡ framer.old) }
{
    match framer.frame() {
        Some(frame) if frame.len() <= out.len() => put(out, frame),
        _ => 0,
    }
}

/// Drops the frame that is held, so that the next one can come. Where none is held, nothing changes.
#[unsafe(no_mangle)]
pub unsafe extern "C" fn tpm_framer_next(place: *mut u8)
    ghost held: { List ℕ }
    requires* { sem 𝓛 (framer_at held place) }
    ensures* { sem 𝓛 (next_at held place) }
{
    (*(place as *mut Framer)).next();
}
