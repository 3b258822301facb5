//! Frames from pieces of a stream.

ghost use Rattle.std.specs.Prelude.{◌≡◌, ◌+◌, ◌≤◌, ◌<◌, ◌++◌, [], length, min, take, ◌-◌, ◌⊎◌, MatchBool, MatchOption};
ghost use Rattle.std.specs.Prelude.{MatchResult};
ghost use Rattle.tpm_stream.specs.Frames.{stated, IsFrame, IsHeld, bad_size, Pushes, Advances};

use std::marker::Model;
use tpm_wire::Refusal;
use tpm_wire::response_code::COMMAND_SIZE;

/// The tag and the size of a buffer are its first six bytes.
pub(crate) const SIZE_END: usize = 6;

const MOST: usize = 4096;

// The bytes that came of a frame. What lies behind them is left as it is, where a buffer would be filled.
#[derive(Drop)]
struct Held {
    bytes: [u8; MOST],
    len: usize,
}

impl Model for Held {
    ghost use Rattle.std.specs.Prelude.{◌≡◌, ◌≤◌, List, ℕ, length, take};

    ghost Value = { List ℕ };

    ghost view = { λ h. take h.len h.bytes };

    ghost invariant = { λ h. (h.len ≤ 4096) × (length h.bytes ≡ 4096) };
}

impl Held {
    fn new() -> Self
        ensures { result ≡ [] }
    {
        Held {
            bytes: [0; MOST],
            len: 0,
        }
    }

    #[inline]
    fn len(&self) -> usize
        ensures value { result ≡ length self.now }
        ensures fits { result ≤ 4096 }
    {
        self.len
    }

    #[inline]
    fn as_slice(&self) -> &[u8]
        ensures { result.now ≡ self.now }
    {
        &self.bytes[..self.len]
    }

    #[inline]
    fn clear(&mut self)
        ensures { self.new ≡ [] }
    {
        self.len = 0;
    }

    // Adds the bytes at the end.
    #[inline]
    fn append(&mut self, more: &[u8])
        requires { length self.old + length more.now ≤ 4096 }
        ensures { self.new ≡ self.old ++ more.now }
    {
        let end = self.len + more.len();
        self.bytes[self.len..end].copy_from_slice(more);
        self.len = end;
    }

    // Adds bytes from the front of the piece, as long as there are fewer than `size`, and says how many these are.
    #[inline]
    fn take_up_to(&mut self, size: usize, piece: &[u8]) -> usize
        requires { size ≤ 4096 }
        ensures count { result ≡ min (size - length self.old) (length piece.now) }
        ensures held { self.new ≡ self.old ++ take result piece.now }
    {
        let count = size.saturating_sub(self.len()).min(piece.len());
        // To copy nothing is a call, too.
        if count == 0 {
            return 0;
        }
        self.append(&piece[..count]);
        count
    }
}

/// What a framer holds.
#[derive(Clone, Copy, Debug, PartialEq, Eq)]
pub enum FramerState {
    /// Less than a frame.
    More,
    /// A frame.
    Ready,
    /// The first bytes of a frame, whose size is refused: COMMAND_SIZE at 2.
    Broken(Refusal),
}

/// Splits a stream that comes in pieces into its frames: buffers of 10 to 4,096 bytes that state their size in their
/// third to sixth byte (Part 1, "Command/Response Structure"). It looks at the size alone, not at the tag.
///
/// A framer at a refused size is broken, and stays so.
#[derive(Drop)]
pub struct Framer {
    held: Held,
}

impl Model for Framer {
    ghost use Rattle.std.specs.Prelude.{List, ℕ};
    ghost use Rattle.tpm_stream.specs.Frames.{IsHeld};

    ghost Value = { List ℕ };

    ghost view = { λ f. f.held };

    ghost invariant = { λ f. IsHeld f.held };
}

impl Framer {
    /// A framer that holds nothing, at the beginning of a frame.
    pub fn new() -> Self
        ensures { result ≡ [] }
    {
        Framer { held: Held::new() }
    }

    /// Takes bytes of the piece up to the end of the present frame, and no further. The answer is how many were taken,
    /// and what is held then. A size outside of 10 to 4,096 is refused once its last byte has come. Where a frame is
    /// held, or the framer is broken, nothing is taken.
    pub fn push(&mut self, piece: &[u8]) -> (usize, FramerState)
        ensures { Pushes (record {
          old = self.old;
          piece = piece.now;
          new = self.new;
          taken = result.0;
          state = result.1;
        }) }
    {
        if self.held.len() == 0 && SIZE_END <= piece.len() {
            if let Ok(size) = stated_size(piece) {
                return begin(&mut self.held, size, piece);
            }
        }
        go_on(&mut self.held, piece)
    }

    /// The frame, where one is held.
    pub fn frame(&self) -> Option<&[u8]>
        ensures { MatchOption result (IsFrame self.now → ⊥)
            (λ frame. (frame.now ≡ self.now) × IsFrame self.now) }
    {
        if self.is_ready() {
            Some(self.held.as_slice())
        } else {
            None
        }
    }

    /// Drops the frame that is held, so that the next one can come. Where none is held, nothing changes.
    pub fn next(&mut self)
        ensures { Advances self.old self.new }
    {
        if self.is_ready() {
            self.held.clear();
        }
    }

    fn is_ready(&self) -> bool
        ensures { MatchBool result (IsFrame self.now) (IsFrame self.now → ⊥) }
    {
        let held = self.held.as_slice();
        held.len() >= SIZE_END && stated_size(held) == Ok(held.len())
    }
}

/// The size that these bytes state, or its refusal where no frame has it.
pub(crate) fn stated_size(bytes: &[u8]) -> Result<usize, Refusal>
    requires { 6 ≤ length bytes.now }
    ensures { MatchResult result
        (λ size. (size ≡ stated bytes.now) × (10 ≤ size) × (size ≤ 4096))
        (λ e. ((stated bytes.now < 10) ⊎ (4096 < stated bytes.now)) × (e ≡ bad_size)) }
{
    let size = u32::from_be_bytes([bytes[2], bytes[3], bytes[4], bytes[5]]);
    if size < 10 || size > 4096 {
        return Err(Refusal {
            code: COMMAND_SIZE,
            at: 2,
        });
    }
    Ok(size as usize)
}

// Takes bytes of a piece that begins a frame of this size.
#[inline]
fn begin(held: &mut Held, size: usize, piece: &[u8]) -> (usize, FramerState)
    requires empty { held.old ≡ [] }
    requires size { (6 ≤ length piece.now)
        × (size ≡ stated piece.now)
        × (10 ≤ size)
        × (size ≤ 4096) }
    ensures pushes { Pushes (record {
      old = [];
      piece = piece.now;
      new = held.new;
      taken = result.0;
      state = result.1;
    }) }
    ensures held { IsHeld held.new }
{
    let taken = held.take_up_to(size, piece);
    let state = if taken < size {
        FramerState::More
    } else {
        FramerState::Ready
    };
    (taken, state)
}

// Takes bytes of a piece behind what is held.
fn go_on(held: &mut Held, piece: &[u8]) -> (usize, FramerState)
    requires { IsHeld held.old }
    ensures pushes { Pushes (record {
      old = held.old;
      piece = piece.now;
      new = held.new;
      taken = result.0;
      state = result.1;
    }) }
    ensures held { IsHeld held.new }
{
    let size_bytes = held.take_up_to(SIZE_END, piece);
    if held.len() < SIZE_END {
        return (size_bytes, FramerState::More);
    }
    let size = match stated_size(held.as_slice()) {
        Ok(size) => size,
        Err(refusal) => return (size_bytes, FramerState::Broken(refusal)),
    };
    let taken = size_bytes + held.take_up_to(size, &piece[size_bytes..]);
    if held.len() < size {
        return (taken, FramerState::More);
    }
    (taken, FramerState::Ready)
}
