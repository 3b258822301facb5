//! Places in the bytes that C hands in.

ghost use Rattle.std.specs.Prelude.{◌≡◌};
ghost use Rattle.tpm_c.specs.Parts.{refusal_of};

use tpm_wire::Refusal;

// What a function says that judges bytes.
pub(crate) const DONE: u32 = 0;

pub(crate) const REFUSED: u32 = 1;

pub(crate) const NO_ROOM: u32 = 2;

pub(crate) const NO_COMMAND: u32 = 3;

/// A part of the bytes: how many are before it, and how many it has.
#[repr(C)]
#[derive(Clone, Copy)]
pub struct TpmPart {
    pub at: usize,
    pub len: usize,
}

pub(crate) const NO_PART: TpmPart = TpmPart { at: 0, len: 0 };

/// The response code and the position of a fault.
#[repr(C)]
#[derive(Clone, Copy)]
pub struct TpmRefusal {
    pub code: u32,
    pub at: u32,
}

// Tells C the fault, and answers that there is one.
pub(crate) fn refuse(refusal: &mut TpmRefusal, fault: Refusal) -> u32
    ensures fault { refusal_of refusal.new ≡ fault }
    ensures answer { result ≡ 1 }
{
    refusal.code = fault.code;
    refusal.at = fault.at;
    REFUSED
}
