//! What the chapters of Part 3 have of their own: structures of parameters, and replies of more than one.

ghost use Rattle.std.specs.Prelude.{◌≡◌, ◌≤◌, ◌++◌, ◌∷◌, [], ℕ, length, IfOk, OnOk};
ghost use Rattle.tpm_wire.specs.Spelling.{spelling, Fits};
ghost use Rattle.tpm_wire.specs.Buffers.{TakesNumbered, numbered};
ghost use Rattle.tpm_wire.specs.ResponseCodes.{of_parameter as number_of_parameter};
ghost use Rattle.tpm_wire.specs.Structures.{sized_bytes};
ghost use Rattle.tpm_commands.specs.Events.{event_bytes};

pub(crate) mod nv;
pub(crate) mod pcr;
mod policy;
pub(crate) mod session;
mod startup;

pub use nv::{NvDefineSpace, NvRead};
pub use pcr::{EVENT_BYTES, Event, read_pcr_extend};
pub use policy::PolicyPcr;
pub use session::StartParams;
pub use startup::take_startup;
use tpm_types::{Digest, OrDigests};
use tpm_wire::response_code::of_parameter;
use tpm_wire::{Cursor, Refusal, Wire};

// ---- parameters

/// The parameter of this number, counted from 1, or its first fault.
#[inline(always)]
pub(crate) fn take_parameter<T: Wire>(cursor: &mut Cursor<'_>, number: u32) -> Result<T, Refusal>
    requires { number ≤ 15 }
    ensures reads { TakesNumbered (λ x. x) (numbered (number_of_parameter number) T.layout)
        cursor.old cursor.new result }
    ensures spelled { IfOk result
        (λ x. cursor.old.here.rest ≡ spelling T.layout x ++ cursor.new.here.rest) }
{
    cursor.number(of_parameter(number));
    T::take(cursor)
}

/// Reads it in the place of another one, or answers its first fault.
#[inline(always)]
pub(crate) fn read_parameter<T: Wire + Drop>(
    cursor: &mut Cursor<'_>,
    number: u32,
    parameter: &mut T,
) -> Result<(), Refusal>
    requires { number ≤ 15 }
    ensures reads { TakesNumbered (λ _. parameter.new)
        (numbered (number_of_parameter number) T.layout)
        cursor.old cursor.new result }
    ensures spelled { OnOk result
        (cursor.old.here.rest ≡ spelling T.layout parameter.new ++ cursor.new.here.rest) }
{
    cursor.number(of_parameter(number));
    parameter.read(cursor)
}

/// The only parameter, out of line.
#[inline(never)]
pub(crate) fn take_only<T: Wire>(cursor: &mut Cursor<'_>) -> Result<T, Refusal>
    ensures reads { TakesNumbered (λ x. x) (numbered (number_of_parameter 1) T.layout)
        cursor.old cursor.new result }
    ensures spelled { IfOk result
        (λ x. cursor.old.here.rest ≡ spelling T.layout x ++ cursor.new.here.rest) }
{
    take_parameter(cursor, 1)
}

/// Reads the only parameter in the place of another one.
#[inline(always)]
pub(crate) fn read_only<T: Wire + Drop>(
    cursor: &mut Cursor<'_>,
    only: &mut T,
) -> Result<(), Refusal>
    ensures reads { TakesNumbered (λ _. only.new) (numbered (number_of_parameter 1) T.layout)
        cursor.old cursor.new result }
    ensures spelled { OnOk result
        (cursor.old.here.rest ≡ spelling T.layout only.new ++ cursor.new.here.rest) }
{
    read_parameter(cursor, 1, only)
}

/// The digests of a TPM2_PolicyOR that others are read in the place of: two, which are empty.
pub(crate) fn two_digests() -> OrDigests
    ensures { result ≡ [] ∷ [] ∷ [] }
{
    match OrDigests::new(&[Digest::default(), Digest::default()]) {
        Some(digests) => digests,
        None => unreachable!(),
    }
}

/// The event that is read.
#[inline(never)]
pub(crate) fn take_event<'a>(cursor: &mut Cursor<'a>) -> Result<Event<'a>, Refusal>
    ensures reads { TakesNumbered (λ e. e) (numbered (number_of_parameter 1) (sized_bytes event_bytes))
        cursor.old cursor.new result }
    ensures spelled { IfOk result
        (λ e. cursor.old.here.rest
        ≡ spelling (sized_bytes event_bytes) e ++ cursor.new.here.rest) }
{
    cursor.number(of_parameter(1));
    Event::take(cursor)
}

/// How many bytes its spelling has, which it has whatever is left.
#[inline(always)]
pub(crate) fn known_len<T: Wire>(value: &T) -> usize
    ensures value { result ≡ length (spelling T.layout value.now) }
    ensures fits { result ≤ T.most }
    ensures spelled { (left : ℕ) → Fits left T.layout value.now }
{
    value.has_spelling();
    value.len()
}
