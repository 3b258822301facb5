//! What the bytes of a way of a connection are.

ghost use Rattle.std.specs.Prelude.{◌≡◌, ◌≤◌};
ghost use Rattle.tpm_pcap.specs.Messages.{measured, of_size, bare, to_simulator, from_simulator};

use crate::numbers::{number2, number4};

/// The greatest size of a frame.
const MOST: usize = 4096;

/// What bytes are, from the beginning of a message.
#[derive(Clone, Copy)]
pub(crate) enum Measure {
    /// Less than a message.
    More,
    /// A message with a frame behind so many bytes, which has so many.
    Frame(usize, usize),
    /// A message without a frame.
    Silent,
    /// The beginning of no message.
    Broken,
}

// A message of a frame of so many bytes, with bytes before it and behind.
fn of_size(before: usize, size: usize, behind: usize, held: &[u8]) -> Measure
    requires before { before ≤ 9 }
    requires behind { behind ≤ 4 }
    ensures { result ≡ of_size before size behind held.now }
{
    if MOST < size {
        return Measure::Broken;
    }
    if held.len() == before + size + behind {
        Measure::Frame(before, size)
    } else {
        Measure::More
    }
}

fn bare(held: &[u8]) -> Measure
    ensures { result ≡ bare held.now }
{
    if held.len() < 6 {
        return Measure::More;
    }
    let size = number4(held, 2) as usize;
    if size < 10 {
        return Measure::Broken;
    }
    of_size(0, size, 0, held)
}

fn to_simulator(held: &[u8]) -> Measure
    ensures { result ≡ to_simulator held.now }
{
    if held.len() < 4 {
        return Measure::More;
    }
    match number4(held, 0) {
        20 => Measure::Silent,
        8 if held.len() < 9 => Measure::More,
        8 => of_size(9, number4(held, 5) as usize, 0, held),
        _ => Measure::Broken,
    }
}

fn from_simulator(held: &[u8]) -> Measure
    ensures { result ≡ from_simulator held.now }
{
    if held.len() < 4 {
        return Measure::More;
    }
    of_size(4, number4(held, 0) as usize, 4, held)
}

/// What bytes of a way are, from the beginning of a message.
#[tactic(auto, unfolding(crate::specs::Messages::measured))]
pub(crate) fn measured(to_tpm: bool, held: &[u8]) -> Measure
    ensures { result ≡ measured to_tpm held.now }
{
    if held.len() < 2 {
        return Measure::More;
    }
    match number2(held, 0) {
        0x8001 | 0x8002 | 0x00c4 => bare(held),
        0 if to_tpm => to_simulator(held),
        0 => from_simulator(held),
        _ => Measure::Broken,
    }
}
