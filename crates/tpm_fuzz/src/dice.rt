//! Numbers at random.

ghost use Rattle.std.specs.Prelude.{◌<◌, ◌%◌};

use rand_core::utils::NextWord;
use rand_pcg::Pcg32;

/// Gives numbers at random, the same for the same seed.
#[derive(Drop)]
pub(crate) struct Dice {
    generator: Pcg32,
}

// Of the streams of the generator, the one that its author takes.
const STREAM: u64 = 54;

impl Dice {
    pub(crate) fn new(seed: u64) -> Self {
        Dice {
            generator: Pcg32::new(seed, STREAM),
        }
    }

    /// A number below this one.
    pub(crate) fn below(&mut self, bound: usize) -> usize
        requires { 0 < bound }
        ensures { result < bound }
    {
        self.generator.next_word() as usize % bound
    }

    /// Any byte.
    pub(crate) fn byte(&mut self) -> u8 {
        self.below(256) as u8
    }

    /// Whether one of so many throws it is.
    pub(crate) fn one_of(&mut self, bound: usize) -> bool
        requires { 0 < bound }
    {
        self.below(bound) == 0
    }
}
