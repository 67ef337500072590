//! Random numbers.
ghost use Rattle.std.specs.Prelude.{◌<◌};

use rand_core::{Rng, SeedableRng};
use rand_pcg::Pcg32;
use round_meaning::NodeSet;

/// How often something happens.
#[derive(Clone, Copy, PartialEq, Eq, Debug)]
pub(crate) enum Rate {
    Never,
    Rarely,
    InOneOfFour,
    InOneOfTwo,
    Mostly,
}

impl Rate {
    /// It happens if a random number of 32 bits is below this.
    fn limit(self) -> u32 {
        match self {
            Rate::Never => 0,
            Rate::Rarely => 1 << 26,
            Rate::InOneOfFour => 1 << 30,
            Rate::InOneOfTwo => 1 << 31,
            Rate::Mostly => 7 << 29,
        }
    }
}

/// A generator of random numbers: the same ones for the same seed. That they are random is no
/// contract's claim.
#[derive(Drop)]
pub(crate) struct Dice {
    numbers: Pcg32,
}

impl Dice {
    pub(crate) fn new(seed: u64) -> Dice {
        Dice {
            numbers: Pcg32::seed_from_u64(seed),
        }
    }

    /// A number below the limit.
    pub(crate) fn below(&mut self, limit: u32) -> u32
        requires { 0 < limit }
        ensures { result < limit }
    {
        self.numbers.next_u32() % limit
    }

    pub(crate) fn happens(&mut self, rate: Rate) -> bool {
        self.numbers.next_u32() < rate.limit()
    }

    /// A set of nodes below 32, each in it or not as a coin falls.
    pub(crate) fn side(&mut self) -> NodeSet {
        NodeSet {
            bits: u64::from(self.numbers.next_u32()),
        }
    }
}
