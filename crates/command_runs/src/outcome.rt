//! How a command ends that was carried out.
ghost use Rattle.std.specs.Prelude.{◌≡◌};
ghost use Rattle.command_runs.specs.InRounds.{code_of, outcome_of};

use exploration_texts::{Told, first_failure};

/// How a command ends that was carried out.
#[derive(Clone, Copy, Debug, PartialEq, Eq)]
pub enum Outcome {
    /// It did what it was asked.
    Done,
    /// It did, and a property that was asked about fails.
    No,
}

impl Outcome {
    /// That of what is told.
    pub fn of(told: &[Told]) -> Outcome
        ensures { result ≡ outcome_of told.now }
    {
        match first_failure(told) {
            None => Outcome::Done,
            Some(_) => Outcome::No,
        }
    }

    /// The exit status.
    pub fn status(self) -> u8
        ensures { result ≡ code_of self }
    {
        match self {
            Outcome::Done => 0,
            Outcome::No => 5,
        }
    }
}
