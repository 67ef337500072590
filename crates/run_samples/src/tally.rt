//! What is counted of the samples, for those who are told how far they have come.
use round_explorer::{Progress, Watch};

/// After so many rounds the next note is due.
const MANY: u64 = 16_384;

/// How many rounds were run, and who is told. Nothing rests on it, so no contract speaks of it.
#[derive(Drop)]
pub(crate) struct Tally<'a, W> {
    watch: &'a W,
    /// The number of the run that is made, from 1, and of all.
    run: u64,
    runs: u64,
    rounds: u64,
    /// How many rounds there were at the last note.
    noted: u64,
}

impl<'a, W: Watch> Tally<'a, W> {
    /// Nothing yet, of so many runs.
    pub(crate) fn new(watch: &'a W, runs: u32) -> Tally<'a, W> {
        Tally {
            watch,
            run: 0,
            runs: u64::from(runs),
            rounds: 0,
            noted: 0,
        }
    }

    /// Begins with another run.
    pub(crate) fn begin_run(&mut self) {
        self.run = self.run.saturating_add(1);
    }

    /// How many rounds were run.
    pub(crate) fn rounds(&self) -> u64 {
        self.rounds
    }

    /// Counts a round of a run, and tells if it's a while since the last note.
    pub(crate) fn count(&mut self, round: u32) {
        self.rounds = self.rounds.saturating_add(1);
        if self.rounds.saturating_sub(self.noted) >= MANY {
            self.noted = self.rounds;
            self.watch.note(Progress {
                case: self.run,
                cases: self.runs,
                round,
                states: self.rounds,
                transitions: self.rounds,
            });
        }
    }
}
