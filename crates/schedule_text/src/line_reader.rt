//! The lines of a text, read one after another.
ghost use Rattle.std.specs.Prelude.{◌≡◌, ◌≢◌, ◌+◌, ◌≤◌, Err, length};
ghost use Rattle.schedule_text.specs.Outcome.{GivesLines, state_of};
ghost use Rattle.schedule_text.specs.Stages as spec;
ghost use Rattle.schedule_text.specs.Texts.{max_text};

use crate::draft::Draft;
use crate::fault::ScheduleFault;
use crate::kind::Kind;
use crate::last_round::LastRound;
use std::alloc::Global;

/// What the lines so far say, and the number of the next one.
#[derive(Drop)]
pub(crate) struct LineReader {
    pub draft: Draft,
    pub number: u64,
}

impl LineReader {
    /// Before the first line.
    pub(crate) fn new(alloc: Global) -> LineReader
        ensures number { result.number ≡ 1 }
        ensures start { state_of result.draft ≡ spec.start }
    {
        LineReader {
            draft: Draft::new(alloc),
            number: 1,
        }
    }

    /// Takes in the lines of a text of this kind; a reader that has refused one is of no use.
    pub(crate) fn read(
        &mut self,
        alloc: Global,
        kind: Kind,
        text: &[u8],
    ) -> Result<(), ScheduleFault>
        requires { self.old.number + length text.now ≤ max_text + 1 }
        ensures number { self.new.number ≤ self.old.number + length text.now }
        ensures read { GivesLines kind result self.old self.new text.now }
        ensures short { result ≢ Err ScheduleFault.TooLong }
    {
        let mut number = self.number;
        let mut rest = text;
        let mut last = LastRound::new();
        while !rest.is_empty() {
            match self.draft.read_front(alloc, kind, rest, &mut last) {
                Ok(behind) => rest = behind,
                Err(fault) => return Err(fault.at(number)),
            }
            number += 1;
        }
        self.number = number;
        Ok(())
    }
}
