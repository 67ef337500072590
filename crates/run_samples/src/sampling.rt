//! Trying runs made at random.
ghost use Rattle.std.specs.Prelude.{IfOk};
ghost use Rattle.round_meaning.specs.Setups.{IsLawful};
ghost use Rattle.run_samples.specs.Found.{IsSampled};

use crate::drawing::drawn_case;
use crate::drawn::Drawn;
use crate::machine::Machine;
use crate::running::{Course, course_of, told_of};
use crate::tally::Tally;
use round_check::Checked;
use round_explorer::{AskedInputs, Counterexample, Property, Question, Watch};
use round_meaning::Setup;
use run_events::NoMemory;
use std::alloc::Global;

/// How many runs are tried, and the seed of the random numbers that they are made of.
#[derive(Clone, Copy, PartialEq, Eq, Debug)]
pub struct Sampling {
    pub count: u32,
    pub seed: u64,
}

/// What a sample shows of a property.
#[derive(Drop)]
pub enum Sampled {
    /// It fails in this run.
    Fails(Counterexample),
    /// It holds in each of this many runs that were made.
    NotFound(u32),
}

/// Whether a property fails in one of the runs that are made at random, of the setup's rounds and
/// of those asked about. If it does, the first run in which it does is told, with the first round
/// in which it does; else how many runs were made. That's `count`, unless no run can be made: if
/// `hears` is above N, or if the inputs that were drawn aren't in the part that is asked about. The
/// same arguments give the same answer.
///
/// No clause speaks of how the runs are spread, nor says that they differ. A run takes memory for
/// its omissions and the nodes' states of two rounds, and leaves none taken.
///
/// `watch` is told about every 16,384 rounds how far the samples have come: the round of the run,
/// and, both as states and as transitions, how many rounds were run. No clause speaks of that.
pub fn sample<W: Watch>(
    alloc: Global,
    program: &Checked,
    setup: &Setup,
    question: Question,
    asked: AskedInputs,
    property: Property<'_>,
    sampling: Sampling,
    watch: &W,
) -> Result<Sampled, NoMemory>
    requires { IsLawful program.now.values setup.now }
    ensures { IfOk result
        (IsSampled program.now setup.now question asked property.entry sampling.count) }
{
    let mut machine = Machine::new(alloc, program)?;
    let mut rows = Drawn::new(sampling.seed);
    let mut tally = Tally::new(watch, sampling.count);
    let mut made = 0;
    for _sample in 0..sampling.count {
        tally.begin_run();
        let dice = &mut rows.dice;
        let drawn = drawn_case(alloc, program, setup, question, asked, property, dice)?;
        let Some(case) = drawn else {
            continue;
        };
        match course_of(alloc, &mut machine, program, &case, &mut rows, &mut tally)? {
            Course::Fails(failing) => {
                return Ok(Sampled::Fails(told_of(alloc, &case, &failing)?));
            }
            Course::Holds(_path) => made += 1,
            Course::Ends => {}
        }
    }
    Ok(Sampled::NotFound(made))
}
