//! A text while its lines are read.
ghost use Rattle.std.specs.Prelude.{◌≡◌, ◌<◌, length};
ghost use Rattle.schedule_text.specs.Outcome.{whole_header};

use crate::fault::{LineFault, ScheduleFault};
use crate::front::{first_line, front_release, front_step};
use crate::kind::Kind;
use crate::last_round::LastRound;
use crate::line::{event_of, inputs_of, number_after, pace_of, plan_of, stop_of};
use crate::pace::{Pace, Stop};
use crate::reading::{Schedule, ThreadSetup};
use round_meaning::{Inputs, Setup};
use run_events::{Event, Events, NoMemory, PlanKind};
use std::alloc::Global;

/// The numbers of a header, but for the inputs.
#[derive(Clone, Copy)]
pub(crate) struct Sizes {
    pub nodes: u32,
    pub faults: u32,
    pub rounds: u32,
}

impl Sizes {
    ghost use Rattle.schedule_text.specs.Stages.{setup_in};

    fn setup(self, inputs: Vec<u32>) -> Setup
        ensures { result ≡ setup_in self inputs.items }
    {
        Setup {
            nodes: self.nodes,
            faults: self.faults,
            inputs: Inputs::new(inputs),
            rounds: self.rounds,
        }
    }
}

/// How far the header and the pace behind it have come: what their lines say so far, but for the
/// inputs.
#[derive(Clone, Copy)]
pub(crate) enum Stage {
    Start,
    Nodes(u32),
    Faults { nodes: u32, faults: u32 },
    Inputs { nodes: u32, faults: u32 },
    Rounds(Sizes),
    Whole(Sizes, PlanKind),
    Paced(Sizes, PlanKind, Pace),
}

/// What is read so far.
#[derive(Drop)]
pub(crate) struct Draft {
    pub stage: Stage,
    pub inputs: Vec<u32>,
    pub events: Events,
    pub stops: Vec<Stop>,
}

impl Draft {
    ghost use Rattle.std.specs.Prelude.{◌≢◌, Err, IfOk};
    ghost use Rattle.schedule_text.specs.Intakes.{header_in};
    ghost use Rattle.schedule_text.specs.Stages as spec;
    ghost use Rattle.schedule_text.specs.Outcome.{Gives, GivesFront, GivesHeader, GivesState};
    ghost use Rattle.schedule_text.specs.Outcome.{GivesThreads, state_of};
    ghost use Rattle.schedule_text.specs.declared.kind.Kind.TheVariants as kinds;

    /// Nothing read.
    pub(crate) fn new(alloc: Global) -> Draft
        ensures { state_of result ≡ spec.start }
    {
        Draft {
            stage: Stage::Start,
            inputs: Vec::new(alloc),
            events: Events::new(alloc),
            stops: Vec::new(alloc),
        }
    }

    /// Takes in the first line of a text of this kind and answers what follows it; a draft that has
    /// refused one is of no use. The last round is that of the lines before.
    pub(crate) fn read_front<'a>(
        &mut self,
        alloc: Global,
        kind: Kind,
        text: &'a [u8],
        last: &mut LastRound,
    ) -> Result<&'a [u8], LineFault>
        requires { 0 < length text.now }
        ensures { GivesFront kind result (state_of self.old) self.new text.now }
    {
        if let Kind::Schedule = kind {
            if let Stage::Whole(..) = self.stage {
                // Most lines are events, so these are read without a look for the line's end. Each
                // kind is stored at a place of its own, if its bytes need no further test.
                if let Some((node, rest)) = front_step(text) {
                    self.events.push(Event::Step(node))?;
                    return Ok(rest);
                }
                if let Some((name, rest)) = front_release(text, last) {
                    self.events.push(Event::Release(name))?;
                    return Ok(rest);
                }
            }
        }
        let (line, rest) = first_line(text);
        self.read_line(alloc, kind, line)?;
        Ok(rest)
    }

    // It stands apart, so that the registers are left to the lines that are read without it.
    #[inline(never)]
    #[tactic(auto, unfolding(crate::specs::Stages::line_step))]
    fn read_line(&mut self, alloc: Global, kind: Kind, line: &[u8]) -> Result<(), LineFault>
        ensures { GivesState result self.new (spec.line_step kind (state_of self.old) line.now) }
    {
        match line {
            [] => Ok(()),
            [b'#', ..] => Ok(()),
            text => self.read_content(alloc, kind, text),
        }
    }

    fn read_content(&mut self, alloc: Global, kind: Kind, line: &[u8]) -> Result<(), LineFault>
        ensures { GivesState result self.new
            (spec.by_stage kind self.old.stage (state_of self.old) line.now) }
    {
        match self.stage {
            Stage::Start => self.stage = Stage::Nodes(number_after(line, b"nodes ")?),
            Stage::Nodes(nodes) => {
                let faults = number_after(line, b"faults ")?;
                self.stage = Stage::Faults { nodes, faults };
            }
            Stage::Faults { nodes, faults } => {
                self.inputs = inputs_of(alloc, line)?;
                self.stage = Stage::Inputs { nodes, faults };
            }
            Stage::Inputs { nodes, faults } => {
                let rounds = number_after(line, b"rounds ")?;
                self.stage = Stage::Rounds(Sizes {
                    nodes,
                    faults,
                    rounds,
                });
            }
            Stage::Rounds(sizes) => self.stage = Stage::Whole(sizes, plan_of(line)?),
            Stage::Whole(sizes, plan) => match kind {
                Kind::Schedule => self.events.push(event_of(line)?)?,
                Kind::Threads => self.stage = Stage::Paced(sizes, plan, pace_of(line)?),
                Kind::Header => return Err(LineFault::Bad),
            },
            Stage::Paced(..) => self.stops.push(stop_of(line)?)?,
        }
        Ok(())
    }

    /// The schedule, if the header is whole; else the fault at the line past the last.
    pub(crate) fn schedule(self, number: u64) -> Result<Schedule, ScheduleFault>
        ensures ended { Gives result
            (spec.answer_at_end kinds.Schedule number self.stage (state_of self)) }
        ensures short { result ≢ Err ScheduleFault.TooLong }
    {
        let Draft {
            stage,
            inputs,
            events,
            ..
        } = self;
        let (setup, plan) = header_of(stage, inputs, number)?;
        Ok(Schedule {
            setup,
            plan,
            events,
        })
    }

    /// The thread setup, if the pace was read; else the fault at the line past the last.
    pub(crate) fn threads(self, number: u64) -> Result<ThreadSetup, ScheduleFault>
        ensures ended { GivesThreads result
            (spec.answer_at_end kinds.Threads number self.stage (state_of self)) }
        ensures short { result ≢ Err ScheduleFault.TooLong }
    {
        let Draft {
            stage,
            inputs,
            stops,
            ..
        } = self;
        let Stage::Paced(sizes, plan, pace) = stage else {
            return Err(ScheduleFault::BadLine(number));
        };
        Ok(ThreadSetup {
            setup: sizes.setup(inputs),
            plan,
            pace,
            stops,
        })
    }

    /// The header so far, if it is whole.
    pub(crate) fn whole_header(&self, alloc: Global) -> Result<Option<(Setup, PlanKind)>, NoMemory>
        ensures { IfOk result (λ header. header ≡ header_in self.now) }
    {
        match self.stage {
            Stage::Whole(sizes, plan) => {
                let inputs = self.inputs.to_vec(alloc)?;
                Ok(Some((sizes.setup(inputs), plan)))
            }
            _ => Ok(None),
        }
    }

    /// The header, if it is whole; else the fault at the line past the last.
    pub(crate) fn header(self, number: u64) -> Result<(Setup, PlanKind), ScheduleFault>
        ensures ended { GivesHeader result
            (spec.answer_at_end kinds.Header number self.stage (state_of self)) }
        ensures short { result ≢ Err ScheduleFault.TooLong }
    {
        let Draft { stage, inputs, .. } = self;
        header_of(stage, inputs, number)
    }
}

/// The header that stands at this stage, if it is whole; else the fault at this line.
fn header_of(
    stage: Stage,
    inputs: Vec<u32>,
    number: u64,
) -> Result<(Setup, PlanKind), ScheduleFault>
    ensures { result ≡ whole_header number stage inputs.items }
{
    match stage {
        Stage::Whole(sizes, plan) => Ok((sizes.setup(inputs), plan)),
        _ => Err(ScheduleFault::BadLine(number)),
    }
}
