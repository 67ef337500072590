//! The run of a schedule.
ghost use Rattle.std.specs.Prelude.{◌≡◌};

use crate::asking::Question;
use crate::sources::program_of;
use adversary::{RunFault, ScheduleFault, read_schedule, run_schedule};
use round_check::Checked;
use round_meaning::Setup;
use run_events::Event;
use slot_plans::{NamedPlan, Plan};
use std::alloc::Global;
use std::rt::Files;
use test_kit::Fault;

/// A run of single steps: a program, its setup, and what happens, as the text of its schedule too.
#[derive(Clone, Copy)]
struct Run<'r> {
    program: &'r Checked,
    setup: &'r Setup,
    events: &'r [Event],
    schedule: &'r str,
}

impl Run<'_> {
    fn tell<P: Plan>(
        &self,
        alloc: Global,
        plan: P,
        question: &Question<'_>,
        out: &mut Vec<u8>,
    ) -> Result<(), Fault>
        requires { P.nodes plan ≡ self.now.setup.now.nodes }
    {
        match run_schedule(alloc, self.program, self.setup, plan, self.events) {
            Ok(journal) => question.answer(alloc, &journal, self.schedule, out),
            Err(RunFault::NoMemory) => Err(Fault::NoMemory),
            Err(_) => Err(Fault::Unreadable),
        }
    }
}

/// Tells of the run of a schedule's text what is asked.
pub(crate) fn tell_run<R: Files + AllocGlobal>(
    rt: &R,
    alloc: Global,
    question: &Question<'_>,
    text: &str,
    out: &mut Vec<u8>,
) -> Result<(), Fault> {
    let schedule = match read_schedule(alloc, text) {
        Ok(schedule) => schedule,
        Err(ScheduleFault::NoMemory) => return Err(Fault::NoMemory),
        Err(_) => return Err(Fault::Unreadable),
    };
    let program = program_of(rt, alloc, question.source, &schedule.setup)?;
    let events = schedule.events.to_vec(alloc)?;
    let run = Run {
        program: &program,
        setup: &schedule.setup,
        events: events.as_slice(),
        schedule: text,
    };
    let plan = NamedPlan::new(schedule.plan, schedule.setup.nodes).ok_or(Fault::Unreadable)?;
    run.tell(alloc, plan, question, out)
}
