//! A schedule's events, or the nodes that it has, under the plan that it names.
ghost use Rattle.std.specs.Prelude.{◌≡◌};

use crate::reading::schedule_fault;
use crate::{alone, memory, others, row};
use adversary::{Schedule, read_schedule};
use round_check::Checked;
use slot_plans::{NamedPlan, Plan};
use std::alloc::Global;
use std::sync::Wait;
use test_kit::Fault;

/// Answers under a plan.
fn answer_planned<R: Wait, P: Plan>(
    rt: &R,
    alloc: Global,
    program: &Checked,
    schedule: &Schedule,
    plan: P,
    word: &str,
) -> Result<String, Fault>
    requires { P.nodes plan ≡ schedule.now.setup.nodes }
{
    if !schedule.setup.is_lawful(program) {
        return Err(Fault::Unreadable);
    }
    match word {
        "row" => row::answer(rt, alloc, program, schedule, plan),
        "strangers" => row::answer_of_strangers(rt, alloc, program, schedule, plan),
        "alone" => alone::answer(rt, alloc, program, &schedule.setup, plan, false),
        "again" => alone::answer(rt, alloc, program, &schedule.setup, plan, true),
        "memory" => memory::answer(rt, alloc, program, &schedule.setup, plan),
        "others" => others::answer(rt, alloc, program, &schedule.setup, plan),
        _ => Err(Fault::Unreadable),
    }
}

/// The answer to one of these words on the schedule that a text is.
pub fn answer<R: Wait>(
    rt: &R,
    alloc: Global,
    program: &Checked,
    input: &str,
    word: &str,
) -> Result<String, Fault> {
    let schedule = read_schedule(alloc, input).map_err(schedule_fault)?;
    let plan = NamedPlan::new(schedule.plan, schedule.setup.nodes).ok_or(Fault::Unreadable)?;
    answer_planned(rt, alloc, program, &schedule, plan, word)
}
