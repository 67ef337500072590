//! Runs of `gather` in which a policy is asked.
use crate::chosen::Chosen;
use adversary::{RunFault, run_policy};
use algorithm_library::gather;
use round_check::Checked;
use round_meaning::{NodeSet, Setup};
use run_events::PlanKind;
use schedule_text::write_stored_schedule;
use slot_plans::Known;
use std::alloc::Global;
use test_kit::{Fault, comma_numbers, nodes, number, setup};

/// The schedule of a run under a known bound.
fn trace(
    alloc: Global,
    program: &Checked,
    setup: &Setup,
    receives: u32,
    correct: NodeSet,
    policy: &mut Chosen,
    ticks: u32,
) -> Result<String, Fault> {
    let plan = Known::new(setup.nodes, receives).ok_or(Fault::Unreadable)?;
    match run_policy(alloc, program, setup, plan, correct, policy, ticks) {
        Ok(journal) => {
            let events = journal.book().trace();
            Ok(write_stored_schedule(alloc, setup, PlanKind::Known(receives), events)?)
        }
        Err(RunFault::NoMemory) => Err(Fault::NoMemory),
        Err(_) => Ok(String::from_str(alloc, "refused\n")?),
    }
}

/// The schedule of the run that the words ask for.
pub fn schedule(alloc: Global, words: &[String]) -> Result<String, Fault> {
    let [
        values,
        inputs,
        rounds,
        receives,
        correct,
        ticks,
        policy @ ..,
    ] = words
    else {
        return Err(Fault::Unreadable);
    };
    let program = gather(alloc, number(values.as_str())?)?;
    let setup = setup(alloc, inputs.as_str(), rounds.as_str())?;
    let receives = number(receives.as_str())?;
    let correct = nodes(&comma_numbers(alloc, correct.as_str())?);
    let ticks = number(ticks.as_str())?;
    let mut policy = Chosen::read(alloc, policy)?;
    trace(
        alloc,
        &program,
        &setup,
        receives,
        correct,
        &mut policy,
        ticks,
    )
}
