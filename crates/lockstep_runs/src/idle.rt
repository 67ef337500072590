//! Runs whose last ticks, in which nothing happens but idle steps, aren't kept.
ghost use Rattle.std.specs.Prelude.{◌≡◌, ◌-◌, ◌≤◌, ◌↔◌, ◌⊎◌, Err, IfErr, IfOk};
ghost use Rattle.round_meaning.specs.Setups.{IsLawful};
ghost use Rattle.lockstep_runs.specs.Changes.{AreFit, timing_by};
ghost use Rattle.lockstep_runs.specs.IdleTicks.{IsWholeRun, followed, idle_steps};
ghost use Rattle.lockstep_runs.specs.Lockstep.{IsFit};

use crate::changes::Changes;
use crate::course::Course;
use crate::lockstep::{are_below_64, is_fit};
use crate::ticking::tick;
use adversary::{Driver, RunFault};
use policies::Bounded;
use round_check::Checked;
use round_meaning::{NodeSet, Setup};
use run_events::NoMemory;
use slot_plans::Plan;
use std::alloc::Global;
use std::collections::BTreeMap;
use step_journal::Journal;

/// The journal of such a run as that of `run_changed_lockstep`, up to the first tick by which all
/// rounds are over and nothing is in flight, and the number of ticks that it has.
///
/// In each of the other ticks up to `ticks` nothing happens but an idle step of each node that
/// hasn't stopped, which [`Course::step_of`] names turn by turn. So a run of any number of ticks
/// takes no more memory than its rounds do.
pub fn run_until_idle<P: Plan>(
    alloc: Global,
    program: &Checked,
    setup: &Setup,
    plan: P,
    course: &Course<'_>,
    ticks: u32,
) -> Result<(Journal<P>, u32), RunFault>
    requires { IsLawful program.now.values setup.now → P.nodes plan ≡ setup.now.nodes }
    ensures bad_setup { (result ≡ Err RunFault.BadSetup)
        ↔ (IsFit program.now.values setup.now course.now.correct.bits course.now.bounded.now
        × AreFit setup.now course.now.correct.bits course.now.changes.now → ⊥) }
    ensures cause { IfErr result (λ fault. (fault ≡ RunFault.NoMemory)
        ⊎ (fault ≡ RunFault.BadSetup)) }
    ensures program { IfOk result (λ kept. kept.0.log.program ≡ program.now) }
    ensures setup { IfOk result (λ kept. kept.0.log.setup ≡ setup.now) }
    ensures plan { IfOk result (λ kept. kept.0.plan ≡ plan) }
    ensures few { IfOk result (λ kept. kept.1 ≤ ticks) }
    ensures whole { let b = course.now.bounded.now in let changes = course.now.changes.now in
        let correct = course.now.correct.bits in
        IfOk result (λ kept. IsWholeRun (P.start kept.0.plan) (P.receives kept.0.plan) b changes
        correct ticks (followed kept.0.log
        (idle_steps (timing_by b changes correct) setup.now.nodes kept.1 (ticks - kept.1)))) }
{
    if !is_fit(program, setup, course.correct, course.bounded)
        || !course.changes.are_fit(setup, course.correct)
    {
        return Err(RunFault::BadSetup);
    }
    Ok(run(alloc, program, setup, plan, course, ticks)?)
}

fn run<P: Plan>(
    alloc: Global,
    program: &Checked,
    setup: &Setup,
    plan: P,
    course: &Course<'_>,
    ticks: u32,
) -> Result<(Journal<P>, u32), NoMemory>
    requires fit { IsFit program.now.values setup.now course.now.correct.bits
        course.now.bounded.now }
    requires nodes { P.nodes plan ≡ setup.now.nodes }
    ensures program { IfOk result (λ kept. kept.0.log.program ≡ program.now) }
    ensures setup { IfOk result (λ kept. kept.0.log.setup ≡ setup.now) }
    ensures plan { IfOk result (λ kept. kept.0.plan ≡ plan) }
    ensures few { IfOk result (λ kept. kept.1 ≤ ticks) }
    ensures whole { let b = course.now.bounded.now in let changes = course.now.changes.now in
        let correct = course.now.correct.bits in
        IfOk result (λ kept. IsWholeRun (P.start kept.0.plan) (P.receives kept.0.plan) b changes
        correct ticks (followed kept.0.log
        (idle_steps (timing_by b changes correct) setup.now.nodes kept.1 (ticks - kept.1)))) }
{
    let over = plan.start(setup.rounds + 1);
    let mut driver = Driver::open(alloc, program, setup, plan)?;
    let mut flight = BTreeMap::new(alloc);
    let mut now = 0;
    while now < ticks && (now < over || !flight.is_empty()) {
        driver = tick(driver, &mut flight, course, now)?;
        now += 1;
    }
    let journal = driver.into_journal();
    let book = journal.book();
    book.agrees();
    book.is_book();
    are_below_64(course.correct.bits);
    Ok((journal, now))
}
