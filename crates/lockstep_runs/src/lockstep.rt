//! A lockstep run of a program.
ghost use Rattle.std.specs.Prelude.{◌≡◌, ◌<◌, ◌≤◌, ◌↔◌, ◌⊎◌, Err, IfErr, IfOk, IsTrue, length};
ghost use Rattle.adversary.specs.Driving.{ClosedAreDue};
ghost use Rattle.round_meaning.specs.Setups.{IsLawful};
ghost use Rattle.step_book.specs.Log.{history, world_of};
ghost use Rattle.omission_explainer.specs.Verdict.{AreNodes, IsDelayBound, IsLockstep};
ghost use Rattle.lockstep_runs.specs.Changes.{AreFit, SparesCorrect};
ghost use Rattle.lockstep_runs.specs.Lockstep.{HearsFromClear, IsChangedRun, IsFit};
ghost use Rattle.lockstep_runs.specs.Lockstep.{IsLockstepRun};

use crate::changes::Changes;
use crate::course::Course;
use crate::ticking::tick;
use adversary::{Driver, RunFault, are_nodes};
use policies::Bounded;
use round_check::Checked;
use round_meaning::{NodeSet, Setup};
use run_events::{MAX_DELTA, NoMemory};
use slot_plans::Plan;
use std::alloc::Global;
use std::collections::BTreeMap;
use step_journal::Journal;

/// The most entries of a table of delays or of orders.
pub const MAX_ENTRIES: usize = 65_536;

/// The journal of a run of `ticks` ticks in which the correct nodes step in lockstep and the others
/// take no step.
///
/// In each tick, from 0 on, first each message that is due is released, by rising serials, and then
/// each correct node takes one step, in the order of the nodes from the tick's entry of `orders`
/// on, and round again. A message is due by its sender's step number and its delay, as
/// [`Bounded`] has it.
///
/// Such a run keeps lockstep and the bound on the delay, as `omission_explainer` judges them. So no
/// closed round from the clear round of the plan on omits a message between correct nodes.
///
/// An unlawful setup, a correct node that isn't one of the setup's, and a bound or a table outside
/// its limits are refused as `BadSetup`, before any memory is taken.
pub fn run_lockstep<P: Plan>(
    alloc: Global,
    program: &Checked,
    setup: &Setup,
    plan: P,
    correct: NodeSet,
    bounded: &Bounded,
    ticks: u32,
) -> Result<Journal<P>, RunFault>
    requires { IsLawful program.now.values setup.now → P.nodes plan ≡ setup.now.nodes }
    ensures bad_setup { (result ≡ Err RunFault.BadSetup)
        ↔ (IsFit program.now.values setup.now correct.bits bounded.now → ⊥) }
    ensures cause { IfErr result (λ fault. (fault ≡ RunFault.NoMemory)
        ⊎ (fault ≡ RunFault.BadSetup)) }
    ensures program { IfOk result (λ j. j.log.program ≡ program.now) }
    ensures setup { IfOk result (λ j. j.log.setup ≡ setup.now) }
    ensures plan { IfOk result (λ j. j.plan ≡ plan) }
    ensures closed { IfOk result (λ j. ClosedAreDue (P.start j.plan) j.log) }
    ensures lockstep { IfOk result (λ j. IsLockstepRun
        (world_of (P.start j.plan) j.log) bounded.now correct.bits ticks (history j.log)) }
    ensures paced { IfOk result (λ j. IsLockstep j.log.trace correct.bits) }
    ensures bound { IfOk result (λ j. IsDelayBound
        (P.start j.plan) j.log correct.bits bounded.now.delta bounded.now.gst) }
    ensures hears { IfOk result (λ j. HearsFromClear (P.receives j.plan)
        (P.start j.plan) j.log correct.bits bounded.now.delta bounded.now.gst) }
{
    if !is_fit(program, setup, correct, bounded) {
        return Err(RunFault::BadSetup);
    }
    let changes = Changes::none(alloc);
    let course = Course {
        correct,
        bounded,
        changes: &changes,
    };
    Ok(run(alloc, program, setup, plan, &course, ticks)?)
}

/// The journal of such a run with crashes, omissions and delays of single messages.
///
/// In each tick first each message that is due and isn't omitted is released, by rising serials.
/// Then the correct nodes and those that haven't stopped yet take one step each, in the order of
/// `run_lockstep`; a node that isn't correct and has no stop takes none. The correct nodes keep
/// lockstep whatever the changes are.
///
/// Also refused as `BadSetup` are a stop of a correct node or of one that the setup hasn't, and a
/// delay of a message that the run hasn't. An omission of one that it hasn't changes nothing.
pub fn run_changed_lockstep<P: Plan>(
    alloc: Global,
    program: &Checked,
    setup: &Setup,
    plan: P,
    correct: NodeSet,
    bounded: &Bounded,
    changes: &Changes,
    ticks: u32,
) -> Result<Journal<P>, RunFault>
    requires { IsLawful program.now.values setup.now → P.nodes plan ≡ setup.now.nodes }
    ensures bad_setup { (result ≡ Err RunFault.BadSetup)
        ↔ (IsFit program.now.values setup.now correct.bits bounded.now
        × AreFit setup.now correct.bits changes.now → ⊥) }
    ensures cause { IfErr result (λ fault. (fault ≡ RunFault.NoMemory)
        ⊎ (fault ≡ RunFault.BadSetup)) }
    ensures program { IfOk result (λ j. j.log.program ≡ program.now) }
    ensures setup { IfOk result (λ j. j.log.setup ≡ setup.now) }
    ensures plan { IfOk result (λ j. j.plan ≡ plan) }
    ensures closed { IfOk result (λ j. ClosedAreDue (P.start j.plan) j.log) }
    ensures lockstep { IfOk result (λ j. IsChangedRun (world_of (P.start j.plan) j.log)
        bounded.now changes.now correct.bits ticks (history j.log)) }
    ensures paced { IfOk result (λ j. IsLockstep j.log.trace correct.bits) }
    ensures bound { IfOk result (λ j. SparesCorrect correct.bits bounded.now.delta changes.now
        → IsDelayBound (P.start j.plan) j.log correct.bits bounded.now.delta bounded.now.gst) }
    ensures hears { IfOk result (λ j. SparesCorrect correct.bits bounded.now.delta changes.now
        → HearsFromClear (P.receives j.plan) (P.start j.plan) j.log correct.bits
        bounded.now.delta bounded.now.gst) }
{
    if !is_fit(program, setup, correct, bounded) || !changes.are_fit(setup, correct) {
        return Err(RunFault::BadSetup);
    }
    let course = Course {
        correct,
        bounded,
        changes,
    };
    Ok(run(alloc, program, setup, plan, &course, ticks)?)
}

pub(crate) fn is_fit(program: &Checked, setup: &Setup, correct: NodeSet, bounded: &Bounded) -> bool
    ensures { IsTrue result ↔ IsFit program.now.values setup.now correct.bits bounded.now }
{
    setup.is_lawful(program)
        && are_nodes(setup.nodes, correct)
        && 1 <= bounded.delta
        && bounded.delta <= MAX_DELTA
        && bounded.delays.as_slice().len() <= MAX_ENTRIES
        && bounded.orders.as_slice().len() <= MAX_ENTRIES
}

fn run<P: Plan>(
    alloc: Global,
    program: &Checked,
    setup: &Setup,
    plan: P,
    course: &Course<'_>,
    ticks: u32,
) -> Result<Journal<P>, NoMemory>
    requires fit { IsFit program.now.values setup.now course.now.correct.bits
        course.now.bounded.now }
    requires nodes { P.nodes plan ≡ setup.now.nodes }
    ensures program { IfOk result (λ j. j.log.program ≡ program.now) }
    ensures setup { IfOk result (λ j. j.log.setup ≡ setup.now) }
    ensures plan { IfOk result (λ j. j.plan ≡ plan) }
    ensures closed { IfOk result (λ j. ClosedAreDue (P.start j.plan) j.log) }
    ensures lockstep { IfOk result (λ j. IsChangedRun (world_of (P.start j.plan) j.log)
        course.now.bounded.now course.now.changes.now course.now.correct.bits ticks
        (history j.log)) }
    ensures paced { IfOk result (λ j. IsLockstep j.log.trace course.now.correct.bits) }
    ensures bound { let b = course.now.bounded.now in let correct = course.now.correct.bits in
        IfOk result (λ j. SparesCorrect correct b.delta course.now.changes.now
        → IsDelayBound (P.start j.plan) j.log correct b.delta b.gst) }
    ensures hears { let b = course.now.bounded.now in let correct = course.now.correct.bits in
        IfOk result (λ j. SparesCorrect correct b.delta course.now.changes.now
        → HearsFromClear (P.receives j.plan) (P.start j.plan) j.log correct b.delta b.gst) }
{
    let mut driver = Driver::open(alloc, program, setup, plan)?;
    let mut flight = BTreeMap::new(alloc);
    for now in 0..ticks {
        driver = tick(driver, &mut flight, course, now)?;
    }
    let journal = driver.into_journal();
    journal.book().agrees();
    are_below_64(course.correct.bits);
    Ok(journal)
}

/// Nothing at run time: a set of 64 bits has no member past 63.
pub(crate) fn are_below_64(members: u64)
    ensures { AreNodes 64 members }
{
    let _members = members;
}
