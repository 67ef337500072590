//! Running a schedule on one thread.
ghost use Rattle.std.specs.Prelude.{◌≡◌, ◌↔◌, All, Err, IfErr, IfOk, IfSome, IfNone, IsTrue};
ghost use Rattle.round_meaning.specs.Setups.{IsLawful};
ghost use Rattle.adversary.specs.Driving.{ClosedAreDue, IsFaultOf, IsKnown, IsUnknownAt, RunCause};

use crate::driver::Driver;
use crate::fault::RunFault;
use round_check::Checked;
use round_meaning::Setup;
use run_events::{Event, NoMemory};
use slot_plans::Plan;
use std::alloc::Global;
use step_book::is_name;
use step_journal::Journal;

/// The journal of a schedule's events. A due round is closed at once, and steps past the last round
/// are idle. An unlawful setup is refused first, then the first event that names what the run
/// hasn't, both before any memory is taken. `NoMemory` means out of memory alone: each other
/// refusal of its own journal is proved never to come.
pub fn run_schedule<P: Plan>(
    alloc: Global,
    program: &Checked,
    setup: &Setup,
    plan: P,
    events: &[Event],
) -> Result<Journal<P>, RunFault>
    requires { IsLawful program.now.values setup.now → P.nodes plan ≡ setup.now.nodes }
    ensures bad_setup { (result ≡ Err RunFault.BadSetup)
        ↔ (IsLawful program.now.values setup.now → ⊥) }
    ensures cause { IfErr result (RunCause setup.now events.now) }
    ensures known { IfOk result (λ _answer. All (IsKnown setup.now) events.now) }
    ensures program { IfOk result (λ j. j.log.program ≡ program.now) }
    ensures setup { IfOk result (λ j. j.log.setup ≡ setup.now) }
    ensures plan { IfOk result (λ j. j.plan ≡ plan) }
    ensures trace { IfOk result (λ j. j.log.trace ≡ events.now) }
    ensures closed { IfOk result (λ j. ClosedAreDue (P.start j.plan) j.log) }
{
    if !setup.is_lawful(program) {
        return Err(RunFault::BadSetup);
    }
    if let Some(fault) = first_unknown(setup, events) {
        return Err(fault);
    }
    Ok(run(alloc, program, setup, plan, events)?)
}

/// The first event that names a node or a message which the run hasn't.
fn first_unknown(setup: &Setup, events: &[Event]) -> Option<RunFault>
    ensures some { IfSome result (IsUnknownAt setup.now events.now) }
    ensures none { IfNone result (All (IsKnown setup.now) events.now) }
{
    for (position, event) in events.iter().enumerate() {
        if !is_known(setup, *event) {
            return Some(unknown_at(*event, position));
        }
    }
    None
}

/// Why an event at this position is refused.
pub(crate) fn unknown_at(event: Event, position: usize) -> RunFault
    ensures { IsFaultOf event position result }
{
    match event {
        Event::Step(_) => RunFault::UnknownNode(position),
        Event::Release(_) | Event::Drop(_) | Event::Copy(_) => RunFault::UnknownMessage(position),
    }
}

/// Whether an event names a node or a message of the run.
pub(crate) fn is_known(setup: &Setup, event: Event) -> bool
    ensures { IsTrue result ↔ IsKnown setup.now event }
{
    match event {
        Event::Step(node) => node < setup.nodes,
        Event::Release(name) | Event::Drop(name) => is_name(setup, name),
        Event::Copy(name) => name.copy != 0 && is_name(setup, name),
    }
}

fn run<P: Plan>(
    alloc: Global,
    program: &Checked,
    setup: &Setup,
    plan: P,
    events: &[Event],
) -> Result<Journal<P>, NoMemory>
    requires lawful { IsLawful program.now.values setup.now }
    requires nodes { P.nodes plan ≡ setup.now.nodes }
    requires events { All (IsKnown setup.now) events.now }
    ensures program { IfOk result (λ j. j.log.program ≡ program.now) }
    ensures setup { IfOk result (λ j. j.log.setup ≡ setup.now) }
    ensures plan { IfOk result (λ j. j.plan ≡ plan) }
    ensures trace { IfOk result (λ j. j.log.trace ≡ events.now) }
    ensures closed { IfOk result (λ j. ClosedAreDue (P.start j.plan) j.log) }
{
    let mut driver = Driver::open(alloc, program, setup, plan)?;
    driver.reserve(events.len())?;
    Ok(driver.act_all(events)?.into_journal())
}
