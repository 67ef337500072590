//! The ticks of a lockstep run.
ghost use Rattle.std.specs.Prelude.{◌≡◌, ◌+◌, ◌<◌, IfNone, IfOk, IfSome, OnOk};
ghost use Rattle.slot_plans.specs.Plan.{IsDelta};
ghost use Rattle.step_book.specs.Log.{count_of, history, world_of};
ghost use Rattle.step_book.specs.World.{IsPlan};
ghost use Rattle.run_events.specs.declared.event.Event.TheVariants as event;
ghost use Rattle.adversary.specs.Driving.{IsOneMore};
ghost use Rattle.lockstep_runs.specs.Changes.{timing_by};
ghost use Rattle.lockstep_runs.specs.Pacing.{AreSteps, IsFlightIn, IsPacedIn, IsPopped, IsSameRun};
ghost use Rattle.lockstep_runs.specs.Pacing.{NoneBefore, tick_key};

use crate::course::Course;
use adversary::Driver;
use run_events::{Event, InFlight, Name, NoMemory};
use slot_plans::Plan;
use std::collections::BTreeMap;

/// The messages in flight, by the tick in which each is due and its serial.
pub(crate) type Flight = BTreeMap<(u64, usize), Name>;

/// One tick: the releases that are due, and a step of each node that hasn't stopped.
pub(crate) fn tick<P: Plan>(
    driver: Driver<P>,
    flight: &mut Flight,
    course: &Course<'_>,
    now: u32,
) -> Result<Driver<P>, NoMemory>
    requires delta { IsDelta course.now.bounded.now.delta }
    requires paced { IsPacedIn (P.start driver.plan) driver.log
        (timing_by course.now.bounded.now course.now.changes.now course.now.correct.bits)
        now (tick_key now) flight.old }
    requires waits { NoneBefore flight.old now }
    requires steps { AreSteps (world_of (P.start driver.plan) driver.log)
        (timing_by course.now.bounded.now course.now.changes.now course.now.correct.bits)
        (history driver.log) now }
    ensures same { IfOk result (λ after. IsSameRun driver after) }
    ensures paced { IfOk result (λ after. IsPacedIn (P.start after.plan) after.log
        (timing_by course.now.bounded.now course.now.changes.now course.now.correct.bits)
        (now + 1) (tick_key (now + 1)) flight.new) }
    ensures waits { OnOk result (NoneBefore flight.new (now + 1)) }
    ensures steps { IfOk result (λ after. AreSteps (world_of (P.start after.plan) after.log)
        (timing_by course.now.bounded.now course.now.changes.now course.now.correct.bits)
        (history after.log) (now + 1)) }
{
    let mut driver = driver;
    while let Some(name) = pop_due(flight, now) {
        driver = driver.act(Event::Release(name))?;
    }
    let book = driver.journal().book();
    let nodes = book.setup().nodes;
    let first = course.bounded.orders.entry(now as usize, 0) % nodes;
    for turn in 0..nodes {
        let node = (first + turn) % nodes;
        if course.goes_on(node, now) {
            driver = step(driver, flight, course, node, now)?;
        }
    }
    Ok(driver)
}

/// The next message that is due in a tick, which leaves the flight.
fn pop_due(flight: &mut Flight, now: u32) -> Option<Name>
    ensures some { IfSome result (IsPopped flight.old flight.new now) }
    ensures none { IfNone result (NoneBefore flight.new (now + 1)) }
    ensures stays { IfNone result (flight.new ≡ flight.old) }
{
    let (&(due, _), _) = flight.first_key_value()?;
    if due > u64::from(now) {
        return None;
    }
    let (_, name) = flight.pop_first()?;
    Some(name)
}

/// A step of a node; what it sends is in flight, if it isn't omitted.
fn step<P: Plan>(
    driver: Driver<P>,
    flight: &mut Flight,
    course: &Course<'_>,
    node: u32,
    now: u32,
) -> Result<Driver<P>, NoMemory>
    requires delta { IsDelta course.now.bounded.now.delta }
    requires plan { IsPlan (world_of (P.start driver.plan) driver.log) }
    requires node { node < driver.log.setup.nodes }
    requires count { count_of driver.log node ≡ now }
    requires flight { IsFlightIn (P.start driver.plan) driver.log
        (timing_by course.now.bounded.now course.now.changes.now course.now.correct.bits)
        flight.old }
    requires waits { NoneBefore flight.old (now + 1) }
    ensures plan { IfOk result (λ after. after.plan ≡ driver.plan) }
    ensures log { IfOk result (λ after. IsOneMore driver.log after.log (event.Step node)) }
    ensures flight { IfOk result (λ after. IsFlightIn (P.start after.plan)
        after.log
        (timing_by course.now.bounded.now course.now.changes.now course.now.correct.bits)
        flight.new) }
    ensures waits { OnOk result (NoneBefore flight.new (now + 1)) }
{
    let serial = driver.journal().book().messages().len();
    let driver = driver.act(Event::Step(node))?;
    let book = driver.journal().book();
    book.agrees();
    let Some(name) = book.message_at(node, u64::from(now)) else {
        return Ok(driver);
    };
    if !book.is_flying(name) {
        return Ok(driver);
    }
    let message = InFlight {
        name,
        sent_at: now,
        serial,
    };
    let Some(due) = course.due(&message) else {
        return Ok(driver);
    };
    flight.insert((due, serial), name)?;
    Ok(driver)
}
