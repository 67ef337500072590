//! Runs in which a policy decides what the network does, on one thread.
ghost use Rattle.std.specs.Prelude.{◌≡◌, ℕ, ◌<◌, ◌⊎◌, ◌↔◌, Err, IfErr, IfOk, IfSome, IsTrue, None};
ghost use Rattle.std.specs.Prelude.{Option, length, true, ◌≤◌};
ghost use Rattle.round_meaning.specs.Nodes.{has_node};
ghost use Rattle.round_meaning.specs.Setups.{IsLawful};
ghost use Rattle.step_book.specs.Flight.{IsFlight};
ghost use Rattle.step_book.specs.Log.{opened};
ghost use Rattle.step_book.specs.Names.{IsName};
ghost use Rattle.policies.specs.declared.policy.Choice.TheVariants as choice;
ghost use Rattle.adversary.specs.Asking.{AnswerComesTo, HasStepped, IsAsked, IsAskedOut};
ghost use Rattle.adversary.specs.Asking.{IsAtPlace, IsFitFor, RunsAsked};
ghost use Rattle.adversary.specs.Driving.{ClosedAreDue, IsKnown};

use crate::driver::Driver;
use crate::fault::RunFault;
use policies::{Choice, Policy};
use round_check::Checked;
use round_meaning::{NodeSet, Setup};
use run_events::{Event, InFlight, Name, NoMemory};
use slot_plans::Plan;
use std::alloc::Global;
use step_book::Book;
use step_journal::Journal;

/// The journal of a run of `ticks` ticks in which a policy decides what the network does.
///
/// In each tick the policy is asked over what is in flight until it has no choice that comes to an
/// event, at most 4,294,967,295 times, and then each correct node takes one step, in rising order;
/// the others take none. It looks through all messages for each question, so it's for short runs.
///
/// An unlawful setup, and a correct node that isn't one of the setup's, are refused as `BadSetup`,
/// before any memory is taken.
pub fn run_policy<P: Plan, Q: Policy>(
    alloc: Global,
    program: &Checked,
    setup: &Setup,
    plan: P,
    correct: NodeSet,
    policy: &mut Q,
    ticks: u32,
) -> Result<Journal<P>, RunFault>
    requires { IsLawful program.now.values setup.now → P.nodes plan ≡ setup.now.nodes }
    ensures bad_setup { (result ≡ Err RunFault.BadSetup)
        ↔ (IsFitFor program.now.values setup.now correct.bits → ⊥) }
    ensures cause { IfErr result (λ fault. (fault ≡ RunFault.NoMemory)
        ⊎ (fault ≡ RunFault.BadSetup)) }
    ensures plan { IfOk result (λ j. j.plan ≡ plan) }
    ensures closed { IfOk result (λ j. ClosedAreDue (P.start j.plan) j.log) }
    ensures asked { IfOk result (λ j. RunsAsked Q.chooses (P.start j.plan) correct.bits policy.old
        (opened program.now setup.now) ticks policy.new j.log) }
{
    if !setup.is_lawful(program) || !are_nodes(setup.nodes, correct) {
        return Err(RunFault::BadSetup);
    }
    Ok(run(alloc, program, setup, plan, correct, policy, ticks)?)
}

/// Whether each member is below the number of nodes.
pub fn are_nodes(nodes: u32, members: NodeSet) -> bool
    ensures { IsTrue result ↔ ((i : ℕ) → has_node members.bits i ≡ true → i < nodes) }
{
    for node in nodes..64 {
        if members.contains(node) {
            return false;
        }
    }
    true
}

fn run<P: Plan, Q: Policy>(
    alloc: Global,
    program: &Checked,
    setup: &Setup,
    plan: P,
    correct: NodeSet,
    policy: &mut Q,
    ticks: u32,
) -> Result<Journal<P>, NoMemory>
    requires lawful { IsLawful program.now.values setup.now }
    requires nodes { P.nodes plan ≡ setup.now.nodes }
    ensures plan { IfOk result (λ j. j.plan ≡ plan) }
    ensures closed { IfOk result (λ j. ClosedAreDue (P.start j.plan) j.log) }
    ensures asked { IfOk result (λ j. RunsAsked Q.chooses (P.start j.plan) correct.bits policy.old
        (opened program.now setup.now) ticks policy.new j.log) }
{
    let mut driver = Driver::open(alloc, program, setup, plan)?;
    for now in 0..ticks {
        driver = ask_out(alloc, driver, policy, now)?;
        driver = step_all(driver, correct)?;
    }
    Ok(driver.into_journal())
}

/// A step of each correct node.
fn step_all<P: Plan>(driver: Driver<P>, correct: NodeSet) -> Result<Driver<P>, NoMemory>
    ensures plan { IfOk result (λ after. after.plan ≡ driver.plan) }
    ensures stepped { IfOk result (λ after. HasStepped correct.bits driver.log after.log) }
{
    let nodes = driver.journal().book().setup().nodes;
    let mut driver = driver;
    for node in 0..nodes {
        if correct.contains(node) {
            driver = driver.act(Event::Step(node))?;
        }
    }
    Ok(driver)
}

/// Asks the policy in a tick until no event comes of its answer.
fn ask_out<P: Plan, Q: Policy>(
    alloc: Global,
    driver: Driver<P>,
    policy: &mut Q,
    now: u32,
) -> Result<Driver<P>, NoMemory>
    ensures plan { IfOk result (λ after. after.plan ≡ driver.plan) }
    ensures asked { IfOk result (λ after. IsAskedOut Q.chooses (P.start driver.plan) now policy.old
        driver.log policy.new after.log) }
{
    let mut driver = driver;
    for question in 0..u32::MAX {
        let Some(event) = ask(alloc, driver.journal(), policy, now)? else {
            return Ok(driver);
        };
        driver = driver.act(event)?;
    }
    Ok(driver)
}

/// Asks the policy once: the event that its answer comes to.
fn ask<P: Plan, Q: Policy>(
    alloc: Global,
    journal: &Journal<P>,
    policy: &mut Q,
    now: u32,
) -> Result<Option<Event>, NoMemory>
    ensures known { IfOk result (λ answer. IfSome answer (IsKnown journal.now.log.setup)) }
    ensures asked { IfOk result (IsAsked Q.chooses (P.start journal.now.plan) now journal.now.log
        policy.old policy.new) }
{
    let flight = journal.flight(alloc)?;
    match policy.choose(now, &flight) {
        Some(choice) => Ok(event_of(journal.book(), &flight, choice)),
        None => Ok(None),
    }
}

/// The event that a choice comes to.
fn event_of<P: Plan>(book: &Book<P>, flight: &[InFlight], choice: Choice) -> Option<Event>
    requires { IsFlight (P.start book.now.plan) book.now.log flight.now }
    ensures known { IfSome result (IsKnown book.now.log.setup) }
    ensures comes { AnswerComesTo (P.start book.now.plan) book.now.log flight.now
        (Option.Some choice) result }
{
    match choice {
        Choice::Release(place) => Some(Event::Release(name_at(book, flight, place)?)),
        Choice::Drop(place) => Some(Event::Drop(name_at(book, flight, place)?)),
        Choice::Copy(place) => copy_at(book, flight, place),
    }
}

/// The least copy that can be made of what is at a place of those in flight.
fn copy_at<P: Plan>(book: &Book<P>, flight: &[InFlight], place: usize) -> Option<Event>
    requires { IsFlight (P.start book.now.plan) book.now.log flight.now }
    ensures known { IfSome result (IsKnown book.now.log.setup) }
    ensures comes { AnswerComesTo (P.start book.now.plan) book.now.log flight.now
        (Option.Some (choice.Copy place)) result }
{
    match name_at(book, flight, place) {
        Some(name) => match book.next_copy(name) {
            Some(copied) => Some(Event::Copy(copied)),
            None => None,
        },
        None => None,
    }
}

/// The name of the copy at a place of those in flight.
fn name_at<P: Plan>(book: &Book<P>, flight: &[InFlight], place: usize) -> Option<Name>
    requires { IsFlight (P.start book.now.plan) book.now.log flight.now }
    ensures some { IfSome result (IsAtPlace flight.now place) }
    ensures known { IfSome result (IsName book.now.log.setup) }
    ensures none { (result ≡ None) ↔ (length flight.now ≤ place) }
{
    // Nothing at run time: what is known of the book's messages.
    let _trace = book.trace();
    match flight.get(place) {
        Some(message) => Some(message.name),
        None => None,
    }
}
