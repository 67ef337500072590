//! What a journal tells.
ghost use Rattle.std.specs.Prelude.{◌<◌, IsTrue};
ghost use Rattle.step_book.specs.Names.{IsName};

use crate::journal::act::Question;
use round_lang::ValueSet;
use run_events::{InFlight, MAX_COPY, Name};
use slot_plans::Known;
use std::alloc::Global;
use step_book::StoredName;
use step_journal::Journal;
use test_kit::Fault;

const OUTSIDE: &str = "not within its limits";

/// The members, with braces.
fn tell_set(out: &mut String, set: ValueSet) -> Result<(), Fault> {
    out.push_str("{")?;
    for value in 0..64 {
        if set.has(64, value) {
            write!(out, " {value}")?;
        }
    }
    out.push_str(" }")?;
    Ok(())
}

/// The name; the number of a copy other than 0 stands behind a point.
pub fn tell_name(out: &mut String, name: Name) -> Result<(), Fault> {
    let Name {
        from,
        to,
        round,
        copy,
    } = name;
    write!(out, " {from}>{to}:{round}")?;
    if copy > 0 {
        write!(out, ".{copy}")?;
    }
    Ok(())
}

fn tell_names(out: &mut String, names: &[StoredName]) -> Result<(), Fault> {
    if names.is_empty() {
        out.push_str(" none")?;
    }
    for name in names {
        tell_name(out, name.name())?;
    }
    Ok(())
}

/// The run, and how many events it has; of the network's how many moved, lost or made a copy.
fn tell_book(journal: &Journal<Known>, out: &mut String) -> Result<(), Fault> {
    let book = journal.book();
    journal.agrees();
    let values = book.program().program().values();
    let nodes = book.setup().nodes;
    let rounds = book.setup().rounds;
    let delta = book.plan().delta();
    let events = book.trace().len();
    let moved = book.answers().iter().filter(|moved| **moved).count();
    write!(
        out,
        "values {values} nodes {nodes} rounds {rounds} delta {delta} events {events} moved {moved}"
    )?;
    Ok(())
}

fn tell_event(journal: &Journal<Known>, place: u32, out: &mut String) -> Result<(), Fault> {
    match journal.book().trace().get(place as usize) {
        Some(event) => write!(out, "{:?}", event.event())?,
        None => out.push_str("none")?,
    }
    Ok(())
}

/// What the node has seen: the second variable of its last state, which is asked for again if
/// there was no memory for it.
fn seen_by(alloc: Global, journal: &Journal<Known>, node: u32) -> Result<ValueSet, Fault>
    requires { node < journal.now.log.setup.nodes }
{
    let Some(stored) = journal.book().states(node).last() else {
        return Ok(ValueSet::empty());
    };
    let state = match stored.state(alloc) {
        Ok(state) => state,
        Err(_) => stored.state(alloc)?,
    };
    Ok(state.set(1))
}

fn tell_node(
    alloc: Global,
    journal: &Journal<Known>,
    node: u32,
    out: &mut String,
) -> Result<(), Fault>
    requires { node < journal.now.log.setup.nodes }
{
    let book = journal.book();
    let steps = book.count_of(node);
    let round = book.round_of(node);
    let is_due = book.is_due(node);
    let receives = book.mail(node).receives();
    write!(
        out,
        "steps {steps} round {round} due {is_due} receives {receives} seen "
    )?;
    let seen = seen_by(alloc, journal, node)?;
    tell_set(out, seen)
}

/// How many frames wait for a node; one more than names do if there are too many.
pub fn frames_of(journal: &Journal<Known>, node: u32) -> usize
    requires { node < journal.now.log.setup.nodes }
{
    let frames = journal.waiting(node);
    let names = journal.book().waiting(node);
    let named = names
        .iter()
        .enumerate()
        .filter(|(place, _)| frames.at(*place).is_some())
        .count();
    named.saturating_add(usize::from(frames.at(names.len()).is_some()))
}

/// The names that wait by the record, and how many frames do.
fn tell_waiting(journal: &Journal<Known>, node: u32, out: &mut String) -> Result<(), Fault>
    requires { node < journal.now.log.setup.nodes }
{
    let frames = frames_of(journal, node);
    write!(out, "{frames}:")?;
    tell_names(out, journal.book().waiting(node))
}

fn tell_handed(journal: &Journal<Known>, node: u32, at: u32, out: &mut String) -> Result<(), Fault>
    requires { node < journal.now.log.setup.nodes }
{
    out.push_str("handed")?;
    tell_names(out, journal.book().mail(node).handed(at as usize))
}

fn tell_mark(journal: &Journal<Known>, name: Name, out: &mut String) -> Result<(), Fault>
    requires { IsName journal.now.log.setup name }
{
    let mark = journal.book().mark(name);
    write!(out, "{mark:?}")?;
    Ok(())
}

/// The copies in flight, each by the numbers of its name, its slot's step number and its serial;
/// if there was no memory for them, they are asked for again.
fn tell_flight(alloc: Global, journal: &Journal<Known>, out: &mut String) -> Result<(), Fault> {
    let flight = match journal.flight(alloc) {
        Ok(flight) => flight,
        Err(_) => journal.flight(alloc)?,
    };
    if flight.is_empty() {
        out.push_str("-")?;
    }
    for (place, copy) in flight.iter().enumerate() {
        let between = if place == 0 { "" } else { " " };
        let InFlight {
            name,
            sent_at,
            serial,
        } = *copy;
        let Name {
            from,
            to,
            round,
            copy,
        } = name;
        write!(
            out,
            "{between}{from}.{to}.{round}.{copy}.{sent_at}.{serial}"
        )?;
    }
    Ok(())
}

/// The frame in flight: its name, and the first set of its message.
fn tell_in_flight(journal: &Journal<Known>, name: Name, out: &mut String) -> Result<(), Fault>
    requires { IsName journal.now.log.setup name }
{
    let is_flying = journal.book().is_flying(name);
    write!(out, "{is_flying}:")?;
    match journal.in_flight(name) {
        Some(frame) => {
            tell_name(out, frame.name())?;
            out.push_str(" ")?;
            tell_set(out, frame.view().set(0))
        }
        None => Ok(out.push_str(" none")?),
    }
}

fn tell_of_node(
    alloc: Global,
    journal: &Journal<Known>,
    asked: Question,
    out: &mut String,
) -> Result<(), Fault> {
    let nodes = journal.book().setup().nodes;
    match asked {
        Question::Node(node) if node < nodes => tell_node(alloc, journal, node, out),
        Question::Waiting(node) if node < nodes => tell_waiting(journal, node, out),
        Question::Handed(node, at) if node < nodes => tell_handed(journal, node, at, out),
        _ => Ok(out.push_str(OUTSIDE)?),
    }
}

/// Whether the run has a message of this name.
pub fn within(journal: &Journal<Known>, name: Name) -> bool
    ensures { IsTrue result → IsName journal.now.log.setup name }
{
    let setup = journal.book().setup();
    name.from < setup.nodes
        && name.to < setup.nodes
        && 0 < name.round
        && name.round <= setup.rounds
        && name.copy <= MAX_COPY
}

fn tell_of_name(
    alloc: Global,
    journal: &Journal<Known>,
    asked: Question,
    out: &mut String,
) -> Result<(), Fault> {
    match asked {
        Question::Mark(name) if within(journal, name) => tell_mark(journal, name, out),
        Question::InFlight(name) if within(journal, name) => tell_in_flight(journal, name, out),
        _ => tell_of_node(alloc, journal, asked, out),
    }
}

/// Answers a question.
pub fn answer(
    alloc: Global,
    journal: &Journal<Known>,
    asked: Question,
    out: &mut String,
) -> Result<(), Fault> {
    match asked {
        Question::Book => tell_book(journal, out),
        Question::Flight => tell_flight(alloc, journal, out),
        Question::Event(place) => tell_event(journal, place, out),
        _ => tell_of_name(alloc, journal, asked, out),
    }
}
