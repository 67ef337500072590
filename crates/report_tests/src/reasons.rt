//! Why runs omit messages.
ghost use Rattle.std.specs.Prelude.{◌≡◌, ◌≤◌, IsTrue};
ghost use Rattle.step_book.specs.Names.{IsName};
ghost use Rattle.omission_reasons.specs.Indexing.{IsIndexOf};

use omission_reasons::{Idle, Reason, TraceIndex, reason_of, why_not_copied, why_not_let_go};
use run_events::{Event, MAX_COPY, Name};
use slot_plans::Plan;
use std::alloc::Global;
use std::io::Write;
use step_book::Book;
use test_kit::Fault;

/// Tells the reason of a copy.
fn tell_reason(name: Name, reason: Reason, out: &mut Vec<u8>) -> Result<(), Fault> {
    let Name {
        from,
        to,
        round,
        copy,
    } = name;
    write!(out, "round {round} node {to} from {from} copy {copy} ")?;
    match reason {
        Reason::NotSent => writeln!(out, "not sent")?,
        Reason::InFlight => writeln!(out, "in flight")?,
        Reason::Dropped { place } => writeln!(out, "dropped at {place}")?,
        Reason::Waiting { released } => writeln!(out, "released at {released}, waits")?,
        Reason::Late {
            released,
            received,
            round,
        } => writeln!(
            out,
            "released at {released}, received late at {received} in {round}"
        )?,
        Reason::Early {
            released,
            received,
            round,
        } => writeln!(
            out,
            "released at {released}, received early at {received} in {round}"
        )?,
    }
    Ok(())
}

/// Tells the reasons of a message, copy by copy.
fn tell_message<P: Plan>(
    book: &Book<P>,
    index: &TraceIndex,
    message: Name,
    out: &mut Vec<u8>,
) -> Result<(), Fault>
    requires name { IsName book.now.log.setup message }
    requires index { IsIndexOf book.now.log index.now }
{
    for copy in 0..MAX_COPY + 1 {
        let name = Name { copy, ..message };
        if let Some(reason) = reason_of(book, index, name) {
            tell_reason(name, reason, out)?;
        }
    }
    Ok(())
}

/// Tells the reasons of all messages, by round, receiver and sender.
pub(crate) fn tell_reasons<P: Plan>(
    alloc: Global,
    book: &Book<P>,
    out: &mut Vec<u8>,
) -> Result<(), Fault> {
    let index = TraceIndex::new(alloc, book)?;
    let nodes = book.setup().nodes;
    for round in 1..book.setup().rounds + 1 {
        for to in 0..nodes {
            for from in 0..nodes {
                let message = Name {
                    from,
                    to,
                    round,
                    copy: 0,
                };
                tell_message(book, &index, message, out)?;
            }
        }
    }
    Ok(())
}

/// Whether a name is of a message of the run.
fn is_named<P: Plan>(book: &Book<P>, name: Name) -> bool
    ensures { IsTrue result → IsName book.now.log.setup name }
{
    let setup = book.setup();
    name.from < setup.nodes
        && name.to < setup.nodes
        && 0 < name.round
        && name.round <= setup.rounds
        && name.copy <= MAX_COPY
}

/// Why the event at a place did nothing, if it's of the network and did nothing.
fn idle_at<P: Plan>(book: &Book<P>, index: &TraceIndex, place: usize) -> Option<Idle>
    requires { IsIndexOf book.now.log index.now }
{
    match book.trace().get(place)?.event() {
        Event::Release(name) if is_named(book, name) => why_not_let_go(book, index, name, place),
        Event::Drop(name) if is_named(book, name) => why_not_let_go(book, index, name, place),
        Event::Copy(name) if is_named(book, name) && 0 < name.copy => {
            why_not_copied(book, index, name, place)
        }
        _ => None,
    }
}

/// Tells of each event of the network that did nothing why.
pub(crate) fn tell_idle<P: Plan>(
    alloc: Global,
    book: &Book<P>,
    out: &mut Vec<u8>,
) -> Result<(), Fault> {
    let index = TraceIndex::new(alloc, book)?;
    for place in 0..book.trace().len() {
        match idle_at(book, &index, place) {
            Some(Idle::NotMade) => writeln!(out, "{place} not made yet")?,
            Some(Idle::Silent) => writeln!(out, "{place} silent")?,
            Some(Idle::Gone { place: left }) => writeln!(out, "{place} gone since {left}")?,
            Some(Idle::Made { place: made }) => writeln!(out, "{place} made at {made}")?,
            None => {}
        }
    }
    Ok(())
}
