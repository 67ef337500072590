//! Where copies of messages are made and leave.
ghost use Rattle.std.specs.Prelude.{◌≡◌, ◌<◌, ◌↔◌, ℕ, IsTrue, MatchOption};
ghost use Rattle.step_book.specs.Log.{mark_in, world_of};
ghost use Rattle.step_book.specs.Names.{IsName};
ghost use Rattle.step_book.specs.Places.{IsFirstAfter, IsMadeAt};
ghost use Rattle.omission_reasons.specs.Departures.{IsGone, IsSought, IsSoughtAt, LeavesAt};
ghost use Rattle.omission_reasons.specs.Indexing.{IsIndexOf};
ghost use Rattle.omission_reasons.specs.Reasons.{IsMade};

use crate::idle::is_unsent;
use crate::trace_index::TraceIndex;
use run_events::{Event, Name, StoredEvent};
use slot_plans::Plan;
use step_book::{Book, Mark};

/// Which events of a copy are sought: those that make it, or those by which it leaves.
#[derive(Clone, Copy, PartialEq, Eq, Debug)]
enum Sought {
    Copying,
    Leaving,
}

/// Where a copy that left did so: at its first release or drop after it was made.
pub(crate) fn departure<P: Plan>(book: &Book<P>, index: &TraceIndex, name: Name) -> Option<usize>
    requires name { IsName book.now.log.setup name }
    requires index { IsIndexOf book.now.log index.now }
    requires gone { IsGone (world_of (P.start book.now.plan) book.now.log)
        book.now.log.trace name }
    ensures { MatchOption result ⊥
        (LeavesAt (world_of (P.start book.now.plan) book.now.log) book.now.log.trace name) }
{
    let made = making(book, index, name)?;
    first_after(book, index, Sought::Leaving, name, made)
}

/// Where a copy that was made was made: copy 0 by its sender's step, any other by the network.
pub(crate) fn making<P: Plan>(book: &Book<P>, index: &TraceIndex, name: Name) -> Option<usize>
    requires name { IsName book.now.log.setup name }
    requires index { IsIndexOf book.now.log index.now }
    requires made { IsMade (P.start book.now.plan) book.now.log name }
    ensures { MatchOption result ⊥
        (IsMadeAt (world_of (P.start book.now.plan) book.now.log) book.now.log.trace name) }
{
    book.agrees();
    let step = book.plan().start(name.round) + name.to;
    let slot = index.step_place(name.from, u64::from(step))?;
    if name.copy == 0 {
        return Some(slot);
    }
    first_after(book, index, Sought::Copying, name, slot)
}

/// Where a copy was made: copy 0 by its sender's step, any other by the network; `None` if it never
/// was, or if its message is silence and it isn't copy 0.
pub fn made_place<P: Plan>(book: &Book<P>, index: &TraceIndex, name: Name) -> Option<usize>
    requires name { IsName book.now.log.setup name }
    requires index { IsIndexOf book.now.log index.now }
    ensures { MatchOption result
        (mark_in (P.start book.now.plan) book.now.log name ≡ Mark.Unsent)
        (IsMadeAt (world_of (P.start book.now.plan) book.now.log) book.now.log.trace name) }
{
    if is_unsent(book, name) {
        return None;
    }
    making(book, index, name)
}

/// The first place after another at which an event of a copy stands.
fn first_after<P: Plan>(
    book: &Book<P>,
    index: &TraceIndex,
    sought: Sought,
    name: Name,
    after: usize,
) -> Option<usize>
    requires index { IsIndexOf book.now.log index.now }
    ensures { MatchOption result
        ((k : ℕ) → after < k → ¬ IsSoughtAt sought book.now.log.trace name k)
        (IsFirstAfter (IsSoughtAt sought book.now.log.trace name) after) }
{
    let trace = book.trace();
    for place in index.of_message(book.setup().nodes, name) {
        if after < *place && is_sought_at(trace, *place, sought, name) {
            return Some(*place);
        }
    }
    None
}

/// Whether an event of the kind that is sought stands at a place, and names this copy.
fn is_sought_at(trace: &[StoredEvent], place: usize, sought: Sought, name: Name) -> bool
    ensures { IsTrue result ↔ IsSoughtAt sought trace.now name place }
{
    match trace.get(place) {
        Some(event) => is_sought(sought, name, event.event()),
        None => false,
    }
}

/// Whether an event of the kind that is sought names this copy.
fn is_sought(sought: Sought, name: Name, event: Event) -> bool
    ensures { IsTrue result ↔ IsSought sought name event }
{
    match sought {
        Sought::Copying => event == Event::Copy(name),
        Sought::Leaving => event == Event::Release(name) || event == Event::Drop(name),
    }
}
