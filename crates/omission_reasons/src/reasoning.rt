//! The reason of an omission, copy by copy.
ghost use Rattle.std.specs.Prelude.{◌≡◌, ◌<◌, ◌≤◌, ◌↔◌, IfSome, IsSome, MatchOption};
ghost use Rattle.step_book.specs.Log.{mark_in};
ghost use Rattle.step_book.specs.Names.{IsName};
ghost use Rattle.omission_reasons.specs.Indexing.{IsIndexOf};
ghost use Rattle.omission_reasons.specs.Reasons.{HasReason, IsOmitted, IsReason};

use crate::departure::departure;
use crate::omission::is_omitted;
use crate::reason::Reason;
use crate::receive::first_receive;
use crate::trace_index::TraceIndex;
use run_events::Name;
use slot_plans::Plan;
use step_book::{Book, Mark};

/// Why a copy of a message isn't heard, if the report of the run omits the message: `None` for a
/// message that isn't omitted, and for a copy other than 0 that was never made. So an omitted
/// message has a reason for each copy that was made, or for copy 0 alone if it was never sent.
pub fn reason_of<P: Plan>(book: &Book<P>, index: &TraceIndex, name: Name) -> Option<Reason>
    requires name { IsName book.now.log.setup name }
    requires index { IsIndexOf book.now.log index.now }
    ensures reason { IfSome result (IsReason (P.start book.now.plan) book.now.log name) }
    ensures told { IsSome result ↔ HasReason (P.start book.now.plan) book.now.log name }
{
    if !is_omitted(book, name) {
        return None;
    }
    book.agrees_by_places();
    match book.mark(name) {
        Mark::Unsent => reason_of_unmade(name),
        Mark::Silent => None,
        Mark::Flying => Some(Reason::InFlight),
        Mark::Lost => reason_of_lost(book, index, name),
        Mark::Released(count) => reason_of_released(book, index, name, count),
    }
}

/// The reason of a copy that wasn't made, which is told of copy 0 alone.
fn reason_of_unmade(name: Name) -> Option<Reason>
    ensures told { IsSome result ↔ name.copy ≡ 0 }
    ensures reason { IfSome result (λ reason. reason ≡ Reason.NotSent) }
{
    if name.copy == 0 {
        Some(Reason::NotSent)
    } else {
        None
    }
}

/// The reason of a copy that was dropped.
fn reason_of_lost<P: Plan>(book: &Book<P>, index: &TraceIndex, name: Name) -> Option<Reason>
    requires name { IsName book.now.log.setup name }
    requires index { IsIndexOf book.now.log index.now }
    requires lost { mark_in (P.start book.now.plan) book.now.log name ≡ Mark.Lost }
    ensures { MatchOption result ⊥ (IsReason (P.start book.now.plan) book.now.log name) }
{
    let place = departure(book, index, name)?;
    Some(Reason::Dropped { place })
}

/// The reason of a copy of an omitted message that was released when its receiver had taken so many
/// steps.
fn reason_of_released<P: Plan>(
    book: &Book<P>,
    index: &TraceIndex,
    name: Name,
    count: u64,
) -> Option<Reason>
    requires name { IsName book.now.log.setup name }
    requires index { IsIndexOf book.now.log index.now }
    requires released { mark_in (P.start book.now.plan) book.now.log name ≡ Mark.Released count }
    requires omitted { IsOmitted (P.start book.now.plan) book.now.log name }
    ensures { MatchOption result ⊥ (IsReason (P.start book.now.plan) book.now.log name) }
{
    book.agrees();
    let released = departure(book, index, name)?;
    match first_receive(book, count) {
        None => Some(Reason::Waiting { released }),
        Some(receive) => match index.step_place(name.to, receive.step) {
            None => Some(Reason::Waiting { released }),
            Some(received) => Some(reason_in(name.round, receive.round, released, received)),
        },
    }
}

/// The reason of a copy of a message of one round that was received in another.
fn reason_in(sent: u32, round: u32, released: usize, received: usize) -> Reason
    ensures late { sent < round → result ≡ Reason.Late released received round }
    ensures early { round ≤ sent → result ≡ Reason.Early released received round }
{
    if sent < round {
        Reason::Late {
            released,
            received,
            round,
        }
    } else {
        Reason::Early {
            released,
            received,
            round,
        }
    }
}
