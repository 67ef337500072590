//! Events of the network that did nothing.
ghost use Rattle.std.specs.Prelude.{◌≡◌, ◌≢◌, ◌<◌, ◌≤◌, ◌↔◌, IfSome, IsTrue, MatchOption, None};
ghost use Rattle.std.specs.Prelude.{Some};
ghost use Rattle.run_events.specs.Names.{original};
ghost use Rattle.step_book.specs.Log.{mark_in, world_of};
ghost use Rattle.step_book.specs.Names.{IsName};
ghost use Rattle.step_book.specs.Places.{IsCopyAt, IsLeftAt};
ghost use Rattle.omission_reasons.specs.Departures.{IsGone, LeavesAt};
ghost use Rattle.omission_reasons.specs.Idleness.{Copies, IsAbsent, IsNotCopied, LetsGo};
ghost use Rattle.omission_reasons.specs.Indexing.{IsIndexOf};

use crate::departure::{departure, making};
use crate::omission::is_silent;
use crate::trace_index::TraceIndex;
use run_events::Name;
use slot_plans::Plan;
use step_book::{Book, Mark};

/// Why a release, a drop or a copy did nothing. Places are those of events in the trace, from 0.
#[derive(Clone, Copy, PartialEq, Eq, Debug)]
pub enum Idle {
    /// What it names wasn't made yet.
    NotMade,
    /// The sender was silent.
    Silent,
    /// What it names had left.
    Gone { place: usize },
    /// The copy that it's to make had been made.
    Made { place: usize },
}

/// Why the release or the drop of a copy that stands at a place did nothing; `None` if it let the
/// copy go.
pub fn why_not_let_go<P: Plan>(
    book: &Book<P>,
    index: &TraceIndex,
    name: Name,
    place: usize,
) -> Option<Idle>
    requires name { IsName book.now.log.setup name }
    requires index { IsIndexOf book.now.log index.now }
    requires event { IsLeftAt book.now.log.trace name place }
    ensures { MatchOption result
        (LetsGo (P.start book.now.plan) book.now.log name place)
        (IsAbsent (P.start book.now.plan) book.now.log name place) }
{
    if is_silent(book, name) {
        return Some(silence(book, index, name, place));
    }
    let left = leaving(book, index, name);
    if is_at(left, place) {
        return None;
    }
    Some(absence(left, place))
}

/// Why the copying of a message that stands at a place did nothing; `None` if it made the copy.
pub fn why_not_copied<P: Plan>(
    book: &Book<P>,
    index: &TraceIndex,
    name: Name,
    place: usize,
) -> Option<Idle>
    requires name { IsName book.now.log.setup name }
    requires other { 0 < name.copy }
    requires index { IsIndexOf book.now.log index.now }
    requires event { IsCopyAt book.now.log.trace name place }
    ensures { MatchOption result
        (Copies (P.start book.now.plan) book.now.log name place)
        (IsNotCopied (P.start book.now.plan) book.now.log name place) }
{
    let first = Name { copy: 0, ..name };
    if is_silent(book, name) {
        return Some(silence(book, index, first, place));
    }
    if is_unsent(book, name) {
        return Some(absence(leaving(book, index, first), place));
    }
    let made = making(book, index, name)?;
    if made == place {
        return None;
    }
    Some(made_by(made, place))
}

/// Whether a copy was never made, or its message is silence.
pub(crate) fn is_unsent<P: Plan>(book: &Book<P>, name: Name) -> bool
    requires { IsName book.now.log.setup name }
    ensures { IsTrue result ↔ mark_in (P.start book.now.plan) book.now.log name ≡ Mark.Unsent }
{
    book.mark(name) == Mark::Unsent
}

/// Whether there is a place, and it's this one.
fn is_at(found: Option<usize>, place: usize) -> bool
    ensures { IsTrue result ↔ found ≡ Some place }
{
    match found {
        Some(found) => found == place,
        None => false,
    }
}

/// What is told of silence: that it is one, once the slot came.
fn silence<P: Plan>(book: &Book<P>, index: &TraceIndex, name: Name, place: usize) -> Idle
    requires name { IsName book.now.log.setup name }
    requires index { IsIndexOf book.now.log index.now }
    requires silent { mark_in (P.start book.now.plan) book.now.log (original name) ≡ Mark.Silent }
    ensures { IsAbsent (P.start book.now.plan) book.now.log name place result }
{
    match making(book, index, Name { copy: 0, ..name }) {
        None => Idle::NotMade,
        Some(slot) => silent_from(slot, place),
    }
}

fn silent_from(slot: usize, place: usize) -> Idle
    ensures silent { slot < place → result ≡ Idle.Silent }
    ensures early { place ≤ slot → result ≡ Idle.NotMade }
{
    if slot < place {
        Idle::Silent
    } else {
        Idle::NotMade
    }
}

/// Where a copy of a message leaves, if it does.
fn leaving<P: Plan>(book: &Book<P>, index: &TraceIndex, name: Name) -> Option<usize>
    requires name { IsName book.now.log.setup name }
    requires index { IsIndexOf book.now.log index.now }
    requires loud { mark_in (P.start book.now.plan) book.now.log (original name) ≢ Mark.Silent }
    ensures { MatchOption result
        (¬ IsGone (world_of (P.start book.now.plan) book.now.log) book.now.log.trace name)
        (LeavesAt (world_of (P.start book.now.plan) book.now.log) book.now.log.trace name) }
{
    book.agrees_by_places();
    match book.mark(name) {
        Mark::Unsent => None,
        Mark::Silent => None,
        Mark::Flying => None,
        Mark::Lost => departure(book, index, name),
        Mark::Released(_) => departure(book, index, name),
    }
}

/// What is told of a copy that isn't there at a place, by where it leaves.
fn absence(left: Option<usize>, place: usize) -> Idle
    ensures none { left ≡ None → result ≡ Idle.NotMade }
    ensures gone { IfSome left (λ b. b < place → result ≡ Idle.Gone b) }
    ensures early { IfSome left (λ b. place ≤ b → result ≡ Idle.NotMade) }
{
    match left {
        None => Idle::NotMade,
        Some(left) => gone_by(left, place),
    }
}

fn gone_by(left: usize, place: usize) -> Idle
    ensures gone { left < place → result ≡ Idle.Gone left }
    ensures early { place ≤ left → result ≡ Idle.NotMade }
{
    if left < place {
        Idle::Gone { place: left }
    } else {
        Idle::NotMade
    }
}

fn made_by(made: usize, place: usize) -> Idle
    ensures made { made < place → result ≡ Idle.Made made }
    ensures early { place ≤ made → result ≡ Idle.NotMade }
{
    if made < place {
        Idle::Made { place: made }
    } else {
        Idle::NotMade
    }
}
