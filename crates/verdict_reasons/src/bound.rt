//! The receive by which a run breaks the bound on the delay.
ghost use Rattle.std.specs.Prelude.{◌≡◌, MatchOption, Some, slice_get, true};
ghost use Rattle.round_lang.specs.Sets.{is_in};
ghost use Rattle.run_events.specs.declared.event.Event.TheVariants.{Step};
ghost use Rattle.step_book.specs.Log.{count_of, history, world_of};
ghost use Rattle.step_book.specs.Names.{IsName};
ghost use Rattle.omission_explainer.specs.Lateness.{HasReceive, KeepsBound, marks_of, open_until};
ghost use Rattle.omission_explainer.specs.Verdict.{AreNodes, IsDelayBound};
ghost use Rattle.omission_reasons.specs.Indexing.{IsIndexOf};
ghost use Rattle.verdict_reasons.specs.Bound.{IsBreakAt, IsFirstBoundBreak, IsFirstWithin, sooner};
ghost use Rattle.verdict_reasons.specs.Correct.{AreCounts};

use crate::correct::{COUNTS, correct_step};
use omission_explainer::open_until;
use omission_reasons::{TraceIndex, first_receive};
use round_meaning::NodeSet;
use run_events::Name;
use slot_plans::Plan;
use step_book::Book;

/// A receive that should have had a message. The sender sends it at the place `sent` of the trace,
/// by its step number `sent_step`. The receiver takes its step number `received_step`, a receive,
/// at the place `received`, and no copy was let in between the two. Places count from 0.
#[derive(Clone, Copy, PartialEq, Eq, Debug)]
pub struct BoundBreak {
    pub name: Name,
    pub sent: usize,
    pub sent_step: u64,
    pub received: usize,
    pub received_step: u64,
}

/// What the delays of a run are judged by.
#[derive(Clone, Copy)]
struct Terms {
    correct: NodeSet,
    delta: u32,
    gst: u32,
}

/// The first receive of the run at which a message between correct nodes breaks the bound `delta`
/// on the delay that is to hold from the step number `gst` on; `None` if the bound is kept. If that
/// receive lacks several such messages, it's the one that was sent first.
///
/// It takes no memory beside the index. One pass over the trace asks of each message once.
pub fn bound_break<P: Plan>(
    book: &Book<P>,
    index: &TraceIndex,
    correct: NodeSet,
    delta: u32,
    gst: u32,
) -> Option<BoundBreak>
    requires index { IsIndexOf book.now.log index.now }
    requires within { AreNodes book.now.log.setup.nodes correct.bits }
    ensures { MatchOption result
        (IsDelayBound (P.start book.now.plan) book.now.log correct.bits delta gst)
        (IsFirstBoundBreak (P.start book.now.plan) book.now.log correct.bits delta gst) }
{
    book.agrees();
    let terms = Terms {
        correct,
        delta,
        gst,
    };
    let mut counts = [0u64; COUNTS];
    let mut found = None;
    for (place, event) in book.trace().iter().enumerate() {
        match correct_step(correct, event.event()) {
            Some(node) => {
                let next = break_by(book, index, terms, &counts, node, place);
                found = sooner(found, next);
                counts[node as usize] += 1;
            }
            None => {}
        }
    }
    found
}

/// The one of two breaks whose receive comes first: of the same receive the one that was found.
fn sooner(found: Option<BoundBreak>, next: Option<BoundBreak>) -> Option<BoundBreak>
    ensures { result ≡ sooner found next }
{
    match found {
        None => next,
        Some(one) => match next {
            None => found,
            Some(other) => {
                if other.received < one.received {
                    next
                } else {
                    found
                }
            }
        },
    }
}

/// The first receive at which the message that a node sends by its step at a place breaks the
/// bound; `None` if it sends none, or no receive does.
fn break_by<P: Plan>(
    book: &Book<P>,
    index: &TraceIndex,
    terms: Terms,
    counts: &[u64],
    node: u32,
    place: usize,
) -> Option<BoundBreak>
    requires index { IsIndexOf book.now.log index.now }
    requires within { AreNodes book.now.log.setup.nodes terms.correct.bits }
    requires counts { AreCounts book.now.log.trace terms.correct.bits counts.now place }
    requires there { slice_get book.now.log.trace place ≡ Some (Step node) }
    requires correct_node { is_in terms.correct.bits node ≡ true }
    ensures { MatchOption result
        (KeepsBound (world_of (P.start book.now.plan) book.now.log) (history book.now.log)
        terms.correct.bits terms.delta terms.gst counts.now node)
        (IsBreakAt (P.start book.now.plan) book.now.log terms.correct.bits terms.delta terms.gst
        place) }
{
    book.agrees();
    let sent_step = counts[node as usize];
    if sent_step < u64::from(terms.gst) {
        return None;
    }
    let name = book.message_at(node, sent_step)?;
    if !terms.correct.contains(name.to) {
        return None;
    }
    let low = (sent_step + u64::from(terms.delta)).max(counts[name.to as usize]);
    let received_step = missed_receive(book, name, low)?;
    let received = index.step_place(name.to, received_step)?;
    Some(BoundBreak {
        name,
        sent: place,
        sent_step,
        received,
        received_step,
    })
}

/// The first receive of a message's receiver, among its steps from this number on, up to which it
/// lacked the message.
fn missed_receive<P: Plan>(book: &Book<P>, name: Name, low: u64) -> Option<u64>
    requires { IsName book.now.log.setup name }
    ensures { MatchOption result
        (¬ HasReceive (world_of (P.start book.now.plan) book.now.log) low
        (open_until (count_of book.now.log name.to)
        (marks_of (world_of (P.start book.now.plan) book.now.log) (history book.now.log)
        name)))
        (IsFirstWithin (world_of (P.start book.now.plan) book.now.log) low
        (open_until (count_of book.now.log name.to)
        (marks_of (world_of (P.start book.now.plan) book.now.log) (history book.now.log)
        name))) }
{
    let receive = first_receive(book, low)?;
    if receive.step < open_until(book, name) {
        return Some(receive.step);
    }
    None
}
