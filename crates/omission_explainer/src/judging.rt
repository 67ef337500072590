//! Whether a run kept what its plan counts on.
ghost use Rattle.std.specs.Prelude.{◌≡◌, ◌+◌, ◌<◌, ◌↔◌, IfSome, IsTrue, Some, length};
ghost use Rattle.run_events.specs.Limits.{max_nodes};
ghost use Rattle.slot_plans.specs.Plan.{IsClearRound};
ghost use Rattle.step_book.specs.Log.{history, world_of};
ghost use Rattle.omission_explainer.specs.Lateness.{HasReceive, KeepsBound, KeepsPace};
ghost use Rattle.omission_explainer.specs.Verdict.{AreNodes, HearsFrom, IsDelayBound, IsLockstep};
ghost use Rattle.omission_explainer.specs.Verdict.{yes_or_no};

use crate::lateness::open_until;
use round_meaning::NodeSet;
use run_events::{Event, MAX_NODES};
use slot_plans::{Plan, Slot};
use std::fmt;
use step_book::Book;
use step_journal::Journal;

/// The judgement of a run for a set of correct nodes: whether they stepped in lockstep, whether
/// their messages kept the bound on the delay, and the first round, from 1, from which on messages
/// arrive if both hold; `None` if the plan has no such round.
#[derive(Clone, Copy, PartialEq, Eq, Debug)]
pub struct Verdict {
    pub lockstep: bool,
    pub bound: bool,
    pub clear: Option<u32>,
}

impl fmt::Display for Verdict {
    ghost use Rattle.omission_explainer.specs.Verdict.{verdict_text};

    ghost output = { λ v. Some (verdict_text v) };

    fn fmt<W: fmt::Write>(&self, f: &mut fmt::Formatter<W>) -> fmt::Result {
        let lockstep = yes_or_no(self.lockstep);
        let bound = yes_or_no(self.bound);
        match self.clear {
            Some(round) => write!(f, "lockstep {lockstep} bound {bound} clear {round}"),
            None => write!(f, "lockstep {lockstep} bound {bound} clear none"),
        }
    }
}

fn yes_or_no(flag: bool) -> &'static str
    ensures { result.now ≡ yes_or_no flag }
{
    if flag { "yes" } else { "no" }
}

/// For how many nodes step counts are kept: a run has no more.
const COUNTS: usize = MAX_NODES as usize;

/// Judges the run of a journal, if the nodes `correct` are correct, for the bound `delta` on the
/// delay that is to hold from the step number `gst` on.
///
/// Where the run kept lockstep and the bound and a round is clear, no closed round from that one on
/// omits a message between correct nodes.
///
/// It takes no memory. One pass over the trace keeps the step counts of the correct nodes.
pub fn judge<P: Plan>(journal: &Journal<P>, correct: NodeSet, delta: u32, gst: u32) -> Verdict
    requires { AreNodes journal.now.log.setup.nodes correct.bits }
    ensures lockstep { IsTrue result.lockstep ↔ IsLockstep journal.now.log.trace correct.bits }
    ensures bound { IsTrue result.bound
        ↔ IsDelayBound (P.start journal.now.plan) journal.now.log correct.bits delta gst }
    ensures hears { IsTrue result.lockstep → IsTrue result.bound
        → IfSome result.clear (HearsFrom (P.start journal.now.plan) journal.now.log correct.bits) }
    ensures clear { IsClearRound (P.receives journal.now.plan)
        (P.start journal.now.plan) delta gst result.clear }
{
    let book = journal.book();
    book.agrees();
    let terms = Terms {
        correct,
        delta,
        gst,
    };
    let mut counts = [0u64; COUNTS];
    let mut lockstep = true;
    let mut bound = true;
    for event in book.trace() {
        match event.event() {
            Event::Step(node) => {
                if correct.contains(node) {
                    lockstep = lockstep && keeps_pace(correct, &counts, node);
                    bound = bound && keeps_bound(book, terms, &counts, node);
                    counts[node as usize] += 1;
                }
            }
            Event::Release(_) => {}
            Event::Drop(_) => {}
            Event::Copy(_) => {}
        }
    }
    Verdict {
        lockstep,
        bound,
        clear: book.plan().clear_round(delta, gst),
    }
}

/// What a run is judged for.
#[derive(Clone, Copy)]
struct Terms {
    correct: NodeSet,
    delta: u32,
    gst: u32,
}

/// Whether no correct node has taken fewer steps than this one.
fn keeps_pace(correct: NodeSet, counts: &[u64], node: u32) -> bool
    requires sized { length counts.now ≡ max_nodes }
    requires node { node < max_nodes }
    requires within { AreNodes max_nodes correct.bits }
    ensures { IsTrue result ↔ KeepsPace correct.bits counts.now node }
{
    for other in 0..MAX_NODES {
        if correct.contains(other) && counts[other as usize] < counts[node as usize] {
            return false;
        }
    }
    true
}

/// Whether the message that a node sends at its next step, if it does, comes in time for the
/// receives of its receiver.
///
/// A receive comes after the send if its step number isn't below the receiver's count at the
/// send, and after the release of a copy if it isn't below the receiver's count there.
fn keeps_bound<P: Plan>(book: &Book<P>, terms: Terms, counts: &[u64], node: u32) -> bool
    requires sized { length counts.now ≡ max_nodes }
    requires node { node < book.now.log.setup.nodes }
    requires within { AreNodes book.now.log.setup.nodes terms.correct.bits }
    ensures { IsTrue result ↔ KeepsBound (world_of (P.start book.now.plan) book.now.log)
        (history book.now.log) terms.correct.bits terms.delta terms.gst counts.now node }
{
    book.agrees();
    let count = counts[node as usize];
    if count < u64::from(terms.gst) {
        return true;
    }
    match book.message_at(node, count) {
        Some(name) => {
            if !terms.correct.contains(name.to) {
                return true;
            }
            let low = (count + u64::from(terms.delta)).max(counts[name.to as usize]);
            !has_receive(book, low, open_until(book, name))
        }
        None => true,
    }
}

/// Whether one of these step numbers is a receive.
fn has_receive<P: Plan>(book: &Book<P>, low: u64, high: u64) -> bool
    ensures { IsTrue result ↔ HasReceive (world_of (P.start book.now.plan) book.now.log) low high }
{
    if high <= low {
        return false;
    }
    let plan = book.plan();
    if low >= u64::from(plan.start(book.setup().rounds + 1)) {
        return false;
    }
    let first = match plan.place(low as u32) {
        Slot::Send { round, to: _ } => u64::from(plan.start(round) + plan.nodes()),
        Slot::Receive { round: _, last: _ } => low,
    };
    first < high
}
