//! The receives of a node, by the numbers of its steps.
ghost use Rattle.std.specs.Prelude.{◌≡◌, MatchOption};
ghost use Rattle.step_book.specs.Log.{world_of};
ghost use Rattle.omission_reasons.specs.Departures.{IsFirstReceive, NoReceiveFrom};

use slot_plans::{Plan, Slot};
use step_book::Book;

/// A receive of a node: its step number and its round.
#[derive(Clone, Copy, PartialEq, Eq, Debug)]
pub struct Receive {
    pub step: u64,
    pub round: u32,
}

/// The first receive among a node's steps from this number on; `None` past the last round.
pub fn first_receive<P: Plan>(book: &Book<P>, low: u64) -> Option<Receive>
    ensures { MatchOption result
        (NoReceiveFrom (world_of (P.start book.now.plan) book.now.log) low)
        (IsFirstReceive (world_of (P.start book.now.plan) book.now.log) low) }
{
    let plan = book.plan();
    if low >= u64::from(plan.start(book.setup().rounds + 1)) {
        return None;
    }
    match plan.place(low as u32) {
        Slot::Send { round, to: _ } => {
            let step = u64::from(plan.start(round) + plan.nodes());
            Some(Receive { step, round })
        }
        Slot::Receive { round, last: _ } => Some(Receive { step: low, round }),
    }
}
