//! What each plan does, and what follows from it.
ghost use Rattle.std.specs.Prelude.{◌≡◌, ℕ, ◌+◌, ◌<◌, ◌≤◌, true};
ghost use Rattle.run_events.specs.Limits.{max_rounds};
ghost use Rattle.slot_plans.specs.Plan.{PlanLaws, IsClearRound};
ghost use Rattle.slot_plans.specs.Slot.{IsSlotOf};

use crate::slot::Slot;
use run_events::MAX_ROUNDS;

/// Which step of a node belongs to which round, and to what.
///
/// Steps are counted from 0 and rounds from 1. Equal plans have equal numbers.
pub trait Plan: Copy + PartialEq + Eq + Drop {
    ghost nodes: { Self → ℕ };

    ghost receives: { Self → ℕ → ℕ };

    ghost start: { Self → ℕ → ℕ };

    /// How many nodes there are, which is also how many send slots a round has.
    fn nodes(&self) -> u32
        ensures { result ≡ nodes self.now };

    /// How many receive steps a round has.
    fn receives(&self, round: u32) -> u32
        requires first { 1 ≤ round }
        requires last { round ≤ max_rounds }
        ensures { result ≡ receives self.now round };

    /// How many steps of a node come before a round; one past the last round, how many there are.
    fn start(&self, round: u32) -> u32
        requires first { 1 ≤ round }
        requires last { round ≤ max_rounds + 1 }
        ensures { result ≡ start self.now round };

    ghost laws: { (p : Self) → PlanLaws (nodes p) (receives p) (start p) };

    ghost same: { (p q : Self) → Self.eq p q ≡ true → p ≡ q };

    /// How many steps a round has.
    final fn len(&self, round: u32) -> u32
        requires first { 1 ≤ round }
        requires last { round ≤ max_rounds }
        ensures { result ≡ nodes self.now + receives self.now round }
    {
        self.nodes() + self.receives(round)
    }

    /// What a step of a node is for.
    final fn place(&self, step: u32) -> Slot
        requires { step < start self.now (max_rounds + 1) }
        ensures { IsSlotOf (nodes self.now) (start self.now) step result }
    {
        let round = round_of(self, step);
        let offset = step - self.start(round);
        if offset < self.nodes() {
            Slot::Send { round, to: offset }
        } else {
            let last = step + 1 == self.start(round + 1);
            Slot::Receive { round, last }
        }
    }

    /// The first round that starts at the step `gst` or later and has `delta` receive steps: in it
    /// each message arrives, if messages are delayed by at most `delta` steps from `gst` on.
    final fn clear_round(&self, delta: u32, gst: u32) -> Option<u32>
        ensures { IsClearRound (receives self.now) (start self.now) delta gst result }
    {
        for round in 1..MAX_ROUNDS + 1 {
            if gst <= self.start(round) && delta <= self.receives(round) {
                return Some(round);
            }
        }
        None
    }
}

// The round of a step, by halving.
fn round_of<P: Plan>(plan: &P, step: u32) -> u32
    requires { step < P.start plan.now (max_rounds + 1) }
    ensures first { 1 ≤ result }
    ensures last { result ≤ max_rounds }
    ensures started { P.start plan.now result ≤ step }
    ensures unfinished { step < P.start plan.now (result + 1) }
{
    let mut low = 1;
    let mut high = MAX_ROUNDS + 1;
    while low + 1 < high {
        let middle = (low + high) / 2;
        if plan.start(middle) <= step {
            low = middle;
        } else {
            high = middle;
        }
    }
    low
}
