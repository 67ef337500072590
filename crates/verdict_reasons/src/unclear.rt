//! Why a plan has no clear round.
ghost use Rattle.std.specs.Prelude.{MatchOption};
ghost use Rattle.verdict_reasons.specs.Clearness.{HasClearRound, IsUnclear};

use run_events::MAX_ROUNDS;
use slot_plans::Plan;

/// Why no round is clear.
#[derive(Clone, Copy, PartialEq, Eq, Debug)]
pub enum Unclear {
    /// No round has as many receive steps as messages may be delayed by.
    FewReceives,
    /// Some rounds have, but none of these starts late enough.
    LateStart,
}

/// Why a plan has no round that starts at the step `gst` or later and has `delta` receive steps;
/// `None` if it has one.
///
/// The last round starts latest and has the most receive steps, so it alone is asked.
pub fn why_unclear<P: Plan>(plan: &P, delta: u32, gst: u32) -> Option<Unclear>
    ensures { MatchOption result
        (HasClearRound (P.receives plan.now) (P.start plan.now) delta gst)
        (IsUnclear (P.receives plan.now) (P.start plan.now) delta gst) }
{
    if plan.receives(MAX_ROUNDS) < delta {
        return Some(Unclear::FewReceives);
    }
    if plan.start(MAX_ROUNDS) < gst {
        return Some(Unclear::LateStart);
    }
    None
}
