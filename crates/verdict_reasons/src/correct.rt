//! The steps of correct nodes.
ghost use Rattle.std.specs.Prelude.{MatchOption};
ghost use Rattle.omission_explainer.specs.Verdict.{AreNodes};
ghost use Rattle.verdict_reasons.specs.Correct.{IsOtherEvent, IsStepOf};

use round_meaning::NodeSet;
use run_events::{Event, MAX_NODES};

/// For how many nodes step counts are kept: a run has no more.
pub(crate) const COUNTS: usize = MAX_NODES as usize;

/// The node that an event is a step of, if it's a correct one.
pub(crate) fn correct_step(correct: NodeSet, event: Event) -> Option<u32>
    requires { AreNodes 16 correct.bits }
    ensures { MatchOption result (IsOtherEvent correct.bits event) (IsStepOf correct.bits event) }
{
    match event {
        Event::Step(node) => {
            if correct.contains(node) {
                return Some(node);
            }
            None
        }
        Event::Release(_) => None,
        Event::Drop(_) => None,
        Event::Copy(_) => None,
    }
}
