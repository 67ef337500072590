//! The step by which a run breaks lockstep.
ghost use Rattle.std.specs.Prelude.{◌≡◌, ◌<◌, MatchOption, length};
ghost use Rattle.run_events.specs.Limits.{max_nodes};
ghost use Rattle.omission_explainer.specs.Lateness.{KeepsPace};
ghost use Rattle.omission_explainer.specs.Verdict.{AreNodes, IsLockstep};
ghost use Rattle.verdict_reasons.specs.Pace.{IsFirstBehind, IsFirstPaceBreak};

use crate::correct::{COUNTS, correct_step};
use round_meaning::NodeSet;
use run_events::MAX_NODES;
use slot_plans::Plan;
use step_book::Book;

/// A step that a correct node takes ahead of another: at a place in the trace, counted from 0, the
/// node takes its step number `step`, while the node `behind` has taken `behind_steps` steps.
#[derive(Clone, Copy, PartialEq, Eq, Debug)]
pub struct PaceBreak {
    pub place: usize,
    pub node: u32,
    pub step: u64,
    pub behind: u32,
    pub behind_steps: u64,
}

/// The first step of the run by which its correct nodes break lockstep, with the least of the nodes
/// that are behind; `None` if they keep it.
///
/// It takes no memory. One pass over the trace keeps the step counts of the correct nodes.
pub fn pace_break<P: Plan>(book: &Book<P>, correct: NodeSet) -> Option<PaceBreak>
    requires { AreNodes book.now.log.setup.nodes correct.bits }
    ensures { MatchOption result
        (IsLockstep book.now.log.trace correct.bits)
        (IsFirstPaceBreak book.now.log.trace correct.bits) }
{
    book.agrees();
    let mut counts = [0u64; COUNTS];
    for (place, event) in book.trace().iter().enumerate() {
        match correct_step(correct, event.event()) {
            Some(node) => {
                if let Some(behind) = node_behind(correct, &counts, node) {
                    return Some(PaceBreak {
                        place,
                        node,
                        step: counts[node as usize],
                        behind,
                        behind_steps: counts[behind as usize],
                    });
                }
                counts[node as usize] += 1;
            }
            None => {}
        }
    }
    None
}

/// The least of the correct nodes that have taken fewer steps than this one.
fn node_behind(correct: NodeSet, counts: &[u64], node: u32) -> Option<u32>
    requires sized { length counts.now ≡ max_nodes }
    requires node { node < max_nodes }
    requires within { AreNodes 16 correct.bits }
    ensures { MatchOption result
        (KeepsPace correct.bits counts.now node)
        (IsFirstBehind correct.bits counts.now node) }
{
    for other in 0..MAX_NODES {
        if correct.contains(other) && counts[other as usize] < counts[node as usize] {
            return Some(other);
        }
    }
    None
}
