//! What nodes miss in the rounds of a run.
ghost use Rattle.std.specs.Prelude.{◌≡◌, ◌≤◌, Bool, IfSome, IsSome, true};
ghost use Rattle.run_events.specs.Limits.{max_nodes};
ghost use Rattle.round_meaning.specs.Nodes.{has_node};
ghost use Rattle.round_explorer.specs.Questions.{IsRow};
ghost use Rattle.round_explorer.specs.Searched.{LeavesEnough};
ghost use Rattle.run_samples.specs.Samples.{AreStopped};

use round_explorer::{Case, may_be_heard};
use round_meaning::NodeSet;

/// Where a run takes from which nodes each node misses in a round.
pub(crate) trait Rows {
    /// There is a row for each node in each round.
    ghost complete: { Bool };

    /// Called before each round.
    fn begin_round(&mut self, round: u32);

    /// The nodes that node `me` is to miss in a round; with `None` the run ends.
    fn row(&mut self, case: &Case<'_>, round: u32, me: u32) -> Option<NodeSet>
        requires nodes { case.now.setup.nodes ≤ max_nodes }
        requires enough { LeavesEnough case.now }
        requires past { round ≤ case.now.setup.rounds }
        ensures allowed { IfSome result (λ row. IsRow case.now.question case.now.setup.nodes
            case.now.pattern round (has_node row.bits)) }
        ensures all { complete ≡ true → IsSome result };
}

/// The nodes that have stopped before a round.
#[tactic(auto, using(crate::proofs::RowLaws::none_stopped, crate::proofs::RowLaws::one_stopped, crate::proofs::RowLaws::one_running, crate::proofs::RowLaws::stopped_if, crate::proofs::RowLaws::running_if))]
pub(crate) fn stopped(case: &Case<'_>, round: u32) -> NodeSet
    requires { case.now.setup.nodes ≤ max_nodes }
    ensures { AreStopped case.now round case.now.setup.nodes result.bits }
{
    let mut row = NodeSet::empty();
    for from in 0..case.setup().nodes {
        if !may_be_heard(case, round, from) {
            row = row.with(from);
        }
    }
    row
}
