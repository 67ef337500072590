//! The plan where the bound on the delay is unknown.
ghost use Rattle.std.specs.Prelude.{◌≡◌, ◌≤◌, ◌↔◌, IsSome, IfSome};
ghost use Rattle.slot_plans.specs.Plan.{IsNodeCount};

use crate::plan::Plan;
use run_events::MAX_NODES;

/// Rounds that grow: with N nodes, round r has N send and r receive steps.
#[derive(Clone, Copy, PartialEq, Eq, Debug)]
pub struct Growing {
    nodes: u32,
    ghost node_count: { IsNodeCount nodes },
}

impl Growing {
    ghost use Rattle.slot_plans.specs.Growing.{growing_nodes};

    /// The plan for so many nodes; `None` if that is outside the limits.
    pub fn new(nodes: u32) -> Option<Growing>
        ensures within_limits { IsSome result ↔ IsNodeCount nodes }
        ensures made { IfSome result (λ p. growing_nodes p ≡ nodes) }
    {
        if nodes < 1 || nodes > MAX_NODES {
            return None;
        }
        Some(Growing { nodes })
    }
}

impl Plan for Growing {
    ghost use Rattle.slot_plans.specs.Growing.{growing_nodes, growing_start};

    ghost nodes = { growing_nodes };

    ghost receives = { λ _ r. r };

    ghost start = { λ p r. growing_start (growing_nodes p) r };

    fn nodes(&self) -> u32 {
        self.nodes
    }

    fn receives(&self, round: u32) -> u32 {
        round
    }

    fn start(&self, round: u32) -> u32 {
        (round - 1) * self.nodes + round * (round - 1) / 2
    }

    ghost use Rattle.slot_plans.specs.Laws.{growing_laws, growing_same};

    ghost laws = { λ p. growing_laws p.nodes p.node_count };

    ghost same = { growing_same };
}
