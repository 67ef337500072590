//! The plan where the bound on the delay is known.
ghost use Rattle.std.specs.Prelude.{◌≡◌, ◌≤◌, ◌↔◌, IsSome, IfSome};
ghost use Rattle.slot_plans.specs.Plan.{IsNodeCount, IsDelta};

use crate::plan::Plan;
use run_events::{MAX_DELTA, MAX_NODES};

/// Rounds of one length: with N nodes and the bound Δ, each has N send and Δ receive steps.
#[derive(Clone, Copy, PartialEq, Eq, Debug)]
pub struct Known {
    nodes: u32,
    delta: u32,
    ghost node_count: { IsNodeCount nodes },
    ghost bound: { IsDelta delta },
}

impl Known {
    ghost use Rattle.slot_plans.specs.Known.{known_nodes, known_delta};

    /// The plan for so many nodes and this bound; `None` if a number is outside its limits.
    pub fn new(nodes: u32, delta: u32) -> Option<Known>
        ensures within_limits { IsSome result ↔ (IsNodeCount nodes × IsDelta delta) }
        ensures made { IfSome result (λ p. (known_nodes p ≡ nodes) × (known_delta p ≡ delta)) }
    {
        if nodes < 1 || nodes > MAX_NODES || delta < 1 || delta > MAX_DELTA {
            return None;
        }
        Some(Known { nodes, delta })
    }

    /// The bound Δ on the delay, in steps.
    pub fn delta(&self) -> u32
        ensures { result ≡ known_delta self.now }
    {
        self.delta
    }
}

impl Plan for Known {
    ghost use Rattle.slot_plans.specs.Known.{known_nodes, known_delta, known_start};

    ghost nodes = { known_nodes };

    ghost receives = { λ p _. known_delta p };

    ghost start = { λ p r. known_start (known_nodes p) (known_delta p) r };

    fn nodes(&self) -> u32 {
        self.nodes
    }

    fn receives(&self, _round: u32) -> u32 {
        self.delta
    }

    fn start(&self, round: u32) -> u32 {
        (round - 1) * (self.nodes + self.delta)
    }

    ghost use Rattle.slot_plans.specs.Laws.{known_laws, known_same};

    ghost laws = { λ p. known_laws p.nodes p.delta p.node_count p.bound };

    ghost same = { known_same };
}
