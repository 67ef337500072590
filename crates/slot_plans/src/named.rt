//! The plan that a text names.
ghost use Rattle.std.specs.Prelude.{◌≡◌, ◌↔◌, IfSome, IsSome};
ghost use Rattle.slot_plans.specs.Named.{IsPlan};
ghost use Rattle.slot_plans.specs.Plan.{IsNodeCount};

use crate::growing::Growing;
use crate::known::Known;
use crate::plan::Plan;
use run_events::PlanKind;

/// The plan of a name, for a number of nodes. Code that is given a [`PlanKind`] runs under it with
/// no case for each plan.
#[derive(Clone, Copy, Debug)]
pub enum NamedPlan {
    Known(Known),
    Growing(Growing),
}

impl NamedPlan {
    ghost use Rattle.slot_plans.specs.Named.{kind_of, nodes_of};

    /// The plan of this name for so many nodes; `None` if a number is outside its limits.
    pub fn new(kind: PlanKind, nodes: u32) -> Option<NamedPlan>
        ensures within_limits { IsSome result ↔ (IsNodeCount nodes × IsPlan kind) }
        ensures made { IfSome result (λ p. (nodes_of p ≡ nodes) × (kind_of p ≡ kind)) }
    {
        match kind {
            PlanKind::Known(delta) => Some(NamedPlan::Known(Known::new(nodes, delta)?)),
            PlanKind::Growing => Some(NamedPlan::Growing(Growing::new(nodes)?)),
        }
    }
}

impl PartialEq for NamedPlan {
    ghost use Rattle.slot_plans.specs.Named.{same_plan};
    ghost use Rattle.slot_plans.specs.NamedLaws.{same_plan_per};

    ghost eq = { same_plan };

    ghost laws = { same_plan_per };

    fn eq(&self, other: &NamedPlan) -> bool {
        match (self, other) {
            (NamedPlan::Known(one), NamedPlan::Known(other)) => one == other,
            (NamedPlan::Growing(one), NamedPlan::Growing(other)) => one == other,
            _ => false,
        }
    }
}

impl Eq for NamedPlan {
    ghost use Rattle.slot_plans.specs.NamedLaws.{same_plan_equiv};

    ghost laws = { same_plan_equiv };
}

impl Plan for NamedPlan {
    ghost use Rattle.slot_plans.specs.Named.{kind_of, nodes_of, receives_of, start_of};

    ghost nodes = { nodes_of };

    ghost receives = { λ p. receives_of (kind_of p) };

    ghost start = { λ p. start_of (kind_of p) (nodes_of p) };

    fn nodes(&self) -> u32 {
        match self {
            NamedPlan::Known(plan) => plan.nodes(),
            NamedPlan::Growing(plan) => plan.nodes(),
        }
    }

    fn receives(&self, round: u32) -> u32 {
        match self {
            NamedPlan::Known(plan) => plan.receives(round),
            NamedPlan::Growing(plan) => plan.receives(round),
        }
    }

    fn start(&self, round: u32) -> u32 {
        match self {
            NamedPlan::Known(plan) => plan.start(round),
            NamedPlan::Growing(plan) => plan.start(round),
        }
    }

    ghost use Rattle.slot_plans.specs.NamedLaws.{named_laws, named_same};

    ghost laws = { named_laws };

    ghost same = { named_same };
}
