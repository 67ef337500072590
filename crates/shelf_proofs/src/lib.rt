//! The algorithms of examples/shelf and Algorithm 1, proved for every number of nodes, faults,
//! values and rounds: what `explore` answers for one header, here for all.
#![tactic(auto)]

mod shelf;
mod texts;

pub use shelf::{
    algorithm_1_for_all, eager_algorithm_1, early_flooding, flooding, floodmin, half_voting,
    last_voting, one_third_rule, rotating_coordinator, two_phase_commit, uniform_voting,
};
