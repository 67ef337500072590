//! The plans of rounds over steps: which step of a node belongs to which round, and to what.
//!
//! Dwork, Lynch and Stockmeyer run a round of the basic model as a row of steps of a process: first
//! one send step for each process, and then receive steps. There are Δ receive steps in each round
//! if the bound Δ on the delay is known, and as many as the round's number if it is not.
#![tactic(auto)]

mod growing;
mod known;
mod laws;
mod named;
mod plan;
mod slot;

pub use growing::Growing;
pub use known::Known;
pub use laws::{clear_rounds_last, one_slot};
pub use named::NamedPlan;
pub use plan::Plan;
pub use run_events::{MAX_DELTA, MAX_NODES, MAX_ROUNDS, PlanKind};
pub use slot::Slot;
