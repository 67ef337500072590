//! What programs mean: the value of an expression, what a node sends and how it ends a round, and
//! the run of all nodes in rounds.
#![tactic(auto)]

mod broadcast;
mod env;
mod evaluator;
mod laws;
mod nodes;
mod omissions;
mod received;
mod rounds;
mod setup;
mod states;
mod turn;

pub use broadcast::is_broadcast;
pub use env::{Env, Scope};
pub use evaluator::eval;
pub use laws::{
    decisions_agree, decisions_are_locked, inboxes_rise, numbers_stop, only_past_counts,
    only_senders_count, places_are_kept, sets_are_members, typed_values_fit, types_are_kept,
};
pub use nodes::NodeSet;
pub use omissions::{Omission, OmissionTable};
pub use received::{Heard, Received, is_inbox};
pub use rounds::run_rounds;
pub use run_events::{MAX_NODES, MAX_ROUNDS};
pub use setup::{Inputs, MAX_FAULTS, Setup};
pub use states::StateTable;
pub use turn::{decision_of, end_of, finish_of, initial_of, send_of, take_of};
