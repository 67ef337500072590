//! The journal of a run: a book of what is recorded, with a buffer of frames for each node.
#![tactic(auto)]

mod fitting;
mod journal;

pub use fitting::place;
pub use journal::{Journal, Took};
