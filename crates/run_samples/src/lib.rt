//! Runs in rounds made at random: whether a property fails in one of them. And runs in which one
//! fails, without the omissions that aren't needed for it.
//!
//! A sample has inputs, a pattern of failures, and for each round and node the messages that the
//! node misses, all drawn of those that a question allows, so that each draw makes a run that the
//! question asks about. The property is tested after each round: a failure is told with the first
//! round in which the property fails in that run, and else how many runs were made.
//!
//! A run in which a property fails may have omissions that the failure doesn't need. They're left
//! out of it as long as the property first fails in the same round.
#![tactic(auto)]

mod dice;
mod drawing;
mod drawn;
mod listed;
mod losses;
mod machine;
mod missing;
mod running;
mod sampling;
mod shrinking;
mod tally;

pub use sampling::{Sampled, Sampling, sample};
pub use shrinking::shrink;
