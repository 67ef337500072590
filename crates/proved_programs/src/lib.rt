//! Recognizes programs that are proved to keep their promises for every number of nodes.
#![tactic(auto)]

mod algorithm;
mod recognizing;
mod same_but_values;

pub use algorithm::Algorithm;
pub use recognizing::algorithm_of;
