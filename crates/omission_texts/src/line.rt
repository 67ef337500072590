//! What a line of a text says.

use crate::nodes::NodeList;

/// Rounds from a first to a last; none if the first comes after the last.
#[derive(Clone, Copy, PartialEq, Eq, Debug)]
pub struct RoundRange {
    pub first: u32,
    pub last: u32,
}

/// Messages that a run omits.
#[derive(Drop, Debug)]
pub enum OmissionLine {
    /// The receiver misses the sender's messages of these rounds.
    Omit {
        receiver: u32,
        rounds: RoundRange,
        sender: u32,
    },
    /// In these rounds nothing gets from the nodes of the list to the others or back.
    Cut {
        nodes: NodeList,
        rounds: RoundRange,
    },
    /// The node's messages of the round reach only the nodes of the list, and none of a later round
    /// reaches any.
    Crash {
        node: u32,
        round: u32,
        reached: NodeList,
    },
}
