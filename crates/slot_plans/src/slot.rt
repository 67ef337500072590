//! What a step of a node is for.

/// A step's place in its round.
#[derive(Clone, Copy, PartialEq, Eq, Debug)]
pub enum Slot {
    /// The step in which a node sends its message of the round to the node `to`, counted from 0.
    Send { round: u32, to: u32 },
    /// A step in which a node receives; `last` if the round ends with it.
    Receive { round: u32, last: bool },
}
