//! How a node's thread ends.

/// How a node's thread ended.
#[derive(Clone, Copy, PartialEq, Eq, Debug)]
pub enum Ended {
    /// It closed every round.
    Done,
    /// It took as many steps as it was to take.
    Stopped,
    /// It had no memory.
    NoMemory,
}
