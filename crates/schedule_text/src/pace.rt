//! How threads run: their pace, and where nodes end.

/// The pace at which threads take their steps.
#[derive(Clone, Copy, PartialEq, Eq, Debug)]
pub enum Pace {
    /// The threads go on as the system lets them.
    Free,
    /// In each tick the network acts first, and then every running node takes one step.
    Ticks,
}

/// Where a node ends: after so many steps.
#[derive(Clone, Copy, PartialEq, Eq, Debug)]
pub struct Stop {
    pub node: u32,
    pub steps: u32,
}
