//! Which part of a run a picture shows.
use round_meaning::NodeSet;

/// Rounds from the first to the last, both shown. Rounds count from 1; a range whose first round is
/// after its last has none.
#[derive(Clone, Copy, PartialEq, Eq, Debug)]
pub struct RoundRange {
    pub first: u32,
    pub last: u32,
}

/// What a picture shows, and in which form. Where there is no range or no set, it shows all rounds
/// or all nodes.
///
/// With a range it shows the steps, the messages and the bands of these rounds, and a message
/// belongs to its round, whenever it comes. With a set it shows these nodes and the messages
/// between them.
#[derive(Clone, Copy)]
pub struct View {
    pub rounds: Option<RoundRange>,
    pub nodes: Option<NodeSet>,
    /// Whether the picture stands in an HTML page.
    pub html: bool,
}

impl View {
    /// The same of a run with so many rounds: its range ends with the last one at the latest.
    pub fn within(&self, last_round: u32) -> View {
        let rounds = match self.rounds {
            Some(RoundRange { first, last }) => Some(RoundRange {
                first,
                last: last.min(last_round),
            }),
            None => None,
        };
        View { rounds, ..*self }
    }

    pub fn shows_round(&self, round: u32) -> bool {
        self.shows_number(u64::from(round))
    }

    /// Whether the round with this number is shown.
    pub(crate) fn shows_number(&self, round: u64) -> bool {
        match self.rounds {
            Some(rounds) => u64::from(rounds.first) <= round && round <= u64::from(rounds.last),
            None => true,
        }
    }

    pub fn shows_node(&self, node: u32) -> bool {
        match self.nodes {
            Some(nodes) => nodes.contains(node),
            None => true,
        }
    }

    /// The first round that can be shown.
    pub fn first_round(&self) -> u32 {
        match self.rounds {
            Some(rounds) => rounds.first.max(1),
            None => 1,
        }
    }
}
