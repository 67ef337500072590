//! Which messages of a sample are lost.
use crate::dice::{Dice, Rate};
use round_meaning::NodeSet;

/// How messages are lost for a while. No contract speaks of it: whether a node may miss what is
/// lost is tested row by row.
#[derive(Clone, Copy, PartialEq, Eq, Debug)]
pub(crate) struct Losses {
    rate: Rate,
    /// If there is one, only messages between its nodes and the others are lost.
    side: Option<NodeSet>,
}

impl Losses {
    /// None is lost.
    pub(crate) fn none() -> Losses {
        Losses {
            rate: Rate::Never,
            side: None,
        }
    }

    pub(crate) fn new(dice: &mut Dice) -> Losses {
        let side = if dice.happens(Rate::InOneOfFour) {
            Some(dice.side())
        } else {
            None
        };
        Losses {
            rate: drawn_rate(dice),
            side,
        }
    }

    /// Those of the next round: mostly the same.
    pub(crate) fn next(self, dice: &mut Dice) -> Losses {
        if dice.happens(Rate::Rarely) {
            Losses::new(dice)
        } else {
            self
        }
    }

    /// Whether a message is lost from one node to another.
    pub(crate) fn hit(self, from: u32, to: u32, dice: &mut Dice) -> bool {
        let apart = match self.side {
            Some(side) => side.contains(from) != side.contains(to),
            None => true,
        };
        apart && dice.happens(self.rate)
    }
}

/// One of the rates.
fn drawn_rate(dice: &mut Dice) -> Rate {
    match dice.below(5) {
        0 => Rate::Never,
        1 => Rate::Rarely,
        2 => Rate::InOneOfFour,
        3 => Rate::InOneOfTwo,
        _ => Rate::Mostly,
    }
}
