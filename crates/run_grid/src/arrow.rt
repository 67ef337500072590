//! Arrows of messages.
use crate::cell::Cell;
use crate::grid::Grid;
use crate::hearing::Hearing;
use crate::lane::Lane;
use run_picture::Point;
use std::fmt;

/// How far before the cell of its receiver an arrow ends, heard or omitted.
const HEAD: u32 = 1;

const CROSS: u32 = 9;

/// The arrow of a message that was heard or omitted.
#[derive(Clone, Copy)]
pub(crate) struct Arrow {
    pub from: u32,
    pub to: u32,
    pub round: u32,
    pub is_heard: bool,
    pub start: Point,
    pub end: Point,
}

impl Arrow {
    /// The arrow from the node of a lane to the node of a cell, if there is one.
    pub(crate) fn new(grid: &Grid<'_>, cell: &Cell<'_>, sender: &Lane) -> Option<Arrow> {
        let is_heard = match Hearing::of(cell.row, sender) {
            Hearing::Heard => true,
            Hearing::Omitted => false,
            Hearing::Silent | Hearing::Gone => return None,
        };
        let column = grid.column(cell.round)?;
        let receiver = grid.lane(cell.node)?;
        let before = if is_heard { HEAD } else { CROSS };
        let middle = grid.lane_places.middle(receiver.place);
        Some(Arrow {
            from: sender.node,
            to: cell.node,
            round: cell.round,
            is_heard,
            start: Point {
                x: column.start,
                y: grid.lane_places.middle(sender.place),
            },
            end: Point {
                x: column.left.saturating_sub(before),
                y: grid.form.arrow_end(middle, sender.place),
            },
        })
    }
}

/// What came of the message.
impl fmt::Display for Arrow {
    fn fmt<W: fmt::Write>(&self, f: &mut fmt::Formatter<W>) -> fmt::Result {
        let Arrow {
            from,
            to,
            round,
            ..
        } = self;
        if self.is_heard {
            return write!(f, "node {to} heard node {from}'s message of round {round}");
        }
        write!(
            f,
            "node {from}'s message of round {round} to node {to} is omitted"
        )
    }
}
