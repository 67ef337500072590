//! The lines of arrows.
use crate::arrow::Arrow;
use crate::grid::{Grid, Point};
use crate::messages::Fate;
use std::fmt;

/// A straight line, or a curve that is pulled to a point.
#[derive(Clone, Copy)]
pub(crate) struct ArrowPath {
    pub start: Point,
    pub pull: Option<Point>,
    pub end: Point,
}

impl ArrowPath {
    /// The line of an arrow, if both lanes are shown. A message to oneself hangs from its lane, and
    /// copies that the network made go by curves.
    pub(crate) fn new(grid: &Grid, arrow: &Arrow) -> Option<ArrowPath> {
        let start = Point {
            x: grid.x(arrow.sent.at),
            y: grid.y(arrow.name.from)?,
        };
        if arrow.name.from == arrow.name.to {
            return Some(hanging(grid, arrow, start));
        }
        let lane = grid.y(arrow.name.to)?;
        let end = end_of(grid, arrow, start, lane);
        let pull = match arrow.name.copy {
            0 => None,
            copy => Some(pull_of(start, end, copy)),
        };
        Some(ArrowPath { start, pull, end })
    }

    /// Where the number of the copy stands.
    pub(crate) fn label(&self) -> Point {
        let middle = middle(self.start, self.end);
        match self.pull {
            Some(pull) => Point {
                x: middle.x.midpoint(pull.x).saturating_add(4),
                y: middle.y.midpoint(pull.y).saturating_add(3),
            },
            None => middle,
        }
    }
}

impl fmt::Display for ArrowPath {
    fn fmt<W: fmt::Write>(&self, f: &mut fmt::Formatter<W>) -> fmt::Result {
        let Point { x, y } = self.start;
        write!(f, "M{x} {y}")?;
        match self.pull {
            Some(Point { x, y }) => write!(f, "Q{x} {y} ")?,
            None => write!(f, "L")?,
        }
        let Point { x, y } = self.end;
        write!(f, "{x} {y}")
    }
}

/// The line of a message to oneself.
fn hanging(grid: &Grid, arrow: &Arrow, start: Point) -> ArrowPath {
    let deeper = arrow.name.copy.saturating_mul(8);
    let end = match arrow.copy.fate {
        Fate::Received { received, .. } => Point {
            x: grid.x(received.at),
            y: start.y.saturating_add(11),
        },
        Fate::Dropped { dropped, row } => Point {
            x: grid.x(dropped.at),
            y: row_before(start.y, start.y, row),
        },
        Fate::Waiting { released, row } => Point {
            x: grid.x(released.at),
            y: row_before(start.y, start.y, row),
        },
        Fate::Flying => Point {
            x: start.x.saturating_add(grid.half()),
            y: start.y.saturating_add(18).saturating_add(deeper),
        },
    };
    let pull = Point {
        x: middle(start, end).x,
        y: start.y.saturating_add(34).saturating_add(deeper),
    };
    ArrowPath {
        start,
        pull: Some(pull),
        end,
    }
}

/// Where the arrow of a message to another node ends, whose lane this is. What isn't received ends
/// before the lane.
fn end_of(grid: &Grid, arrow: &Arrow, start: Point, lane: u32) -> Point {
    match arrow.copy.fate {
        Fate::Received { received, .. } => Point {
            x: grid.x(received.at),
            y: beside_mark(start.y, lane),
        },
        Fate::Dropped { dropped, row } => Point {
            x: grid.x(dropped.at),
            y: row_before(start.y, lane, row),
        },
        Fate::Waiting { released, row } => Point {
            x: grid.x(released.at),
            y: row_before(start.y, lane, row),
        },
        Fate::Flying => stub(grid, start, lane, arrow.name.copy),
    }
}

/// The height at which the arrow of a message ends that is received: the mark of a receive stands
/// below the lane.
fn beside_mark(from: u32, lane: u32) -> u32 {
    if from < lane {
        lane.saturating_sub(5)
    } else {
        lane.saturating_add(11)
    }
}

/// The height of the ends in a row before a lane, on the side of the height from which it's
/// reached. Above a lane they stand above the flags.
fn row_before(from: u32, lane: u32, row: u32) -> u32 {
    let apart = row.saturating_mul(10);
    if from < lane {
        lane.saturating_sub(45).saturating_sub(apart)
    } else {
        lane.saturating_add(27).saturating_add(apart)
    }
}

/// Where the arrow of a copy ends that is still in flight: not far from its sender, and at another
/// height than the ends of other copies of its message. Above the lane they stand above the flags.
fn stub(grid: &Grid, start: Point, lane: u32, copy: u32) -> Point {
    let apart = copy.saturating_mul(15);
    let y = if lane < start.y {
        start.y.saturating_sub(50).saturating_sub(apart)
    } else {
        start.y.saturating_add(32).saturating_add(apart)
    };
    Point {
        x: start
            .x
            .saturating_add(grid.half())
            .saturating_add(grid.half()),
        y,
    }
}

/// To where the curve of a copy is pulled: to the right of its line.
fn pull_of(start: Point, end: Point, copy: u32) -> Point {
    let middle = middle(start, end);
    let pull = copy.saturating_mul(16);
    let y = if start.y < end.y {
        middle.y.saturating_sub(pull / 2)
    } else {
        middle.y.saturating_add(pull / 2)
    };
    Point {
        x: middle.x.saturating_add(pull),
        y,
    }
}

fn middle(start: Point, end: Point) -> Point {
    Point {
        x: start.x.midpoint(end.x),
        y: start.y.midpoint(end.y),
    }
}
