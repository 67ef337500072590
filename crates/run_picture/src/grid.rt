//! Where lanes and columns lie, in pixels.
use crate::view::View;
use run_events::NoMemory;
use std::alloc::Global;

/// Half the height of a round's band.
pub(crate) const BAND: u32 = 21;

/// The distance between two lanes. From a lane up to the one above it there are half the band, a
/// flag, the ends of arrows from above, those of arrows from below to the lane above, and half of
/// its band.
const LANE: u32 = 102;

/// What lies before the first column, and above the middle of the first lane.
const LEFT: u32 = 104;

const TOP: u32 = 88;

/// The least width of a picture: that of its heading and of a row of its legend.
const LEAST_WIDTH: u32 = 720;

/// A place in a picture.
#[derive(Clone, Copy, PartialEq, Eq, Debug)]
pub struct Point {
    pub x: u32,
    pub y: u32,
}

/// The places of the lanes, and the width that the columns take.
#[derive(Drop)]
pub(crate) struct Grid {
    lanes: Vec<Option<u32>>,
    bottom: u32,
    half: u32,
    end: u32,
}

impl Grid {
    /// The grid for those of so many nodes that the view shows, whose last column this is.
    pub(crate) fn new(alloc: Global, nodes: u32, view: &View, last: u32) -> Result<Grid, NoMemory> {
        let mut lanes = Vec::new(alloc);
        let mut y = TOP;
        for node in 0..nodes {
            if view.shows_node(node) {
                lanes.push(Some(y))?;
                y = y.saturating_add(LANE);
            } else {
                lanes.push(None)?;
            }
        }
        let half = half_width(last);
        Ok(Grid {
            lanes,
            bottom: y,
            half,
            end: column(half, last.saturating_add(2)),
        })
    }

    /// The middle of a node's lane, if that is shown.
    pub(crate) fn y(&self, node: u32) -> Option<u32> {
        *self.lanes.get(node as usize)?
    }

    /// The middle of a column, or of the gap between two.
    pub(crate) fn x(&self, at: u32) -> u32 {
        column(self.half, at)
    }

    /// Half the width of a column.
    pub(crate) fn half(&self) -> u32 {
        self.half
    }

    /// Where the lanes begin.
    pub(crate) fn start(&self) -> u32 {
        LEFT
    }

    /// Where the lanes end.
    pub(crate) fn end(&self) -> u32 {
        self.end
    }

    /// Below the lanes.
    pub(crate) fn bottom(&self) -> u32 {
        self.bottom.saturating_sub(LANE / 2)
    }

    pub(crate) fn width(&self) -> u32 {
        self.end.saturating_add(24).max(LEAST_WIDTH)
    }
}

/// Half the width of a column, if this is the last one: few columns are drawn wider.
fn half_width(last: u32) -> u32 {
    match last {
        0..=50 => 13,
        51..=120 => 10,
        _ => 8,
    }
}

/// The middle of a column by its number of half columns of this width.
fn column(half: u32, at: u32) -> u32 {
    at.saturating_add(2)
        .saturating_mul(half)
        .saturating_add(LEFT)
}
