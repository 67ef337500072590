//! Lanes of nodes.
use crate::form::Form;
use crate::sheet::GridSheet;
use omission_explainer::Report;
use run_events::NoMemory;
use std::alloc::Global;

/// What lies above the first lane's cells, and between the cells of two lanes: a flag has room.
const TOP: u32 = 92;

const BETWEEN: u32 = 26;

/// The least distance between the middles of two lanes.
const LEAST: u32 = 56;

/// A node that is shown: its place among those that are shown, how many rounds it closed, and
/// whether it stops before the last round.
#[derive(Clone, Copy)]
pub(crate) struct Lane {
    pub node: u32,
    pub place: u32,
    pub closed: u64,
    pub stops: bool,
}

impl Lane {
    /// The round in which the node stops.
    pub(crate) fn stop(&self) -> Option<u64> {
        if self.stops {
            return Some(self.closed.saturating_add(1));
        }
        None
    }
}

/// The nodes that are shown.
pub(crate) fn lanes(
    alloc: Global,
    report: &Report,
    sheet: &GridSheet<'_>,
) -> Result<Vec<Lane>, NoMemory> {
    let mut lanes = Vec::new(alloc);
    let mut node = 0u32;
    let mut place = 0u32;
    for (_steps, closed) in report.counts.as_slice() {
        if sheet.view.shows_node(node) {
            lanes.push(Lane {
                node,
                place,
                closed: *closed,
                stops: *closed < u64::from(sheet.rounds),
            })?;
            place = place.saturating_add(1);
        }
        node = node.saturating_add(1);
    }
    Ok(lanes)
}

/// Where lanes lie: the middle of the first one, and how far apart they are.
#[derive(Clone, Copy)]
pub(crate) struct LanePlaces {
    pub first: u32,
    pub apart: u32,
    /// The height of a cell.
    pub height: u32,
}

impl LanePlaces {
    /// The places of lanes whose cells have so many lines at the most.
    pub(crate) fn new(form: &Form, lines: u32) -> LanePlaces {
        let height = form.height(lines);
        LanePlaces {
            first: TOP.saturating_add(height / 2),
            apart: height.saturating_add(BETWEEN).max(LEAST),
            height,
        }
    }

    /// The middle of the lane at a place.
    pub(crate) fn middle(&self, place: u32) -> u32 {
        self.first.saturating_add(self.apart.saturating_mul(place))
    }
}
