//! All that is drawn of a run.
use crate::cell::{Cell, cells};
use crate::columns::{Column, LEFT, columns, rounds_in};
use crate::form::Form;
use crate::lane::{Lane, LanePlaces, lanes};
use crate::sheet::GridSheet;
use omission_explainer::Report;
use run_events::{MAX_NODES, NoMemory};
use run_picture::Rows;
use std::alloc::Global;

/// The values that are drawn.
#[derive(Drop)]
pub(crate) struct Grid<'a> {
    pub form: Form,
    pub lanes: Vec<Lane>,
    pub columns: Vec<Column>,
    pub cells: Vec<Cell<'a>>,
    pub lane_places: LanePlaces,
}

impl<'a> Grid<'a> {
    pub(crate) fn new(
        alloc: Global,
        report: &Report,
        rows: &Rows<'a>,
        sheet: &GridSheet<'_>,
    ) -> Result<Grid<'a>, NoMemory> {
        let range = sheet.range(report);
        let lanes = lanes(alloc, report, sheet)?;
        let nodes = lanes.len().min(MAX_NODES as usize) as u32;
        let form = Form::of(nodes, rounds_in(range));
        let cells = cells(alloc, &form, rows, &sheet.shown(report))?;
        Ok(Grid {
            form,
            lanes,
            columns: columns(alloc, &form, range, cells.as_slice())?,
            lane_places: LanePlaces::new(&form, most_lines(cells.as_slice())),
            cells,
        })
    }

    /// The lane of a node, if it's shown.
    pub(crate) fn lane(&self, node: u32) -> Option<&Lane> {
        self.lanes.iter().find(|lane| lane.node == node)
    }

    /// The column of a round, if it's shown.
    pub(crate) fn column(&self, round: u32) -> Option<&Column> {
        let first = self.columns.first()?.round;
        self.columns.get(round.checked_sub(first)? as usize)
    }

    /// Where the cells of a lane begin.
    pub(crate) fn top(&self, lane: &Lane) -> u32 {
        self.lane_places
            .middle(lane.place)
            .saturating_sub(self.lane_places.height / 2)
    }

    /// Where the lanes end.
    pub(crate) fn end(&self) -> u32 {
        match self.columns.last() {
            Some(column) => column.end().saturating_add(14),
            None => LEFT + 60,
        }
    }

    /// Below the lanes.
    pub(crate) fn bottom(&self) -> u32 {
        let last = self.form.senders.saturating_sub(1);
        self.lane_places
            .middle(last)
            .saturating_add(self.lane_places.height / 2)
    }
}

fn most_lines(cells: &[Cell<'_>]) -> u32 {
    let mut most = 0;
    for cell in cells {
        most = cell.text.lines().max(most);
    }
    most
}
