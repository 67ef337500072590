//! All that is drawn of a run.
use crate::arrow::{Arrow, Told};
use crate::flag::{Flag, flags};
use crate::grid::Grid;
use crate::history::History;
use crate::lane::Track;
use crate::rows::Rows;
use crate::view::View;
use omission_explainer::Report;
use omission_reasons::TraceIndex;
use run_events::NoMemory;
use slot_plans::Plan;
use std::alloc::Global;
use step_book::Book;

/// A node that is shown: its input, how many steps it took and how many rounds it closed, and
/// whether it stops in a round that is shown and that it doesn't close.
#[derive(Clone, Copy)]
pub(crate) struct Lane {
    pub node: u32,
    pub y: u32,
    pub input: u32,
    pub steps: u64,
    pub closed: u64,
    pub stops: bool,
}

/// The values that are drawn.
#[derive(Drop)]
pub(crate) struct Drawing {
    pub grid: Grid,
    pub lanes: Vec<Lane>,
    pub history: History,
    pub arrows: Vec<Arrow>,
    pub flags: Vec<Flag>,
}

impl Drawing {
    pub(crate) fn new<P: Plan>(
        alloc: Global,
        report: &Report,
        rows: &Rows<'_>,
        book: &Book<P>,
        view: &View,
    ) -> Result<Drawing, NoMemory> {
        let index = TraceIndex::new(alloc, book)?;
        let mut history = History::read(alloc, book, view)?;
        let nodes = book.setup().nodes;
        let grid = Grid::new(alloc, nodes, view, history.columns.here())?;
        let told = Told {
            book,
            index: &index,
            rows,
        };
        told.note_unsent(&mut history, view);
        Ok(Drawing {
            lanes: lanes(alloc, report, book, &grid, view)?,
            arrows: told.arrows(alloc, &history, view)?,
            flags: flags(alloc, rows, history.tracks.as_slice(), view)?,
            grid,
            history,
        })
    }

    /// What is drawn on a node's lane.
    pub(crate) fn track(&self, node: u32) -> Option<&Track> {
        self.history.tracks.get(node as usize)
    }
}

fn lanes<P: Plan>(
    alloc: Global,
    report: &Report,
    book: &Book<P>,
    grid: &Grid,
    view: &View,
) -> Result<Vec<Lane>, NoMemory> {
    let setup = book.setup();
    let inputs = setup.inputs.as_slice();
    let mut lanes = Vec::new(alloc);
    let mut node = 0;
    for (steps, closed) in report.counts.as_slice() {
        if let (Some(y), Some(input)) = (grid.y(node), inputs.get(node as usize)) {
            lanes.push(Lane {
                node,
                y,
                input: *input,
                steps: *steps,
                closed: *closed,
                stops: *closed < u64::from(setup.rounds)
                    && view.shows_number(closed.saturating_add(1)),
            })?;
        }
        node = node.saturating_add(1);
    }
    Ok(lanes)
}
