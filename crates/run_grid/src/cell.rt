//! Cells: what became of a node in a round.
use crate::entries::changed_entries;
use crate::form::Form;
use crate::text::CellText;
use omission_explainer::ReportRow;
use run_events::NoMemory;
use run_picture::{DecisionChange, Rows, View};
use std::alloc::Global;

/// A round that a node closed: whether the node then has a decision, its row and its line of the
/// report, what changed in its state, and how its decision changed.
#[derive(Drop)]
pub(crate) struct Cell<'a> {
    pub node: u32,
    pub round: u32,
    pub is_decided: bool,
    pub row: &'a ReportRow,
    pub line: &'a str,
    pub text: CellText<'a>,
    pub change: Option<DecisionChange>,
}

impl<'a> Cell<'a> {
    fn new(
        alloc: Global,
        form: &Form,
        rows: &Rows<'a>,
        row: &'a ReportRow,
    ) -> Result<Cell<'a>, NoMemory> {
        let entries = changed_entries(alloc, rows, row)?;
        Ok(Cell {
            node: row.node,
            round: row.round,
            is_decided: row.decision.is_some(),
            row,
            line: rows.line(row.node, row.round).unwrap_or(""),
            text: CellText::new(alloc, form, entries.as_slice())?,
            change: DecisionChange::of(rows, row),
        })
    }
}

/// The cells that are shown, by round and then by node.
pub(crate) fn cells<'a>(
    alloc: Global,
    form: &Form,
    rows: &Rows<'a>,
    view: &View,
) -> Result<Vec<Cell<'a>>, NoMemory> {
    let mut cells = Vec::new(alloc);
    for row in rows.all() {
        if view.shows_node(row.node) && view.shows_round(row.round) {
            cells.push(Cell::new(alloc, form, rows, row)?)?;
        }
    }
    Ok(cells)
}
