//! A report as a table.

use crate::cells::{push_nodes, push_variable};
use crate::fault::DataFault;
use crate::table::Table;
use omission_explainer::{Report, ReportRow};
use std::alloc::Global;
use std::io;
use std::io::Write;

/// What the blocks of a table are: the rows of each round, or those of each node.
#[derive(Clone, Copy, PartialEq, Eq, Debug)]
pub enum Grouping {
    Round,
    Node,
}

/// What a table shows.
#[derive(Clone, Copy, Debug)]
pub struct TableOptions<'a> {
    pub by: Grouping,
    /// The places of the variables that have a column, from 0 in the order of their declarations;
    /// all have one if there is no list. A place without a variable has no column.
    pub variables: Option<&'a [usize]>,
    /// Whether only the rows are shown whose state or decision isn't that of the same node's row
    /// before. A node's first row is shown.
    pub changed_only: bool,
}

/// Writes a report's rows as a table of aligned columns, in blocks with a head line each and an
/// empty line between two.
///
/// A block has the rows of one round by their nodes, or those of one node by their rounds. The
/// columns are the round and the node (by nodes: the node and the round), `heard`, `silent` and
/// `omitted`, the variables, and the decision. A block without a row that is shown is left out, and
/// so nothing is written for a report without rows. If memory runs out or the writer fails, the
/// writer has a beginning of the text.
pub fn write_table<W: Write>(
    alloc: Global,
    report: &Report,
    options: &TableOptions<'_>,
    out: &mut W,
) -> Result<(), DataFault> {
    let mut places = Vec::new(alloc);
    for place in 0..report.names.as_slice().len() {
        places.push(place)?;
    }
    let view = TableView {
        report,
        by: options.by,
        places: options.variables.unwrap_or(places.as_slice()),
        changed_only: options.changed_only,
    };
    let mut table = Table::new(alloc);
    view.write_blocks(&mut table, &mut io::sink())?;
    view.write_blocks(&mut table, out)
}

/// A report, and what is shown of it.
#[derive(Clone, Copy)]
struct TableView<'a> {
    report: &'a Report,
    by: Grouping,
    places: &'a [usize],
    changed_only: bool,
}

impl TableView<'_> {
    fn write_blocks<W: Write>(&self, table: &mut Table, out: &mut W) -> Result<(), DataFault> {
        match self.by {
            Grouping::Round => self.write_rows(None, false, table, out)?,
            Grouping::Node => {
                let mut is_later = false;
                for node in 0..self.report.counts.as_slice().len() {
                    is_later = self.write_rows(Some(node), is_later, table, out)?;
                }
                is_later
            }
        };
        Ok(())
    }

    /// Writes the blocks of all rows or of one node's, behind an empty line if something stands
    /// before; answers whether something stands there now.
    fn write_rows<W: Write>(
        &self,
        node: Option<usize>,
        is_later: bool,
        table: &mut Table,
        out: &mut W,
    ) -> Result<bool, DataFault> {
        let mut is_later = is_later;
        let mut block = None;
        for (place, row) in self.report.rows.as_slice().iter().enumerate() {
            if !self.shows(place, row, node) {
                continue;
            }
            let key = self.block_of(row);
            if block != Some(key) {
                if is_later {
                    out.write_all(b"\n")?;
                }
                self.write_head(table, out)?;
                block = Some(key);
                is_later = true;
            }
            self.write_row(row, table, out)?;
        }
        Ok(is_later)
    }

    /// The number of the block to which a row belongs.
    fn block_of(&self, row: &ReportRow) -> u32 {
        match self.by {
            Grouping::Round => row.round,
            Grouping::Node => row.node,
        }
    }

    /// Whether the row at a place is shown among all rows or among those of a node.
    fn shows(&self, place: usize, row: &ReportRow, node: Option<usize>) -> bool {
        match node {
            Some(node) if row.node as usize != node => false,
            _ => !self.changed_only || has_changed(self.report.rows.as_slice(), place, row),
        }
    }

    fn write_head<W: Write>(&self, table: &mut Table, out: &mut W) -> Result<(), DataFault> {
        table.begin_row();
        let (first, second) = match self.by {
            Grouping::Round => ("round", "node"),
            Grouping::Node => ("node", "round"),
        };
        for head in [first, second, "heard", "silent", "omitted"] {
            table.push_cell(head.as_bytes())?;
        }
        for place in self.places {
            if let Some(name) = self.report.names.as_slice().get(*place) {
                table.push_cell(name.as_str().as_bytes())?;
            }
        }
        table.push_cell(b"decision")?;
        table.write_row(out)
    }

    fn write_row<W: Write>(
        &self,
        row: &ReportRow,
        table: &mut Table,
        out: &mut W,
    ) -> Result<(), DataFault> {
        table.begin_row();
        let (first, second) = match self.by {
            Grouping::Round => (row.round, row.node),
            Grouping::Node => (row.node, row.round),
        };
        table.push_number(u64::from(first))?;
        table.push_number(u64::from(second))?;
        for nodes in [row.heard, row.silent, row.omitted] {
            table.begin_cell()?;
            push_nodes(nodes, table.line())?;
            table.end_cell()?;
        }
        for place in self.places {
            if *place < self.report.names.as_slice().len() {
                table.begin_cell()?;
                push_variable(self.report, row, *place, table.line())?;
                table.end_cell()?;
            }
        }
        table.push_number_or_none(row.decision)?;
        table.write_row(out)
    }
}

/// Whether the state or the decision of the row at a place is another than that of the same node's
/// row before, or there is none.
fn has_changed(rows: &[ReportRow], place: usize, row: &ReportRow) -> bool {
    for before in rows.iter().take(place).rev() {
        if before.node == row.node {
            return before.decision != row.decision || !before.state.equals(&row.state);
        }
    }
    true
}
