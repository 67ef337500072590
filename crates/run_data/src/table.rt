//! Texts in aligned columns.

use crate::fault::DataFault;
use crate::line::Line;
use std::alloc::{AllocError, Global};
use std::io::Write;

/// How many blanks stand between two columns.
const GAP: usize = 2;

/// A table that is made row by row, each cell with its left end at the column's. The columns are as
/// wide as the widest cells that were made so far, so all rows are made twice: once to be measured,
/// and then to be written.
#[derive(Drop)]
pub(crate) struct Table {
    widths: Vec<usize>,
    line: Line,
    /// The columns of the row that have their cells, and where the next cell begins.
    column: usize,
    begin: usize,
}

impl Table {
    pub(crate) fn new(alloc: Global) -> Table {
        Table {
            widths: Vec::new(alloc),
            line: Line::new(alloc),
            column: 0,
            begin: 0,
        }
    }

    /// The line to which a cell's text is pushed between `begin_cell` and `end_cell`.
    pub(crate) fn line(&mut self) -> &mut Line {
        &mut self.line
    }

    pub(crate) fn begin_row(&mut self) {
        self.line.clear();
        self.column = 0;
        self.begin = 0;
    }

    /// Brings the row to the begin of the next column.
    pub(crate) fn begin_cell(&mut self) -> Result<(), AllocError> {
        if self.column > 0 {
            let width = self.widths.get(self.column - 1).copied().unwrap_or(0);
            let column = self.begin.saturating_add(width).saturating_add(GAP);
            for _ in self.line.len()..column {
                self.line.push(b' ')?;
            }
        }
        self.begin = self.line.len();
        Ok(())
    }

    /// Ends a cell: its column is as wide as it at least.
    pub(crate) fn end_cell(&mut self) -> Result<(), AllocError> {
        let length = self.line.len().saturating_sub(self.begin);
        match self.widths.get_mut(self.column) {
            Some(width) => {
                if *width < length {
                    *width = length;
                }
            }
            None => self.widths.push(length)?,
        }
        self.column = self.column.saturating_add(1);
        Ok(())
    }

    /// A cell of this text.
    pub(crate) fn push_cell(&mut self, text: &[u8]) -> Result<(), AllocError> {
        self.begin_cell()?;
        self.line.push_all(text)?;
        self.end_cell()
    }

    /// A cell of a number.
    pub(crate) fn push_number(&mut self, number: u64) -> Result<(), AllocError> {
        self.begin_cell()?;
        self.line.push_number(number)?;
        self.end_cell()
    }

    /// A cell of a number, or of `-` for none.
    pub(crate) fn push_number_or_none(&mut self, number: Option<u32>) -> Result<(), AllocError> {
        match number {
            Some(number) => self.push_number(u64::from(number)),
            None => self.push_cell(b"-"),
        }
    }

    /// Writes the row.
    pub(crate) fn write_row<W: Write>(&mut self, out: &mut W) -> Result<(), DataFault> {
        self.line.push(b'\n')?;
        out.write_all(self.line.as_slice())?;
        Ok(())
    }
}
