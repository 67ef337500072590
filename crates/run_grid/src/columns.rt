//! Columns of rounds.
use crate::cell::Cell;
use crate::form::Form;
use run_events::NoMemory;
use run_picture::RoundRange;
use std::alloc::Global;

/// Where the lanes begin.
pub(crate) const LEFT: u32 = 84;

/// The width of a cell without its text.
const MARGIN: u32 = 12;

/// A round that is shown: where its messages begin, where its cells begin, and how wide these are.
#[derive(Clone, Copy)]
pub(crate) struct Column {
    pub round: u32,
    pub start: u32,
    pub left: u32,
    pub width: u32,
}

impl Column {
    pub(crate) fn end(&self) -> u32 {
        self.left.saturating_add(self.width)
    }

    pub(crate) fn middle(&self) -> u32 {
        self.left.saturating_add(self.width / 2)
    }
}

/// The columns of the rounds of a range: each is as wide as the widest of its cells.
pub(crate) fn columns(
    alloc: Global,
    form: &Form,
    range: RoundRange,
    cells: &[Cell<'_>],
) -> Result<Vec<Column>, NoMemory> {
    let mut columns = Vec::new(alloc);
    let mut start = LEFT;
    for before in 0..rounds_in(range) {
        let round = range.first.saturating_add(before);
        let column = Column {
            round,
            start,
            left: start.saturating_add(form.gap),
            width: width_of(form, round, cells),
        };
        columns.push(column)?;
        start = column.end();
    }
    Ok(columns)
}

/// How many rounds a range has.
pub(crate) fn rounds_in(range: RoundRange) -> u32 {
    range.last.saturating_add(1).saturating_sub(range.first)
}

fn width_of(form: &Form, round: u32, cells: &[Cell<'_>]) -> u32 {
    let mut width = form.least_width();
    for cell in cells {
        if cell.round == round {
            let text = Form::width_of(cell.text.letters()).saturating_add(MARGIN);
            width = text.max(width);
        }
    }
    width
}
