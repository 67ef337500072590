//! The text of a cell.
use crate::clip::Clip;
use crate::entries::Entry;
use crate::form::Form;
use run_events::NoMemory;
use std::alloc::Global;

/// The fewest letters of a value that are shown, and the room between two variables.
const LEAST_VALUE: u32 = 3;

const BETWEEN: u32 = 2;

/// A variable and its value, and where they stand: in which line, behind how many letters.
#[derive(Clone, Copy)]
pub(crate) struct Piece<'a> {
    pub name: Clip<'a>,
    pub value: Clip<'a>,
    pub line: u32,
    pub start: u32,
}

impl Piece<'_> {
    fn letters(&self) -> u32 {
        self.name
            .letters()
            .saturating_add(1)
            .saturating_add(self.value.letters())
    }
}

/// As many variables as a cell has room for, and whether there are more.
#[derive(Drop)]
pub(crate) struct CellText<'a> {
    pub pieces: Vec<Piece<'a>>,
    pub is_cut: bool,
}

impl<'a> CellText<'a> {
    pub(crate) fn new(
        alloc: Global,
        form: &Form,
        entries: &[Entry<'a>],
    ) -> Result<CellText<'a>, NoMemory> {
        let mut pieces = Vec::new(alloc);
        let mut line = 0u32;
        let mut start = 0u32;
        for entry in entries {
            let piece = piece_of(form, entry);
            let letters = piece.letters();
            if start > 0 && start.saturating_add(letters) > form.letters {
                line = line.saturating_add(1);
                start = 0;
            }
            if line >= form.lines {
                return Ok(CellText {
                    pieces,
                    is_cut: true,
                });
            }
            pieces.push(Piece {
                line,
                start,
                ..piece
            })?;
            start = start.saturating_add(letters).saturating_add(BETWEEN);
        }
        Ok(CellText {
            pieces,
            is_cut: false,
        })
    }

    /// How many lines it has.
    pub(crate) fn lines(&self) -> u32 {
        match self.pieces.last() {
            Some(piece) => piece.line.saturating_add(1),
            None => 0,
        }
    }

    /// Where the last line ends.
    pub(crate) fn end(&self) -> u32 {
        match self.pieces.last() {
            Some(piece) => piece.start.saturating_add(piece.letters()),
            None => 0,
        }
    }

    /// How many letters the longest line has, with the dots behind the last one.
    pub(crate) fn letters(&self) -> u32 {
        let mut most = if self.is_cut {
            self.end().saturating_add(BETWEEN)
        } else {
            0
        };
        for piece in &self.pieces {
            most = piece.start.saturating_add(piece.letters()).max(most);
        }
        most
    }
}

/// A variable at the beginning of a line.
fn piece_of<'a>(form: &Form, entry: &Entry<'a>) -> Piece<'a> {
    let name = Clip::new(entry.name, form.letters.saturating_sub(LEAST_VALUE + 1));
    let left = form
        .letters
        .saturating_sub(name.letters())
        .saturating_sub(1);
    Piece {
        name,
        value: Clip::new(entry.value, left),
        line: 0,
        start: 0,
    }
}
