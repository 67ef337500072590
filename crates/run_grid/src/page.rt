//! Writing a grid.
use crate::described::write_description;
use crate::fault::GridFault;
use crate::form::Marks;
use crate::grid::Grid;
use crate::legend::{legend_height, write_legend};
use crate::sheet::GridSheet;
use crate::style::STYLE;
use crate::svg_arrows::write_arrows;
use crate::svg_cells::write_cells;
use crate::svg_lanes::{write_lanes, write_stops};
use omission_explainer::Report;
use run_events::MAX_NODES;
use run_picture::{Frame, Heading, ReportText, Rows};
use std::alloc::Global;
use std::io;
use std::io::Write;

/// The least width of a grid: that of a row of its legend, and of its notes.
const LEAST_WIDTH: u32 = 760;

/// Writes a run as a grid of its rounds: an SVG file, or an HTML page with the same picture.
///
/// It has a cell for each round that a node closed, whose title is the report's line for that
/// round. A message is drawn as heard or as omitted as the row of its receiver has it, but none is
/// drawn of a node that stopped in an earlier round. Up to 5 nodes and 24 rounds messages are
/// arrows, and else dots in the cell. The title may be any text. Equal reports give equal pictures.
pub fn write_grid<O: Write>(
    alloc: Global,
    report: &Report,
    sheet: &GridSheet<'_>,
    out: &mut O,
) -> Result<(), GridFault> {
    let text = ReportText::new(alloc, report)?;
    let rows = Rows::new(alloc, MAX_NODES, report, text.text())?;
    let grid = Grid::new(alloc, report, &rows, sheet)?;
    let view = sheet.shown(report);
    let heading = Heading {
        title: sheet.title,
        view: &view,
    };
    let frame = Frame {
        heading,
        width: grid
            .end()
            .saturating_add(16)
            .max(heading.width())
            .max(LEAST_WIDTH),
        height: grid.bottom().saturating_add(legend_height(&grid)),
    };
    write_frame(&grid, frame, Note::of(sheet, report), out)?;
    Ok(())
}

/// What a grid says below its heading.
#[derive(Clone, Copy)]
struct Note {
    is_instead: bool,
    is_cut: bool,
}

impl Note {
    fn of(sheet: &GridSheet<'_>, report: &Report) -> Note {
        Note {
            is_instead: sheet.is_instead,
            is_cut: sheet.is_cut(report),
        }
    }

    fn write<O: Write>(&self, out: &mut O) -> io::Result<()> {
        if !self.is_instead && !self.is_cut {
            return Ok(());
        }
        write!(out, "<text class=\"note\" x=\"16\" y=\"46\">")?;
        if self.is_instead {
            write!(
                out,
                "The run has more than 400 events, so rounds are drawn and not single steps."
            )?;
        }
        if self.is_instead && self.is_cut {
            write!(out, " ")?;
        }
        if self.is_cut {
            write!(
                out,
                "A grid has 60 rounds at the most; --rounds A-B names others."
            )?;
        }
        writeln!(out, "</text>")
    }
}

/// Writes the picture. What stands later lies above what stands before it: lanes, arrows, cells and
/// flags, and where nodes stop.
fn write_frame<O: Write>(
    grid: &Grid<'_>,
    frame: Frame<'_>,
    note: Note,
    out: &mut O,
) -> io::Result<()> {
    frame.begin(out)?;
    write_description(grid, out)?;
    frame.begin_marks(STYLE, out)?;
    note.write(out)?;
    write_lanes(grid, out)?;
    if grid.form.marks == Marks::Arrows {
        write_arrows(grid, out)?;
    }
    write_cells(grid, out)?;
    write_stops(grid, out)?;
    write_legend(grid, out)?;
    frame.end(out)
}
