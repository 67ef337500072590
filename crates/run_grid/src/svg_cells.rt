//! Cells in SVG.
use crate::cell::Cell;
use crate::columns::Column;
use crate::form::{Form, LINE, Marks};
use crate::grid::Grid;
use crate::hearing::Hearing;
use crate::text::Piece;
use run_picture::{Escaped, Point, write_flag};
use std::io;
use std::io::Write;

/// The room between the edge of a cell and its text.
const MARGIN: u32 = 6;

/// Writes the cells, and then their flags.
pub(crate) fn write_cells<O: Write>(grid: &Grid<'_>, out: &mut O) -> io::Result<()> {
    for cell in &grid.cells {
        if let (Some(lane), Some(column)) = (grid.lane(cell.node), grid.column(cell.round)) {
            let corner = Point {
                x: column.left,
                y: grid.top(lane),
            };
            write_cell(grid, cell, column, corner, out)?;
            if let Some(change) = cell.change {
                let foot = Point {
                    x: corner.x.saturating_add(4),
                    y: corner.y,
                };
                write_flag(&change, foot, out)?;
            }
        }
    }
    Ok(())
}

fn write_cell<O: Write>(
    grid: &Grid<'_>,
    cell: &Cell<'_>,
    column: &Column,
    corner: Point,
    out: &mut O,
) -> io::Result<()> {
    let (node, round) = (cell.node, cell.round);
    let class = if cell.is_decided {
        "cell decided"
    } else {
        "cell"
    };
    let line = Escaped(cell.line);
    writeln!(
        out,
        "<g class=\"{class}\" data-cell=\"{node} {round}\">\n<title>{line}</title>"
    )?;
    let Point { x, y } = corner;
    let (width, height) = (column.width, grid.lane_places.height);
    write!(
        out,
        "<rect class=\"box\" x=\"{x}\" y=\"{y}\" width=\"{width}\" height=\"{height}\" rx=\"4\"/>"
    )?;
    if grid.form.marks == Marks::Dots {
        write_dots(grid, cell, corner, out)?;
    }
    write_text(grid, cell, corner, out)?;
    writeln!(out, "</g>")
}

/// Writes the senders of a cell, each at its place: dots for those that are heard, crosses for
/// those that are omitted, and small dots for those that are silent.
fn write_dots<O: Write>(
    grid: &Grid<'_>,
    cell: &Cell<'_>,
    corner: Point,
    out: &mut O,
) -> io::Result<()> {
    write_such(grid, cell, Hearing::Heard, corner, out)?;
    write_such(grid, cell, Hearing::Omitted, corner, out)?;
    write_such(grid, cell, Hearing::Silent, corner, out)
}

/// Writes the senders of which this became, as one path.
fn write_such<O: Write>(
    grid: &Grid<'_>,
    cell: &Cell<'_>,
    hearing: Hearing,
    corner: Point,
    out: &mut O,
) -> io::Result<()> {
    let mut is_begun = false;
    for sender in &grid.lanes {
        if Hearing::of(cell.row, sender) == hearing {
            if !is_begun {
                write!(out, "<path class=\"{}\" d=\"", class_of(hearing))?;
                is_begun = true;
            }
            write_dot(grid, hearing, sender.place, corner, out)?;
        }
    }
    if is_begun {
        writeln!(out, "\"/>")?;
    }
    Ok(())
}

fn class_of(hearing: Hearing) -> &'static str {
    match hearing {
        Hearing::Heard => "dots",
        Hearing::Omitted => "cross",
        Hearing::Silent | Hearing::Gone => "quiet",
    }
}

fn write_dot<O: Write>(
    grid: &Grid<'_>,
    hearing: Hearing,
    place: u32,
    corner: Point,
    out: &mut O,
) -> io::Result<()> {
    let Point { x, y } = grid.form.dot(corner, place);
    if hearing == Hearing::Omitted {
        let (left, top) = (x.saturating_sub(3), y.saturating_sub(3));
        return write!(out, "M{left} {top}l6 6m0 -6l-6 6");
    }
    write!(out, "M{x} {y}h0")
}

/// Writes what changed in the state.
fn write_text<O: Write>(
    grid: &Grid<'_>,
    cell: &Cell<'_>,
    corner: Point,
    out: &mut O,
) -> io::Result<()> {
    let text = &cell.text;
    let used = text.lines().saturating_mul(LINE);
    let strip = grid.form.strip();
    let free = grid
        .lane_places
        .height
        .saturating_sub(strip)
        .saturating_sub(used);
    let first = Point {
        x: corner.x.saturating_add(MARGIN),
        y: corner
            .y
            .saturating_add(strip)
            .saturating_add(free / 2)
            .saturating_add(10),
    };
    for piece in &text.pieces {
        write_piece(piece, first, out)?;
    }
    if text.is_cut {
        let behind = text.end().saturating_add(1);
        let place = place_of(text.lines().saturating_sub(1), behind, first);
        let Point { x, y } = place;
        write!(
            out,
            "<text class=\"entry\" x=\"{x}\" y=\"{y}\">\u{2026}</text>"
        )?;
    }
    Ok(())
}

fn write_piece<O: Write>(piece: &Piece<'_>, first: Point, out: &mut O) -> io::Result<()> {
    let Point { x, y } = place_of(piece.line, piece.start, first);
    let Piece { name, value, .. } = piece;
    write!(
        out,
        "<text class=\"entry\" x=\"{x}\" y=\"{y}\"><tspan class=\"name\">{name}</tspan> \
         {value}</text>"
    )
}

/// Where a text stands in a line, behind so many letters.
fn place_of(line: u32, letters: u32, first: Point) -> Point {
    Point {
        x: first.x.saturating_add(Form::width_of(letters)),
        y: first.y.saturating_add(line.saturating_mul(LINE)),
    }
}
