//! Arrows in SVG.
use crate::arrow::Arrow;
use crate::grid::Grid;
use run_picture::Point;
use std::io;
use std::io::Write;

/// Writes the arrows: those of heard messages first, so that the others lie above them.
pub(crate) fn write_arrows<O: Write>(grid: &Grid<'_>, out: &mut O) -> io::Result<()> {
    write_such(grid, true, out)?;
    write_such(grid, false, out)
}

/// Writes the arrows of the messages that are heard, or all others.
fn write_such<O: Write>(grid: &Grid<'_>, are_heard: bool, out: &mut O) -> io::Result<()> {
    for cell in &grid.cells {
        for sender in &grid.lanes {
            if let Some(arrow) = Arrow::new(grid, cell, sender) {
                if arrow.is_heard == are_heard {
                    write_arrow(&arrow, out)?;
                }
            }
        }
    }
    Ok(())
}

/// Writes an arrow: twice, once to be seen, and once broad enough to be found by a pointer.
fn write_arrow<O: Write>(arrow: &Arrow, out: &mut O) -> io::Result<()> {
    let Arrow {
        from,
        to,
        round,
        start,
        end,
        ..
    } = arrow;
    let (class, ending) = if arrow.is_heard {
        ("heard", "taken")
    } else {
        ("missed", "dropped")
    };
    let Point { x, y } = start;
    let Point { x: right, y: low } = end;
    writeln!(
        out,
        "<g class=\"{class}\" data-message=\"{from} {to} {round}\">"
    )?;
    writeln!(
        out,
        "<title>{arrow}</title>\n<path class=\"line {ending}\" d=\"M{x} {y}L{right} {low}\"/>\
         <path class=\"hit\" d=\"M{x} {y}L{right} {low}\"/></g>"
    )
}
