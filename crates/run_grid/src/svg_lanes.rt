//! Lanes and the numbers of rounds in SVG.
use crate::columns::{Column, LEFT};
use crate::form::Marks;
use crate::grid::Grid;
use crate::lane::Lane;
use std::io;
use std::io::Write;

/// Where the numbers of rounds stand.
const NUMBERS: u32 = 66;

/// With more lanes than these the numbers stand below them too.
const FEW_LANES: usize = 8;

/// How far to the right the names of nodes stand again, and how wide a column has to be for one.
const FAR: u32 = 1000;

const BROAD: u32 = 76;

/// Writes the numbers of rounds, and then the lanes.
pub(crate) fn write_lanes<O: Write>(grid: &Grid<'_>, out: &mut O) -> io::Result<()> {
    write_numbers(grid, NUMBERS, out)?;
    if grid.lanes.len() > FEW_LANES {
        write_numbers(grid, grid.bottom().saturating_add(16), out)?;
    }
    for lane in &grid.lanes {
        write_lane(grid, lane, out)?;
    }
    write_far_names(grid, out)
}

fn write_numbers<O: Write>(grid: &Grid<'_>, y: u32, out: &mut O) -> io::Result<()> {
    for column in &grid.columns {
        let (round, x) = (column.round, column.middle());
        let word = match grid.form.marks {
            Marks::Arrows => "round ",
            Marks::Dots => "",
        };
        writeln!(
            out,
            "<text class=\"round\" x=\"{x}\" y=\"{y}\">{word}{round}</text>"
        )?;
    }
    if grid.form.marks == Marks::Dots {
        writeln!(
            out,
            "<text class=\"number\" x=\"16\" y=\"{y}\">round</text>"
        )?;
    }
    Ok(())
}

/// Writes the names of nodes again above cells where those at the left may be out of sight.
fn write_far_names<O: Write>(grid: &Grid<'_>, out: &mut O) -> io::Result<()> {
    let mut next = FAR;
    for column in &grid.columns {
        if column.left > next && column.width >= BROAD {
            next = column.left.saturating_add(FAR);
            for lane in &grid.lanes {
                let node = lane.node;
                let (x, y) = (
                    column.left.saturating_add(31),
                    grid.top(lane).saturating_sub(4),
                );
                writeln!(
                    out,
                    "<text class=\"number\" x=\"{x}\" y=\"{y}\">node {node}</text>"
                )?;
            }
        }
    }
    Ok(())
}

/// Writes a lane: a line up to where the node stops, and dots behind it.
fn write_lane<O: Write>(grid: &Grid<'_>, lane: &Lane, out: &mut O) -> io::Result<()> {
    let Lane { node, closed, .. } = lane;
    let y = grid.lane_places.middle(lane.place);
    let end = grid.end();
    let name = y.saturating_add(4);
    writeln!(
        out,
        "<g data-node=\"{node}\"><title>node {node}: closed rounds {closed}</title>\
         <text x=\"16\" y=\"{name}\">node {node}</text>"
    )?;
    let last = stop_place(grid, lane).unwrap_or(end);
    write!(out, "<path class=\"lane\" d=\"M{LEFT} {y}H{last}\"/>")?;
    if last < end {
        write!(out, "<path class=\"rest\" d=\"M{last} {y}H{end}\"/>")?;
    }
    writeln!(out, "</g>")
}

/// Writes a bar where a node stops, for each that does in a round that is shown.
pub(crate) fn write_stops<O: Write>(grid: &Grid<'_>, out: &mut O) -> io::Result<()> {
    for lane in &grid.lanes {
        if let (Some(round), Some(column)) = (lane.stop(), stop_column(grid, lane)) {
            let node = lane.node;
            let x = column.left;
            let y = grid.lane_places.middle(lane.place);
            let (top, low) = (y.saturating_sub(10), y.saturating_sub(4));
            let text = x.saturating_add(6);
            writeln!(
                out,
                "<g class=\"stop\" data-stop=\"{node} {round}\">\n<title>node {node} doesn't close \
                 round {round}</title>\n<path d=\"M{x} {top}v20\"/>\
                 <text class=\"note\" x=\"{text}\" y=\"{low}\">stops</text></g>"
            )?;
        }
    }
    Ok(())
}

/// The column in which a node stops, if it's shown.
fn stop_column<'a>(grid: &'a Grid<'_>, lane: &Lane) -> Option<&'a Column> {
    let round = lane.stop()?;
    grid.columns
        .iter()
        .find(|column| u64::from(column.round) == round)
}

/// Where the line of a lane ends, if it ends before the last column: at its bar, or at the left if
/// the node stopped before the first column.
fn stop_place(grid: &Grid<'_>, lane: &Lane) -> Option<u32> {
    if let Some(column) = stop_column(grid, lane) {
        return Some(column.left);
    }
    let first = grid.columns.first()?;
    if lane.stop()? < u64::from(first.round) {
        return Some(LEFT);
    }
    None
}
