//! A grid in words, for those who can't see it.
use crate::grid::Grid;
use crate::hearing::Hearing;
use crate::lane::Lane;
use std::io;
use std::io::Write;

/// Writes what is drawn in words: what came of the messages, and the rounds and the decisions of
/// each node.
pub(crate) fn write_description<O: Write>(grid: &Grid<'_>, out: &mut O) -> io::Result<()> {
    let heard = count(grid, Hearing::Heard);
    let omitted = count(grid, Hearing::Omitted);
    let silent = count(grid, Hearing::Silent);
    writeln!(
        out,
        "A grid: a lane for each node, a column for each round, and in each cell what changed in \
         the node's state."
    )?;
    writeln!(
        out,
        "Messages that are heard: {heard}. Omitted: {omitted}. Senders without a message: {silent}."
    )?;
    for lane in &grid.lanes {
        write_node(grid, lane, out)?;
    }
    Ok(())
}

fn write_node<O: Write>(grid: &Grid<'_>, lane: &Lane, out: &mut O) -> io::Result<()> {
    let Lane { node, closed, .. } = lane;
    write!(out, "node {node}: closed rounds {closed}")?;
    for cell in &grid.cells {
        if let Some(change) = cell.change {
            if change.node == *node {
                write!(out, "; {change}")?;
            }
        }
    }
    writeln!(out, ".")
}

/// Of how many messages this became.
fn count(grid: &Grid<'_>, hearing: Hearing) -> usize {
    let mut count = 0usize;
    for cell in &grid.cells {
        for sender in &grid.lanes {
            if Hearing::of(cell.row, sender) == hearing {
                count = count.saturating_add(1);
            }
        }
    }
    count
}
