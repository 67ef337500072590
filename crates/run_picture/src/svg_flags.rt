//! Flags in SVG.
use crate::drawing::Drawing;
use crate::flag::DecisionChange;
use crate::grid::{BAND, Point};
use std::io;
use std::io::Write;

pub(crate) fn write_flags<O: Write>(drawing: &Drawing, out: &mut O) -> io::Result<()> {
    let grid = &drawing.grid;
    for flag in &drawing.flags {
        if let Some(y) = grid.y(flag.change.node) {
            let bar = grid.x(flag.at).saturating_add(grid.half());
            let foot = Point {
                x: bar.saturating_sub(1),
                y: y.saturating_sub(BAND),
            };
            write_flag(&flag.change, foot, out)?;
        }
    }
    Ok(())
}

/// Writes a flag whose pole stands at this point. It is 17 pixels high, and reaches 21 pixels to
/// the right.
pub fn write_flag<O: Write>(change: &DecisionChange, foot: Point, out: &mut O) -> io::Result<()> {
    let DecisionChange { node, round, .. } = change;
    let Point { x, y } = foot;
    let top = y.saturating_sub(17);
    writeln!(
        out,
        "<g class=\"flag\" data-decision=\"{node} {round}\"><title>{change}</title>"
    )?;
    write!(out, "<path d=\"M{x} {y}V{top}h21l-4 8l4 8h-21\"/>")?;
    let middle = Point {
        x: x.saturating_add(9),
        y: top.saturating_add(12),
    };
    write_value(change.value, middle, out)?;
    writeln!(out, "</g>")
}

fn write_value<O: Write>(value: Option<u32>, middle: Point, out: &mut O) -> io::Result<()> {
    let Point { x, y } = middle;
    match value {
        Some(value) => write!(out, "<text x=\"{x}\" y=\"{y}\">{value}</text>"),
        None => write!(out, "<text x=\"{x}\" y=\"{y}\">\u{2013}</text>"),
    }
}
