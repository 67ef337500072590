//! What the signs of a grid mean.
use crate::form::Marks;
use crate::grid::Grid;
use crate::hearing::Hearing;
use run_picture::Point;
use std::io;
use std::io::Write;

/// A sign, which the legend explains if it's in the grid.
#[derive(Clone, Copy, PartialEq, Eq, Debug)]
enum Sign {
    Cell,
    Heard,
    Omitted,
    Silent,
    Decision,
    Decided,
    Stop,
}

const SIGNS: [Sign; 7] = [
    Sign::Cell,
    Sign::Heard,
    Sign::Omitted,
    Sign::Silent,
    Sign::Decision,
    Sign::Decided,
    Sign::Stop,
];

/// The width of a sign with its words, the height of a row, and how many signs are in it.
const WIDTH: u32 = 240;

const HEIGHT: u32 = 22;

const IN_ROW: u32 = 3;

/// How high a legend is, with the space around it.
pub(crate) fn legend_height(grid: &Grid<'_>) -> u32 {
    let mut shown: u32 = 0;
    for sign in &SIGNS {
        if is_shown(*sign, grid) {
            shown = shown.saturating_add(1);
        }
    }
    let note = match grid.form.marks {
        Marks::Arrows => 0,
        Marks::Dots => HEIGHT,
    };
    let rows = shown.div_ceil(IN_ROW);
    rows.saturating_mul(HEIGHT)
        .saturating_add(note)
        .saturating_add(44)
}

pub(crate) fn write_legend<O: Write>(grid: &Grid<'_>, out: &mut O) -> io::Result<()> {
    let top = grid.bottom().saturating_add(42);
    let mut place = Point { x: 16, y: top };
    let mut beside: u32 = 0;
    for sign in &SIGNS {
        if is_shown(*sign, grid) {
            if beside >= IN_ROW {
                beside = 0;
                place = Point {
                    x: 16,
                    y: place.y.saturating_add(HEIGHT),
                };
            }
            write_sign(grid, *sign, place, out)?;
            beside = beside.saturating_add(1);
            place.x = place.x.saturating_add(WIDTH);
        }
    }
    if grid.form.marks == Marks::Dots {
        write_order(place.y.saturating_add(HEIGHT + 4), out)?;
    }
    Ok(())
}

/// Writes how the dots of a cell are read.
fn write_order<O: Write>(y: u32, out: &mut O) -> io::Result<()> {
    writeln!(
        out,
        "<text class=\"note\" x=\"16\" y=\"{y}\">The dots of a cell are the senders in the order \
         of the lanes, from left to right, in rows of 8.</text>"
    )
}

fn is_shown(sign: Sign, grid: &Grid<'_>) -> bool {
    match sign {
        Sign::Cell => !grid.cells.is_empty(),
        Sign::Heard => has(grid, Hearing::Heard),
        Sign::Omitted => has(grid, Hearing::Omitted),
        Sign::Silent => grid.form.marks == Marks::Dots && has(grid, Hearing::Silent),
        Sign::Decided => grid.cells.iter().any(|cell| cell.is_decided),
        Sign::Decision => grid.cells.iter().any(|cell| cell.change.is_some()),
        Sign::Stop => grid.lanes.iter().any(|lane| lane.stops),
    }
}

/// Whether this became of a message.
fn has(grid: &Grid<'_>, hearing: Hearing) -> bool {
    for cell in &grid.cells {
        for sender in &grid.lanes {
            if Hearing::of(cell.row, sender) == hearing {
                return true;
            }
        }
    }
    false
}

fn write_sign<O: Write>(grid: &Grid<'_>, sign: Sign, place: Point, out: &mut O) -> io::Result<()> {
    let Point { x, y } = place;
    let (text, low) = (x.saturating_add(36), y.saturating_add(4));
    write!(out, "<g transform=\"translate({x} {y})\">")?;
    out.write_all(drawn(sign, grid.form.marks).as_bytes())?;
    writeln!(out, "</g>")?;
    writeln!(
        out,
        "<text x=\"{text}\" y=\"{low}\">{}</text>",
        meaning(sign)
    )
}

/// The sign itself, 28 pixels wide.
fn drawn(sign: Sign, marks: Marks) -> &'static str {
    match (sign, marks) {
        (Sign::Cell, _) => {
            "<rect class=\"box\" y=\"-8\" width=\"28\" height=\"16\" rx=\"4\"/>\
             <text class=\"entry\" x=\"4\" y=\"4\"><tspan class=\"name\">x</tspan> 1</text>"
        }
        (Sign::Heard, Marks::Arrows) => {
            "<g class=\"heard\"><path class=\"taken\" d=\"M0 0h28\"/></g>"
        }
        (Sign::Heard, Marks::Dots) => "<path class=\"dots\" d=\"M14 0h0\"/>",
        (Sign::Omitted, Marks::Arrows) => {
            "<g class=\"missed\"><path class=\"dropped\" d=\"M0 0h22\"/></g>"
        }
        (Sign::Omitted, Marks::Dots) => "<path class=\"cross\" d=\"M11 -3l6 6m0 -6l-6 6\"/>",
        (Sign::Silent, _) => "<path class=\"quiet\" d=\"M14 0h0\"/>",
        (Sign::Decision, _) => {
            "<g class=\"flag\"><path d=\"M4 9v-17h21l-4 8l4 8h-21\"/>\
             <text x=\"13\" y=\"4\">1</text></g>"
        }
        (Sign::Decided, _) => {
            "<g class=\"decided\">\
             <rect class=\"box\" y=\"-8\" width=\"28\" height=\"16\" rx=\"4\"/></g>"
        }
        (Sign::Stop, _) => {
            "<path class=\"lane\" d=\"M0 0h14\"/><path class=\"rest\" d=\"M14 0h14\"/>\
             <g class=\"stop\"><path d=\"M14 -9v18\"/></g>"
        }
    }
}

fn meaning(sign: Sign) -> &'static str {
    match sign {
        Sign::Cell => "what changed in the state",
        Sign::Heard => "heard",
        Sign::Omitted => "omitted",
        Sign::Silent => "no message to the node",
        Sign::Decision => "a new or changed decision",
        Sign::Decided => "the node has a decision",
        Sign::Stop => "the node doesn't close the round",
    }
}
