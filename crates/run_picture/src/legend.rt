//! What the signs of a picture mean.
ghost use Rattle.std.specs.Prelude.{◌<◌};

use crate::arrow::{Arrow, Ending, Standing};
use crate::drawing::Drawing;
use crate::grid::Point;
use crate::step::Work;
use std::io;
use std::io::Write;

/// A sign, which the legend explains if it's in the picture.
#[derive(Clone, Copy, PartialEq, Eq, Debug)]
enum Sign {
    Send,
    Silence,
    Receive,
    End,
    Idle,
    Stop,
    Decision,
    Heard,
    NotInTime,
    Dropped,
    Flying,
    Waiting,
    Open,
    Made,
}

const SIGNS: [Sign; 14] = [
    Sign::Send,
    Sign::Silence,
    Sign::Receive,
    Sign::End,
    Sign::Idle,
    Sign::Stop,
    Sign::Decision,
    Sign::Heard,
    Sign::NotInTime,
    Sign::Dropped,
    Sign::Flying,
    Sign::Waiting,
    Sign::Open,
    Sign::Made,
];

/// The width of a sign with its words, and the height of a row.
const WIDTH: u32 = 228;

const HEIGHT: u32 = 22;

/// How high a legend is, with the space around it.
pub(crate) fn legend_height(drawing: &Drawing) -> u32 {
    let mut shown: u32 = 0;
    for sign in &SIGNS {
        if is_shown(*sign, drawing) {
            shown = shown.saturating_add(1);
        }
    }
    let rows = shown.div_ceil(in_row(drawing));
    rows.saturating_mul(HEIGHT).saturating_add(36)
}

/// How many signs stand beside each other, at least one.
fn in_row(drawing: &Drawing) -> u32
    ensures { 0 < result }
{
    match drawing.grid.width().saturating_sub(16) / WIDTH {
        0 | 1 => 1,
        2 => 2,
        3 => 3,
        4 => 4,
        _ => 5,
    }
}

pub(crate) fn write_legend<O: Write>(drawing: &Drawing, out: &mut O) -> io::Result<()> {
    let in_row = in_row(drawing);
    let top = drawing.grid.bottom().saturating_add(30);
    let mut place = Point { x: 16, y: top };
    let mut beside: u32 = 0;
    for sign in &SIGNS {
        if is_shown(*sign, drawing) {
            write_sign(*sign, place, out)?;
            beside = beside.saturating_add(1);
            place = next_place(place, beside >= in_row);
            if beside >= in_row {
                beside = 0;
            }
        }
    }
    Ok(())
}

fn next_place(place: Point, is_row_full: bool) -> Point {
    if is_row_full {
        Point {
            x: 16,
            y: place.y.saturating_add(HEIGHT),
        }
    } else {
        Point {
            x: place.x.saturating_add(WIDTH),
            y: place.y,
        }
    }
}

fn is_shown(sign: Sign, drawing: &Drawing) -> bool {
    match sign {
        Sign::Stop => drawing.lanes.iter().any(|lane| lane.stops),
        Sign::Decision => !drawing.flags.is_empty(),
        Sign::Heard
        | Sign::NotInTime
        | Sign::Dropped
        | Sign::Flying
        | Sign::Waiting
        | Sign::Open
        | Sign::Made => { drawing.arrows.iter().any(|arrow| is_arrow(sign, arrow)) }
        Sign::Send | Sign::Silence | Sign::Receive | Sign::End | Sign::Idle => {
            has_step(sign, drawing)
        }
    }
}

fn is_arrow(sign: Sign, arrow: &Arrow) -> bool {
    match sign {
        Sign::Heard => arrow.standing == Standing::Heard,
        Sign::NotInTime => matches!(arrow.ending(), Ending::Late | Ending::Early),
        Sign::Dropped => arrow.ending() == Ending::Dropped,
        Sign::Flying => arrow.ending() == Ending::Flying,
        Sign::Waiting => arrow.ending() == Ending::Waiting,
        Sign::Open => arrow.standing == Standing::Open,
        Sign::Made => arrow.name.copy > 0,
        _ => false,
    }
}

fn has_step(sign: Sign, drawing: &Drawing) -> bool {
    for track in &drawing.history.tracks {
        if track.steps.iter().any(|step| is_step(sign, step.work)) {
            return true;
        }
    }
    false
}

fn is_step(sign: Sign, work: Work) -> bool {
    match work {
        Work::Send(_) => sign == Sign::Send,
        Work::Silence(_) => sign == Sign::Silence,
        Work::Receive { round: _, last } => sign == Sign::Receive || (last && sign == Sign::End),
        Work::Idle => sign == Sign::Idle,
    }
}

fn write_sign<O: Write>(sign: Sign, place: Point, out: &mut O) -> io::Result<()> {
    let Point { x, y } = place;
    let (text, low) = (x.saturating_add(36), y.saturating_add(4));
    write!(out, "<g transform=\"translate({x} {y})\">")?;
    out.write_all(drawn(sign).as_bytes())?;
    writeln!(out, "</g>")?;
    writeln!(
        out,
        "<text x=\"{text}\" y=\"{low}\">{}</text>",
        meaning(sign)
    )
}

/// The sign itself, 28 pixels wide.
fn drawn(sign: Sign) -> &'static str {
    match sign {
        Sign::Send =>
            "<path class=\"lane\" d=\"M0 0h28\"/><path class=\"send\" d=\"M11 0h6l-3 -8z\"/>",
        Sign::Silence => {
            "<path class=\"lane\" d=\"M0 0h28\"/>\
             <circle class=\"silence\" cx=\"14\" cy=\"-6\" r=\"3\"/>"
        }
        Sign::Receive => {
            "<path class=\"lane\" d=\"M0 0h28\"/><path class=\"receive\" d=\"M11 0h6l-3 8z\"/>"
        }
        Sign::End => {
            "<rect class=\"odd\" y=\"-9\" width=\"21\" height=\"18\"/>\
             <path class=\"end\" d=\"M20 -9v18\"/>"
        }
        Sign::Idle => {
            "<path class=\"lane\" d=\"M0 0h28\"/><circle class=\"idle\" cx=\"14\" r=\"2.5\"/>"
        }
        Sign::Stop => {
            "<path class=\"lane\" d=\"M0 0h14\"/><path class=\"rest\" d=\"M14 0h14\"/>\
             <g class=\"stop\"><path d=\"M14 -9v18\"/></g>"
        }
        Sign::Decision => {
            "<g class=\"flag\"><path d=\"M4 9v-17h21l-4 8l4 8h-21\"/>\
             <text x=\"13\" y=\"4\">1</text></g>"
        }
        Sign::Heard => "<g class=\"heard\"><path class=\"taken\" d=\"M0 0h28\"/></g>",
        Sign::NotInTime => "<g class=\"missed\"><path class=\"late\" d=\"M0 0h28\"/></g>",
        Sign::Dropped => "<g class=\"missed\"><path class=\"dropped\" d=\"M0 0h22\"/></g>",
        Sign::Flying => {
            "<g class=\"missed\"><path class=\"flying\" d=\"M0 0h14\"/>\
             <circle class=\"ring\" cx=\"21\" r=\"7\"/>\
             <text class=\"to\" x=\"21\" y=\"4\">1</text></g>"
        }
        Sign::Waiting => "<g class=\"missed\"><path class=\"waiting\" d=\"M0 0h24\"/></g>",
        Sign::Open => "<g class=\"open\"><path class=\"taken\" d=\"M0 0h28\"/></g>",
        Sign::Made => {
            "<g class=\"heard\"><path class=\"taken\" d=\"M0 4Q14 -6 28 4\"/>\
             <text class=\"made\" x=\"11\" y=\"-3\">1</text></g>"
        }
    }
}

fn meaning(sign: Sign) -> &'static str {
    match sign {
        Sign::Send => "sends a message",
        Sign::Silence => "sends nothing",
        Sign::Receive => "receives",
        Sign::End => "a round, and its end",
        Sign::Idle => "has nothing to do",
        Sign::Stop => "takes no more steps",
        Sign::Decision => "a new or changed decision",
        Sign::Heard => "heard in its round",
        Sign::NotInTime => "received too late or too early",
        Sign::Dropped => "dropped",
        Sign::Flying => "to node 1, never released",
        Sign::Waiting => "released, never received",
        Sign::Open => "its round isn't closed",
        Sign::Made => "a copy that the network made",
    }
}
