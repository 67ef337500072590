//! Arrows in SVG.
use crate::arrow::{Arrow, Ending, Standing};
use crate::arrow_title::ArrowTitle;
use crate::drawing::Drawing;
use crate::grid::Point;
use crate::path::ArrowPath;
use reason_texts::TextLines;
use run_events::Name;
use std::io::Write;
use std::{fmt, io};

/// The class of what the report says of a copy.
impl fmt::Display for Standing {
    fn fmt<W: fmt::Write>(&self, f: &mut fmt::Formatter<W>) -> fmt::Result {
        match self {
            Standing::Heard => write!(f, "heard"),
            Standing::Missed(_) => write!(f, "missed"),
            Standing::Spare => write!(f, "spare"),
            Standing::Open => write!(f, "open"),
        }
    }
}

/// The class of where an arrow ends.
impl fmt::Display for Ending {
    fn fmt<W: fmt::Write>(&self, f: &mut fmt::Formatter<W>) -> fmt::Result {
        match self {
            Ending::Taken => write!(f, "taken"),
            Ending::Late => write!(f, "late"),
            Ending::Early => write!(f, "early"),
            Ending::Dropped => write!(f, "dropped"),
            Ending::Flying => write!(f, "flying"),
            Ending::Waiting => write!(f, "waiting"),
        }
    }
}

/// How many lanes there are at most if arrows are drawn at full strength.
const FEW_LANES: usize = 6;

/// Writes the arrows: those of heard messages first, so that the others lie above them.
pub(crate) fn write_arrows<O: Write>(
    drawing: &Drawing,
    lines: &TextLines,
    out: &mut O,
) -> io::Result<()> {
    let class = if drawing.lanes.len() > FEW_LANES {
        "many"
    } else {
        "few"
    };
    writeln!(out, "<g class=\"{class}\">")?;
    write_standing(drawing, lines, true, out)?;
    write_standing(drawing, lines, false, out)?;
    writeln!(out, "</g>")
}

/// Writes the arrows of the copies that are heard, or all others.
fn write_standing<O: Write>(
    drawing: &Drawing,
    lines: &TextLines,
    are_heard: bool,
    out: &mut O,
) -> io::Result<()> {
    for arrow in &drawing.arrows {
        if (arrow.standing == Standing::Heard) == are_heard {
            if let Some(path) = ArrowPath::new(&drawing.grid, arrow) {
                let title = ArrowTitle { arrow, lines };
                write_arrow(&title, &path, out)?;
            }
        }
    }
    Ok(())
}

/// Writes an arrow: twice, once to be seen, and once broad enough to be found by a pointer.
fn write_arrow<O: Write>(title: &ArrowTitle<'_>, path: &ArrowPath, out: &mut O) -> io::Result<()> {
    let Arrow { name, standing, .. } = title.arrow;
    let Name {
        from,
        to,
        round,
        copy,
    } = name;
    let ending = title.arrow.ending();
    writeln!(
        out,
        "<g class=\"{standing}\" data-message=\"{from} {to} {round} {copy}\">"
    )?;
    writeln!(out, "<title>{title}</title>")?;
    writeln!(out, "<path class=\"line {ending}\" d=\"{path}\"/>")?;
    write!(out, "<path class=\"hit\" d=\"{path}\"/>")?;
    if ending == Ending::Flying {
        write_ring(*to, path.end, out)?;
    }
    if *copy > 0 {
        let Point { x, y } = path.label();
        write!(
            out,
            "<text class=\"made\" x=\"{x}\" y=\"{y}\">{copy}</text>"
        )?;
    }
    writeln!(out, "</g>")
}

/// Writes the open end of a copy that is still in flight, with the node to which it was sent.
fn write_ring<O: Write>(to: u32, end: Point, out: &mut O) -> io::Result<()> {
    let Point { x, y } = end;
    let low = y.saturating_add(4);
    write!(
        out,
        "<circle class=\"ring\" cx=\"{x}\" cy=\"{y}\" r=\"7\"/>\
         <text class=\"to\" x=\"{x}\" y=\"{low}\">{to}</text>"
    )
}
