//! A drawing as a picture.
use crate::described::write_description;
use crate::drawing::Drawing;
use crate::frame::Frame;
use crate::heading::Heading;
use crate::legend::{legend_height, write_legend};
use crate::svg_arrows::write_arrows;
use crate::svg_flags::write_flags;
use crate::svg_lanes::{Words, write_lanes, write_steps};
use std::io;
use std::io::Write;

/// Writes the picture. What stands later lies above what stands before it: rounds, arrows, steps,
/// flags.
pub(crate) fn write_drawing<O: Write>(
    drawing: &Drawing,
    words: &Words<'_>,
    heading: Heading<'_>,
    out: &mut O,
) -> io::Result<()> {
    let frame = Frame {
        heading,
        width: drawing.grid.width().max(heading.width()),
        height: drawing.grid.bottom().saturating_add(legend_height(drawing)),
    };
    frame.begin(out)?;
    write_description(drawing, out)?;
    frame.begin_marks("", out)?;
    write_lanes(drawing, words, out)?;
    write_arrows(drawing, words.lines, out)?;
    write_steps(drawing, words, out)?;
    write_flags(drawing, out)?;
    write_legend(drawing, out)?;
    frame.end(out)
}
