//! Lanes, bands and steps in SVG.
use crate::drawing::{Drawing, Lane};
use crate::escaped::Escaped;
use crate::grid::{BAND, Grid, Point};
use crate::lane::{Band, Track};
use crate::moment::Moment;
use crate::rows::Rows;
use crate::step::{Step, Work};
use omission_reasons::Reason;
use reason_texts::{ReasonText, TextLines};
use run_events::{MAX_NODES, Name};
use std::io::Write;
use std::{fmt, io};

/// How far to the right a band begins that is labelled with its node too, and the width that it
/// has to have.
const FAR: u32 = 900;

const BROAD: u32 = 100;

/// What is said of events and rounds: the lines of the schedule, and the report.
#[derive(Clone, Copy)]
pub(crate) struct Words<'a> {
    pub lines: &'a TextLines,
    pub rows: &'a Rows<'a>,
}

impl Words<'_> {
    fn line(&self, moment: Moment) -> usize {
        self.lines.of_event(moment.place)
    }
}

/// Writes the bands of all lanes, and then the lanes.
pub(crate) fn write_lanes<O: Write>(
    drawing: &Drawing,
    words: &Words<'_>,
    out: &mut O,
) -> io::Result<()> {
    for lane in &drawing.lanes {
        if let Some(track) = drawing.track(lane.node) {
            for band in &track.bands {
                write_band(&drawing.grid, words, lane, band, out)?;
            }
            write_lane(&drawing.grid, lane, track, out)?;
        }
    }
    Ok(())
}

/// Writes the steps of all lanes, the numbers of rounds, and where nodes stop.
pub(crate) fn write_steps<O: Write>(
    drawing: &Drawing,
    words: &Words<'_>,
    out: &mut O,
) -> io::Result<()> {
    for lane in &drawing.lanes {
        if let Some(track) = drawing.track(lane.node) {
            for band in &track.bands {
                write_number(&drawing.grid, lane, band, out)?;
            }
            for step in &track.steps {
                write_step(drawing, words, lane, step, out)?;
            }
            if lane.stops {
                write_stop(&drawing.grid, words, lane, track.last, out)?;
            }
        }
    }
    Ok(())
}

fn write_band<O: Write>(
    grid: &Grid,
    words: &Words<'_>,
    lane: &Lane,
    band: &Band,
    out: &mut O,
) -> io::Result<()> {
    let (node, round) = (lane.node, band.round);
    let x = grid.x(band.first.at).saturating_sub(grid.half());
    let top = lane.y.saturating_sub(BAND);
    let width = grid
        .x(band.last.at)
        .saturating_add(grid.half())
        .saturating_sub(x);
    let height = 2 * BAND;
    let class = band_class(words, lane, band);
    writeln!(out, "<g data-band=\"{node} {round}\">")?;
    write_band_title(words, lane, band, out)?;
    writeln!(
        out,
        "<rect class=\"{class}\" x=\"{x}\" y=\"{top}\" width=\"{width}\" height=\"{height}\"/></g>"
    )
}

/// Writes the number of a round into its band, and that of the node where its name may be out of
/// sight.
fn write_number<O: Write>(grid: &Grid, lane: &Lane, band: &Band, out: &mut O) -> io::Result<()> {
    let (node, round) = (lane.node, band.round);
    let start = grid.x(band.first.at).saturating_sub(grid.half());
    let end = grid.x(band.last.at).saturating_add(grid.half());
    let (x, y) = (start.saturating_add(2), lane.y.saturating_sub(BAND - 9));
    write!(out, "<text class=\"number\" x=\"{x}\" y=\"{y}\">{round}")?;
    if start > FAR && end.saturating_sub(start) > BROAD {
        write!(out, ", node {node}")?;
    }
    writeln!(out, "</text>")
}

fn band_class(words: &Words<'_>, lane: &Lane, band: &Band) -> &'static str {
    let is_closed = words.rows.of(lane.node, band.round).is_some();
    match (band.round % 2 == 0, is_closed) {
        (true, true) => "even",
        (true, false) => "even unclosed",
        (false, true) => "odd",
        (false, false) => "odd unclosed",
    }
}

/// Writes what the report says of the round.
fn write_band_title<O: Write>(
    words: &Words<'_>,
    lane: &Lane,
    band: &Band,
    out: &mut O,
) -> io::Result<()> {
    let node = lane.node;
    let round = band.round;
    let (first, last) = (words.line(band.first), words.line(band.last));
    match words.rows.line(node, round) {
        Some(line) => {
            let line = Escaped(line);
            write!(out, "<title>lines {first} to {last}: {line}")?;
            write_unsent(words, lane, band, out)?;
            writeln!(out, "</title>")
        }
        None => writeln!(
            out,
            "<title>lines {first} to {last}: round {round} node {node} isn't closed</title>"
        ),
    }
}

/// Writes of each message that the node missed since it was never sent that it wasn't.
fn write_unsent<O: Write>(
    words: &Words<'_>,
    lane: &Lane,
    band: &Band,
    out: &mut O,
) -> io::Result<()> {
    for from in 0..MAX_NODES {
        if band.unsent.contains(from) {
            let text = ReasonText {
                name: Name {
                    from,
                    to: lane.node,
                    round: band.round,
                    copy: 0,
                },
                made: None,
                reason: Reason::NotSent,
                lines: words.lines,
            };
            write!(out, "; {text}")?;
        }
    }
    Ok(())
}

/// Writes a lane: a line up to the node's last step, and dots behind it.
fn write_lane<O: Write>(grid: &Grid, lane: &Lane, track: &Track, out: &mut O) -> io::Result<()> {
    let Lane {
        node,
        y,
        input,
        steps,
        closed,
        ..
    } = lane;
    let (start, end) = (grid.start(), grid.end());
    let last = match track.last {
        Some(moment) => grid.x(moment.at).min(end),
        None => start,
    };
    let (name, below) = (y.saturating_sub(2), y.saturating_add(12));
    writeln!(out, "<g data-node=\"{node}\">")?;
    writeln!(
        out,
        "<title>node {node}: input {input}, steps {steps}, closed rounds {closed}</title>"
    )?;
    write!(out, "<text x=\"16\" y=\"{name}\">node {node}</text>")?;
    writeln!(
        out,
        "<text class=\"note\" x=\"16\" y=\"{below}\">input {input}</text>"
    )?;
    write!(out, "<path class=\"lane\" d=\"M{start} {y}H{last}\"/>")?;
    writeln!(out, "<path class=\"rest\" d=\"M{last} {y}H{end}\"/></g>")
}

/// Writes a step: a mark above the lane if the node sends, below it if it receives, and on it if it
/// has nothing to do.
fn write_step<O: Write>(
    drawing: &Drawing,
    words: &Words<'_>,
    lane: &Lane,
    step: &Step,
    out: &mut O,
) -> io::Result<()> {
    let title = StepTitle {
        node: lane.node,
        line: words.line(step.moment),
        work: step.work,
    };
    let (x, y) = (drawing.grid.x(step.moment.at), lane.y);
    let left = x.saturating_sub(3);
    match step.work {
        Work::Send(_) => writeln!(
            out,
            "<path class=\"send\" d=\"M{left} {y}h6l-3 -8z\">\n{title}</path>"
        ),
        Work::Silence(_) => {
            let up = y.saturating_sub(6);
            writeln!(
                out,
                "<circle class=\"silence\" cx=\"{x}\" cy=\"{up}\" r=\"3\">\n{title}</circle>"
            )
        }
        Work::Receive { round, last } => {
            let is_end = last && words.rows.of(lane.node, round).is_some();
            let bar = x.saturating_add(drawing.grid.half()).saturating_sub(1);
            write_receive(&title, is_end.then_some(bar), Point { x, y }, out)
        }
        Work::Idle => writeln!(
            out,
            "<circle class=\"idle\" cx=\"{x}\" cy=\"{y}\" r=\"2.5\">\n{title}</circle>"
        ),
    }
}

/// Writes a receive, and a bar at the end of the node's round if it ends with it.
fn write_receive<O: Write>(
    title: &StepTitle,
    end: Option<u32>,
    foot: Point,
    out: &mut O,
) -> io::Result<()> {
    let Point { x, y } = foot;
    let left = x.saturating_sub(3);
    let Some(bar) = end else {
        return writeln!(
            out,
            "<path class=\"receive\" d=\"M{left} {y}h6l-3 8z\">\n{title}</path>"
        );
    };
    let top = y.saturating_sub(BAND);
    let height = 2 * BAND;
    write!(
        out,
        "<g class=\"ends\">\n{title}\n<path d=\"M{left} {y}h6l-3 8z\"/>"
    )?;
    writeln!(out, "<path class=\"end\" d=\"M{bar} {top}v{height}\"/></g>")
}

/// Writes a bar where a node takes its last step, if a round of it stays open.
fn write_stop<O: Write>(
    grid: &Grid,
    words: &Words<'_>,
    lane: &Lane,
    last: Option<Moment>,
    out: &mut O,
) -> io::Result<()> {
    let node = lane.node;
    let round = lane.closed.saturating_add(1);
    let x = match last {
        Some(moment) => grid
            .x(moment.at)
            .saturating_add(grid.half())
            .min(grid.end()),
        None => grid.start(),
    };
    let top = lane.y.saturating_sub(9);
    write!(
        out,
        "<g class=\"stop\" data-stop=\"{node} {round}\"><title>"
    )?;
    match last {
        Some(moment) => write!(
            out,
            "node {node} takes no step after line {}, and doesn't close round {round}",
            words.line(moment)
        )?,
        None => write!(out, "node {node} takes no step")?,
    }
    writeln!(out, "</title><path d=\"M{x} {top}v18\"/></g>")
}

/// What is said of a step, in the element that holds it.
#[derive(Clone, Copy)]
struct StepTitle {
    node: u32,
    line: usize,
    work: Work,
}

impl fmt::Display for StepTitle {
    fn fmt<W: fmt::Write>(&self, f: &mut fmt::Formatter<W>) -> fmt::Result {
        let StepTitle { node, line, .. } = self;
        write!(f, "<title>line {line}: node {node} ")?;
        match self.work {
            Work::Send(Name { to, round, .. }) => {
                write!(f, "sends its message of round {round} to node {to}")?
            }
            Work::Silence(Name { to, round, .. }) => {
                write!(f, "sends nothing to node {to} in round {round}")?
            }
            Work::Receive { round, last: false } => write!(f, "receives in round {round}")?,
            Work::Receive { round, last: true } => {
                write!(f, "receives, and ends round {round}")?
            }
            Work::Idle => write!(f, "has nothing to do")?,
        }
        write!(f, "</title>")
    }
}
