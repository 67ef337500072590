//! A picture in words, for those who can't see it.
use crate::arrow::{Ending, Standing};
use crate::drawing::{Drawing, Lane};
use crate::step::Work;
use std::io;
use std::io::Write;

/// How many of the messages that are drawn came to what.
#[derive(Clone, Copy)]
struct Counts {
    heard: usize,
    late: usize,
    early: usize,
    dropped: usize,
    left: usize,
    silent: usize,
}

/// Writes what is drawn in words: what came of the messages, and the rounds and the decisions of
/// each node.
pub(crate) fn write_description<O: Write>(drawing: &Drawing, out: &mut O) -> io::Result<()> {
    writeln!(
        out,
        "A space-time diagram: a lane for each node, time from left to right, and an arrow for \
         each copy of a message."
    )?;
    write_counts(&counted(drawing), out)?;
    for lane in &drawing.lanes {
        write_node(drawing, lane, out)?;
    }
    Ok(())
}

fn write_counts<O: Write>(counts: &Counts, out: &mut O) -> io::Result<()> {
    let Counts {
        heard,
        late,
        early,
        dropped,
        left,
        silent,
    } = counts;
    writeln!(
        out,
        "Copies that are heard: {heard}. Received too late: {late}. Received too early: {early}. \
         Dropped: {dropped}. Never released or never received: {left}. Steps in which nothing is \
         sent: {silent}."
    )
}

fn write_node<O: Write>(drawing: &Drawing, lane: &Lane, out: &mut O) -> io::Result<()> {
    let Lane {
        node,
        input,
        steps,
        closed,
        ..
    } = lane;
    write!(
        out,
        "node {node}: input {input}, steps {steps}, closed rounds {closed}"
    )?;
    for flag in &drawing.flags {
        let change = &flag.change;
        if change.node == *node {
            write!(out, "; {change}")?;
        }
    }
    writeln!(out, ".")
}

fn counted(drawing: &Drawing) -> Counts {
    let mut silent = 0usize;
    for track in &drawing.history.tracks {
        let silences = track.steps.iter().filter(|step| is_silence(step.work));
        silent = silent.saturating_add(silences.count());
    }
    Counts {
        heard: heard(drawing),
        late: ended(drawing, Ending::Late),
        early: ended(drawing, Ending::Early),
        dropped: ended(drawing, Ending::Dropped),
        left: ended(drawing, Ending::Flying).saturating_add(ended(drawing, Ending::Waiting)),
        silent,
    }
}

/// How many arrows end so.
fn ended(drawing: &Drawing, ending: Ending) -> usize {
    let arrows = drawing.arrows.iter();
    arrows.filter(|arrow| arrow.ending() == ending).count()
}

/// How many arrows are drawn as heard.
fn heard(drawing: &Drawing) -> usize {
    let arrows = drawing.arrows.iter();
    arrows
        .filter(|arrow| arrow.standing == Standing::Heard)
        .count()
}

fn is_silence(work: Work) -> bool {
    matches!(work, Work::Silence(_))
}
