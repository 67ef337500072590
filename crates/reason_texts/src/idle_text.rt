//! Why an event of the network did nothing, in words.
use crate::text_lines::TextLines;
use omission_reasons::Idle;
use run_events::{Event, Name};
use std::fmt;

/// Why an event of the network did nothing.
///
/// It prints as `release 0 1 2 did nothing: node 0 had not sent it yet`, with no line break behind
/// it.
#[derive(Clone, Copy)]
pub struct IdleText<'a> {
    pub event: Event,
    pub idle: Idle,
    /// The lines of the schedule's text.
    pub lines: &'a TextLines,
}

impl fmt::Display for IdleText<'_> {
    fn fmt<W: fmt::Write>(&self, f: &mut fmt::Formatter<W>) -> fmt::Result {
        match self.event {
            Event::Step(node) => write!(f, "step {node}"),
            Event::Release(name) => self.write_event("release", name, f),
            Event::Drop(name) => self.write_event("drop", name, f),
            Event::Copy(name) => self.write_event("copy", name, f),
        }
    }
}

impl IdleText<'_> {
    /// Writes the event as a schedule has it, and why it did nothing.
    fn write_event<W: fmt::Write>(
        &self,
        word: &str,
        name: Name,
        f: &mut fmt::Formatter<W>,
    ) -> fmt::Result {
        let Name {
            from,
            to,
            round,
            copy,
        } = name;
        write!(f, "{word} {from} {to} {round}")?;
        if copy > 0 {
            write!(f, " {copy}")?;
        }
        write!(f, " did nothing: ")?;
        self.write_cause(name, f)
    }

    fn write_cause<W: fmt::Write>(&self, name: Name, f: &mut fmt::Formatter<W>) -> fmt::Result {
        let Name { from, copy, .. } = name;
        match self.idle {
            Idle::NotMade if copy == 0 || self.event == Event::Copy(name) => {
                write!(f, "node {from} had not sent it yet")
            }
            Idle::NotMade => write!(f, "copy {copy} had not been made yet"),
            Idle::Silent => write!(f, "node {from} was silent"),
            Idle::Gone { place } => {
                write!(f, "it had left at line {}", self.lines.of_event(place))
            }
            Idle::Made { place } => {
                let line = self.lines.of_event(place);
                write!(f, "that copy was made at line {line}")
            }
        }
    }
}
