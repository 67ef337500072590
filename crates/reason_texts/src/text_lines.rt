//! The lines of a schedule, a header, a thread setup or an omission file.
use round_lang::Span;
use run_events::NoMemory;
use std::alloc::Global;

/// How many lines that say something a schedule has before its first event.
pub const HEADER_LINES: usize = 5;

/// A line of a text: its number, from 1, and where it stands without its end.
#[derive(Clone, Copy, PartialEq, Eq, Debug)]
pub struct TextLine {
    pub number: usize,
    pub span: Span,
}

/// The lines of a text, and those of them that say something.
#[derive(Drop)]
pub struct TextLines {
    end: usize,
    all: usize,
    significant: Vec<TextLine>,
}

impl TextLines {
    /// The lines of a text. Empty ones and comments say nothing.
    pub fn new(alloc: Global, text: &str) -> Result<TextLines, NoMemory> {
        let bytes = text.as_bytes();
        let mut lines = TextLines {
            end: bytes.len(),
            all: 0,
            significant: Vec::new(alloc),
        };
        let mut first = 0;
        for (at, byte) in bytes.iter().enumerate() {
            if *byte == b'\n' {
                lines.add(bytes, Span { first, after: at })?;
                first = at.saturating_add(1);
            }
        }
        lines.add(
            bytes,
            Span {
                first,
                after: bytes.len(),
            },
        )?;
        Ok(lines)
    }

    /// Adds a line, whose end may have a carriage return.
    fn add(&mut self, bytes: &[u8], span: Span) -> Result<(), NoMemory> {
        self.all = self.all.saturating_add(1);
        let line = match bytes.get(span.first..span.after) {
            Some(line) => line,
            None => return Ok(()),
        };
        let kept = match line {
            [kept @ .., b'\r'] => kept.len(),
            _ => line.len(),
        };
        match line {
            [] | [b'#', ..] | [b'\r'] => Ok(()),
            _ => {
                self.significant.push(TextLine {
                    number: self.all,
                    span: Span {
                        first: span.first,
                        after: span.first.saturating_add(kept),
                    },
                })?;
                Ok(())
            }
        }
    }

    /// The line that says something with so many of these before it.
    pub fn significant(&self, index: usize) -> Option<TextLine> {
        self.significant.get(index).copied()
    }

    /// The number of the line of an event of a schedule, from 1, by the event's place in the trace,
    /// from 0; 0 if the text has no such line.
    pub fn of_event(&self, place: usize) -> usize {
        match self.significant(place.saturating_add(HEADER_LINES)) {
            Some(line) => line.number,
            None => 0,
        }
    }

    /// How many lines that say something stand before the one with a number, and that one if it
    /// says something; past the last line, the end of the text.
    pub fn numbered(&self, number: usize) -> (usize, TextLine) {
        let before = self
            .significant
            .iter()
            .filter(|line| line.number < number)
            .count();
        match self.significant.get(before) {
            Some(line) if line.number == number => (before, *line),
            _ => (
                before,
                TextLine {
                    number,
                    span: Span {
                        first: self.end,
                        after: self.end,
                    },
                },
            ),
        }
    }
}
