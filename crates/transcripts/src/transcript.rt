//! Reading a transcript.
use run_events::NoMemory;
use std::alloc::{AllocError, AllocFailed, Global};
use thiserror::Error;

/// The line that ends what a command or a file is given, and that stands before and after output
/// with blank lines, twice each.
pub(crate) const END: &str = "----";

/// The first word of the line that gives a file its content.
const FILE: &str = "file";

/// The first word of a command.
const PROGRAM: &str = "roundc";

/// Why a text is no transcript: the line that is wrong, counted from 1, and how.
#[derive(Clone, Copy, Debug, PartialEq, Eq, Error)]
pub(crate) enum TranscriptFault {
    #[error("{0}: a command begins with `roundc`, and a file with `file`")]
    Unknown(usize),
    #[error("{0}: no line ---- after this")]
    Unended(usize),
    #[error("{0}: no two lines ---- after the output of this")]
    Unfenced(usize),
    #[error("{0}: a quote has no end")]
    Unquoted(usize),
    #[error("{0}: a file has one name")]
    Unnamed(usize),
    #[error("no memory")]
    NoMemory,
}

impl From<AllocError> for TranscriptFault {
    fn from(_error: AllocError) -> TranscriptFault {
        TranscriptFault::NoMemory
    }
}

impl<T: Drop> From<AllocFailed<T>> for TranscriptFault {
    fn from(_error: AllocFailed<T>) -> TranscriptFault {
        TranscriptFault::NoMemory
    }
}

impl From<NoMemory> for TranscriptFault {
    fn from(_no_memory: NoMemory) -> TranscriptFault {
        TranscriptFault::NoMemory
    }
}

/// Lines of a text from the place `first` up to the place `end`, counted from 0.
#[derive(Clone, Copy, Debug, PartialEq, Eq)]
pub(crate) struct Block {
    pub first: usize,
    pub end: usize,
}

/// What a line of a transcript begins.
#[derive(Clone, Copy, Debug, PartialEq, Eq)]
pub(crate) enum EntryKind {
    /// A command.
    Command,
    /// A file of the test's own.
    File,
}

/// A command or a file of a transcript.
#[derive(Clone, Copy, Debug, PartialEq, Eq)]
pub(crate) struct Entry {
    pub kind: EntryKind,
    /// The place of its first line, from 0.
    pub place: usize,
    /// The standard input of a command, or the content of a file.
    pub given: Block,
    /// What a command must print.
    pub wanted: Block,
    /// Whether two lines `----` stand before and after what it must print.
    pub is_fenced: bool,
}

/// A text with its lines and its entries.
#[derive(Drop)]
pub(crate) struct Transcript<'a> {
    pub lines: Vec<&'a str>,
    pub entries: Vec<Entry>,
}

impl<'a> Transcript<'a> {
    /// Reads the entries of a text.
    pub(crate) fn read(alloc: Global, text: &'a str) -> Result<Transcript<'a>, TranscriptFault> {
        let mut lines = Vec::new(alloc);
        let mut reader = Reader::new(alloc);
        for (place, line) in text.lines().enumerate() {
            lines.push(line)?;
            reader.take(place, line)?;
        }
        let entries = reader.finish(lines.len())?;
        Ok(Transcript { lines, entries })
    }

    /// The lines of a block.
    pub(crate) fn block(&self, block: Block) -> &[&'a str] {
        let end = block.end.min(self.lines.len());
        let first = block.first.min(end);
        &self.lines[first..end]
    }

    /// The first line of an entry.
    pub(crate) fn head(&self, entry: &Entry) -> &'a str {
        match self.lines.get(entry.place) {
            Some(line) => line,
            None => "",
        }
    }
}

/// Where a reader is.
#[derive(Clone, Copy, PartialEq, Eq)]
enum Part {
    /// Between entries, where blank lines and comments are passed over.
    Between,
    /// In what a command or a file is given.
    Given,
    /// At the first line after a command's `----`.
    Answer,
    /// In output that ends at a blank line.
    Plain,
    /// In output that ends at two lines `----`.
    Fenced,
    /// After the first of two lines `----` that may end the output at the place before.
    Closing,
}

/// The entries that were read so far, and the one that is being read.
#[derive(Drop)]
struct Reader {
    entries: Vec<Entry>,
    part: Part,
    begun: Entry,
}

const NOTHING: Entry = Entry {
    kind: EntryKind::File,
    place: 0,
    given: Block { first: 0, end: 0 },
    wanted: Block { first: 0, end: 0 },
    is_fenced: false,
};

impl Reader {
    fn new(alloc: Global) -> Reader {
        Reader {
            entries: Vec::new(alloc),
            part: Part::Between,
            begun: NOTHING,
        }
    }

    /// Reads the line at a place.
    fn take(&mut self, place: usize, line: &str) -> Result<(), TranscriptFault> {
        match self.part {
            Part::Between => self.begin(place, line),
            Part::Given => self.take_given(place, line),
            Part::Answer => {
                self.begun.wanted.first = place;
                if line == END {
                    self.begun.is_fenced = true;
                    self.begun.wanted.first = place.saturating_add(1);
                    self.part = Part::Fenced;
                    return Ok(());
                }
                self.take_plain(place, line)
            }
            Part::Plain => self.take_plain(place, line),
            Part::Fenced => {
                if line == END {
                    self.begun.wanted.end = place;
                    self.part = Part::Closing;
                }
                Ok(())
            }
            Part::Closing => {
                if line == END {
                    return self.add();
                }
                self.part = Part::Fenced;
                Ok(())
            }
        }
    }

    fn begin(&mut self, place: usize, line: &str) -> Result<(), TranscriptFault> {
        if line.trim().is_empty() || line.starts_with('#') {
            return Ok(());
        }
        let kind = match line.split_whitespace().next() {
            Some(FILE) => EntryKind::File,
            Some(PROGRAM) => EntryKind::Command,
            _ => return Err(TranscriptFault::Unknown(place.saturating_add(1))),
        };
        let next = place.saturating_add(1);
        let given = Block {
            first: next,
            end: next,
        };
        self.begun = Entry {
            kind,
            place,
            given,
            ..NOTHING
        };
        self.part = Part::Given;
        Ok(())
    }

    fn take_given(&mut self, place: usize, line: &str) -> Result<(), TranscriptFault> {
        if line != END {
            return Ok(());
        }
        self.begun.given.end = place;
        if self.begun.kind == EntryKind::File {
            return self.add();
        }
        let next = place.saturating_add(1);
        self.begun.wanted = Block {
            first: next,
            end: next,
        };
        self.part = Part::Answer;
        Ok(())
    }

    fn take_plain(&mut self, place: usize, line: &str) -> Result<(), TranscriptFault> {
        self.begun.wanted.end = place;
        if line.trim().is_empty() {
            return self.add();
        }
        self.part = Part::Plain;
        Ok(())
    }

    fn add(&mut self) -> Result<(), TranscriptFault> {
        self.entries.push(self.begun)?;
        self.part = Part::Between;
        Ok(())
    }

    /// The entries of a text with this many lines, all of which were read.
    fn finish(mut self, lines: usize) -> Result<Vec<Entry>, TranscriptFault> {
        let line = self.begun.place.saturating_add(1);
        match self.part {
            Part::Between => {}
            Part::Given => return Err(TranscriptFault::Unended(line)),
            Part::Fenced | Part::Closing => return Err(TranscriptFault::Unfenced(line)),
            Part::Answer | Part::Plain => {
                self.begun.wanted.end = lines;
                self.add()?;
            }
        }
        Ok(self.entries)
    }
}
