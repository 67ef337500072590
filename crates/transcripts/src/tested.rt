//! Commands of a transcript with what they printed.
use crate::transcript::{Entry, Transcript};

/// A command, and what it printed.
#[derive(Drop)]
pub(crate) struct Tested {
    pub entry: Entry,
    pub printed: Vec<String>,
    /// Whether it printed what it must.
    pub passed: bool,
}

impl Tested {
    /// The number of the command's line.
    pub(crate) fn line(&self) -> usize {
        self.entry.place.saturating_add(1)
    }
}

/// A transcript whose commands were run.
#[derive(Drop)]
pub(crate) struct TestedFile<'a> {
    pub name: &'a str,
    pub transcript: Transcript<'a>,
    pub commands: Vec<Tested>,
}

impl TestedFile<'_> {
    /// How many commands printed something else.
    pub(crate) fn failed(&self) -> usize {
        self.commands.iter().filter(|tested| !tested.passed).count()
    }
}

/// Whether a command printed these lines, and no others.
pub(crate) fn are_equal(wanted: &[&str], printed: &[String]) -> bool {
    wanted.len() == printed.len()
        && wanted
            .iter()
            .zip(printed.iter())
            .all(|(one, other)| *one == other.as_str())
}
