//! Why the library has no such program.
use crate::files::source_of;
use crate::header::Header;
use crate::located::unwritten;
use crate::sentence::Sentence;
use crate::word_fault::WordFault;
use algorithm_library::LibraryFault;
use command_runs::Refusal;
use command_words::{Source, Words};
use round_meaning::{MAX_FAULTS, Setup};
use run_events::MAX_NODES;
use std::alloc::Global;
use std::io::Write;

/// The most values of a program.
const MAX_VALUES: u32 = 64;

/// A SOURCE of the library, as it was written.
#[derive(Clone, Copy)]
pub(crate) struct LibrarySource<'a> {
    pub word: &'a str,
    pub values: u32,
}

impl<'a> LibrarySource<'a> {
    /// That of a command, by its words.
    pub(crate) fn of(command: &Words<'a>, words: &[&'a str]) -> Option<LibrarySource<'a>> {
        let Some(Source::Library { name, values }) = source_of(command) else {
            return None;
        };
        for word in words {
            if let Some(rest) = word.strip_prefix("@") {
                if rest.starts_with(name) {
                    return Some(LibrarySource { word, values });
                }
            }
        }
        None
    }

    /// Tells which programs the library has.
    pub(crate) fn tell_no_program<O: Write>(&self, out: &mut O) -> Result<bool, Refusal> {
        writeln!(
            out,
            "{}: the library has no such program; it has @gather, @count_votes and @dls1",
            self.word
        )
        .map_err(unwritten)?;
        Ok(true)
    }

    /// Tells why the library has no program of this name with so many values for the run of a
    /// header.
    pub(crate) fn tell_fault<O: Write>(
        &self,
        alloc: Global,
        header: Option<&Header<'_>>,
        fault: LibraryFault,
        out: &mut O,
    ) -> Result<bool, Refusal> {
        if self.values == 0 || self.values > MAX_VALUES {
            let values = self.values;
            let sentence = Sentence::ValuesOutside { values };
            writeln!(out, "{}: {sentence}", self.word).map_err(unwritten)?;
            return Ok(true);
        }
        let Some(header) = header else {
            return Ok(false);
        };
        let (index, sentence) = setup_fault(&header.setup, fault);
        header.tell_line(alloc, (index, WordFault::of_word(1, sentence)), out)
    }
}

/// The number of the header's line, from 0, for which `@dls1` isn't a program for the setup, and
/// what is said of it.
fn setup_fault(setup: &Setup, fault: LibraryFault) -> (usize, Sentence<'static>) {
    let Setup { nodes, faults, .. } = setup;
    match fault {
        LibraryFault::TooFew => (
            0,
            Sentence::TooFewNodes {
                nodes: *nodes,
                faults: *faults,
            },
        ),
        _ if *nodes == 0 || *nodes > MAX_NODES => (
            0,
            Sentence::Outside {
                what: "the number of nodes",
                least: 1,
                most: MAX_NODES,
            },
        ),
        _ => (
            1,
            Sentence::Outside {
                what: "the number of faults of @dls1",
                least: 0,
                most: MAX_FAULTS,
            },
        ),
    }
}
