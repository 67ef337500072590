//! The program of a source.
use crate::files::{CommandFiles, FileKind, source_of};
use algorithm_library::{count_votes, dls1, gather};
use command_runs::Refusal;
use command_words::{Source, Words};
use round_check::{Checked, check};
use round_lang::{LangFault, parse};
use std::alloc::Global;

/// The program of the source that a command names, as for one node.
pub(crate) fn program_of(
    alloc: Global,
    command: &Words<'_>,
    files: &CommandFiles<'_>,
) -> Result<Checked, Refusal> {
    match source_of(command) {
        Some(source) => program_for(alloc, source, files, 1, 0),
        None => Err(Refusal::File),
    }
}

/// The program of a source whose file was read, for a run on so many nodes.
pub(crate) fn program_for(
    alloc: Global,
    source: Source<'_>,
    files: &CommandFiles<'_>,
    nodes: u32,
    faults: u32,
) -> Result<Checked, Refusal> {
    match source {
        Source::File(_) => {
            let Some(file) = files.of(FileKind::Source) else {
                return Err(Refusal::File);
            };
            let Some(text) = file.text() else {
                return Err(Refusal::File);
            };
            if file.is_long() {
                return Err(Refusal::Source(LangFault::TooLong));
            }
            Ok(check(alloc, parse(alloc, text)?)?)
        }
        Source::Library { name, values } => match name {
            "gather" => Ok(gather(alloc, values)?),
            "count_votes" => Ok(count_votes(alloc, values)?),
            "dls1" => Ok(dls1(alloc, nodes, faults, values)?),
            _ => Err(Refusal::NoSuchProgram),
        },
    }
}
