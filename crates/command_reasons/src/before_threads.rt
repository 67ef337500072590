//! Why a run by threads is refused before its threads start.
use crate::files::{CommandFiles, FileKind};
use crate::program::program_for;
use adversary::RunFault;
use command_runs::Refusal;
use command_words::Source;
use schedule_text::{ScheduleFault, read_threads};
use std::alloc::Global;

/// The refusal of a source or a thread setup, if there is one.
pub(crate) fn refused_before_threads(
    alloc: Global,
    source: Source<'_>,
    files: &CommandFiles<'_>,
) -> Result<(), Refusal> {
    if let Source::File(_) = source {
        program_for(alloc, source, files, 1, 0)?;
    }
    let Some(file) = files.of(FileKind::Setup) else {
        return Err(Refusal::File);
    };
    let Some(text) = file.text() else {
        return Err(Refusal::File);
    };
    if file.is_long() {
        return Err(Refusal::Schedule(ScheduleFault::TooLong));
    }
    let setup = read_threads(alloc, text)?.setup;
    let program = program_for(alloc, source, files, setup.nodes, setup.faults)?;
    match files.header(alloc)? {
        Some(header) if header.fault(program.program().values()).is_some() => {
            Err(Refusal::Run(RunFault::BadSetup))
        }
        _ => Ok(()),
    }
}
