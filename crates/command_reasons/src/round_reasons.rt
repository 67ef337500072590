//! Runs in rounds that are served, told with the rows that show what their decisions come to.
use crate::decision_lines::tell_decided;
use crate::files::{CommandFiles, FileKind};
use crate::located::unwritten;
use crate::program::program_for;
use crate::refusals::unless_refused;
use command_runs::{Refusal, rounds_omitting};
use command_words::Source;
use omission_explainer::write_report;
use omission_texts::read_omissions;
use slot_plans::NamedPlan;
use std::alloc::Global;
use std::io::Write;

/// Tells the report of a run in rounds, and what its decisions come to and by which rows. Nothing
/// is written and `false` answered if the run is refused: then the command itself tells why.
pub(crate) fn tell_rounds<O: Write>(
    alloc: Global,
    source: Source<'_>,
    files: &CommandFiles<'_>,
    out: &mut O,
) -> Result<bool, Refusal> {
    let Some(file) = files.of(FileKind::Omissions) else {
        return Ok(false);
    };
    let Some(text) = file.text() else {
        return Ok(false);
    };
    if file.is_long() {
        return Ok(false);
    }
    let Some(omissions) = unless_refused(read_omissions(alloc, text))? else {
        return Ok(false);
    };
    let Some(header) = files.header(alloc)? else {
        return Ok(false);
    };
    let kind = header.plan;
    let setup = &header.setup;
    let program = program_for(alloc, source, files, setup.nodes, setup.faults);
    let Some(program) = unless_refused(program)? else {
        return Ok(false);
    };
    let Some(plan) = NamedPlan::new(kind, setup.nodes) else {
        return Ok(false);
    };
    let run = rounds_omitting(alloc, &program, setup, plan, &omissions);
    let Some(report) = unless_refused(run)? else {
        return Ok(false);
    };
    write_report(&report, out).map_err(unwritten)?;
    tell_decided(&report, setup.nodes, out)?;
    Ok(true)
}
