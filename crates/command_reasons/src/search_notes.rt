//! What is said besides what a command prints.
use crate::located::unwritten;
use command_runs::{Outcome, Refusal};
use command_words::Words;
use proved_programs::algorithm_of;
use round_lang::Program;
use std::alloc::Global;
use std::io::Write;

/// Writes what is proved of the program for every number of nodes, if it's a known algorithm's.
pub(crate) fn tell_proved<O: Write>(
    alloc: Global,
    program: &Program,
    out: &mut O,
) -> Result<(), Refusal> {
    match algorithm_of(alloc, program)? {
        Some(algorithm) => writeln!(out, "note: {algorithm}").map_err(unwritten),
        None => Ok(()),
    }
}

/// Writes that no trace is written, if the command would write one.
pub(crate) fn tell_untraced<O: Write>(
    command: &Words<'_>,
    outcome: Outcome,
    out: &mut O,
) -> Result<(), Refusal> {
    let Words::Explore { exploring, .. } = command else {
        return Ok(());
    };
    match (exploring.trace, outcome) {
        (Some(name), Outcome::No) => writeln!(
            out,
            "note: why writes no file: without it, {name} shows such a run"
        )
        .map_err(unwritten),
        _ => Ok(()),
    }
}
