//! Why a trace can't be written.
ghost use Rattle.std.specs.Prelude.{◌≡◌};

use crate::files::{CommandFiles, TellingDesk};
use crate::located::unwritten;
use crate::sentence::Sentence;
use command_runs::{DeskFault, Refusal};
use command_words::Words;
use std::io::Write;

/// Tells that the trace of a command can't be written, and whether that is so. Nothing is written
/// to it.
pub(crate) fn tell_unwritable<D: TellingDesk, O: Write>(
    command: &Words<'_>,
    files: &CommandFiles<'_>,
    desk: &mut D,
    out: &mut O,
) -> Result<bool, Refusal>
    ensures written { D.written desk.new ≡ D.written desk.old }
{
    let Some(trace) = trace_of(command) else {
        return Ok(false);
    };
    if is_read(trace, files, desk) {
        return tell(trace, &Sentence::TraceIsRead, out);
    }
    match desk.try_write(trace) {
        Ok(()) => Ok(false),
        Err(DeskFault::NoMemory) => Err(Refusal::NoMemory),
        Err(DeskFault::Failed) => tell(trace, &Sentence::Unwritable(desk.failure()), out),
    }
}

/// The file that a command writes, if it does.
fn trace_of<'a>(command: &Words<'a>) -> Option<&'a str> {
    match command {
        Words::Threads { trace, .. } => Some(*trace),
        Words::Explore { exploring, .. } => exploring.trace,
        _ => None,
    }
}

/// Whether the trace is one of the files that are read.
fn is_read<D: TellingDesk>(trace: &str, files: &CommandFiles<'_>, desk: &D) -> bool {
    files
        .as_slice()
        .iter()
        .any(|file| desk.overwrites(trace, file.name))
}

fn tell<O: Write>(trace: &str, sentence: &Sentence<'_>, out: &mut O) -> Result<bool, Refusal> {
    writeln!(out, "{trace}: {sentence}").map_err(unwritten)?;
    Ok(true)
}
