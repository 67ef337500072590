//! Why the trace of a search isn't written.
ghost use Rattle.std.specs.Fmt.{WritesOnOk};
ghost use Rattle.command_runs.specs.Lines.{trace_line};

use std::fmt;

/// Why the schedule that shows a failure isn't in its file after a search.
#[derive(Clone, Copy, Debug, PartialEq, Eq)]
pub enum TraceFault {
    /// The file can't be written.
    Unwritten,
    /// The schedule is longer than the texts that commands read.
    TooLong,
    NoMemory,
}

/// Why a trace isn't written that no command would read.
const LONG_TRACE: &str =
    "the schedule of this run has more than 16777216 bytes, and no command reads it";

/// One line.
pub(crate) fn write_trace_fault<W: fmt::Write>(
    fault: TraceFault,
    f: &mut fmt::Formatter<W>,
) -> fmt::Result
    ensures { WritesOnOk W.write_str_gives f.old result (trace_line fault) f.new }
{
    match fault {
        TraceFault::Unwritten => writeln!(f, "refused write"),
        TraceFault::TooLong => writeln!(f, "refused trace: {}", LONG_TRACE),
        TraceFault::NoMemory => writeln!(f, "no memory"),
    }
}
