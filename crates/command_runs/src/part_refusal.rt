//! Why answers of parts make no whole.
ghost use Rattle.std.specs.Fmt.{WritesOnOk};
ghost use Rattle.command_runs.specs.Lines.{part_line, parts_line};

use part_answers::PartsFault;
use std::fmt;

/// Why the files that `together` reads make no whole.
#[derive(Clone, Copy, Debug, PartialEq, Eq)]
pub enum PartRefusal {
    /// A line of a file isn't what a part of a search answers.
    Line {
        /// The place of the file in the order of the words, from 0.
        file: usize,
        /// From 1.
        line: u32,
    },
    /// The files don't have each part of one search once.
    Parts(PartsFault),
}

/// One line; files are counted from 1.
pub(crate) fn write_part_refusal<W: fmt::Write>(
    cause: PartRefusal,
    f: &mut fmt::Formatter<W>,
) -> fmt::Result
    ensures { WritesOnOk W.write_str_gives f.old result (part_line cause) f.new }
{
    match cause {
        PartRefusal::Line { file, line } => {
            writeln!(f, "refused part 1 at {} {line}", file.saturating_add(1))
        }
        PartRefusal::Parts(fault) => write_parts(fault, f),
    }
}

fn write_parts<W: fmt::Write>(fault: PartsFault, f: &mut fmt::Formatter<W>) -> fmt::Result
    ensures { WritesOnOk W.write_str_gives f.old result (parts_line fault) f.new }
{
    match fault {
        PartsFault::NoParts => writeln!(f, "refused part 5"),
        PartsFault::Other(file) => { writeln!(f, "refused part 2 at {}", file.saturating_add(1)) }
        PartsFault::Twice(number) => writeln!(f, "refused part 3 at {number}"),
        PartsFault::Missing(number) => writeln!(f, "refused part 4 at {number}"),
        PartsFault::NoMemory => writeln!(f, "no memory"),
    }
}
