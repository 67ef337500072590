//! Why a command was refused.
ghost use Rattle.std.specs.Prelude.{◌≡◌, IfSome, OnOk};
ghost use Rattle.std.specs.Io.KnownBytes.{Appends};
ghost use Rattle.std.specs.Fmt.{WritesOnOk};
ghost use Rattle.command_runs.specs.Lines.{check_line, library_line, line_of, memory_line};
ghost use Rattle.command_runs.specs.Lines.{run_line, schedule_line, source_line, status_of};

use crate::desk::DeskFault;
use crate::part_refusal::{PartRefusal, write_part_refusal};
use crate::trace_fault::{TraceFault, write_trace_fault};
use adversary::{ReadFault, RunFault, ScheduleFault};
use algorithm_library::LibraryFault;
use command_words::WordsFault;
use exploration_texts::ConditionFault;
use round_check::CheckFault;
use round_lang::{LangFault, Span};
use run_events::NoMemory;
use schedule_text::TextFault;
use std::error::Error;
use std::io::Write;
use std::{fmt, io};

/// Why a command was refused; it prints as one line, or as `clap`'s own text.
#[derive(Debug, Drop)]
pub enum Refusal {
    /// The words are no command.
    Words(WordsFault),
    /// A file can't be read, or isn't UTF-8.
    File,
    Source(LangFault),
    Check(CheckFault),
    /// EXPR is no condition on the program's states.
    Condition(ConditionFault),
    Schedule(ScheduleFault),
    Library(LibraryFault),
    /// The library has no program of the name.
    NoSuchProgram,
    Run(RunFault),
    /// The answers of parts make no whole.
    Part(PartRefusal),
    /// A list of a table's variables has a name that is that of none.
    NoVariable,
    /// The answers of a search were printed, and the schedule that shows a failure isn't written.
    Trace(TraceFault),
    /// Standard output takes no more, or a trace can't be written, or is a file that is read.
    Write,
    NoMemory,
    /// The thread of a node ended out of memory, so that its run isn't whole.
    NodeNoMemory,
}

/// Why a table isn't made.
const NO_VARIABLE: &str =
    "LIST of --vars is names of the program's variables with commas between them";

impl Refusal {
    /// The exit status.
    pub fn status(&self) -> u8
        ensures { result ≡ status_of self.now }
    {
        match self {
            Refusal::Words(_) => 2,
            Refusal::NoMemory | Refusal::NodeNoMemory => 3,
            Refusal::Trace(TraceFault::NoMemory) => 3,
            _ => 1,
        }
    }

    /// Tells the refusal: one line, or `clap`'s own text. A failed write may leave a part of it.
    pub fn tell<E: Write>(&self, err: &mut E) -> io::Result<()>
        ensures { OnOk result (IfSome (line_of self.now)
            (Appends (E.contents err.old) (E.contents err.new))) }
    {
        write!(err, "{self}")
    }
}

impl fmt::Display for Refusal {
    ghost output = { line_of };

    fn fmt<W: fmt::Write>(&self, f: &mut fmt::Formatter<W>) -> fmt::Result {
        match self {
            Refusal::Words(fault) => write!(f, "{fault}"),
            Refusal::File => writeln!(f, "refused file"),
            Refusal::Source(fault) => write_source(*fault, f),
            Refusal::Check(fault) => write_check(*fault, f),
            Refusal::Condition(fault) => writeln!(f, "refused always {fault}"),
            Refusal::Schedule(fault) => write_schedule(*fault, f),
            Refusal::Library(fault) => write_library(*fault, f),
            Refusal::NoSuchProgram => writeln!(f, "refused library 3"),
            Refusal::Run(fault) => write_run(*fault, f),
            Refusal::Part(cause) => write_part_refusal(*cause, f),
            Refusal::NoVariable => writeln!(f, "refused table: {}", NO_VARIABLE),
            Refusal::Trace(fault) => write_trace_fault(*fault, f),
            Refusal::Write => writeln!(f, "refused write"),
            Refusal::NoMemory | Refusal::NodeNoMemory => write_no_memory(f),
        }
    }
}

fn write_no_memory<W: fmt::Write>(f: &mut fmt::Formatter<W>) -> fmt::Result
    ensures { WritesOnOk W.write_str_gives f.old result memory_line f.new }
{
    writeln!(f, "no memory")
}

fn write_source<W: fmt::Write>(fault: LangFault, f: &mut fmt::Formatter<W>) -> fmt::Result
    ensures { WritesOnOk W.write_str_gives f.old result (source_line fault) f.new }
{
    match fault {
        LangFault::BadToken(Span { first, after }) => {
            writeln!(f, "refused source 1 at {first} {after}")
        }
        LangFault::Unexpected(Span { first, after }) => {
            writeln!(f, "refused source 2 at {first} {after}")
        }
        LangFault::TooDeep => writeln!(f, "refused source 3"),
        LangFault::TooLong => writeln!(f, "refused source 4"),
        LangFault::LimitPassed(Span { first, after }) => {
            writeln!(f, "refused source 5 at {first} {after}")
        }
        LangFault::NoMemory => write_no_memory(f),
    }
}

fn write_check<W: fmt::Write>(fault: CheckFault, f: &mut fmt::Formatter<W>) -> fmt::Result
    ensures { WritesOnOk W.write_str_gives f.old result (check_line fault) f.new }
{
    match fault {
        CheckFault::UnknownName => writeln!(f, "refused check 1"),
        CheckFault::DoubleName => writeln!(f, "refused check 2"),
        CheckFault::WrongType => writeln!(f, "refused check 3"),
        CheckFault::FieldCount => writeln!(f, "refused check 4"),
        CheckFault::NotAllowedHere => writeln!(f, "refused check 5"),
        CheckFault::NoInput => writeln!(f, "refused check 6"),
        CheckFault::NoDecision => writeln!(f, "refused check 7"),
        CheckFault::MissingRound => writeln!(f, "refused check 8"),
        CheckFault::NoMemory => write_no_memory(f),
    }
}

fn write_schedule<W: fmt::Write>(fault: ScheduleFault, f: &mut fmt::Formatter<W>) -> fmt::Result
    ensures { WritesOnOk W.write_str_gives f.old result (schedule_line fault) f.new }
{
    match fault {
        ScheduleFault::BadLine(line) => writeln!(f, "refused schedule 1 at {line}"),
        ScheduleFault::NumberTooLarge(line) => writeln!(f, "refused schedule 2 at {line}"),
        ScheduleFault::TooLong => writeln!(f, "refused schedule 3"),
        ScheduleFault::NoMemory => write_no_memory(f),
    }
}

fn write_library<W: fmt::Write>(fault: LibraryFault, f: &mut fmt::Formatter<W>) -> fmt::Result
    ensures { WritesOnOk W.write_str_gives f.old result (library_line fault) f.new }
{
    match fault {
        LibraryFault::TooFew => writeln!(f, "refused library 1"),
        LibraryFault::BadValues => writeln!(f, "refused library 2"),
        LibraryFault::NoMemory => write_no_memory(f),
    }
}

fn write_run<W: fmt::Write>(fault: RunFault, f: &mut fmt::Formatter<W>) -> fmt::Result
    ensures { WritesOnOk W.write_str_gives f.old result (run_line fault) f.new }
{
    match fault {
        RunFault::BadSetup => writeln!(f, "refused run 1"),
        RunFault::UnknownNode(position) => writeln!(f, "refused run 2 at {position}"),
        RunFault::UnknownMessage(position) => writeln!(f, "refused run 3 at {position}"),
        RunFault::NoMemory => write_no_memory(f),
        RunFault::NoThread => writeln!(f, "refused run 5"),
        RunFault::Unmatched => writeln!(f, "refused run 6"),
    }
}

impl Error for Refusal {}

impl From<WordsFault> for Refusal {
    ghost use Rattle.std.specs.Prelude.{◌≡◌};
    ghost use Rattle.command_runs.specs.Refused.{of_words};

    ghost from_gives = { λ fault r. r ≡ of_words fault };

    fn from(fault: WordsFault) -> Refusal {
        match fault {
            WordsFault::NoMemory => Refusal::NoMemory,
            fault => Refusal::Words(fault),
        }
    }
}

impl From<DeskFault> for Refusal {
    ghost use Rattle.std.specs.Prelude.{◌≡◌};
    ghost use Rattle.command_runs.specs.Refused.{of_desk};

    ghost from_gives = { λ fault r. r ≡ of_desk fault };

    fn from(fault: DeskFault) -> Refusal {
        match fault {
            DeskFault::Failed => Refusal::File,
            DeskFault::NoMemory => Refusal::NoMemory,
        }
    }
}

impl From<LangFault> for Refusal {
    ghost use Rattle.std.specs.Prelude.{◌≡◌};
    ghost use Rattle.command_runs.specs.Refused.{of_source};

    ghost from_gives = { λ fault r. r ≡ of_source fault };

    fn from(fault: LangFault) -> Refusal {
        match fault {
            LangFault::NoMemory => Refusal::NoMemory,
            fault => Refusal::Source(fault),
        }
    }
}

impl From<CheckFault> for Refusal {
    ghost use Rattle.std.specs.Prelude.{◌≡◌};
    ghost use Rattle.command_runs.specs.Refused.{of_check};

    ghost from_gives = { λ fault r. r ≡ of_check fault };

    fn from(fault: CheckFault) -> Refusal {
        match fault {
            CheckFault::NoMemory => Refusal::NoMemory,
            fault => Refusal::Check(fault),
        }
    }
}

impl From<ConditionFault> for Refusal {
    ghost use Rattle.std.specs.Prelude.{◌≡◌};
    ghost use Rattle.command_runs.specs.Refused.{of_condition};

    ghost from_gives = { λ fault r. r ≡ of_condition fault };

    fn from(fault: ConditionFault) -> Refusal {
        match fault {
            ConditionFault::NoMemory => Refusal::NoMemory,
            fault => Refusal::Condition(fault),
        }
    }
}

impl From<NoMemory> for Refusal {
    ghost use Rattle.std.specs.Prelude.{◌≡◌};
    ghost use Rattle.command_runs.specs.declared.refusal.Refusal.TheVariants as refusal;

    ghost from_gives = { λ _ r. r ≡ refusal.NoMemory };

    fn from(_error: NoMemory) -> Refusal {
        Refusal::NoMemory
    }
}

impl From<TextFault> for Refusal {
    ghost use Rattle.std.specs.Prelude.{◌≡◌};
    ghost use Rattle.command_runs.specs.Refused.{of_text};

    ghost from_gives = { λ fault r. r ≡ of_text fault };

    fn from(fault: TextFault) -> Refusal {
        match fault {
            TextFault::Failed | TextFault::NotUtf8 => Refusal::File,
            TextFault::Schedule(fault) => Refusal::from(fault),
        }
    }
}

impl From<ScheduleFault> for Refusal {
    ghost use Rattle.std.specs.Prelude.{◌≡◌};
    ghost use Rattle.command_runs.specs.Refused.{of_schedule};

    ghost from_gives = { λ fault r. r ≡ of_schedule fault };

    fn from(fault: ScheduleFault) -> Refusal {
        match fault {
            ScheduleFault::NoMemory => Refusal::NoMemory,
            fault => Refusal::Schedule(fault),
        }
    }
}

impl From<LibraryFault> for Refusal {
    ghost use Rattle.std.specs.Prelude.{◌≡◌};
    ghost use Rattle.command_runs.specs.Refused.{of_library};

    ghost from_gives = { λ fault r. r ≡ of_library fault };

    fn from(fault: LibraryFault) -> Refusal {
        match fault {
            LibraryFault::NoMemory => Refusal::NoMemory,
            fault => Refusal::Library(fault),
        }
    }
}

impl From<RunFault> for Refusal {
    ghost use Rattle.std.specs.Prelude.{◌≡◌};
    ghost use Rattle.command_runs.specs.Refused.{of_run};

    ghost from_gives = { λ fault r. r ≡ of_run fault };

    fn from(fault: RunFault) -> Refusal {
        match fault {
            RunFault::NoMemory => Refusal::NoMemory,
            fault => Refusal::Run(fault),
        }
    }
}

impl From<ReadFault> for Refusal {
    ghost use Rattle.std.specs.Prelude.{◌≡◌};
    ghost use Rattle.command_runs.specs.Refused.{of_read};

    ghost from_gives = { λ fault r. r ≡ of_read fault };

    fn from(fault: ReadFault) -> Refusal {
        match fault {
            ReadFault::Text(fault) => Refusal::from(fault),
            ReadFault::Run(fault) => Refusal::from(fault),
        }
    }
}
