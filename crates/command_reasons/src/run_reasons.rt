//! Runs of schedules that are served, told with what they are so for.
ghost use Rattle.std.specs.Prelude.{◌≡◌};

use crate::byte_source::ByteSource;
use crate::files::{CommandFiles, FileKind};
use crate::program::program_for;
use crate::refusals::unless_refused;
use crate::report_reasons::ToldReport;
use crate::verdict_lines::ToldVerdict;
use command_runs::{Refusal, Terms, explained_run, judged_run};
use command_words::Source;
use reason_texts::TextLines;
use round_check::Checked;
use round_meaning::Setup;
use schedule_text::ScheduleReader;
use slot_plans::{NamedPlan, Plan};
use std::alloc::Global;
use std::io::Write;
use std::mem;

/// What a command asks of the run of a schedule.
#[derive(Clone, Copy)]
pub(crate) enum RunQuestion<'a> {
    /// The report, with a last line on the decisions if `decided` says so.
    Report { decided: bool },
    Verdict(Terms<'a>),
}

/// Runs the schedule, and tells what the command prints with the reasons for it. Nothing is written
/// and `false` answered if the run is refused: then the command itself tells why.
pub(crate) fn tell_run<O: Write>(
    alloc: Global,
    source: Source<'_>,
    files: &CommandFiles<'_>,
    question: RunQuestion<'_>,
    out: &mut O,
) -> Result<bool, Refusal> {
    let Some(file) = files.of(FileKind::Schedule) else {
        return Ok(false);
    };
    let Some(text) = file.text() else {
        return Ok(false);
    };
    if file.is_long() {
        return Ok(false);
    }
    let opened = ScheduleReader::open(alloc, ByteSource::new(text.as_bytes()));
    let Some((reader, setup, kind)) = unless_refused(opened)? else {
        return Ok(false);
    };
    let program = program_for(alloc, source, files, setup.nodes, setup.faults);
    let Some(program) = unless_refused(program)? else {
        return Ok(false);
    };
    let run = OpenedRun {
        program: &program,
        setup: &setup,
        schedule: text,
        question,
    };
    match NamedPlan::new(kind, setup.nodes) {
        Some(plan) => run.tell(alloc, plan, reader, out),
        None => Ok(false),
    }
}

/// A run whose header was read, and what is asked of it.
#[derive(Clone, Copy)]
struct OpenedRun<'a> {
    program: &'a Checked,
    setup: &'a Setup,
    schedule: &'a str,
    question: RunQuestion<'a>,
}

impl OpenedRun<'_> {
    fn tell<P: Plan, O: Write>(
        &self,
        alloc: Global,
        plan: P,
        reader: ScheduleReader<ByteSource<'_>>,
        out: &mut O,
    ) -> Result<bool, Refusal>
        requires { P.nodes plan ≡ self.now.setup.now.nodes }
    {
        match self.question {
            RunQuestion::Report { decided } => self.tell_report(alloc, plan, reader, decided, out),
            RunQuestion::Verdict(terms) => self.tell_verdict(alloc, plan, reader, terms, out),
        }
    }

    fn tell_report<P: Plan, O: Write>(
        &self,
        alloc: Global,
        plan: P,
        reader: ScheduleReader<ByteSource<'_>>,
        decided: bool,
        out: &mut O,
    ) -> Result<bool, Refusal>
        requires { P.nodes plan ≡ self.now.setup.now.nodes }
    {
        let explained = explained_run(alloc, self.program, self.setup, plan, reader);
        let Some((report, journal)) = unless_refused(explained)? else {
            return Ok(false);
        };
        let told = ToldReport {
            report: &report,
            book: journal.book(),
            schedule: self.schedule,
            decided,
        };
        told.tell(alloc, out)?;
        // The command ends with this: the system takes the run's memory back as a whole.
        mem::forget(journal);
        mem::forget(report);
        Ok(true)
    }

    fn tell_verdict<P: Plan, O: Write>(
        &self,
        alloc: Global,
        plan: P,
        reader: ScheduleReader<ByteSource<'_>>,
        terms: Terms<'_>,
        out: &mut O,
    ) -> Result<bool, Refusal>
        requires { P.nodes plan ≡ self.now.setup.now.nodes }
    {
        let judged = judged_run(alloc, self.program, self.setup, plan, reader, terms);
        let Some((verdict, journal)) = unless_refused(judged)? else {
            return Ok(false);
        };
        let told = ToldVerdict {
            verdict,
            terms,
            book: journal.book(),
            lines: &TextLines::new(alloc, self.schedule)?,
        };
        told.tell(alloc, out)?;
        mem::forget(journal);
        Ok(true)
    }
}
