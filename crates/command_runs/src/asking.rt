//! What is asked of the run of a schedule.
ghost use Rattle.std.specs.Prelude.{◌≡◌, IfErr, IfOk, IfSome, OnOk};
ghost use Rattle.command_runs.specs.Refused.{IsMissing, IsNotRun, IsUnanswered};
ghost use Rattle.command_runs.specs.Served.{AnswersRun};
ghost use Rattle.command_runs.specs.Stages.{IsAnswered, IsToldAfter, StopsSchedule};
ghost use Rattle.command_runs.specs.Stages.{listed_by};
ghost use Rattle.command_runs.specs.declared.refusal.Refusal.TheVariants as refusal;
ghost use Rattle.schedule_text.specs.Readers.{HasReadHeader};
ghost use Rattle.schedule_text.specs.declared.kind.Kind.TheVariants as kinds;
ghost use Rattle.slot_plans.specs.Named.{IsPlan, receives_of, start_of};

use crate::desk::Desk;
use crate::explained::{Terms, explained_run, judged_run};
use crate::refusal::Refusal;
use crate::sources::Opened;
use adversary::RunFault;
use command_words::{AnswerFormat, Form, Source};
use omission_explainer::{Report, Verdict};
use round_check::Checked;
use round_meaning::Setup;
use run_events::PlanKind;
use schedule_text::{ScheduleReader, TextSource};
use slot_plans::NamedPlan;
use std::alloc::Global;
use std::mem;

/// A source and the file of a schedule.
#[derive(Clone, Copy)]
pub(crate) struct Run<'a> {
    pub source: Source<'a>,
    pub schedule: &'a str,
}

/// A question about a run.
#[derive(Clone, Copy)]
pub(crate) enum Question<'a> {
    /// The report, in this form.
    Report {
        form: Form<'a>,
    },
    /// The verdict on these terms, in this format.
    Verdict {
        terms: Terms<'a>,
        format: AnswerFormat,
    },
}

/// The answer to a question.
#[derive(Drop)]
pub(crate) enum Answer<'a> {
    Report {
        report: Report,
        form: Form<'a>,
    },
    Verdict {
        verdict: Verdict,
        format: AnswerFormat,
    },
}

/// A schedule that was opened: its header, and what reads its events.
#[derive(Drop)]
pub(crate) struct OpenedSchedule<S: TextSource> {
    pub setup: Setup,
    pub plan: PlanKind,
    pub reader: ScheduleReader<S>,
}

impl<'a> Run<'a> {
    /// Runs the schedule and answers the question.
    pub(crate) fn answer<'q, D: Desk>(
        &self,
        alloc: Global,
        question: Question<'q>,
        desk: &mut D,
    ) -> Result<Answer<'q>, Refusal>
        ensures answer { IfOk result (AnswersRun self.now.source (D.files desk.old)
            (D.files desk.old self.now.schedule.now) question.entry) }
        ensures refused { IfErr result (IsUnanswered self.now.source (D.files desk.old)
            (D.files desk.old self.now.schedule.now) (listed_by question.entry)) }
        ensures written { D.written desk.new ≡ D.written desk.old }
    {
        let opened = Opened::open(alloc, self.source, desk)?;
        let schedule = open_schedule(alloc, self.schedule, desk)?;
        match opened.program(alloc, schedule.setup.nodes, schedule.setup.faults) {
            Ok(program) => answer_by(alloc, &program, schedule, question),
            Err(refusal) => Err(refusal_after(alloc, schedule.reader, refusal)),
        }
    }
}

/// Opens the schedule in a file.
fn open_schedule<D: Desk>(
    alloc: Global,
    name: &str,
    desk: &mut D,
) -> Result<OpenedSchedule<D::File>, Refusal>
    ensures opened { IfOk result (λ o. IfSome (D.files desk.old name.now)
        (λ held. HasReadHeader held o.setup o.plan o.reader)) }
    ensures refused { IfErr result (IsMissing kinds.Schedule (D.files desk.old name.now)) }
    ensures written { D.written desk.new ≡ D.written desk.old }
{
    let file = desk.open(alloc, name)?;
    let (reader, setup, plan) = ScheduleReader::open(alloc, file)?;
    Ok(OpenedSchedule {
        setup,
        plan,
        reader,
    })
}

/// A refusal of what doesn't depend on a schedule's events: if its text is no schedule, the
/// refusal is of that.
pub(crate) fn refusal_after<S: TextSource + Drop>(
    alloc: Global,
    reader: ScheduleReader<S>,
    refusal: Refusal,
) -> Refusal
    ensures { IsToldAfter reader refusal result }
{
    let mut reader = reader;
    match reader.drain(alloc) {
        Ok(()) => refusal,
        Err(fault) => Refusal::from(fault),
    }
}

/// The answer about a schedule's run under its plan.
fn answer_by<'q, S: TextSource + Drop>(
    alloc: Global,
    program: &Checked,
    schedule: OpenedSchedule<S>,
    question: Question<'q>,
) -> Result<Answer<'q>, Refusal>
    ensures answered { let plan = schedule.plan in let s = schedule.setup in
        IfOk result (IsAnswered (start_of plan s.nodes) (receives_of plan) program.now s
        schedule.reader question.entry) }
    ensures plan { OnOk result (IsPlan schedule.plan) }
    ensures refused { let plan = schedule.plan in let s = schedule.setup in
        IfErr result (StopsSchedule (λ events r. IsNotRun program.now s plan events
        (listed_by question.entry) r) s schedule.reader) }
{
    let Some(plan) = NamedPlan::new(schedule.plan, schedule.setup.nodes) else {
        return Err(bad_setup(alloc, schedule));
    };
    let OpenedSchedule { setup, reader, .. } = schedule;
    // A command ends with its answer: the system takes the run's memory back as a whole.
    match question {
        Question::Report { form } => {
            let (report, journal) = explained_run(alloc, program, &setup, plan, reader)?;
            mem::forget(journal);
            Ok(Answer::Report { report, form })
        }
        Question::Verdict { terms, format } => {
            let (verdict, journal) = judged_run(alloc, program, &setup, plan, reader, terms)?;
            mem::forget(journal);
            Ok(Answer::Verdict { verdict, format })
        }
    }
}

/// The refusal of a setup.
pub(crate) fn bad_setup<S: TextSource + Drop>(alloc: Global, schedule: OpenedSchedule<S>) -> Refusal
    ensures { IsToldAfter schedule.reader (refusal.Run RunFault.BadSetup) result }
{
    refusal_after(alloc, schedule.reader, Refusal::Run(RunFault::BadSetup))
}
