//! The picture of the run of a schedule.
ghost use Rattle.std.specs.Prelude.{◌≡◌, ◌≤◌, ◌↔◌, ℕ, IfErr, IfNone, IfOk, IfSome, IsTrue};
ghost use Rattle.std.specs.Prelude.{OnOk, Some};
ghost use Rattle.command_runs.specs.Refused.{IsMissing, IsNotDrawn, IsRefusedCommand, IsSilent};
ghost use Rattle.command_runs.specs.Refused.{IsUndrawn};
ghost use Rattle.command_runs.specs.Served.{DrawsRun, IsShownOf, Serves};
ghost use Rattle.command_runs.specs.Stages.{IsDrawnAs, StopsSchedule};
ghost use Rattle.round_meaning.specs.Setups.{IsLawful};
ghost use Rattle.schedule_text.specs.Readers.{HasReadHeader};
ghost use Rattle.schedule_text.specs.declared.kind.Kind.TheVariants as kinds;
ghost use Rattle.slot_plans.specs.Named.{IsPlan, start_of};

use crate::asking::{OpenedSchedule, Run, bad_setup, refusal_after};
use crate::desk::Desk;
use crate::explained::{explained_run, nodes_in};
use crate::memory_desk::MemoryFile;
use crate::outcome::Outcome;
use crate::refusal::Refusal;
use crate::run::written;
use crate::sources::Opened;
use crate::texts::schedule_text_in;
use command_words::{Drawing, RoundRange, Source, Words};
use omission_explainer::Report;
use round_check::Checked;
use round_meaning::Setup;
use run_events::NoMemory;
use run_grid::{GridSheet, write_grid};
use run_picture::{PictureFault, View, write_picture};
use schedule_text::{ScheduleReader, TextSource};
use slot_plans::{NamedPlan, Plan};
use std::alloc::Global;
use std::io::Write;
use std::mem;
use step_book::Book;

/// Draws the run of a schedule.
#[tactic(auto, using(crate::proofs::Telling::silent_same))]
pub(crate) fn draw<'a, D: Desk, O: Write>(
    alloc: Global,
    run: Run<'a>,
    drawing: &Drawing,
    desk: &mut D,
    out: &mut O,
) -> Result<Outcome, Refusal>
    ensures done { IfOk result (λ o. o ≡ Outcome.Done) }
    ensures served { OnOk result (Serves
        (Words.Draw run.entry.source run.entry.schedule drawing.now) (D.files desk.old)
        (D.files desk.new) (O.contents out.old) (O.contents out.new)) }
    ensures refused { IfErr result (IsRefusedCommand
        (Words.Draw run.entry.source run.entry.schedule drawing.now) (D.files desk.old)) }
    ensures silent { IfErr result (IsSilent (O.contents out.old) (O.contents out.new)) }
    ensures written { D.written desk.new ≡ D.written desk.old }
{
    let picture = run.picture(alloc, drawing, desk)?;
    written(out.write_all(picture.as_slice()), out)
}

/// What a picture is made of, beside the run: the words for its title, the text of the schedule,
/// and what is drawn.
#[derive(Clone, Copy)]
pub(crate) struct Sheet<'a> {
    pub run: Run<'a>,
    pub text: &'a str,
    pub drawing: &'a Drawing,
}

impl<'a> Run<'a> {
    /// Runs the schedule and draws what is asked for, as the text of a picture or of a page.
    pub(crate) fn picture<D: Desk>(
        &self,
        alloc: Global,
        drawing: &Drawing,
        desk: &mut D,
    ) -> Result<Vec<u8>, Refusal>
        ensures drawn { IfOk result (λ _picture. DrawsRun self.now.source (D.files desk.old)
            (D.files desk.old self.now.schedule.now) drawing.now) }
        ensures refused { IfErr result (IsUndrawn self.now.source (D.files desk.old)
            (D.files desk.old self.now.schedule.now) drawing.now) }
        ensures written { D.written desk.new ≡ D.written desk.old }
    {
        let opened = Opened::open(alloc, self.source, desk)?;
        let text = schedule_text_in(alloc, self.schedule, desk)?;
        let schedule = open_text(alloc, text.as_str())?;
        match opened.program(alloc, schedule.setup.nodes, schedule.setup.faults) {
            Ok(program) => {
                let sheet = Sheet {
                    run: *self,
                    text: text.as_str(),
                    drawing,
                };
                draw_by(alloc, &program, schedule, sheet)
            }
            Err(refusal) => Err(refusal_after(alloc, schedule.reader, refusal)),
        }
    }
}

/// Opens the schedule that a text is.
fn open_text(alloc: Global, text: &str) -> Result<OpenedSchedule<MemoryFile>, Refusal>
    ensures opened { IfOk result (λ o. HasReadHeader text.now o.setup o.plan o.reader) }
    ensures refused { IfErr result (IsMissing kinds.Schedule (Some text.now)) }
{
    let file = MemoryFile::of(alloc, text.as_bytes())?;
    let (reader, setup, plan) = ScheduleReader::open(alloc, file)?;
    Ok(OpenedSchedule {
        setup,
        plan,
        reader,
    })
}

/// Draws a schedule's run under its plan.
fn draw_by<S: TextSource + Drop>(
    alloc: Global,
    program: &Checked,
    schedule: OpenedSchedule<S>,
    sheet: Sheet<'_>,
) -> Result<Vec<u8>, Refusal>
    ensures drawn { let plan = schedule.plan in let s = schedule.setup in
        IfOk result (λ _picture. IsDrawnAs (start_of plan s.nodes) program.now s
        schedule.reader sheet.entry.drawing.now) }
    ensures plan { OnOk result (IsPlan schedule.plan) }
    ensures refused { let plan = schedule.plan in let s = schedule.setup in
        IfErr result (StopsSchedule (λ events r. IsNotDrawn program.now s plan events
        sheet.entry.drawing.now r) s schedule.reader) }
{
    let Some(plan) = NamedPlan::new(schedule.plan, schedule.setup.nodes) else {
        return Err(bad_setup(alloc, schedule));
    };
    let Some(view) = view_of(sheet.drawing, &schedule.setup) else {
        return Err(bad_setup(alloc, schedule));
    };
    let OpenedSchedule { setup, reader, .. } = schedule;
    let (report, journal) = explained_run(alloc, program, &setup, plan, reader)?;
    let picture = draw_report(alloc, &report, journal.book(), sheet, &view);
    // A command ends with its picture: the system takes the run's memory back as a whole.
    mem::forget(journal);
    picture
}

/// What is drawn of a run, if the nodes are the run's and the rounds begin in it.
fn view_of(drawing: &Drawing, setup: &Setup) -> Option<View>
    ensures some { IfSome result (λ _view. IsShownOf setup.now drawing.now) }
    ensures none { IfNone result ((values : ℕ)
        → ¬ (IsLawful values setup.now × IsShownOf setup.now drawing.now)) }
{
    let listed = nodes_in(drawing.nodes.as_slice(), setup.nodes)?;
    if !begins_by(drawing.rounds, setup.rounds) {
        return None;
    }
    let nodes = if drawing.nodes.is_empty() {
        None
    } else {
        Some(listed)
    };
    Some(View {
        rounds: shown_rounds(drawing.rounds),
        nodes,
        html: drawing.html,
    })
}

/// Whether a range, if there is one, begins no later than in this round.
fn begins_by(rounds: Option<RoundRange>, last: u32) -> bool
    ensures { IsTrue result ↔ IfSome rounds (λ r. r.first ≤ last) }
{
    match rounds {
        Some(range) => range.first <= last,
        None => true,
    }
}

fn shown_rounds(rounds: Option<RoundRange>) -> Option<run_picture::RoundRange> {
    match rounds {
        Some(RoundRange { first, last }) => Some(run_picture::RoundRange { first, last }),
        None => None,
    }
}

/// The text of a picture, made whole before any of it goes out: of the single steps, or of the
/// rounds if that is asked for or the run has too many events.
fn draw_report<P: Plan>(
    alloc: Global,
    report: &Report,
    book: &Book<P>,
    sheet: Sheet<'_>,
    view: &View,
) -> Result<Vec<u8>, Refusal>
    ensures { IfErr result (λ r. r ≡ Refusal.NoMemory) }
{
    let title = title_of(alloc, sheet.run)?;
    let grid = GridSheet {
        title: title.as_str(),
        rounds: book.setup().rounds,
        view: *view,
        is_instead: !sheet.drawing.grid,
    };
    if sheet.drawing.grid {
        return draw_grid(alloc, report, &grid);
    }
    let mut text = Vec::new(alloc);
    match write_picture(alloc, report, book, sheet.text, grid.title, view, &mut text) {
        Ok(()) => Ok(text),
        Err(PictureFault::TooManyEvents) => draw_grid(alloc, report, &grid),
        // What is written to memory fails only for want of it.
        Err(PictureFault::NoMemory | PictureFault::Write) => Err(Refusal::NoMemory),
    }
}

/// The text of a grid.
fn draw_grid(alloc: Global, report: &Report, sheet: &GridSheet<'_>) -> Result<Vec<u8>, Refusal>
    ensures { IfErr result (λ r. r ≡ Refusal.NoMemory) }
{
    let mut text = Vec::new(alloc);
    match write_grid(alloc, report, sheet, &mut text) {
        Ok(()) => Ok(text),
        // What is written to memory fails only for want of it.
        Err(_) => Err(Refusal::NoMemory),
    }
}

/// The source and the schedule, as they are named.
fn title_of<'a>(alloc: Global, run: Run<'a>) -> Result<String, NoMemory> {
    let mut title = String::new(alloc);
    match run.source {
        Source::File(name) => write!(title, "{name}")?,
        Source::Library { name, values } => write!(title, "@{name}:{values}")?,
    }
    let schedule = if run.schedule == "-" {
        "standard input"
    } else {
        run.schedule
    };
    write!(title, ", {schedule}")?;
    Ok(title)
}
