//! What is found by going through all runs in rounds.
ghost use Rattle.std.specs.Prelude.{◌≡◌, ◌↔◌, ℕ, All, IfErr, IfOk, IsTrue, List, OnOk, option_map};
ghost use Rattle.std.specs.Prelude.{is_some, string_bytes};
ghost use Rattle.command_runs.specs.Apart.{IsApartIfNamed};
ghost use Rattle.command_runs.specs.InParts.{IsDigestOf, IsHeadFor, IsHeadOf, has_details};
ghost use Rattle.command_runs.specs.InRounds.{IsFound, IsMade, IsShown, IsTrace, ShowsFirst};
ghost use Rattle.command_runs.specs.InRounds.{trace_of};
ghost use Rattle.command_runs.specs.Refused.{IsNotExplored, IsUnexplored};
ghost use Rattle.command_runs.specs.Within.{IsExplorable, IsExplored};
ghost use Rattle.command_runs.specs.Served.{FindsIn};
ghost use Rattle.command_runs.specs.Sources.{IsTextOfSource};
ghost use Rattle.command_runs.specs.Stages.{AreSearchable, IsRefusedSearch};
ghost use Rattle.command_runs.specs.Unshown.{HasNoSourceText};
ghost use Rattle.exploration_texts.specs.Stops.{IsShowable, IsToldToShow};
ghost use Rattle.round_meaning.specs.Setups.{IsSetup};
ghost use Rattle.slot_plans.specs.Named.{receives_of, start_of};

use crate::desk::Desk;
use crate::lockstep::header_in;
use crate::refusal::Refusal;
use crate::sources::{Opened, SourceText};
use crate::traces::try_trace_if_named;
use adversary::RunFault;
use answer_details::{Details, SearchedRuns, details_of};
use command_words::{AnswerFormat, Exploring, Source};
use exploration_texts::{
    Failed, Told, answer_all, commented, first_failure, question_digest, read_condition, stops_of,
};
use omission_schedules::schedule_with_stops;
use part_answers::{Part, PartHead, Question};
use round_check::Checked;
use round_explorer::Watch;
use round_meaning::Setup;
use run_events::{NoMemory, PlanKind};
use schedule_text::write_stored_schedule;
use slot_plans::{NamedPlan, Plan};
use std::alloc::Global;
use std::thread::Threads;

/// A source, the file of a header, what is asked of all runs, and in which format it's answered.
#[derive(Clone, Copy)]
pub(crate) struct Exploration<'a> {
    pub source: Source<'a>,
    pub header: &'a str,
    pub exploring: Exploring<'a>,
    pub format: AnswerFormat,
}

/// What is told of the properties; if a trace is asked for and one fails, the schedule that shows
/// the first that does; and the details that are printed with the answers, if they are.
#[derive(Drop)]
pub(crate) struct Found {
    pub told: Vec<Told>,
    pub trace: Option<String>,
    pub details: Option<Details>,
}

/// What is found, and which part of which question it answers, if only a part was asked about.
#[derive(Drop)]
pub(crate) struct Explored {
    pub head: Option<PartHead>,
    pub found: Found,
}

impl<'a> Exploration<'a> {
    /// Goes through all runs, once the file of the trace was tried.
    pub(crate) fn find<R: Threads + Sync, D: Desk>(
        &self,
        rt: &R,
        alloc: Global,
        desk: &mut D,
    ) -> Result<Explored, Refusal>
        ensures found { IfOk result (FindsIn self.now.source (D.files desk.old)
            (D.files desk.old self.now.header.now) self.now.exploring) }
        ensures made { IfOk result (λ explored. IsMade self.now.exploring.trace
            explored.found.told.items (trace_of explored.found)) }
        ensures detailed { IfOk result (λ explored.
            is_some explored.found.details ≡ has_details self.now.exploring) }
        ensures apart { OnOk result (IsApartIfNamed self.now.exploring.trace self.now.source
            self.now.header.now) }
        ensures refused { IfErr result (IsRefusedSearch self.now.source (D.files desk.old)
            (D.files desk.old self.now.header.now) self.now.exploring) }
        ensures written { D.written desk.new ≡ D.written desk.old }
    {
        let (program, setup, plan, head) = self.read(alloc, desk)?;
        try_trace_if_named(self.exploring.trace, self.source, self.header, desk)?;
        let watch = desk.watch();
        let found = found_by(rt, alloc, &program, &setup, plan, self, &watch)?;
        Ok(Explored { head, found })
    }

    /// The program, the setup and the plan, whose numbers are within their limits, and the part
    /// that is asked about if it's only one; and EXPR is a condition.
    fn read<D: Desk>(
        &self,
        alloc: Global,
        desk: &mut D,
    ) -> Result<(Checked, Setup, PlanKind, Option<PartHead>), Refusal>
        ensures searchable { IfOk result (λ o. AreSearchable self.now.source (D.files desk.old)
            (D.files desk.old self.now.header.now) self.now.exploring o.0 o.1 o.2) }
        ensures headed { IfOk result (λ o. IsHeadOf self.now.source (D.files desk.old) o.1 o.0
            self.now.exploring o.3) }
        ensures refused { IfErr result (IsUnexplored self.now.source (D.files desk.old)
            (D.files desk.old self.now.header.now) self.now.exploring) }
        ensures written { D.written desk.new ≡ D.written desk.old }
    {
        let opened = Opened::open(alloc, self.source, desk)?;
        let (setup, plan) = header_in(alloc, self.header, desk)?;
        let (program, text) = opened.with_text(alloc, setup.nodes, setup.faults)?;
        check_asked(alloc, &program, &setup, plan, &self.exploring)?;
        let head = head_of(alloc, text, &setup, &self.exploring)?;
        Ok((program, setup, plan, head))
    }
}

/// Which part of which question is asked about, if it is only one.
fn head_of(
    alloc: Global,
    text: SourceText<'_>,
    setup: &Setup,
    exploring: &Exploring<'_>,
) -> Result<Option<PartHead>, Refusal>
    ensures headed { IfOk result (IsHeadFor exploring.now.part (λ question. (bytes : List ℕ)
        × IsTextOfSource text.entry bytes × IsDigestOf bytes setup.now exploring.now question)) }
    ensures refused { IfErr result (HasNoSourceText text.entry) }
{
    let Some(part) = exploring.part else {
        return Ok(None);
    };
    let text = text.into_string(alloc)?;
    let digest = question_digest(alloc, text.as_str(), setup, exploring)?;
    Ok(Some(PartHead {
        part: Part {
            number: part.number,
            count: part.count,
        },
        question: Question::of(&digest),
    }))
}

/// Refuses numbers that are past their limits, and then an EXPR that is no condition.
fn check_asked(
    alloc: Global,
    program: &Checked,
    setup: &Setup,
    kind: PlanKind,
    exploring: &Exploring<'_>,
) -> Result<(), Refusal>
    ensures explored { OnOk result (IsExplored program.now setup.now kind exploring.now) }
    ensures refused { IfErr result (IsNotExplored program.now setup.now kind exploring.now) }
{
    if !is_explorable(program, setup, exploring) || NamedPlan::new(kind, setup.nodes).is_none() {
        return Err(Refusal::Run(RunFault::BadSetup));
    }
    match exploring.always {
        Some(text) => {
            read_condition(alloc, program, text)?;
            Ok(())
        }
        None => Ok(()),
    }
}

/// What is found under a plan of this name.
fn found_by<R: Threads + Sync, W: Watch + Sync>(
    rt: &R,
    alloc: Global,
    program: &Checked,
    setup: &Setup,
    kind: PlanKind,
    exploration: &Exploration<'_>,
    watch: &W,
) -> Result<Found, Refusal>
    requires explorable { IsExplorable program.now setup.now exploration.now.exploring }
    ensures found { IfOk result (IsFound (receives_of kind) (start_of kind setup.now.nodes)
        program.now setup.now kind exploration.now.exploring) }
    ensures made { IfOk result (λ found.
        IsMade exploration.now.exploring.trace found.told.items (trace_of found)) }
    ensures detailed { IfOk result (λ found.
        is_some found.details ≡ has_details exploration.now.exploring) }
    ensures refused { IfErr result
        (IsNotExplored program.now setup.now kind exploration.now.exploring) }
{
    let Some(plan) = NamedPlan::new(kind, setup.nodes) else {
        return Err(Refusal::Run(RunFault::BadSetup));
    };
    let exploring = &exploration.exploring;
    let told = answer_all(rt, alloc, program, setup, exploring, watch)?;
    let trace = trace_for(alloc, setup, kind, plan, exploring.trace, &told)?;
    let runs = SearchedRuns {
        program,
        setup,
        plan,
    };
    let details = details_for(alloc, &runs, exploring, exploration.format, &told)?;
    Ok(Found {
        told,
        trace,
        details,
    })
}

/// The details of what is told, unless a part is asked about or the answers are to be brief.
fn details_for<P: Plan>(
    alloc: Global,
    runs: &SearchedRuns<'_, P>,
    exploring: &Exploring<'_>,
    format: AnswerFormat,
    told: &[Told],
) -> Result<Option<Details>, NoMemory>
    requires plan { P.nodes runs.now.plan ≡ runs.now.setup.now.nodes }
    requires setup { IsSetup runs.now.setup.now }
    requires showable { All (IsToldToShow runs.now.setup.now) told.now }
    ensures { IfOk result (λ details. is_some details ≡ has_details exploring.now) }
{
    if exploring.brief || exploring.part.is_some() {
        return Ok(None);
    }
    Ok(Some(details_of(alloc, runs, exploring, format, told)?))
}

/// Whether the numbers are within their limits.
fn is_explorable(program: &Checked, setup: &Setup, exploring: &Exploring<'_>) -> bool
    ensures { IsTrue result ↔ IsExplorable program.now setup.now exploring.now }
{
    setup.is_lawful(program) && exploring.hears <= setup.nodes
}

/// The schedule that shows the first property that fails, if one is asked for.
fn trace_for<P: Plan>(
    alloc: Global,
    setup: &Setup,
    kind: PlanKind,
    plan: P,
    name: Option<&str>,
    told: &[Told],
) -> Result<Option<String>, NoMemory>
    requires nodes { P.nodes plan ≡ setup.now.nodes }
    requires setup { IsSetup setup.now }
    requires showable { All (IsToldToShow setup.now) told.now }
    ensures { IfOk result (λ trace. IsTrace (P.receives plan) (P.start plan) setup.now kind
        name.entry told.now (option_map (λ text. string_bytes text) trace)) }
{
    match name {
        None => Ok(None),
        Some(_) => trace_of(alloc, setup, kind, plan, told),
    }
}

/// The schedule that shows the first property that fails.
fn trace_of<P: Plan>(
    alloc: Global,
    setup: &Setup,
    kind: PlanKind,
    plan: P,
    told: &[Told],
) -> Result<Option<String>, NoMemory>
    requires nodes { P.nodes plan ≡ setup.now.nodes }
    requires setup { IsSetup setup.now }
    requires showable { All (IsToldToShow setup.now) told.now }
    ensures { IfOk result (λ trace. ShowsFirst (P.receives plan) (P.start plan) setup.now kind
        told.now (option_map (λ text. string_bytes text) trace)) }
{
    match first_failure(told) {
        None => Ok(None),
        Some(failed) => Ok(Some(shown(alloc, setup, kind, plan, failed)?)),
    }
}

/// The schedule that shows a property failing: it goes round by round up to the one in which it
/// fails, omits what the run does in which it fails, and in it nodes that crash stop.
fn shown<P: Plan>(
    alloc: Global,
    setup: &Setup,
    kind: PlanKind,
    plan: P,
    failed: Failed<'_>,
) -> Result<String, NoMemory>
    requires nodes { P.nodes plan ≡ setup.now.nodes }
    requires setup { IsSetup setup.now }
    requires showable { IsShowable setup.now failed.found.now }
    ensures { IfOk result (λ text. IsShown (P.receives plan) (P.start plan) setup.now kind
        failed.entry.name failed.entry.found.now (string_bytes text)) }
{
    let found = failed.found;
    let setup = Setup {
        nodes: setup.nodes,
        faults: setup.faults,
        inputs: found.inputs.copy()?,
        rounds: found.round,
    };
    let stops = stops_of(alloc, &setup, &found.failures, plan)?;
    let events = schedule_with_stops(alloc, &setup, plan, &found.omissions, &stops)?;
    let schedule = write_stored_schedule(alloc, &setup, kind, &events)?;
    commented(alloc, failed.name, found.round, schedule.as_str())
}
