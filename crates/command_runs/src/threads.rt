//! Runs by threads.
ghost use Rattle.std.specs.Prelude.{◌≡◌, ◌≢◌, ◌⊎◌, ◌↔◌, All, Err, IfErr, IfOk, IfSome, IsTrue};
ghost use Rattle.std.specs.Prelude.{OnOk, Some, string_bytes};
ghost use Rattle.command_runs.specs.ByThreads.{IsRunOf, chooses_promptly};
ghost use Rattle.command_runs.specs.Apart.{IsApart};
ghost use Rattle.command_runs.specs.Refused.{IsBadForThreads, IsMissing, IsNotThreaded};
ghost use Rattle.command_runs.specs.Refused.{IsUnfit, IsUnfitForThreads, StartsThreads};
ghost use Rattle.command_runs.specs.Served.{IsThreadSetup, ReportsThreads};
ghost use Rattle.command_runs.specs.Stages.{AreReady, IsAfterStart, IsNoReadOf};
ghost use Rattle.command_runs.specs.Stages.{IsRefusedThreads};
ghost use Rattle.node_threads.specs.Ends.{IsFitForThreads};
ghost use Rattle.node_threads.specs.Stops.{AreStops};
ghost use Rattle.node_threads.specs.Faults.{IsOfThreads};
ghost use Rattle.node_threads.specs.Following.{FollowsPolicy};
ghost use Rattle.omission_explainer.specs.Decided.{AreAgreed, AreInputs};
ghost use Rattle.omission_explainer.specs.InRounds.{printed_omits};
ghost use Rattle.round_meaning.specs.Agreement.{AgreesIn, IsValidIn};
ghost use Rattle.schedule_text.specs.Texts.{SaysOf};
ghost use Rattle.schedule_text.specs.declared.kind.Kind.TheVariants as kinds;
ghost use Rattle.slot_plans.specs.Named.{IsPlan, start_of};

use crate::desk::Desk;
use crate::refusal::Refusal;
use crate::sources::Opened;
use crate::texts::schedule_text_in;
use crate::traces::try_trace;
use adversary::{RunFault, ThreadSetup, read_threads};
use command_words::Source;
use locked_buffers::OpenGate;
use node_threads::{Ended, Stop, run_threads};
use omission_explainer::{Report, explain};
use policies::Prompt;
use round_check::Checked;
use schedule_text::write_stored_schedule;
use slot_plans::{NamedPlan, Plan};
use std::alloc::Global;
use std::mem;
use std::sync::Wait;
use std::thread::Threads;
use step_journal::Journal;

/// A source, the file of a thread setup, and the file that gets the trace.
#[derive(Clone, Copy)]
pub(crate) struct Threaded<'a> {
    pub source: Source<'a>,
    pub setup: &'a str,
    pub trace: &'a str,
}

/// What a run by threads gave.
#[derive(Drop)]
pub struct ThreadRun {
    pub report: Report,
    /// The trace, as the text of a schedule.
    pub trace: String,
    /// Whether the thread of each node had memory to its end. Where one hadn't, the report and the
    /// trace are of what was recorded.
    pub whole: bool,
}

impl<'a> Threaded<'a> {
    /// Runs the source's program by threads, under the setup in its file. No thread starts before
    /// the file of the trace was tried.
    pub(crate) fn run<R: Threads + Wait + Sync, D: Desk>(
        &self,
        rt: &R,
        alloc: Global,
        desk: &mut D,
    ) -> Result<ThreadRun, Refusal>
        ensures told { IfOk result (λ run. ReportsThreads self.now.source (D.files desk.old)
            (D.files desk.old self.now.setup.now) (Some (string_bytes run.trace)) run.whole
            run.report) }
        ensures starts { OnOk result (StartsThreads self.now.source (D.files desk.old)
            (D.files desk.old self.now.setup.now)) }
        ensures tried { OnOk result (D.can_write desk.new self.now.trace.now) }
        ensures apart { OnOk result
            (IsApart self.now.trace.now self.now.source self.now.setup.now) }
        ensures refused { IfErr result (IsRefusedThreads self.now.source (D.files desk.old)
            (D.files desk.old self.now.setup.now)) }
        ensures other { IfErr result (λ r. r ≢ Refusal.NodeNoMemory) }
        ensures first_tried { IfErr result
            (λ r. IsAfterStart r → D.can_write desk.new self.now.trace.now) }
        ensures written { D.written desk.new ≡ D.written desk.old }
    {
        let (program, setup) = self.read(alloc, desk)?;
        try_trace(self.trace, self.source, self.setup, desk)?;
        run_by(rt, alloc, &program, &setup)
    }

    /// The program and the setup, whose numbers are within their limits.
    fn read<D: Desk>(&self, alloc: Global, desk: &mut D) -> Result<(Checked, ThreadSetup), Refusal>
        ensures ready { IfOk result (λ o. AreReady self.now.source (D.files desk.old)
            (D.files desk.old self.now.setup.now) o.0 o.1) }
        ensures refused { IfErr result (IsUnfit self.now.source (D.files desk.old)
            (D.files desk.old self.now.setup.now)) }
        ensures written { D.written desk.new ≡ D.written desk.old }
    {
        let opened = Opened::open(alloc, self.source, desk)?;
        let setup = setup_in(alloc, self.setup, desk)?;
        let program = opened.program(alloc, setup.setup.nodes, setup.setup.faults)?;
        check_fit(&program, &setup)?;
        Ok((program, setup))
    }
}

/// Refuses numbers that are past their limits.
fn check_fit(program: &Checked, setup: &ThreadSetup) -> Result<(), Refusal>
    ensures fit { let t = setup.now in
        OnOk result (IsFitForThreads program.now.values t.setup t.stops.items × IsPlan t.plan) }
    ensures refused { let t = setup.now in
        IfErr result (IsUnfitForThreads program.now t.setup t.plan t.stops.items) }
{
    let header = &setup.setup;
    if !header.is_lawful(program)
        || !are_stops(header.nodes, setup.stops.as_slice())
        || NamedPlan::new(setup.plan, header.nodes).is_none()
    {
        return Err(Refusal::Run(RunFault::BadSetup));
    }
    Ok(())
}

/// Whether each stop is of one of so many nodes.
fn are_stops(nodes: u32, stops: &[Stop]) -> bool
    ensures { IsTrue result ↔ AreStops nodes stops.now }
{
    stops.iter().all(|stop| stop.node < nodes)
}

/// The thread setup in a file.
fn setup_in<D: Desk>(alloc: Global, name: &str, desk: &mut D) -> Result<ThreadSetup, Refusal>
    ensures setup { IfOk result (λ t. IfSome (D.files desk.old name.now)
        (λ text. IsThreadSetup text t.setup t.plan t.pace t.stops.items)) }
    ensures refused { IfErr result (IsMissing kinds.Threads (D.files desk.old name.now)) }
    ensures written { D.written desk.new ≡ D.written desk.old }
{
    let text = schedule_text_in(alloc, name, desk)?;
    setup_of(alloc, text.as_str())
}

/// The thread setup that a text is.
fn setup_of(alloc: Global, text: &str) -> Result<ThreadSetup, Refusal>
    ensures setup { IfOk result (λ t.
        SaysOf kinds.Threads text.now t.setup t.plan (t.pace, t.stops.items)) }
    ensures refused { IfErr result (IsNoReadOf kinds.Threads text.now) }
{
    Ok(read_threads(alloc, text)?)
}

/// The run under the setup's plan.
fn run_by<R: Threads + Wait + Sync>(
    rt: &R,
    alloc: Global,
    program: &Checked,
    setup: &ThreadSetup,
) -> Result<ThreadRun, Refusal>
    ensures told { let t = setup.now in
        IfOk result (IsRunOf (start_of t.plan t.setup.nodes) program.now t) }
    ensures fit { let t = setup.now in
        IfOk result (λ _run. ¬ (IsBadForThreads program.now t.setup t.plan t.stops.items)) }
    ensures refused { let t = setup.now in
        IfErr result (IsNotThreaded program.now t.setup t.plan t.stops.items) }
{
    let Some(plan) = NamedPlan::new(setup.plan, setup.setup.nodes) else {
        return Err(Refusal::Run(RunFault::BadSetup));
    };
    let (run, journal) = explained_threads(rt, alloc, program, setup, plan)?;
    // The command ends with its answer: the system takes the run's memory back as a whole.
    mem::forget(journal);
    Ok(run)
}

/// The report and the trace of a run in which a thread for each node takes its steps, and another
/// one is the network, which releases each message as soon as it can. What holds of all decisions
/// of the program under the omissions that the report prints holds of the decisions in it. The
/// journal of the run is returned too: a caller that is done with it may leave its memory to the
/// system.
///
/// Refusals are those of `run_threads`. Like it, this needn't return.
pub fn explained_threads<R: Threads + Wait + Sync, P: Plan + Send + Sync>(
    rt: &R,
    alloc: Global,
    program: &Checked,
    setup: &ThreadSetup,
    plan: P,
) -> Result<(ThreadRun, Journal<P>), RunFault>
    requires { P.nodes plan ≡ setup.now.setup.nodes }
    ensures bad_setup { (result ≡ Err RunFault.BadSetup)
        ↔ (IsFitForThreads program.now.values setup.now.setup setup.now.stops.items → ⊥) }
    ensures cause { IfErr result (λ fault. (fault ≡ RunFault.BadSetup)
        ⊎ IsOfThreads fault) }
    ensures explained { IfOk result
        (λ answer. IsRunOf (P.start plan) program.now setup.now answer.0) }
    ensures follows { IfOk result (λ answer.
        FollowsPolicy chooses_promptly P.start plan setup.now.pace (record {}) answer.1.log) }
    ensures agreement { IfOk result (λ answer.
        AgreesIn program.now setup.now.setup (printed_omits answer.0.report.rows)
        → AreAgreed answer.0.report.rows) }
    ensures validity { IfOk result (λ answer.
        IsValidIn program.now setup.now.setup (printed_omits answer.0.report.rows)
        → AreInputs setup.now.setup answer.0.report.rows) }
{
    let header = &setup.setup;
    let stops = setup.stops.as_slice();
    let (journal, ends) = run_threads(
        rt, alloc, program, header, plan, setup.pace, stops, Prompt, &OpenGate,
    )?;
    journal.agrees();
    let report = explain(alloc, &journal)?;
    let trace = write_stored_schedule(alloc, header, setup.plan, journal.book().trace())?;
    let run = ThreadRun {
        report,
        trace,
        whole: had_memory(&ends),
    };
    Ok((run, journal))
}

/// Whether no thread ended out of memory.
fn had_memory(ends: &[Ended]) -> bool
    ensures { IsTrue result ↔ All (λ e. e ≢ Ended.NoMemory) ends.now }
{
    for end in ends {
        if *end == Ended::NoMemory {
            return false;
        }
    }
    true
}
