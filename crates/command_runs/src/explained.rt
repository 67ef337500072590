//! From a checked program and any schedule to what is said of its run.
ghost use Rattle.std.specs.Prelude.{◌≡◌, ◌<◌, All, IfErr, IfNone, IfOk, IfSome, OnOk};
ghost use Rattle.adversary.specs.Driving.{IsKnown};
ghost use Rattle.adversary.specs.Reading.{IsNotRead, IsScheduleOf};
ghost use Rattle.command_runs.specs.Explained.{AreListed, IsReportOf, IsVerdictOf};
ghost use Rattle.omission_explainer.specs.Decided.{AreAgreed, AreInputs};
ghost use Rattle.omission_explainer.specs.InRounds.{printed_omits};
ghost use Rattle.round_meaning.specs.Agreement.{AgreesIn, IsValidIn};
ghost use Rattle.run_events.specs.Limits.{max_nodes};
ghost use Rattle.round_meaning.specs.Setups.{IsLawful};

use adversary::{ReadFault, RunFault, refused_after, run_read};
use omission_explainer::{Report, Verdict, explain, judge};
use round_check::Checked;
use round_meaning::{NodeSet, Setup};
use run_events::MAX_NODES;
use schedule_text::{ScheduleReader, TextSource};
use slot_plans::Plan;
use std::alloc::Global;
use step_journal::Journal;

/// The report of running a schedule in single steps, event by event as it's read: the run explained
/// in rounds. What holds of all decisions of the program under the omissions that the report prints
/// holds of the decisions in it. The journal of the run is handed out too, whose trace has the
/// schedule's events: whoever is done with it may leave its memory to the system.
///
/// Refusals are those of `run_read`.
pub fn explained_run<P: Plan, S: TextSource + Drop>(
    alloc: Global,
    program: &Checked,
    setup: &Setup,
    plan: P,
    reader: ScheduleReader<S>,
) -> Result<(Report, Journal<P>), ReadFault>
    requires { IsLawful program.now.values setup.now → P.nodes plan ≡ setup.now.nodes }
    ensures lawful { IfOk result (λ _answer. IsLawful program.now.values setup.now) }
    ensures cause { IfErr result (IsNotRead (IsLawful program.now.values setup.now) setup.now
        reader) }
    ensures known { IfOk result (λ answer. All (IsKnown setup.now) answer.1.log.trace) }
    ensures read { IfOk result (λ answer. IsScheduleOf setup.now reader answer.1.log.trace) }
    ensures explained { IfOk result (λ answer. IsReportOf (P.start plan) program.now setup.now
        answer.1.log.trace answer.0) }
    ensures agreement { IfOk result (λ answer.
        AgreesIn program.now setup.now (printed_omits answer.0.rows) → AreAgreed answer.0.rows) }
    ensures validity { IfOk result (λ answer.
        IsValidIn program.now setup.now (printed_omits answer.0.rows)
        → AreInputs setup.now answer.0.rows) }
{
    let journal = run_read(alloc, program, setup, plan, reader)?;
    journal.agrees();
    let report = explain(alloc, &journal)?;
    Ok((report, journal))
}

/// What a run is judged for: the nodes that are taken as correct, the bound on the delay in steps,
/// and the step number from which on it is to hold.
#[derive(Clone, Copy)]
pub struct Terms<'a> {
    pub correct: &'a [u32],
    pub delta: u32,
    pub gst: u32,
}

/// The verdict on running a schedule in single steps, event by event as it's read, and the journal
/// of the run.
///
/// Refusals are those of `run_read`; `BadSetup` is also answered if a node of `correct` isn't
/// one of the run's.
pub fn judged_run<P: Plan, S: TextSource + Drop>(
    alloc: Global,
    program: &Checked,
    setup: &Setup,
    plan: P,
    reader: ScheduleReader<S>,
    terms: Terms<'_>,
) -> Result<(Verdict, Journal<P>), ReadFault>
    requires { IsLawful program.now.values setup.now → P.nodes plan ≡ setup.now.nodes }
    ensures lawful { IfOk result (λ _answer. IsLawful program.now.values setup.now) }
    ensures cause { IfErr result (IsNotRead (IsLawful program.now.values setup.now
        × All (λ n. n < setup.now.nodes) terms.entry.correct.now) setup.now reader) }
    ensures listed { OnOk result (All (λ n. n < setup.now.nodes) terms.entry.correct.now) }
    ensures known { IfOk result (λ answer. All (IsKnown setup.now) answer.1.log.trace) }
    ensures read { IfOk result (λ answer. IsScheduleOf setup.now reader answer.1.log.trace) }
    ensures judged { IfOk result (λ answer. IsVerdictOf (P.start plan) (P.receives plan) program.now
        setup.now answer.1.log.trace terms.entry.correct.now terms.entry.delta terms.entry.gst
        answer.0) }
{
    let Some(correct) = nodes_in(terms.correct, setup.nodes) else {
        return Err(refused_after(alloc, reader, RunFault::BadSetup));
    };
    let journal = run_read(alloc, program, setup, plan, reader)?;
    journal.agrees();
    let verdict = judge(&journal, correct, terms.delta, terms.gst);
    Ok((verdict, journal))
}

/// The set of the listed nodes, if each is below a number of nodes and below the most that there
/// can be.
pub(crate) fn nodes_in(list: &[u32], nodes: u32) -> Option<NodeSet>
    ensures some { IfSome result (λ set. AreListed nodes list.now set.bits) }
    ensures each { IfSome result (λ _set. All (λ n. n < nodes) list.now) }
    ensures none { IfNone result (All (λ n. (n < nodes) × (n < max_nodes)) list.now → ⊥) }
{
    let mut set = NodeSet::empty();
    for node in list {
        if *node >= nodes || *node >= MAX_NODES {
            return None;
        }
        set = set.with(*node);
    }
    Some(set)
}
