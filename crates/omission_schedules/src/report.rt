//! The report of a run in rounds.
ghost use Rattle.std.specs.Prelude.{◌≡◌, ◌++◌, ◌+◌, ◌-◌, ◌<◌, ◌≤◌, ◌⊎◌, ◌↔◌, All, Err, IfErr, IfOk};
ghost use Rattle.std.specs.Prelude.{OnOk, filter, length, map, slice_index};
ghost use Rattle.std.specs.List.{range_with_len};
ghost use Rattle.omission_explainer.specs.Reported.{place};
ghost use Rattle.omission_schedules.specs.Reports.{IsRowUnder, ShowsRounds, count_until};
ghost use Rattle.omission_schedules.specs.Reports.{ended_below, ended_rounds, is_ended};
ghost use Rattle.omission_schedules.specs.Stages.{omits_under};
ghost use Rattle.round_meaning.specs.Omissions.{is_omitted};
ghost use Rattle.round_meaning.specs.Rounds.{algorithm_of, rounds};
ghost use Rattle.round_meaning.specs.Setups.{IsLawful, IsSetup};
ghost use Rattle.round_meaning.specs.States.{states_after};
ghost use Rattle.run_events.specs.Limits.{max_rounds};

use crate::rounds::{Rounds, end_state, initial_states, turn_of};
use adversary::RunFault;
use omission_explainer::{Listed, Report, ReportRow, variable_names, variable_types};
use round_check::Checked;
use round_lang::Vars;
use round_meaning::{OmissionTable, Setup, decision_of, types_are_kept};
use run_events::NoMemory;
use slot_plans::Plan;
use std::alloc::Global;
use std::sync::Arc;
use step_machine::StoredState;

/// The report of the run in rounds that omits the messages of a table and what isn't sent, since
/// each node stops after so many steps, by node: the one that `explain` gives of the run of
/// `schedule_with_stops`.
///
/// It takes no schedule. In each round it asks for each receiver what each sender sends, once, and
/// it holds the states of one round besides its rows. `BadSetup` is an unlawful setup.
pub fn rounds_report<P: Plan>(
    alloc: Global,
    program: &Checked,
    setup: &Setup,
    plan: P,
    omissions: &OmissionTable,
    stops: &[u32],
) -> Result<Report, RunFault>
    requires { setup.now.nodes ≤ length stops.now }
    ensures bad_setup { (result ≡ Err RunFault.BadSetup)
        ↔ (IsLawful program.now.values setup.now → ⊥) }
    ensures cause { IfErr result (λ fault. (fault ≡ RunFault.NoMemory)
        ⊎ (fault ≡ RunFault.BadSetup)) }
    ensures shown { IfOk result (ShowsRounds (P.start plan) program.now setup.now
        (slice_index stops.now) (is_omitted omissions.now)) }
{
    if !setup.is_lawful(program) {
        return Err(RunFault::BadSetup);
    }
    let run = Rounds {
        program,
        setup,
        plan,
        omissions,
        stops,
    };
    Ok(report_of(alloc, &run)?)
}

/// The report of a run.
fn report_of<P: Plan>(alloc: Global, run: &Rounds<'_, P>) -> Result<Report, NoMemory>
    requires sized { IsSetup run.now.setup.now }
    requires stops { run.now.setup.now.nodes ≤ length run.now.stops.now }
    ensures { IfOk result (ShowsRounds (P.start run.now.plan) run.now.program.now run.now.setup.now
        (slice_index run.now.stops.now) (is_omitted run.now.omissions.now)) }
{
    let program = run.program.program();
    Ok(Report {
        values: program.values(),
        names: variable_names(alloc, program)?,
        types: variable_types(alloc, program)?,
        rows: Listed::new(rows_of(alloc, run)?),
        counts: Listed::new(counts_of(alloc, run)?),
    })
}

/// For each node its steps, and how many rounds it ends.
fn counts_of<P: Plan>(alloc: Global, run: &Rounds<'_, P>) -> Result<Vec<(u64, u64)>, NoMemory>
    requires sized { IsSetup run.now.setup.now }
    requires stops { run.now.setup.now.nodes ≤ length run.now.stops.now }
    ensures { IfOk result (λ counts. counts.items ≡ map
        (count_until (P.start run.now.plan) (slice_index run.now.stops.now)
        run.now.setup.now.rounds) (range_with_len 0 run.now.setup.now.nodes)) }
{
    let all = run.plan.start(run.setup.rounds + 1);
    let mut counts = Vec::new(alloc);
    for node in 0..run.setup.nodes {
        let steps = all.min(run.stops[node as usize]);
        counts.push((u64::from(steps), ended_by(run, node)))?;
    }
    Ok(counts)
}

/// How many rounds a node ends.
fn ended_by<P: Plan>(run: &Rounds<'_, P>, node: u32) -> u64
    requires rounds { run.now.setup.now.rounds ≤ max_rounds }
    requires node { node < length run.now.stops.now }
    ensures { result ≡ length (filter
        (λ r. is_ended (P.start run.now.plan) (slice_index run.now.stops.now) (r, node))
        (range_with_len 1 run.now.setup.now.rounds)) }
{
    let mut ended = 0;
    for round in 1..run.setup.rounds + 1 {
        if run.is_ended(round, node) {
            ended += 1;
        }
    }
    ended
}

/// A row for each round that a node ends, by round and then by node.
fn rows_of<P: Plan>(alloc: Global, run: &Rounds<'_, P>) -> Result<Vec<ReportRow>, NoMemory>
    requires sized { IsSetup run.now.setup.now }
    requires stops { run.now.setup.now.nodes ≤ length run.now.stops.now }
    ensures listed { IfOk result (λ rows. map place rows.items ≡ ended_rounds
        (P.start run.now.plan) (slice_index run.now.stops.now) run.now.setup.now.nodes
        run.now.setup.now.rounds) }
    ensures rowed { IfOk result (λ rows. All (IsRowUnder run.now.program.now
        (algorithm_of run.now.program.now run.now.setup.now) (P.start run.now.plan)
        (slice_index run.now.stops.now)
        (omits_under (P.start run.now.plan) run.now.stops.now run.now.omissions.now)) rows.items) }
{
    let mut rows = Vec::new(alloc);
    let mut states = initial_states(alloc, run.program, run.setup)?;
    for done in 0..run.setup.rounds {
        let next = next_states(alloc, run, done + 1, &states, &mut rows)?;
        states = next;
    }
    Ok(rows)
}

/// The states of all nodes after a round, from those before it; adds a row for each node that ends
/// the round.
fn next_states<P: Plan>(
    alloc: Global,
    run: &Rounds<'_, P>,
    round: u32,
    before: &[Vars],
    rows: &mut Vec<ReportRow>,
) -> Result<Vec<Vars>, NoMemory>
    requires first { 1 ≤ round }
    requires last { round ≤ max_rounds }
    requires sized { IsSetup run.now.setup.now }
    requires stops { run.now.setup.now.nodes ≤ length run.now.stops.now }
    requires before { before.now ≡ states_after
        (algorithm_of run.now.program.now run.now.setup.now)
        (omits_under (P.start run.now.plan) run.now.stops.now run.now.omissions.now) (round - 1) }
    ensures next { IfOk result (λ next. next.items ≡ states_after
        (algorithm_of run.now.program.now run.now.setup.now)
        (omits_under (P.start run.now.plan) run.now.stops.now run.now.omissions.now) round) }
    ensures listed { OnOk result (map place rows.new.items ≡ map place rows.old.items
        ++ ended_below (P.start run.now.plan) (slice_index run.now.stops.now)
        run.now.setup.now.nodes round) }
    ensures rowed { let shown = IsRowUnder run.now.program.now
        (algorithm_of run.now.program.now run.now.setup.now) (P.start run.now.plan)
        (slice_index run.now.stops.now)
        (omits_under (P.start run.now.plan) run.now.stops.now run.now.omissions.now) in
        OnOk result (All shown rows.old.items → All shown rows.new.items) }
{
    let mut next = Vec::new(alloc);
    for node in 0..run.setup.nodes {
        let (row, state) = turn_row(alloc, run, round, before, node)?;
        if run.is_ended(round, node) {
            rows.push(row)?;
        }
        next.push(state)?;
    }
    Ok(next)
}

/// The row of a node's round, and the state with which the node ends it.
fn turn_row<P: Plan>(
    alloc: Global,
    run: &Rounds<'_, P>,
    round: u32,
    before: &[Vars],
    node: u32,
) -> Result<(ReportRow, Vars), NoMemory>
    requires first { 1 ≤ round }
    requires last { round ≤ max_rounds }
    requires sized { IsSetup run.now.setup.now }
    requires stops { run.now.setup.now.nodes ≤ length run.now.stops.now }
    requires node { node < run.now.setup.now.nodes }
    requires before { before.now ≡ states_after
        (algorithm_of run.now.program.now run.now.setup.now)
        (omits_under (P.start run.now.plan) run.now.stops.now run.now.omissions.now) (round - 1) }
    ensures place { IfOk result (λ t. place t.0 ≡ (round, node)) }
    ensures row { IfOk result (λ t. IsRowUnder run.now.program.now
        (algorithm_of run.now.program.now run.now.setup.now) (P.start run.now.plan)
        (slice_index run.now.stops.now)
        (omits_under (P.start run.now.plan) run.now.stops.now run.now.omissions.now) t.0) }
    ensures state { IfOk result (λ t. t.1 ≡ rounds
        (algorithm_of run.now.program.now run.now.setup.now)
        (omits_under (P.start run.now.plan) run.now.stops.now run.now.omissions.now) round node) }
{
    types_are_kept(run.program);
    let turn = turn_of(alloc, run, round, before, node)?;
    let state = end_state(alloc, run, round, before, node, &turn)?;
    let stored = StoredState::new(alloc, run.program.state_shape(), &state)?;
    let row = ReportRow {
        round,
        node,
        heard: turn.heard,
        silent: turn.silent,
        omitted: turn.omitted,
        decision: decision_of(run.program, &state),
        state: Arc::new(alloc, stored)?,
    };
    Ok((row, state))
}
