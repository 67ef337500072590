//! From a journal to its report.
ghost use Rattle.std.specs.Prelude.{◌≡◌, ◌≢◌, ◌+◌, ◌<◌, ◌≤◌, ◌↔◌, All, IfOk, IsTrue, map};
ghost use Rattle.run_events.specs.Limits.{max_rounds};
ghost use Rattle.round_meaning.specs.Agreement.{AgreesIn, IsValidIn};
ghost use Rattle.round_meaning.specs.Rounds.{algorithm_of};
ghost use Rattle.round_meaning.specs.Turn.{decision};
ghost use Rattle.step_book.specs.Agreement.{row};
ghost use Rattle.step_book.specs.Log.{history, round_of, world_of};
ghost use Rattle.step_book.specs.History.{state};
ghost use Rattle.step_book.specs.Names.{IsName};
ghost use Rattle.step_book.specs.Work.{any_within};
ghost use Rattle.omission_explainer.specs.Decided.{AreAgreed, AreInputs};
ghost use Rattle.omission_explainer.specs.InRounds.{IsOfRounds, printed_omits};
ghost use Rattle.omission_explainer.specs.Lateness.{marks_of};
ghost use Rattle.omission_explainer.specs.Reported.{IsReported, IsRowOf, closed_rounds, counts_in};
ghost use Rattle.omission_explainer.specs.Reported.{heard_in, declared_names, omitted_in, place};
ghost use Rattle.omission_explainer.specs.Reported.{silent_in, declared_types};
ghost use Rattle.omission_explainer.specs.StoredDecisions.{IsDecidedAt};

use crate::listed::Listed;
use crate::report::{Report, ReportRow};
use crate::stored_decision::{decided_place, decision_at};
use crate::variables::{variable_names, variable_types};
use round_meaning::NodeSet;
use run_events::{Name, NoMemory};
use slot_plans::Plan;
use std::alloc::Global;
use std::sync::Arc;
use step_book::{Book, Mark, earliest, is_within};
use step_journal::Journal;

/// The report of a journal: its closed rounds, as rounds with omissions. What holds of all
/// decisions of the program under these omissions holds of the decisions in the report. For
/// Algorithm 1, `decisions_agree` of `round_meaning` gives both premises.
pub fn explain<P: Plan>(alloc: Global, journal: &Journal<P>) -> Result<Report, NoMemory>
    ensures values { IfOk result (λ report. report.values ≡ journal.now.log.program.values) }
    ensures names { IfOk result (λ report. report.names ≡ declared_names journal.now.log.program) }
    ensures types { IfOk result (λ report. report.types ≡ declared_types journal.now.log.program) }
    ensures reported { IfOk result
        (λ report. All (IsReported (P.start journal.now.plan) journal.now.log) report.rows) }
    ensures listed { IfOk result (λ report. map place report.rows ≡ closed_rounds journal.now.log) }
    ensures in_rounds { IfOk result
        (λ report. All (IsOfRounds (algorithm_of journal.now.log.program journal.now.log.setup)
        (printed_omits report.rows)) report.rows) }
    ensures counted { IfOk result (λ report. report.counts ≡ counts_in journal.now.log) }
    ensures agreement { IfOk result (λ report.
        AgreesIn journal.now.log.program journal.now.log.setup (printed_omits report.rows)
        → AreAgreed report.rows) }
    ensures validity { IfOk result (λ report.
        IsValidIn journal.now.log.program journal.now.log.setup (printed_omits report.rows)
        → AreInputs journal.now.log.setup report.rows) }
{
    let book = journal.book();
    book.agrees();
    let program = book.program().program();
    Ok(Report {
        values: program.values(),
        names: variable_names(alloc, program)?,
        types: variable_types(alloc, program)?,
        rows: Listed::new(rows_of(alloc, book)?),
        counts: Listed::new(counts_of(alloc, book)?),
    })
}

/// A row for each closed round of each node, by round and then by node.
fn rows_of<P: Plan>(alloc: Global, book: &Book<P>) -> Result<Vec<ReportRow>, NoMemory>
    ensures reported { IfOk result
        (λ rows. All (IsReported (P.start book.now.plan) book.now.log) rows.items) }
    ensures listed { IfOk result (λ rows. map place rows.items ≡ closed_rounds book.now.log) }
    ensures in_rounds { IfOk result
        (λ rows. All (IsOfRounds (algorithm_of book.now.log.program book.now.log.setup)
        (printed_omits rows.items)) rows.items) }
{
    book.agrees();
    let decided = decided_place(book.program().program());
    let mut rows = Vec::new(alloc);
    for round in 1..book.setup().rounds + 1 {
        for node in 0..book.setup().nodes {
            if round < book.round_of(node) {
                rows.push(row_of(book, decided, node, round)?)?;
            }
        }
    }
    Ok(rows)
}

/// For each node its steps and its closed rounds.
fn counts_of<P: Plan>(alloc: Global, book: &Book<P>) -> Result<Vec<(u64, u64)>, NoMemory>
    ensures { IfOk result (λ counts. counts.items ≡ counts_in book.now.log) }
{
    let mut counts = Vec::new(alloc);
    for node in 0..book.setup().nodes {
        let closed = u64::from(book.round_of(node)).saturating_sub(1);
        counts.push((book.count_of(node), closed))?;
    }
    Ok(counts)
}

/// What came of a message for its receiver.
#[derive(Clone, Copy, PartialEq, Eq, Debug)]
enum Outcome {
    Heard,
    Silent,
    Omitted,
}

/// Silence by the mark of copy 0, and else whether one of the copies was released in these steps of
/// its receiver: mostly copy 0 was, and no other is asked for.
fn outcome_of<P: Plan>(book: &Book<P>, name: Name, first: u64, end: u64) -> Outcome
    requires { IsName book.now.log.setup name }
    ensures heard { let marks = marks_of (world_of (P.start book.now.plan) book.now.log)
        (history book.now.log) name in
        result ≡ Outcome.Heard
        ↔ (IsTrue (any_within marks first end) × (marks 0 ≢ Mark.Silent)) }
    ensures silent { let marks = marks_of (world_of (P.start book.now.plan) book.now.log)
        (history book.now.log) name in
        result ≡ Outcome.Silent ↔ marks 0 ≡ Mark.Silent }
{
    let mark = book.mark(name.original());
    if mark == Mark::Silent {
        return Outcome::Silent;
    }
    if is_within(mark, first, end) || book.was_released(name, first, end) {
        Outcome::Heard
    } else {
        Outcome::Omitted
    }
}

/// The senders of a round, separated by what came of their messages to one receiver.
#[derive(Clone, Copy)]
struct Outcomes {
    heard: NodeSet,
    silent: NodeSet,
    omitted: NodeSet,
}

/// What came of the messages of a node's closed round.
///
/// A message is carried if one of its copies was released while its receiver was in one of the
/// rounds in which it's kept.
fn outcomes_of<P: Plan>(book: &Book<P>, node: u32, round: u32) -> Outcomes
    requires node { node < book.now.log.setup.nodes }
    requires first { 0 < round }
    requires few { round ≤ max_rounds }
    requires closed { round < round_of book.now.log node }
    ensures heard { result.heard.bits ≡ heard_in (P.start book.now.plan) book.now.log round node }
    ensures silent { result.silent.bits
        ≡ silent_in (P.start book.now.plan) book.now.log round node }
    ensures omitted { result.omitted.bits
        ≡ omitted_in (P.start book.now.plan) book.now.log round node }
{
    book.agrees();
    let first = u64::from(book.plan().start(earliest(round)));
    let end = u64::from(book.plan().start(round + 1));
    let mut heard = NodeSet::empty();
    let mut silent = NodeSet::empty();
    let mut omitted = NodeSet::empty();
    for from in 0..book.setup().nodes {
        let name = Name {
            from,
            to: node,
            round,
            copy: 0,
        };
        match outcome_of(book, name, first, end) {
            Outcome::Heard => heard = heard.with(from),
            Outcome::Silent => silent = silent.with(from),
            Outcome::Omitted => omitted = omitted.with(from),
        }
    }
    Outcomes {
        heard,
        silent,
        omitted,
    }
}

/// The row of a node's closed round, if the decided variable has this place.
fn row_of<P: Plan>(
    book: &Book<P>,
    decided: Option<usize>,
    node: u32,
    round: u32,
) -> Result<ReportRow, NoMemory>
    requires decided { IsDecidedAt book.now.log.program decided }
    requires node { node < book.now.log.setup.nodes }
    requires first { 0 < round }
    requires few { round ≤ max_rounds }
    requires closed { round < round_of book.now.log node }
    ensures round { IfOk result (λ r. r.round ≡ round) }
    ensures node { IfOk result (λ r. r.node ≡ node) }
    ensures printed { IfOk result (λ r. IsRowOf (P.start book.now.plan) book.now.log round node r) }
    ensures state { IfOk result (λ r. r.state
        ≡ state (world_of (P.start book.now.plan) book.now.log) (history book.now.log) round node) }
    ensures decision { IfOk result (λ r. r.decision ≡ decision book.now.log.program r.state) }
{
    book.agrees();
    let outcomes = outcomes_of(book, node, round);
    let state = &book.states(node)[round as usize];
    Ok(ReportRow {
        round,
        node,
        heard: outcomes.heard,
        silent: outcomes.silent,
        omitted: outcomes.omitted,
        decision: decision_at(decided, state),
        state: Arc::try_clone(state)?,
    })
}
