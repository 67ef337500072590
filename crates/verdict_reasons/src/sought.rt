//! The first row of a report that has what is sought.
ghost use Rattle.std.specs.Prelude.{◌≢◌, ◌≤◌, ◌↔◌, ℕ, IsTrue, MatchOption, Some};
ghost use Rattle.verdict_reasons.specs.Decisions.{IsOtherThan, RowAt};
ghost use Rattle.verdict_reasons.specs.Seeking.{IsFirstFrom, IsSought};

use omission_explainer::ReportRow;

/// What is sought of a row.
#[derive(Clone, Copy, PartialEq, Eq, Debug)]
pub(crate) enum Sought {
    /// Any decision.
    Decision,
    /// A decision other than this one.
    OtherThan(u32),
    /// A decision of this node.
    DecisionOf(u32),
    /// That this node hasn't decided so: another decision, or none.
    ChangeOf { node: u32, decision: u32 },
}

/// The place of the first row, from this place on, that has what is sought.
pub(crate) fn first_row(rows: &[ReportRow], from: usize, sought: Sought) -> Option<usize>
    ensures { MatchOption result
        ((k : ℕ) → from ≤ k → ¬ RowAt rows.now (IsSought sought) k)
        (IsFirstFrom rows.now (IsSought sought) from) }
{
    for place in from..rows.len() {
        if is_sought(sought, &rows[place]) {
            return Some(place);
        }
    }
    None
}

/// Whether a row has what is sought.
fn is_sought(sought: Sought, row: &ReportRow) -> bool
    ensures { IsTrue result ↔ IsSought sought row.now }
{
    match sought {
        Sought::Decision => row.decision.is_some(),
        Sought::OtherThan(decision) => is_other(row.decision, decision),
        Sought::DecisionOf(node) => row.node == node && row.decision.is_some(),
        Sought::ChangeOf { node, decision } => {
            row.node == node && is_changed(row.decision, decision)
        }
    }
}

/// Whether there is a decision, and it isn't this one.
fn is_other(found: Option<u32>, decision: u32) -> bool
    ensures { IsTrue result ↔ IsOtherThan decision found }
{
    match found {
        Some(found) => found != decision,
        None => false,
    }
}

/// Whether there is another decision than this one, or none.
fn is_changed(found: Option<u32>, decision: u32) -> bool
    ensures { IsTrue result ↔ found ≢ Some decision }
{
    match found {
        Some(found) => found != decision,
        None => true,
    }
}
