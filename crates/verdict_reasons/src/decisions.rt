//! Which decisions of a report differ, and which are taken back.
ghost use Rattle.std.specs.Prelude.{MatchOption};
ghost use Rattle.omission_explainer.specs.Decided.{AreAgreed};
ghost use Rattle.verdict_reasons.specs.Decisions.{IsFirstSplit, IsFirstTakenBack, IsTakenBack};

use crate::sought::{Sought, first_row};
use omission_explainer::ReportRow;

/// Two rows of a report whose decisions differ, by their places in the list, from 0: the first row
/// that has a decision, and the first one that has another.
#[derive(Clone, Copy, PartialEq, Eq, Debug)]
pub struct Split {
    pub first: usize,
    pub other: usize,
}

/// Two rows of a node, by their places in the list, from 0: one with a decision, and the first one
/// behind it that has another decision or none.
#[derive(Clone, Copy, PartialEq, Eq, Debug)]
pub struct TakenBack {
    pub decided: usize,
    pub changed: usize,
}

/// The first two decisions of a report that differ; `None` if all its decisions are equal.
pub fn first_split(rows: &[ReportRow]) -> Option<Split>
    ensures { MatchOption result (AreAgreed rows.now) (IsFirstSplit rows.now) }
{
    let first = first_row(rows, 0, Sought::Decision)?;
    let row = rows.get(first)?;
    let decision = row.decision?;
    let other = first_row(rows, first, Sought::OtherThan(decision))?;
    Some(Split { first, other })
}

/// The first decision that a node takes back; `None` if it keeps each.
pub fn first_taken_back(rows: &[ReportRow], node: u32) -> Option<TakenBack>
    ensures { MatchOption result
        ((t : TakenBack) → ¬ IsTakenBack rows.now node t)
        (IsFirstTakenBack rows.now node) }
{
    let decided = first_row(rows, 0, Sought::DecisionOf(node))?;
    let row = rows.get(decided)?;
    let decision = row.decision?;
    let changed = first_row(rows, decided, Sought::ChangeOf { node, decision })?;
    Some(TakenBack { decided, changed })
}
