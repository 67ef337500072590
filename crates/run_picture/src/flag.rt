//! The flags of decisions.
use crate::lane::Track;
use crate::rows::Rows;
use crate::view::View;
use omission_explainer::ReportRow;
use run_events::NoMemory;
use std::alloc::Global;
use std::fmt;

/// A decision that a node has first, changes or takes back with a round.
#[derive(Clone, Copy)]
pub struct DecisionChange {
    pub node: u32,
    pub round: u32,
    pub before: Option<u32>,
    pub value: Option<u32>,
}

impl DecisionChange {
    /// The change with the round of a row, if the decision after it is another than before.
    pub fn of(rows: &Rows<'_>, row: &ReportRow) -> Option<DecisionChange> {
        let before = decision_before(rows, row);
        if before == row.decision {
            return None;
        }
        Some(DecisionChange {
            node: row.node,
            round: row.round,
            before,
            value: row.decision,
        })
    }
}

/// A change of a decision, and where the round ends with which it comes.
#[derive(Clone, Copy)]
pub(crate) struct Flag {
    pub change: DecisionChange,
    pub at: u32,
}

/// The flags of the rounds that are drawn, by round and then by node.
pub(crate) fn flags(
    alloc: Global,
    rows: &Rows<'_>,
    tracks: &[Track],
    view: &View,
) -> Result<Vec<Flag>, NoMemory> {
    let mut flags = Vec::new(alloc);
    for row in rows.all() {
        if view.shows_node(row.node) && view.shows_round(row.round) {
            if let Some(flag) = flag_of(rows, tracks, row) {
                flags.push(flag)?;
            }
        }
    }
    Ok(flags)
}

/// The flag of a round, if the decision changes with it.
fn flag_of(rows: &Rows<'_>, tracks: &[Track], row: &ReportRow) -> Option<Flag> {
    let change = DecisionChange::of(rows, row)?;
    let band = tracks.get(row.node as usize)?.band(row.round)?;
    Some(Flag {
        change,
        at: band.last.at,
    })
}

/// The decision that the report has for the round before.
fn decision_before(rows: &Rows<'_>, row: &ReportRow) -> Option<u32> {
    let round = row.round.checked_sub(1)?;
    rows.of(row.node, round)?.decision
}

/// What its flag says.
impl fmt::Display for DecisionChange {
    fn fmt<W: fmt::Write>(&self, f: &mut fmt::Formatter<W>) -> fmt::Result {
        let DecisionChange { node, round, .. } = self;
        match (self.before, self.value) {
            (None, Some(value)) => write!(f, "node {node} decides {value} in round {round}"),
            (Some(before), Some(value)) => write!(
                f,
                "node {node}'s decision changes from {before} to {value} in round {round}"
            ),
            (Some(before), None) => {
                write!(
                    f,
                    "node {node} takes its decision {before} back in round {round}"
                )
            }
            (None, None) => write!(f, "node {node} has no decision in round {round}"),
        }
    }
}
