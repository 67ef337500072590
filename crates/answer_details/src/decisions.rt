//! The rows of a report that show that decisions differ, or that one is taken back.
use omission_explainer::ReportRow;
use std::io;
use std::io::Write;
use verdict_reasons::{first_split, first_taken_back};

/// A decision of a node in a round.
#[derive(Clone, Copy)]
struct Decision {
    node: u32,
    round: u32,
    value: u32,
}

/// Writes the first two rows whose decisions differ, after `mark`; nothing if all are equal.
pub fn write_split<W: Write>(mark: &str, rows: &[ReportRow], out: &mut W) -> io::Result<()> {
    let Some(split) = first_split(rows) else {
        return Ok(());
    };
    let decisions = (
        decision_at(rows, split.first),
        decision_at(rows, split.other),
    );
    match decisions {
        (Some(first), Some(other)) => writeln!(
            out,
            "{mark}node {} decided {} in round {}, and node {} decided {} in round {}",
            first.node, first.value, first.round, other.node, other.value, other.round
        ),
        _ => Ok(()),
    }
}

/// Writes a line for each of the nodes 0 to `nodes` - 1 that takes a decision back, after `mark`.
pub fn write_taken_back<W: Write>(
    mark: &str,
    rows: &[ReportRow],
    nodes: u32,
    out: &mut W,
) -> io::Result<()> {
    for node in 0..nodes {
        let Some(found) = first_taken_back(rows, node) else {
            continue;
        };
        let changed = rows.get(found.changed);
        if let (Some(had), Some(lost)) = (decision_at(rows, found.decided), changed) {
            writeln!(
                out,
                "{mark}node {node} decided {} in round {}, and took that back in round {}",
                had.value, had.round, lost.round
            )?;
        }
    }
    Ok(())
}

/// The decision of the row at a place, if it has one.
fn decision_at(rows: &[ReportRow], place: usize) -> Option<Decision> {
    let row = rows.get(place)?;
    Some(Decision {
        node: row.node,
        round: row.round,
        value: row.decision?,
    })
}
