//! What the decisions of a report come to, and by which rows.
use crate::located::unwritten;
use answer_details::{write_split, write_taken_back};
use command_runs::Refusal;
use omission_explainer::{Decided, Report, decided};
use std::io::Write;

/// What the lines about rows begin with.
const OF_ROW: &str = "    ";

/// Writes the line that says what all decisions come to; then of different ones the first two rows
/// that differ, and else each node that took its decision back.
pub(crate) fn tell_decided<O: Write>(
    report: &Report,
    nodes: u32,
    out: &mut O,
) -> Result<(), Refusal> {
    let all = decided(report);
    writeln!(out, "decided {all}").map_err(unwritten)?;
    let rows = report.rows.as_slice();
    match all {
        Decided::None => Ok(()),
        Decided::One(_) => write_taken_back(OF_ROW, rows, nodes, out).map_err(unwritten),
        Decided::Split => write_split(OF_ROW, rows, out).map_err(unwritten),
    }
}
