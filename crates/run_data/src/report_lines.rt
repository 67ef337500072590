//! The lines of a report as data.
ghost use Rattle.std.specs.Prelude.{◌≡◌, ◌++◌, OnOk, codes};
ghost use Rattle.serde_json.specs.Written.{compact_text};
ghost use Rattle.run_data.specs.ReportData.{count_object, decision_data, row_object};

use crate::line::Line;
use crate::values::push_state;
use omission_explainer::{Report, ReportRow};
use round_lang::ValueSet;
use round_meaning::NodeSet;
use std::alloc::AllocError;

/// Appends a closed round of a node as an object.
pub(crate) fn push_row(report: &Report, row: &ReportRow, line: &mut Line) -> Result<(), AllocError>
    ensures { OnOk result
        (line.new ≡ line.old ++ compact_text (row_object report.now row.now)) }
{
    line.push_labelled(b"{\"round\":", u64::from(row.round))?;
    line.push_labelled(b",\"node\":", u64::from(row.node))?;
    line.push_labelled_set(b",\"heard\":", set_of(row.heard))?;
    line.push_labelled_set(b",\"silent\":", set_of(row.silent))?;
    line.push_labelled_set(b",\"omitted\":", set_of(row.omitted))?;
    line.push_all(b",\"state\":")?;
    push_state(report, &row.state, line)?;
    push_decision(row.decision, line)?;
    line.push(b'}')
}

/// A set of nodes as one of values.
fn set_of(nodes: NodeSet) -> ValueSet
    ensures { result.bits ≡ nodes.bits }
{
    ValueSet { bits: nodes.bits }
}

/// Appends the decision, or null.
fn push_decision(decision: Option<u32>, line: &mut Line) -> Result<(), AllocError>
    ensures { OnOk result (line.new ≡ line.old
        ++ (codes ",\"decision\":" ++ compact_text (decision_data decision))) }
{
    match decision {
        Some(value) => line.push_labelled(b",\"decision\":", u64::from(value)),
        None => line.push_all(b",\"decision\":null"),
    }
}

/// Appends a node's steps and closed rounds as an object.
pub(crate) fn push_count(node: u64, count: (u64, u64), line: &mut Line) -> Result<(), AllocError>
    ensures { OnOk result (line.new ≡ line.old ++ compact_text (count_object node count)) }
{
    let (steps, rounds) = count;
    line.push_labelled(b"{\"node\":", node)?;
    line.push_labelled(b",\"steps\":", steps)?;
    line.push_labelled(b",\"rounds\":", rounds)?;
    line.push(b'}')
}
