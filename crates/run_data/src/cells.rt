//! The values of a row as the cells of a table, in the form that a report's text has.

use crate::line::Line;
use omission_explainer::{Report, ReportRow};
use round_lang::{Ty, ValueSet};
use round_meaning::NodeSet;
use std::alloc::AllocError;
use step_machine::{RowReader, StoredState};

/// A set of nodes: its members in rising order with commas, or `-`.
pub(crate) fn push_nodes(nodes: NodeSet, line: &mut Line) -> Result<(), AllocError> {
    if nodes.bits == 0 {
        return line.push(b'-');
    }
    push_members(ValueSet { bits: nodes.bits }, line)
}

/// The variable at a place, in the form of its type.
pub(crate) fn push_variable(
    report: &Report,
    row: &ReportRow,
    place: usize,
    line: &mut Line,
) -> Result<(), AllocError> {
    let ty = report
        .types
        .as_slice()
        .get(place)
        .copied()
        .unwrap_or(Ty::Num);
    push_value(report.values, ty, &row.state, place, line)
}

fn push_value(
    values: u32,
    ty: Ty,
    state: &StoredState,
    place: usize,
    line: &mut Line,
) -> Result<(), AllocError> {
    let mut left = state.reader();
    for _ in 0..place {
        // A value of any type is passed by.
        let _ = left.next_num();
    }
    match ty {
        Ty::Num => line.push_number(u64::from(left.next_num())),
        Ty::Bool => line.push_flag(left.next_flag()),
        Ty::Set => push_set(left.next_set(), line),
        Ty::Row => push_entries(values, &mut left.next_row(), line),
    }
}

/// A set of values in braces.
fn push_set(set: ValueSet, line: &mut Line) -> Result<(), AllocError> {
    line.push(b'{')?;
    push_members(set, line)?;
    line.push(b'}')
}

/// The members in rising order with commas.
fn push_members(set: ValueSet, line: &mut Line) -> Result<(), AllocError> {
    let mut is_later = false;
    for value in 0..64 {
        if set.has(64, value) {
            line.push_item(is_later, value)?;
            is_later = true;
        }
    }
    Ok(())
}

/// A row's entries other than 0, as `[1:2,3:1]`.
fn push_entries(values: u32, left: &mut RowReader<'_>, line: &mut Line) -> Result<(), AllocError> {
    line.push(b'[')?;
    let mut is_later = false;
    for value in 0..values {
        let entry = left.next_entry();
        if entry != 0 {
            line.push_item(is_later, value)?;
            line.push_labelled(b":", entry)?;
            is_later = true;
        }
    }
    line.push(b']')
}
