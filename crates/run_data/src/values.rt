//! The values of a state as data.
ghost use Rattle.std.specs.Prelude.{◌≡◌, ◌<◌, ◌++◌, OnOk, drop, length};
ghost use Rattle.std.specs.Fmt.{decimal};
ghost use Rattle.round_lang.specs.Values.{at};
ghost use Rattle.serde_json.specs.Written.{comma_if, compact_text};
ghost use Rattle.run_data.specs.Objects.{field_text, number_data};
ghost use Rattle.run_data.specs.ReportData.{entries_data, named_field, state_data, value_data};
ghost use Rattle.omission_explainer.specs.Report.{type_at};

use crate::line::Line;
use omission_explainer::Report;
use round_lang::Ty;
use std::alloc::AllocError;
use step_machine::{RowReader, StateReader, StoredState};

/// Appends a state as an object: its variables in the order of their declarations.
pub(crate) fn push_state(
    report: &Report,
    state: &StoredState,
    line: &mut Line,
) -> Result<(), AllocError>
    ensures { OnOk result
        (line.new ≡ line.old ++ compact_text (state_data report.now state.now)) }
{
    line.push(b'{')?;
    let mut left = state.reader();
    for place in 0..report.names.as_slice().len() {
        push_variable(report, place, place > 0, &mut left, line)?;
    }
    line.push(b'}')
}

/// Appends a variable's name and its value, the first one that is left, behind a comma if it's a
/// later one.
fn push_variable(
    report: &Report,
    place: usize,
    is_later: bool,
    left: &mut StateReader<'_>,
    line: &mut Line,
) -> Result<(), AllocError>
    requires { place < length report.now.names }
    ensures text { OnOk result (line.new ≡ line.old ++ (comma_if is_later
        ++ field_text (named_field report.now place (at left.old 0)))) }
    ensures left { OnOk result (left.new ≡ drop 1 left.old) }
{
    let names = report.names.as_slice();
    line.push_comma_if(is_later)?;
    line.push_name(&names[place])?;
    let ty = type_at(report.types.as_slice(), place);
    push_value(report.values, ty, left, line)
}

/// The type of the variable at a place, num if there is none.
fn type_at(types: &[Ty], place: usize) -> Ty
    ensures { result ≡ type_at types.now place }
{
    match types.get(place) {
        Some(ty) => *ty,
        None => Ty::Num,
    }
}

/// Appends the first value that is left.
fn push_value(
    values: u32,
    ty: Ty,
    left: &mut StateReader<'_>,
    line: &mut Line,
) -> Result<(), AllocError>
    ensures text { OnOk result
        (line.new ≡ line.old ++ compact_text (value_data values ty (at left.old 0))) }
    ensures left { left.new ≡ drop 1 left.old }
{
    match ty {
        Ty::Num => line.push_number(u64::from(left.next_num())),
        Ty::Bool => line.push_flag(left.next_flag()),
        Ty::Set => line.push_set(left.next_set()),
        Ty::Row => push_entries(values, &mut left.next_row(), line),
    }
}

/// Appends a row's entries other than 0 as an object, by their values.
fn push_entries(values: u32, left: &mut RowReader<'_>, line: &mut Line) -> Result<(), AllocError>
    ensures { OnOk result
        (line.new ≡ line.old ++ compact_text (entries_data values left.old)) }
{
    line.push(b'{')?;
    let mut is_later = false;
    for value in 0..values {
        let entry = left.next_entry();
        if entry != 0 {
            push_entry(is_later, value, entry, line)?;
            is_later = true;
        }
    }
    line.push(b'}')
}

/// Appends an entry, behind a comma if it's a later one.
fn push_entry(is_later: bool, value: u32, entry: u64, line: &mut Line) -> Result<(), AllocError>
    ensures { OnOk result (line.new ≡ line.old ++ (comma_if is_later
        ++ field_text (decimal value, number_data entry))) }
{
    line.push_comma_if(is_later)?;
    line.push_number_name(u64::from(value))?;
    line.push_number(entry)
}
