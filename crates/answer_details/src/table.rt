//! A run as a table.
use crate::text::full;
use omission_explainer::Report;
use run_data::{Grouping, TableOptions, write_table};
use run_events::NoMemory;
use std::alloc::Global;
use std::io::Write;
use std::str::from_utf8;

/// What is shown: all variables, in the rows that change a state or a decision.
const CHANGES: TableOptions<'static> = TableOptions {
    by: Grouping::Round,
    variables: None,
    changed_only: true,
};

/// How many rows are shown at most of the first ones, and as many of the last ones.
const MAX_SHOWN: usize = 100;

/// Writes the rows of a run that change a state or a decision, with one head line. Of more than 200
/// rows the first 100 and the last 100 are written, and how many are left out.
pub(crate) fn write_changes(
    alloc: Global,
    report: &Report,
    out: &mut Vec<u8>,
) -> Result<(), NoMemory> {
    let mut printed = Vec::new(alloc);
    let Ok(()) = write_table(alloc, report, &CHANGES, &mut printed) else {
        return Err(NoMemory);
    };
    let Ok(text) = from_utf8(printed.as_slice()) else {
        return Ok(());
    };
    let Some(head) = text.lines().next() else {
        return Ok(());
    };
    writeln!(out, "{head}").map_err(full)?;
    let count = text.lines().filter(|line| is_row(line, head)).count();
    let (first, last) = (MAX_SHOWN, count.saturating_sub(MAX_SHOWN));
    let rows = text.lines().filter(|line| is_row(line, head));
    for (place, line) in rows.enumerate() {
        if place < first || last <= place {
            writeln!(out, "{line}").map_err(full)?;
        } else if place == first {
            writeln!(out, "({} rows are left out)", last - first).map_err(full)?;
        }
    }
    Ok(())
}

/// Whether a line of a table is a row: the table has an empty line and its head line before each
/// round.
fn is_row(line: &str, head: &str) -> bool {
    !line.is_empty() && line != head
}
