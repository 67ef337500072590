//! What changed in a state.
use omission_explainer::ReportRow;
use run_events::NoMemory;
use run_picture::Rows;
use std::alloc::Global;

/// A variable and its value, as the report's text has them.
#[derive(Clone, Copy)]
pub(crate) struct Entry<'a> {
    pub name: &'a str,
    pub value: &'a str,
}

/// The variables that have another value after a row's round than before it. After round 1 these
/// are all: the report has no state before it.
pub(crate) fn changed_entries<'a>(
    alloc: Global,
    rows: &Rows<'a>,
    row: &ReportRow,
) -> Result<Vec<Entry<'a>>, NoMemory> {
    let mut changed = Vec::new(alloc);
    let Some(line) = rows.line(row.node, row.round) else {
        return Ok(changed);
    };
    let before = match rows.line(row.node, row.round.saturating_sub(1)) {
        Some(line) => state_in(line),
        None => "",
    };
    let mut old_words = before.split(' ');
    for word in state_in(line).split(' ') {
        if old_words.next() != Some(word) {
            if let Some((name, value)) = word.split_once('=') {
                changed.push(Entry { name, value })?;
            }
        }
    }
    Ok(changed)
}

/// The part of a report's line between the word `state` and the decision.
fn state_in(line: &str) -> &str {
    match line.split_once(" state ") {
        Some((_, behind)) => match behind.split_once(" decision ") {
            Some((state, _)) => state,
            None => behind,
        },
        None => "",
    }
}
