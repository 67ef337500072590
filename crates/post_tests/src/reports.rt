//! What is told of a run: its report, and how its nodes ended.
use node_threads::Ended;
use omission_explainer::{explain, write_report};
use slot_plans::Plan;
use std::alloc::Global;
use step_journal::Journal;
use test_kit::Fault;

/// The report of a journal.
pub fn report<P: Plan>(alloc: Global, journal: &Journal<P>) -> Result<String, Fault> {
    let mut bytes = Vec::new(alloc);
    write_report(&explain(alloc, journal)?, &mut bytes)?;
    String::from_utf8(bytes).map_err(|_| Fault::Unreadable)
}

/// How a node ended.
pub fn end_text(end: Ended) -> &'static str {
    match end {
        Ended::Done => "done",
        Ended::Stopped => "stopped",
        Ended::NoMemory => "no memory",
    }
}
