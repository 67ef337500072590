//! The run in which a property fails, as data.
ghost use Rattle.std.specs.Prelude.{◌≡◌};
ghost use Rattle.exploration_texts.specs.Stops.{IsShowable};
ghost use Rattle.round_meaning.specs.Setups.{IsSetup};

use crate::failing_run::SearchedRuns;
use crate::missed::{Missed, missed_messages};
use crate::text::{full, text_of};
use adversary::RunFault;
use omission_explainer::Report;
use round_explorer::{Counterexample, Failure};
use round_meaning::NodeSet;
use run_data::write_report_data;
use run_events::{MAX_NODES, NoMemory};
use slot_plans::Plan;
use std::alloc::Global;
use std::io;
use std::io::Write;
use std::str::from_utf8;

impl<P: Plan> SearchedRuns<'_, P> {
    /// The run in which a property fails, as an object of JSON: the inputs; the nodes that crash up
    /// to its last round, and those that may omit what they send; the messages that are missed; and
    /// the rows of its report, as `run --format json` has them.
    pub fn failing_data(&self, alloc: Global, found: &Counterexample) -> Result<String, NoMemory>
        requires plan { P.nodes self.now.plan ≡ self.now.setup.now.nodes }
        requires setup { IsSetup self.now.setup.now }
        requires showable { IsShowable self.now.setup.now found.now }
    {
        let mut text = Vec::new(alloc);
        let missed = missed_messages(alloc, found, self.setup.nodes)?;
        write_causes(found, missed.as_slice(), &mut text).map_err(full)?;
        match self.report_of(alloc, found) {
            Ok(report) => write_rows(alloc, &report, &mut text)?,
            Err(RunFault::NoMemory) => return Err(NoMemory),
            // (no setup that is searched is unlawful)
            Err(_) => {}
        }
        write!(text, "]}}").map_err(full)?;
        Ok(text_of(alloc, text))
    }
}

/// Writes the object up to the first row.
fn write_causes<W: Write>(
    found: &Counterexample,
    missed: &[Missed],
    out: &mut W,
) -> io::Result<()> {
    write!(out, "{{\"inputs\":")?;
    write_numbers(found.inputs.as_slice(), out)?;
    write_failures(&found.failures, found.round, out)?;
    write!(out, ",\"missed\":[")?;
    let mut comma = "";
    for one in missed {
        let (round, node) = (one.round, one.node);
        write!(
            out,
            "{comma}{{\"round\":{round},\"node\":{node},\"senders\":"
        )?;
        write_nodes(one.senders, out)?;
        write!(out, "}}")?;
        comma = ",";
    }
    write!(out, "],\"rows\":[")
}

fn write_numbers<W: Write>(numbers: &[u32], out: &mut W) -> io::Result<()> {
    let mut comma = "";
    write!(out, "[")?;
    for number in numbers {
        write!(out, "{comma}{number}")?;
        comma = ",";
    }
    write!(out, "]")
}

fn write_nodes<W: Write>(nodes: NodeSet, out: &mut W) -> io::Result<()> {
    let mut comma = "";
    write!(out, "[")?;
    for node in 0..MAX_NODES {
        if nodes.contains(node) {
            write!(out, "{comma}{node}")?;
            comma = ",";
        }
    }
    write!(out, "]")
}

/// Writes the nodes that crash in a round up to the last one, and those that may omit what they
/// send.
fn write_failures<W: Write>(failures: &[Failure], last: u32, out: &mut W) -> io::Result<()> {
    let mut comma = "";
    write!(out, ",\"crashes\":[")?;
    for (node, failure) in failures.iter().enumerate() {
        match failure {
            Failure::Crashes(round) if *round <= last => {
                write!(out, "{comma}{{\"node\":{node},\"round\":{round}}}")?;
                comma = ",";
            }
            _ => {}
        }
    }
    write!(out, "],\"omitting\":[")?;
    comma = "";
    for (node, failure) in failures.iter().enumerate() {
        if matches!(failure, Failure::Omits) {
            write!(out, "{comma}{node}")?;
            comma = ",";
        }
    }
    write!(out, "]")
}

/// Writes the rows of a report, with commas between them.
fn write_rows(alloc: Global, report: &Report, out: &mut Vec<u8>) -> Result<(), NoMemory> {
    let mut printed = Vec::new(alloc);
    let Ok(()) = write_report_data(alloc, report, &mut printed) else {
        return Err(NoMemory);
    };
    let Ok(text) = from_utf8(printed.as_slice()) else {
        return Ok(());
    };
    let rows = text.lines().take(report.rows.as_slice().len());
    for (place, line) in rows.enumerate() {
        let comma = if place > 0 { "," } else { "" };
        write!(out, "{comma}{line}").map_err(full)?;
    }
    Ok(())
}
