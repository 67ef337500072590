//! What a report comes to.

use crate::fault::DataFault;
use crate::table::Table;
use omission_explainer::{Report, ReportRow};
use round_lang::ValueSet;
use round_meaning::NodeSet;
use std::alloc::Global;
use std::io;
use std::io::Write;

/// Writes what a report comes to, as two tables of aligned columns with an empty line between.
///
/// The first has a line for each node: its steps, its closed rounds, and the round and the value of
/// its first decision, or `-` if it hasn't decided. The second has a line for each round that some
/// node has closed: how many messages are heard, silent and omitted in the rows of that round. It's
/// left out if there are no rows. If memory runs out or the writer fails, the writer has a
/// beginning of the text.
pub fn write_summary<W: Write>(
    alloc: Global,
    report: &Report,
    out: &mut W,
) -> Result<(), DataFault> {
    let mut nodes = Table::new(alloc);
    write_nodes(report, &mut nodes, &mut io::sink())?;
    write_nodes(report, &mut nodes, out)?;
    if report.rows.as_slice().is_empty() {
        return Ok(());
    }
    out.write_all(b"\n")?;
    let mut rounds = Table::new(alloc);
    write_rounds(report, &mut rounds, &mut io::sink())?;
    write_rounds(report, &mut rounds, out)
}

fn write_nodes<W: Write>(report: &Report, table: &mut Table, out: &mut W) -> Result<(), DataFault> {
    table.begin_row();
    for head in ["node", "steps", "rounds", "decided", "decision"] {
        table.push_cell(head.as_bytes())?;
    }
    table.write_row(out)?;
    for (node, (steps, rounds)) in report.counts.as_slice().iter().enumerate() {
        table.begin_row();
        table.push_number(node as u64)?;
        table.push_number(*steps)?;
        table.push_number(*rounds)?;
        let decided = first_decision(report.rows.as_slice(), node);
        table.push_number_or_none(decided.map(|(round, _)| round))?;
        table.push_number_or_none(decided.map(|(_, value)| value))?;
        table.write_row(out)?;
    }
    Ok(())
}

/// The round and the value of a node's first decision.
fn first_decision(rows: &[ReportRow], node: usize) -> Option<(u32, u32)> {
    for row in rows {
        if row.node as usize == node
            && let Some(value) = row.decision
        {
            return Some((row.round, value));
        }
    }
    None
}

/// How many messages are heard, silent and omitted in the rows of a round.
#[derive(Clone, Copy)]
struct RoundTotals {
    round: u32,
    heard: u64,
    silent: u64,
    omitted: u64,
}

impl RoundTotals {
    fn of_round(round: u32) -> RoundTotals {
        RoundTotals {
            round,
            heard: 0,
            silent: 0,
            omitted: 0,
        }
    }

    /// The same with a row more.
    fn with(self, row: &ReportRow) -> RoundTotals {
        RoundTotals {
            round: self.round,
            heard: self.heard.saturating_add(size(row.heard)),
            silent: self.silent.saturating_add(size(row.silent)),
            omitted: self.omitted.saturating_add(size(row.omitted)),
        }
    }

    fn write<W: Write>(&self, table: &mut Table, out: &mut W) -> Result<(), DataFault> {
        table.begin_row();
        table.push_number(u64::from(self.round))?;
        table.push_number(self.heard)?;
        table.push_number(self.silent)?;
        table.push_number(self.omitted)?;
        table.write_row(out)
    }
}

fn size(nodes: NodeSet) -> u64 {
    u64::from(ValueSet { bits: nodes.bits }.size())
}

/// The rows of a round stand one behind the other.
fn write_rounds<W: Write>(
    report: &Report,
    table: &mut Table,
    out: &mut W,
) -> Result<(), DataFault> {
    table.begin_row();
    for head in ["round", "heard", "silent", "omitted"] {
        table.push_cell(head.as_bytes())?;
    }
    table.write_row(out)?;
    let rows = report.rows.as_slice();
    let Some(first) = rows.first() else {
        return Ok(());
    };
    let mut totals = RoundTotals::of_round(first.round);
    for row in rows {
        if row.round != totals.round {
            totals.write(table, out)?;
            totals = RoundTotals::of_round(row.round);
        }
        totals = totals.with(row);
    }
    totals.write(table, out)
}
