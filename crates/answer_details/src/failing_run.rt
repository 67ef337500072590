//! The run in which a property fails, in words and as a table.
ghost use Rattle.std.specs.Prelude.{◌≡◌, ◌⊎◌, IfErr, IfOk};
ghost use Rattle.adversary.specs.declared.fault.RunFault.TheVariants as run;
ghost use Rattle.answer_details.specs.Reports.{ReportsFailure};
ghost use Rattle.exploration_texts.specs.Stops.{IsShowable};
ghost use Rattle.round_meaning.specs.Setups.{IsSetup};

use crate::decisions::{write_split, write_taken_back};
use crate::missed::{Missed, missed_messages};
use crate::table::write_changes;
use crate::text::{full, text_of};
use adversary::RunFault;
use exploration_texts::stops_of;
use omission_explainer::{Report, ReportRow, write_report};
use omission_schedules::rounds_report;
use part_answers::Property;
use round_check::Checked;
use round_explorer::{Counterexample, Failure};
use round_meaning::{NodeSet, Setup};
use run_events::{MAX_NODES, NoMemory};
use slot_plans::Plan;
use std::alloc::Global;
use std::io::Write;
use std::str::from_utf8;
use std::{fmt, io};

/// How many lines of missed messages are written at most.
const MAX_LISTED: usize = 100;

/// A program, a setup and a plan, of whose runs a search found something.
#[derive(Clone, Copy)]
pub struct SearchedRuns<'a, P: Plan> {
    pub program: &'a Checked,
    pub setup: &'a Setup,
    pub plan: P,
}

impl<P: Plan> SearchedRuns<'_, P> {
    /// The run in which a property fails, a line for each of these: the inputs; each node that
    /// fails; who misses whose message in which round; and the decisions or states that show the
    /// failure. Then the run's table, with the rows that change a state or a decision.
    pub fn failing_run(
        &self,
        alloc: Global,
        name: Property,
        found: &Counterexample,
    ) -> Result<String, NoMemory>
        requires plan { P.nodes self.now.plan ≡ self.now.setup.now.nodes }
        requires setup { IsSetup self.now.setup.now }
        requires showable { IsShowable self.now.setup.now found.now }
    {
        let mut text = Vec::new(alloc);
        write_inputs(found.inputs.as_slice(), &mut text).map_err(full)?;
        write_failing(&found.failures, found.round, &mut text).map_err(full)?;
        let missed = missed_messages(alloc, found, self.setup.nodes)?;
        write_missed(found, missed.as_slice(), &mut text).map_err(full)?;
        match self.report_of(alloc, found) {
            Ok(report) => {
                self.write_outcome(alloc, name, found, &report, &mut text)?;
                write_changes(alloc, &report, &mut text)?;
            }
            Err(RunFault::NoMemory) => return Err(NoMemory),
            // (no setup that is searched is unlawful)
            Err(_) => {}
        }
        Ok(text_of(alloc, text))
    }

    /// The report of the run in rounds, up to the round in which the property fails.
    pub fn report_of(&self, alloc: Global, found: &Counterexample) -> Result<Report, RunFault>
        requires plan { P.nodes self.now.plan ≡ self.now.setup.now.nodes }
        requires setup { IsSetup self.now.setup.now }
        requires showable { IsShowable self.now.setup.now found.now }
        ensures shown { IfOk result (ReportsFailure (P.start self.now.plan) self.now.program.now
            self.now.setup.now found.now) }
        ensures cause { IfErr result (λ fault. (fault ≡ run.NoMemory) ⊎ (fault ≡ run.BadSetup)) }
    {
        let setup = Setup {
            nodes: self.setup.nodes,
            faults: self.setup.faults,
            inputs: found.inputs.copy()?,
            rounds: found.round,
        };
        let stops = stops_of(alloc, &setup, &found.failures, self.plan)?;
        rounds_report(
            alloc,
            self.program,
            &setup,
            self.plan,
            &found.omissions,
            &stops,
        )
    }

    /// Writes what shows in the report of the run that the property fails.
    fn write_outcome(
        &self,
        alloc: Global,
        name: Property,
        found: &Counterexample,
        report: &Report,
        out: &mut Vec<u8>,
    ) -> Result<(), NoMemory> {
        let rows = report.rows.as_slice();
        match name {
            Property::Agreement => write_split("", rows, out).map_err(full),
            Property::Validity => write_invalid(rows, found.inputs.as_slice(), out).map_err(full),
            Property::Final => write_taken_back("", rows, self.setup.nodes, out).map_err(full),
            Property::Termination => write_undecided(rows, found, out).map_err(full),
            Property::Always => write_last_rows(alloc, report, found.round, out),
        }
    }
}

/// Writes the nodes' inputs.
fn write_inputs<W: Write>(inputs: &[u32], out: &mut W) -> io::Result<()> {
    write!(out, "inputs")?;
    for input in inputs {
        write!(out, " {input}")?;
    }
    writeln!(out, "")
}

/// Writes which nodes fail in the rounds up to a last one.
fn write_failing<W: Write>(failures: &[Failure], last: u32, out: &mut W) -> io::Result<()> {
    for (node, failure) in failures.iter().enumerate() {
        match failure {
            Failure::Crashes(round) if *round <= last => {
                writeln!(out, "node {node} crashes in round {round}")?;
            }
            Failure::Omits => writeln!(out, "node {node} may omit what it sends")?,
            _ => {}
        }
    }
    Ok(())
}

/// Writes who misses whom in which round.
fn write_missed<W: Write>(
    found: &Counterexample,
    missed: &[Missed],
    out: &mut W,
) -> io::Result<()> {
    for (place, one) in missed.iter().enumerate() {
        if place >= MAX_LISTED {
            return writeln!(out, "and more messages are missed");
        }
        let Missed {
            round,
            node,
            senders,
        } = *one;
        writeln!(
            out,
            "node {node} misses {} in round {round}",
            Senders(senders)
        )?;
    }
    if !missed.is_empty() {
        return Ok(());
    }
    if has_any_crashed(found) {
        return writeln!(out, "no other message is missed");
    }
    writeln!(out, "no message is missed")
}

/// Whether a node crashes up to the round in which the property fails.
fn has_any_crashed(found: &Counterexample) -> bool {
    found.failures.iter().any(|failure| match failure {
        Failure::Crashes(round) => *round <= found.round,
        _ => false,
    })
}

/// Writes the first decision that is no node's input.
fn write_invalid<W: Write>(rows: &[ReportRow], inputs: &[u32], out: &mut W) -> io::Result<()> {
    for row in rows {
        let Some(value) = row.decision else {
            continue;
        };
        if !inputs.contains(&value) {
            let (node, round) = (row.node, row.round);
            return writeln!(
                out,
                "node {node} decided {value} in round {round}, which is no node's input"
            );
        }
    }
    Ok(())
}

/// Writes each node that doesn't fail and has no decision after the last round.
fn write_undecided<W: Write>(
    rows: &[ReportRow],
    found: &Counterexample,
    out: &mut W,
) -> io::Result<()> {
    for row in rows {
        let fails = match found.failures.get(row.node as usize) {
            Some(Failure::Never) | None => false,
            Some(_) => true,
        };
        if row.round == found.round && row.decision.is_none() && !fails {
            let (node, round) = (row.node, row.round);
            writeln!(out, "node {node} has no decision after round {round}")?;
        }
    }
    Ok(())
}

/// Writes the rows of the round after which an invariant is false of a node, as a report has them.
fn write_last_rows(
    alloc: Global,
    report: &Report,
    round: u32,
    out: &mut Vec<u8>,
) -> Result<(), NoMemory> {
    let mut printed = Vec::new(alloc);
    let Ok(()) = write_report(report, &mut printed) else {
        return Err(NoMemory);
    };
    let Ok(text) = from_utf8(printed.as_slice()) else {
        return Ok(());
    };
    for (row, line) in report.rows.as_slice().iter().zip(text.lines()) {
        if row.round == round {
            writeln!(out, "{line}").map_err(full)?;
        }
    }
    Ok(())
}

/// The nodes of a set, as senders.
#[derive(Clone, Copy)]
struct Senders(NodeSet);

impl fmt::Display for Senders {
    fn fmt<W: fmt::Write>(&self, f: &mut fmt::Formatter<W>) -> fmt::Result {
        let mut is_first = true;
        for node in 0..MAX_NODES {
            if !self.0.contains(node) {
                continue;
            }
            if is_first {
                write!(f, "node {node}")?;
            } else {
                write!(f, " and node {node}")?;
            }
            is_first = false;
        }
        Ok(())
    }
}
