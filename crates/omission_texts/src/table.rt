//! The table of the messages that lines omit.
ghost use Rattle.std.specs.Prelude.{◌≡◌, ◌≤◌, IfOk, OnOk};
ghost use Rattle.run_events.specs.Limits.{max_rounds};
ghost use Rattle.omission_texts.specs.Meaning.{IsTableOf};
ghost use Rattle.omission_texts.specs.Tables as spec;
ghost use Rattle.omission_texts.specs.Tables.{Adds, of_line};
ghost use Rattle.omission_texts.specs.declared.line.OmissionLine.TheVariants as said;

use crate::blocks::{add_block, inside, outside};
use crate::line::{OmissionLine, RoundRange};
use crate::nodes::NodeList;
use round_meaning::{OmissionTable, Setup};
use run_events::NoMemory;
use std::alloc::Global;

/// The table of the messages of the run that the lines omit.
pub(crate) fn table_of(
    alloc: Global,
    setup: &Setup,
    lines: &[OmissionLine],
) -> Result<OmissionTable, NoMemory>
    requires { setup.now.rounds ≤ max_rounds }
    ensures { IfOk result (IsTableOf setup.now lines.now) }
{
    let mut table = OmissionTable::new(alloc);
    for line in lines {
        add_line(alloc, &mut table, setup, line)?;
    }
    Ok(table)
}

fn add_line(
    alloc: Global,
    table: &mut OmissionTable,
    setup: &Setup,
    line: &OmissionLine,
) -> Result<(), NoMemory>
    requires { setup.now.rounds ≤ max_rounds }
    ensures { OnOk result (Adds (of_line setup.now line.now) table.old table.new) }
{
    match line {
        OmissionLine::Omit {
            receiver,
            rounds,
            sender,
        } => add_omit(table, setup, *receiver, *rounds, *sender),
        OmissionLine::Cut { nodes, rounds } => add_cut(alloc, table, setup, nodes, *rounds),
        OmissionLine::Crash {
            node,
            round,
            reached,
        } => add_crash(alloc, table, setup, *node, *round, reached),
    }
}

fn add_omit(
    table: &mut OmissionTable,
    setup: &Setup,
    receiver: u32,
    rounds: RoundRange,
    sender: u32,
) -> Result<(), NoMemory>
    requires { setup.now.rounds ≤ max_rounds }
    ensures { OnOk result
        (Adds (of_line setup.now (said.Omit receiver rounds sender)) table.old table.new) }
{
    if setup.nodes <= receiver || setup.nodes <= sender {
        return Ok(());
    }
    add_block(table, &[receiver], of_run(setup, rounds), &[sender])
}

fn add_cut(
    alloc: Global,
    table: &mut OmissionTable,
    setup: &Setup,
    list: &NodeList,
    rounds: RoundRange,
) -> Result<(), NoMemory>
    requires { setup.now.rounds ≤ max_rounds }
    ensures { OnOk result
        (Adds (of_line setup.now (said.Cut list.now rounds)) table.old table.new) }
{
    let inner = inside(alloc, setup.nodes, list)?;
    let outer = outside(alloc, setup.nodes, list)?;
    let rounds = of_run(setup, rounds);
    add_block(table, inner.as_slice(), rounds, outer.as_slice())?;
    add_block(table, outer.as_slice(), rounds, inner.as_slice())
}

fn add_crash(
    alloc: Global,
    table: &mut OmissionTable,
    setup: &Setup,
    node: u32,
    round: u32,
    reached: &NodeList,
) -> Result<(), NoMemory>
    requires { setup.now.rounds ≤ max_rounds }
    ensures { OnOk result
        (Adds (of_line setup.now (said.Crash node round reached.now)) table.old table.new) }
{
    if setup.nodes <= node || setup.rounds < round {
        return Ok(());
    }
    let missed = outside(alloc, setup.nodes, reached)?;
    add_block(table, missed.as_slice(), rounds_from(setup, round), &[node])?;
    let reached = inside(alloc, setup.nodes, reached)?;
    add_block(
        table,
        reached.as_slice(),
        rounds_from(setup, round + 1),
        &[node],
    )
}

/// The rounds of the run from this one on.
fn rounds_from(setup: &Setup, first: u32) -> RoundRange
    ensures { result
        ≡ spec.of_run setup.now (record { first = first; last = setup.now.rounds }) }
{
    let last = setup.rounds;
    of_run(setup, RoundRange { first, last })
}

/// The rounds of the run among these.
fn of_run(setup: &Setup, rounds: RoundRange) -> RoundRange
    ensures { result ≡ spec.of_run setup.now rounds }
{
    RoundRange {
        first: rounds.first.max(1),
        last: rounds.last.min(setup.rounds),
    }
}
