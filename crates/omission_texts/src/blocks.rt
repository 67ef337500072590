//! Blocks of messages in a table.
ghost use Rattle.std.specs.Prelude.{◌≡◌, ◌+◌, ◌^◌, ◌<◌, ◌&&◌, ◌==◌, not, filter, IfOk, OnOk};
ghost use Rattle.std.specs.List.{range_with_len};
ghost use Rattle.omission_texts.specs.Meaning.{has_node, has_round};
ghost use Rattle.omission_texts.specs.Tables.{Adds, block};

use crate::line::RoundRange;
use crate::nodes::NodeList;
use round_meaning::OmissionTable;
use run_events::NoMemory;
use std::alloc::Global;

/// Adds the messages of these rounds from these senders to these receivers.
pub(crate) fn add_block(
    table: &mut OmissionTable,
    receivers: &[u32],
    rounds: RoundRange,
    senders: &[u32],
) -> Result<(), NoMemory>
    requires { rounds.last + 1 < 2 ^ 32 }
    ensures { OnOk result (Adds (block receivers.now rounds senders.now) table.old table.new) }
{
    for sender in senders {
        add_sender(table, receivers, rounds, *sender)?;
    }
    Ok(())
}

/// The same from one sender.
fn add_sender(
    table: &mut OmissionTable,
    receivers: &[u32],
    rounds: RoundRange,
    sender: u32,
) -> Result<(), NoMemory>
    requires { rounds.last + 1 < 2 ^ 32 }
    ensures { OnOk result
        (Adds (λ i r j. has_node receivers.now i && (has_round rounds r && sender == j))
        table.old table.new) }
{
    for round in rounds.first..rounds.last + 1 {
        add_round(table, receivers, round, sender)?;
    }
    Ok(())
}

/// The same of one round.
fn add_round(
    table: &mut OmissionTable,
    receivers: &[u32],
    round: u32,
    sender: u32,
) -> Result<(), NoMemory>
    ensures { OnOk result
        (Adds (λ i r j. has_node receivers.now i && (round == r && sender == j))
        table.old table.new) }
{
    for receiver in receivers {
        table.insert(*receiver, round, sender)?;
    }
    Ok(())
}

/// The nodes below a number that are in the list.
pub(crate) fn inside(alloc: Global, nodes: u32, list: &NodeList) -> Result<Vec<u32>, NoMemory>
    ensures { IfOk result
        (λ v. v.items ≡ filter (has_node list.now) (range_with_len 0 nodes)) }
{
    Ok(
        (0..nodes)
            .filter(|node| list.contains(*node))
            .collect(alloc)?,
    )
}

/// The nodes below a number that aren't in the list.
pub(crate) fn outside(alloc: Global, nodes: u32, list: &NodeList) -> Result<Vec<u32>, NoMemory>
    ensures { IfOk result
        (λ v. v.items ≡ filter (λ i. not (has_node list.now i)) (range_with_len 0 nodes)) }
{
    Ok(
        (0..nodes)
            .filter(|node| !list.contains(*node))
            .collect(alloc)?,
    )
}
