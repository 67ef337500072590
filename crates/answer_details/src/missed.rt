//! Who misses whose message in a run that a search found.
use round_explorer::{Counterexample, Failure};
use round_meaning::NodeSet;
use run_events::NoMemory;
use std::alloc::Global;

/// The nodes whose messages of a round a node misses, one at least.
#[derive(Clone, Copy)]
pub(crate) struct Missed {
    pub round: u32,
    pub node: u32,
    pub senders: NodeSet,
}

/// All messages that are missed up to the round in which the property fails, by round and then by
/// the node that misses them.
pub(crate) fn missed_messages(
    alloc: Global,
    found: &Counterexample,
    nodes: u32,
) -> Result<Vec<Missed>, NoMemory> {
    let mut all = Vec::new(alloc);
    for before in 0..found.round {
        let round = before + 1;
        for node in 0..nodes {
            let senders = missed_by(found, nodes, node, round);
            if senders != NodeSet::empty() {
                all.push(Missed {
                    round,
                    node,
                    senders,
                })?;
            }
        }
    }
    Ok(all)
}

/// Whose messages of a round a node misses. The silence of nodes that crashed before isn't listed,
/// nor what a node misses that has crashed itself or crashes in the round.
fn missed_by(found: &Counterexample, nodes: u32, node: u32, round: u32) -> NodeSet {
    let mut missed = NodeSet::empty();
    if has_crashed(&found.failures, node, round) {
        return missed;
    }
    for from in 0..nodes {
        let is_silent = has_crashed(&found.failures, from, round.saturating_sub(1));
        if !is_silent && found.omissions.is_omitted(node, round, from) {
            missed = missed.with(from);
        }
    }
    missed
}

/// Whether the node crashes in this round or an earlier one.
fn has_crashed(failures: &[Failure], node: u32, round: u32) -> bool {
    match failures.get(node as usize) {
        Some(Failure::Crashes(crash)) => *crash <= round,
        _ => false,
    }
}
