//! The setups and the sets of nodes that texts give.
ghost use Rattle.std.specs.Prelude.{◌≡◌, Err, IfOk};
ghost use Rattle.round_meaning.specs.declared.setup.Setup.{Setup as OneSetup};
ghost use Rattle.test_kit.specs.Setups.{HasJust, IsFaultless};
ghost use Rattle.test_kit.specs.declared.fault.Fault.TheVariants.{Unreadable};

use crate::fault::Fault;
use crate::reading::{comma_numbers, number};
use round_meaning::{Inputs, NodeSet, Setup};
use run_events::MAX_NODES;
use std::alloc::Global;

/// The set of these nodes, without those past 63.
pub fn nodes(members: &[u32]) -> NodeSet
    ensures { HasJust members.now result.bits }
{
    let mut set = NodeSet::empty();
    for node in members {
        set = set.with(*node);
    }
    set
}

/// A setup without faults, of as many nodes as there are inputs, but at most `MAX_NODES`.
pub fn setup(alloc: Global, inputs: &str, rounds: &str) -> Result<Setup, Fault>
    ensures ok { IfOk result (IsFaultless inputs.now rounds.now) }
    ensures unreadable { result ≡ Err Unreadable
        → (s : OneSetup) → ¬ (IsFaultless inputs.now rounds.now s) }
{
    let inputs = comma_numbers(alloc, inputs)?;
    Ok(Setup {
        nodes: inputs.len().min(MAX_NODES as usize) as u32,
        faults: 0,
        inputs: Inputs::new(inputs),
        rounds: number(rounds)?,
    })
}
