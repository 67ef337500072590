//! Which lines name what is of a run.
ghost use Rattle.std.specs.Prelude.{◌<◌, ◌↔◌, All, IsTrue};
ghost use Rattle.omission_texts.specs.Meaning.{AreRoundsOf, IsFirstUnknown, IsKnown};

use crate::line::{OmissionLine, RoundRange};
use round_meaning::Setup;

/// The place of the first line that names what isn't of the run.
pub(crate) fn first_unknown(lines: &[OmissionLine], setup: &Setup) -> Option<usize>
    ensures { IsFirstUnknown setup.now lines.now result }
{
    for (place, line) in lines.iter().enumerate() {
        if !is_known(line, setup) {
            return Some(place);
        }
    }
    None
}

/// Whether what a line names is of the run.
fn is_known(line: &OmissionLine, setup: &Setup) -> bool
    ensures { IsTrue result ↔ IsKnown setup.now line.now }
{
    match line {
        OmissionLine::Omit {
            receiver,
            rounds,
            sender,
        } => *receiver < setup.nodes && *sender < setup.nodes && are_rounds(*rounds, setup),
        OmissionLine::Cut { nodes, rounds } => {
            are_nodes(nodes.as_slice(), setup.nodes) && are_rounds(*rounds, setup)
        }
        OmissionLine::Crash {
            node,
            round,
            reached,
        } => {
            *node < setup.nodes
                && 1 <= *round
                && *round <= setup.rounds
                && are_nodes(reached.as_slice(), setup.nodes)
        }
    }
}

fn are_rounds(rounds: RoundRange, setup: &Setup) -> bool
    ensures { IsTrue result ↔ AreRoundsOf setup.now rounds }
{
    1 <= rounds.first && rounds.first <= rounds.last && rounds.last <= setup.rounds
}

fn are_nodes(list: &[u32], nodes: u32) -> bool
    ensures { IsTrue result ↔ All (λ i. i < nodes) list.now }
{
    list.iter().all(|node| *node < nodes)
}
