//! The programs of the library by their names.
ghost use Rattle.std.specs.Prelude.{IfOk, codes, ◌≡◌};
ghost use Rattle.algorithm_library.specs.Programs.{count_votes_tree, gather_tree};
ghost use Rattle.round_meaning.specs.Algorithm1.{dls1 as dls1_tree};

use crate::fault::Fault;
use algorithm_library::{count_votes, dls1, gather};
use round_check::Checked;
use round_meaning::Setup;
use std::alloc::Global;

/// The program of the library under a name, for so many values and the nodes of a setup.
pub fn offered(alloc: Global, name: &str, values: u32, setup: &Setup) -> Result<Checked, Fault>
    ensures gather { IfOk result (λ p. name.now ≡ codes "gather" → p ≡ gather_tree values) }
    ensures count_votes { IfOk result
        (λ p. name.now ≡ codes "count_votes" → p ≡ count_votes_tree values) }
    ensures dls1 { IfOk result (λ p. name.now ≡ codes "dls1" → p ≡ dls1_tree values) }
{
    match name {
        "gather" => Ok(gather(alloc, values)?),
        "count_votes" => Ok(count_votes(alloc, values)?),
        "dls1" => Ok(dls1(alloc, setup.nodes, setup.faults, values)?),
        _ => Err(Fault::Unreadable),
    }
}
