//! The programs of the library, and their texts.
ghost use Rattle.std.specs.Prelude.{◌≡◌, ◌≢◌, ◌+◌, ◌*◌, ◌≤◌, ◌↔◌, Err, IfOk, IsTrue, OnOk};
ghost use Rattle.std.specs.Prelude.{string_bytes};
ghost use Rattle.algorithm_library.specs.declared.fault.LibraryFault.TheVariants as fault;
ghost use Rattle.algorithm_library.specs.Agreeing.{KeepsAgreement, KeepsValidity};
ghost use Rattle.algorithm_library.specs.Programs.{count_votes_tree, gather_tree};
ghost use Rattle.algorithm_library.specs.Refusals.{IsCount, IsTooFew, IsWithin};
ghost use Rattle.algorithm_library.specs.Texts.{count_votes_rest, dls1_rest, gather_rest, text_of};
ghost use Rattle.round_lang.specs.Source.{IsSource};
ghost use Rattle.round_meaning.specs.Algorithm1.{dls1 as dls1_tree};

use crate::fault::LibraryFault;
use crate::source::{program_of, text_of};
use crate::texts::{count_votes_rest, dls1_rest, gather_rest};
use round_check::Checked;
use round_meaning::MAX_FAULTS;
use run_events::MAX_NODES;
use std::alloc::Global;

/// The most values that a program has.
const MAX_VALUES: u32 = 64;

/// Each node tells all that it has seen, its own input first, and decides the least of it. There
/// are 1 to 64 values.
pub fn gather(alloc: Global, values: u32) -> Result<Checked, LibraryFault>
    ensures bad { (result ≡ Err fault.BadValues) ↔ (¬ (IsCount values)) }
    ensures never_few { result ≢ Err fault.TooFew }
    ensures program { IfOk result (λ p. p ≡ gather_tree values) }
    ensures text { IfOk result (λ p. IsSource (text_of gather_rest values) p) }
{
    if !is_count(values) {
        return Err(LibraryFault::BadValues);
    }
    Ok(program_of(alloc, values, gather_rest())?)
}

/// In each round each node tells its input, counts what it hears, and decides a value of which more
/// than half of the nodes told. There are 1 to 64 values.
pub fn count_votes(alloc: Global, values: u32) -> Result<Checked, LibraryFault>
    ensures bad { (result ≡ Err fault.BadValues) ↔ (¬ (IsCount values)) }
    ensures never_few { result ≢ Err fault.TooFew }
    ensures program { IfOk result (λ p. p ≡ count_votes_tree values) }
    ensures text { IfOk result (λ p. IsSource (text_of count_votes_rest values) p) }
{
    if !is_count(values) {
        return Err(LibraryFault::BadValues);
    }
    Ok(program_of(alloc, values, count_votes_rest())?)
}

/// Algorithm 1. There are 1 to 16 nodes of which up to `faults`, 0 to 15, may fail, and 1 to 64
/// values; more than half of the nodes must be correct. Then all decisions of a run are equal, and
/// each is some node's input, whatever messages are omitted.
pub fn dls1(alloc: Global, nodes: u32, faults: u32, values: u32) -> Result<Checked, LibraryFault>
    ensures bad { (result ≡ Err fault.BadValues) ↔ (¬ (IsWithin nodes faults values)) }
    ensures few { (result ≡ Err fault.TooFew)
        ↔ (IsWithin nodes faults values × IsTooFew nodes faults) }
    ensures majority { OnOk result (2 * faults + 1 ≤ nodes) }
    ensures program { IfOk result (λ p. p ≡ dls1_tree values) }
    ensures text { IfOk result (λ p. IsSource (text_of dls1_rest values) p) }
    ensures agreement { IfOk result (λ p. KeepsAgreement p nodes faults) }
    ensures validity { IfOk result (λ p. KeepsValidity p nodes faults) }
{
    if !is_within(nodes, faults, values) {
        return Err(LibraryFault::BadValues);
    }
    if nodes < 2 * faults + 1 {
        return Err(LibraryFault::TooFew);
    }
    Ok(program_of(alloc, values, dls1_rest())?)
}

/// The text whose program [`gather`] answers. There are 1 to 64 values.
pub fn gather_text(alloc: Global, values: u32) -> Result<String, LibraryFault>
    ensures bad { (result ≡ Err fault.BadValues) ↔ (¬ (IsCount values)) }
    ensures never_few { result ≢ Err fault.TooFew }
    ensures count { OnOk result (IsCount values) }
    ensures text { IfOk result (λ s. string_bytes s ≡ text_of gather_rest values) }
{
    if !is_count(values) {
        return Err(LibraryFault::BadValues);
    }
    Ok(text_of(alloc, values, gather_rest())?)
}

/// The text whose program [`count_votes`] answers. There are 1 to 64 values.
pub fn count_votes_text(alloc: Global, values: u32) -> Result<String, LibraryFault>
    ensures bad { (result ≡ Err fault.BadValues) ↔ (¬ (IsCount values)) }
    ensures never_few { result ≢ Err fault.TooFew }
    ensures count { OnOk result (IsCount values) }
    ensures text { IfOk result (λ s. string_bytes s ≡ text_of count_votes_rest values) }
{
    if !is_count(values) {
        return Err(LibraryFault::BadValues);
    }
    Ok(text_of(alloc, values, count_votes_rest())?)
}

/// The text whose program [`dls1`] answers. There are 1 to 64 values.
pub fn dls1_text(alloc: Global, values: u32) -> Result<String, LibraryFault>
    ensures bad { (result ≡ Err fault.BadValues) ↔ (¬ (IsCount values)) }
    ensures never_few { result ≢ Err fault.TooFew }
    ensures count { OnOk result (IsCount values) }
    ensures text { IfOk result (λ s. string_bytes s ≡ text_of dls1_rest values) }
{
    if !is_count(values) {
        return Err(LibraryFault::BadValues);
    }
    Ok(text_of(alloc, values, dls1_rest())?)
}

fn is_count(values: u32) -> bool
    ensures { IsTrue result ↔ IsCount values }
{
    1 <= values && values <= MAX_VALUES
}

fn is_within(nodes: u32, faults: u32, values: u32) -> bool
    ensures { IsTrue result ↔ IsWithin nodes faults values }
{
    is_count(values) && 1 <= nodes && nodes <= MAX_NODES && faults <= MAX_FAULTS
}
