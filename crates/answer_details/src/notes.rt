//! What is easily misread of the answers of a search.
use crate::text::full;
use command_words::{Exploring, FaultChoice};
use exploration_texts::{Told, first_failure};
use part_answers::Property;
use proved_programs::algorithm_of;
use round_lang::Program;
use run_events::NoMemory;
use std::alloc::Global;
use std::io::Write;

/// Writes a line for each note: what the answers leave open, which option meant nothing, and what
/// is proved of the program for every number of nodes.
pub(crate) fn write_notes(
    alloc: Global,
    program: &Program,
    exploring: &Exploring<'_>,
    told: &[Told],
    out: &mut Vec<u8>,
) -> Result<(), NoMemory> {
    let fails = first_failure(told).is_some();
    if !fails && hold_undecided(told) {
        writeln!(
            out,
            "a program that never decides has these answers too; ask --check termination"
        )
        .map_err(full)?;
    }
    if fails && exploring.faults != FaultChoice::Nobody && exploring.clear.is_none() {
        writeln!(
            out,
            "without --clear the network may omit any message, whichever nodes fail"
        )
        .map_err(full)?;
    }
    match algorithm_of(alloc, program)? {
        Some(algorithm) => writeln!(out, "{algorithm}").map_err(full),
        None => Ok(()),
    }
}

/// Whether a property is asked that holds as long as no node decides, and nobody asks whether nodes
/// decide.
fn hold_undecided(told: &[Told]) -> bool {
    told.iter().any(|one| is_safety(one.name))
        && told
            .iter()
            .all(|one| !matches!(one.name, Property::Termination))
}

/// Whether the property is about the decisions that nodes make, and not whether they make any.
fn is_safety(property: Property) -> bool {
    matches!(
        property,
        Property::Agreement | Property::Validity | Property::Final
    )
}
