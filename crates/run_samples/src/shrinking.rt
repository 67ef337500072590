//! Leaving out omissions that a failure doesn't need.
ghost use Rattle.std.specs.Prelude.{◌≡◌, IfOk, IsTrue, length};
ghost use Rattle.round_meaning.specs.Setups.{IsSetup};
ghost use Rattle.run_samples.specs.Samples.{Covers, case_of};
ghost use Rattle.run_samples.specs.Shrunk.{IsPartOf, StaysFailure};

use crate::listed::{Block, Listed};
use crate::machine::Machine;
use crate::running::{Failing, failing_run, told_of};
use crate::tally::Tally;
use round_check::Checked;
use round_explorer::{Case, Counterexample, Property, Question, Unwatched};
use round_meaning::{NodeSet, Omission, OmissionTable, Setup};
use run_events::NoMemory;
use std::alloc::Global;

/// After so many messages no other run is tried.
const MOST_MESSAGES: u64 = 8_000_000;

/// The same failure with fewer omissions: of those up to its round, each is left out without which
/// the property first fails in the same round. Many are left out at once, then fewer, then single
/// ones, and this again until none can be. That they're as few as single ones left out can make
/// them is no contract's claim: a fixed number of messages is spent on it.
pub fn shrink(
    alloc: Global,
    program: &Checked,
    setup: &Setup,
    question: Question,
    property: Property<'_>,
    found: Counterexample,
) -> Result<Counterexample, NoMemory>
    requires setup { IsSetup setup.now }
    requires inputs { length found.inputs ≡ setup.now.nodes }
    ensures part { IfOk result (IsPartOf found) }
    ensures failure { IfOk result
        (StaysFailure program.now setup.now question property.entry found) }
{
    let mut machine = Machine::new(alloc, program)?;
    let case = case_of(alloc, setup, question, property, &found)?;
    let mut rows = Listed::new(alloc, &case, found.round, &found.omissions)?;
    let mut tally = Tally::new(&Unwatched, 1);
    shrink_rows(
        alloc,
        &mut machine,
        program,
        &case,
        found.round,
        &mut rows,
        &mut tally,
    )?;
    match failing_run(alloc, &mut machine, program, &case, &mut rows, &mut tally)? {
        Some(failing) if is_part_of(&failing, &found) => Ok(told_of(alloc, &case, &failing)?),
        _ => Ok(found),
    }
}

/// The case that the failure is one of.
fn case_of<'a>(
    alloc: Global,
    setup: &Setup,
    question: Question,
    property: Property<'a>,
    found: &Counterexample,
) -> Result<Case<'a>, NoMemory>
    ensures { IfOk result (λ c. c ≡ case_of setup.now question property.entry found.now) }
{
    let setup = Setup {
        nodes: setup.nodes,
        faults: setup.faults,
        inputs: found.inputs.copy()?,
        rounds: setup.rounds,
    };
    let pattern = Vec::from_slice(alloc, &found.failures)?;
    Ok(Case::new(setup, question, pattern, property))
}

/// Whether a run fails in the round of what was found, and has no other omissions up to it.
fn is_part_of(failing: &Failing, found: &Counterexample) -> bool
    ensures { IsTrue result → ((failing.now.round ≡ found.now.round)
        × Covers found.now.omissions failing.now.path.lost) }
{
    failing.round == found.round && are_omitted(failing.path.lost(), &found.omissions)
}

/// Whether a table omits each of these.
fn are_omitted(lost: &[Omission], table: &OmissionTable) -> bool
    ensures { IsTrue result → Covers table.now lost.now }
{
    for omission in lost {
        if !table.is_omitted(omission.receiver, omission.round, omission.sender) {
            return false;
        }
    }
    true
}

/// Leaves out what the failure in this round doesn't need, until nothing can be left out.
fn shrink_rows(
    alloc: Global,
    machine: &mut Machine,
    program: &Checked,
    case: &Case<'_>,
    round: u32,
    rows: &mut Listed,
    tally: &mut Tally<'_, Unwatched>,
) -> Result<(), NoMemory>
    requires machine { machine.old ≡ program.now }
    requires setup { IsSetup case.now.setup }
    ensures { machine.new ≡ machine.old }
{
    // each pass that isn't the last leaves one omission out at least
    for _pass in 0..=rows.count() {
        let before = rows.count();
        leave_out_rows(alloc, machine, program, case, round, rows, tally)?;
        leave_out_single(alloc, machine, program, case, round, rows, tally)?;
        if rows.count() == before {
            break;
        }
    }
    Ok(())
}

/// Tries to leave out all rows at once, then half of them, and so on down to single rows.
fn leave_out_rows(
    alloc: Global,
    machine: &mut Machine,
    program: &Checked,
    case: &Case<'_>,
    round: u32,
    rows: &mut Listed,
    tally: &mut Tally<'_, Unwatched>,
) -> Result<(), NoMemory>
    requires machine { machine.old ≡ program.now }
    requires setup { IsSetup case.now.setup }
    ensures { machine.new ≡ machine.old }
{
    let mut length = rows.len();
    for _halving in 0..usize::BITS {
        for first in 0..rows.len() {
            if first.checked_rem(length) == Some(0) {
                let block = Block {
                    first,
                    after: first.saturating_add(length),
                    nodes: NodeSet { bits: u64::MAX },
                };
                leave_out(alloc, machine, program, case, round, block, rows, tally)?;
            }
        }
        length /= 2;
    }
    Ok(())
}

/// Tries to leave out each omission by itself.
fn leave_out_single(
    alloc: Global,
    machine: &mut Machine,
    program: &Checked,
    case: &Case<'_>,
    round: u32,
    rows: &mut Listed,
    tally: &mut Tally<'_, Unwatched>,
) -> Result<(), NoMemory>
    requires machine { machine.old ≡ program.now }
    requires setup { IsSetup case.now.setup }
    ensures { machine.new ≡ machine.old }
{
    for first in 0..rows.len() {
        for from in 0..case.setup().nodes {
            let block = Block {
                first,
                after: first.saturating_add(1),
                nodes: NodeSet::empty().with(from),
            };
            leave_out(alloc, machine, program, case, round, block, rows, tally)?;
        }
    }
    Ok(())
}

/// Leaves a block out if without it the property first fails in the same round.
fn leave_out(
    alloc: Global,
    machine: &mut Machine,
    program: &Checked,
    case: &Case<'_>,
    round: u32,
    block: Block,
    rows: &mut Listed,
    tally: &mut Tally<'_, Unwatched>,
) -> Result<(), NoMemory>
    requires machine { machine.old ≡ program.now }
    requires setup { IsSetup case.now.setup }
    ensures { machine.new ≡ machine.old }
{
    if !rows.omits_in(block) || is_spent(case, tally) {
        return Ok(());
    }
    rows.leave_out(block);
    let failing = failing_run(alloc, machine, program, case, rows, tally)?;
    rows.settle(fails_in(failing.as_ref(), round));
    Ok(())
}

/// Whether enough messages were spent.
fn is_spent(case: &Case<'_>, tally: &Tally<'_, Unwatched>) -> bool {
    let nodes = u64::from(case.setup().nodes);
    tally.rounds().saturating_mul(nodes).saturating_mul(nodes) >= MOST_MESSAGES
}

/// Whether there is a failure, and in this round.
fn fails_in(failing: Option<&Failing>, round: u32) -> bool {
    match failing {
        Some(failing) => failing.round == round,
        None => false,
    }
}
