//! Inputs and failures of a sample.
ghost use Rattle.std.specs.Prelude.{◌≡◌, ◌<◌, ◌≤◌, ◌+◌, All, IfOk, IfSome, IsSome, cond, length};
ghost use Rattle.round_meaning.specs.Setups.{IsSetup};
ghost use Rattle.round_explorer.specs.Questions.{AreAsked, IsInPart, IsOfKind, IsPattern};
ghost use Rattle.round_explorer.specs.Questions.{is_faulty};
ghost use Rattle.round_explorer.specs.Searched.{LeavesEnough, is_stopped};
ghost use Rattle.round_explorer.specs.declared.question.FaultKind.{FaultKind as KindOfFault};
ghost use Rattle.run_samples.specs.Found.{AsksNoPart};
ghost use Rattle.run_samples.specs.Samples.{IsCaseOf, LeavesEnoughOf};

use crate::dice::{Dice, Rate};
use round_check::Checked;
use round_explorer::{AskedInputs, Case, Failure, FaultKind, Part, Property, Question};
use round_meaning::{Inputs, Setup};
use run_events::NoMemory;
use std::alloc::Global;

/// The rounds that a crash is likelier to be drawn from than others.
const EARLY: u32 = 12;

/// Inputs and failures that are asked about, with the setup, the question and the property; none if
/// the inputs that were drawn aren't in the part that is asked about.
pub(crate) fn drawn_case<'a>(
    alloc: Global,
    program: &Checked,
    setup: &Setup,
    question: Question,
    asked: AskedInputs,
    property: Property<'a>,
    dice: &mut Dice,
) -> Result<Option<Case<'a>>, NoMemory>
    requires { IsSetup setup.now }
    ensures case { IfOk result (λ drawn. IfSome drawn
        (IsCaseOf program.now setup.now question asked property.entry)) }
    ensures enough { IfOk result (λ drawn. IfSome drawn
        (λ c. question.hears ≤ setup.now.nodes → LeavesEnough c)) }
    ensures all { IfOk result (λ drawn. AsksNoPart asked → IsSome drawn) }
{
    let Some(inputs) = drawn_inputs(alloc, program, setup, asked, dice)? else {
        return Ok(None);
    };
    let pattern = drawn_pattern(alloc, question, setup, dice)?;
    let setup = Setup {
        nodes: setup.nodes,
        faults: setup.faults,
        inputs,
        rounds: setup.rounds,
    };
    Ok(Some(Case::new(setup, question, pattern, property)))
}

/// Inputs that are asked about; none if those that were drawn aren't in a part that is.
fn drawn_inputs(
    alloc: Global,
    program: &Checked,
    setup: &Setup,
    asked: AskedInputs,
    dice: &mut Dice,
) -> Result<Option<Inputs>, NoMemory>
    ensures asked { IfOk result
        (λ drawn. IfSome drawn (AreAsked program.now.values setup.now asked)) }
    ensures all { IfOk result (λ drawn. AsksNoPart asked → IsSome drawn) }
{
    match asked {
        AskedInputs::Header => Ok(Some(setup.inputs.copy()?)),
        AskedInputs::Any => Ok(Some(any_inputs(alloc, program, setup.nodes, dice)?)),
        AskedInputs::Part(part) => part_inputs(alloc, program, setup.nodes, part, dice),
    }
}

/// So many inputs below K, if they're in the part.
fn part_inputs(
    alloc: Global,
    program: &Checked,
    nodes: u32,
    part: Part,
    dice: &mut Dice,
) -> Result<Option<Inputs>, NoMemory>
    ensures { IfOk result (λ drawn. IfSome drawn (λ inputs. ((length inputs ≡ nodes)
        × All (λ x. x < program.now.values) inputs) × IsInPart program.now.values part inputs)) }
{
    let inputs = any_inputs(alloc, program, nodes, dice)?;
    if part.has(program.program().values(), inputs.as_slice()) {
        Ok(Some(inputs))
    } else {
        Ok(None)
    }
}

/// So many inputs below K.
fn any_inputs(
    alloc: Global,
    program: &Checked,
    nodes: u32,
    dice: &mut Dice,
) -> Result<Inputs, NoMemory>
    ensures { IfOk result
        (λ inputs. (length inputs ≡ nodes) × All (λ x. x < program.now.values) inputs) }
{
    let mut inputs = Vec::new(alloc);
    for _node in 0..nodes {
        inputs.push(dice.below(program.program().values()))?;
    }
    Ok(Inputs::new(inputs))
}

/// A failure for each node: of at most the setup's faults, how many being drawn too; and enough
/// nodes are left to be heard.
fn drawn_pattern(
    alloc: Global,
    question: Question,
    setup: &Setup,
    dice: &mut Dice,
) -> Result<Vec<Failure>, NoMemory>
    requires { IsSetup setup.now }
    ensures pattern { IfOk result (λ pattern. IsPattern question setup.now pattern.items) }
    ensures enough { IfOk result (λ pattern. question.hears ≤ setup.now.nodes
        → LeavesEnoughOf question setup.now pattern.items) }
{
    let mut pattern = Vec::new(alloc);
    let mut left = dice.below(setup.faults + 1);
    let mut spare = setup.nodes.saturating_sub(question.hears);
    for node in 0..setup.nodes {
        let failure = next_failure(question, setup, node, &mut left, &mut spare, dice);
        pattern.push(failure)?;
    }
    Ok(pattern)
}

/// How the next node fails, if `left` nodes do of it and those after it, and `spare` of them may
/// stop before the last round.
fn next_failure(
    question: Question,
    setup: &Setup,
    node: u32,
    left: &mut u32,
    spare: &mut u32,
    dice: &mut Dice,
) -> Failure
    requires rounds { 0 < setup.now.rounds }
    requires node { node < setup.now.nodes }
    ensures kind { IsOfKind question.faults setup.now.rounds result }
    ensures few { left.new + cond (is_faulty result) 1 0 ≤ left.old }
    ensures spare { spare.old ≡ spare.new + cond (is_stopped result setup.now.rounds) 1 0 }
{
    if dice.below(setup.nodes - node) >= *left {
        return Failure::Never;
    }
    *left -= 1;
    let failure = drawn_failure(question.faults, setup.rounds, dice);
    spared(failure, setup.rounds, spare)
}

/// The same failure, if as many nodes more can be spared as it stops before the last round: one or
/// none. Else the node crashes in the last round.
fn spared(failure: Failure, rounds: u32, spare: &mut u32) -> Failure
    requires { 0 < rounds }
    ensures kind { (kind : KindOfFault) → IsOfKind kind rounds failure
        → IsOfKind kind rounds result }
    ensures faulty { is_faulty result ≡ is_faulty failure }
    ensures spare { spare.old ≡ spare.new + cond (is_stopped result rounds) 1 0 }
{
    match failure {
        Failure::Crashes(round) if round < rounds => {
            if *spare == 0 {
                return Failure::Crashes(rounds);
            }
            *spare -= 1;
            failure
        }
        _ => failure,
    }
}

/// How a node fails that does.
fn drawn_failure(kind: FaultKind, rounds: u32, dice: &mut Dice) -> Failure
    requires { 0 < rounds }
    ensures { IsOfKind kind rounds result }
{
    match kind {
        FaultKind::Nobody => Failure::Never,
        FaultKind::Omission => Failure::Omits,
        FaultKind::Crash => Failure::Crashes(drawn_crash(rounds, dice)),
    }
}

/// The round of a crash: any, or just as often an early one.
fn drawn_crash(rounds: u32, dice: &mut Dice) -> u32
    requires { 0 < rounds }
    ensures begun { 1 ≤ result }
    ensures past { result ≤ rounds }
{
    let last = if dice.happens(Rate::InOneOfTwo) {
        rounds
    } else {
        rounds.min(EARLY)
    };
    1 + dice.below(last)
}
