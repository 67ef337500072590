//! The causes for which a program is refused, and the first that stands.
ghost use Rattle.std.specs.Prelude.{◌≡◌, ◌<◌, ◌+◌, ◌^◌, option_copied, length};
ghost use Rattle.std.specs.List.{list_any};
ghost use Rattle.round_check.specs.Causes.{repeats_variable, repeats_field, has_variable_name};
ghost use Rattle.round_check.specs.Causes.{double_field, second_input, double_name, first_input};
ghost use Rattle.round_check.specs.Causes.{no_input, no_decision, numbered_from, missing_round};
ghost use Rattle.round_check.specs.Causes.{unknown_name, not_allowed_here, field_count, wrong_type};
ghost use Rattle.round_check.specs.Causes.{fault_of};

use crate::fault::CheckFault;
use crate::names::{declares, has_field, is_input};
use crate::rules::{Rule, breaks_program};
use crate::typing::wrong_program;
use round_lang::{Block, Field, Identifier, Program, Variable};

fn repeats_variable(variables: &[Variable]) -> bool
    ensures { result ≡ repeats_variable variables.now }
{
    match variables {
        [] => false,
        [first, rest @ ..] => declares(rest, &first.name) || repeats_variable(rest),
    }
}

fn repeats_field(fields: &[Field]) -> bool
    ensures { result ≡ repeats_field fields.now }
{
    match fields {
        [] => false,
        [first, rest @ ..] => has_field(rest, &first.name) || repeats_field(rest),
    }
}

fn has_variable_name(variables: &[Variable], fields: &[Field]) -> bool
    ensures { result ≡ has_variable_name variables.now fields.now }
{
    fields.iter().any(|field| declares(variables, &field.name))
}

fn double_field(variables: &[Variable], block: &Block) -> bool
    ensures { result ≡ double_field variables.now block.now }
{
    repeats_field(block.fields()) || has_variable_name(variables, block.fields())
}

fn double_fields(variables: &[Variable], blocks: &[Block]) -> bool
    ensures { result ≡ list_any (double_field variables.now) blocks.now }
{
    blocks.iter().any(|block| double_field(variables, block))
}

fn second_input(variables: &[Variable]) -> bool
    ensures { result ≡ second_input variables.now }
{
    variables
        .iter()
        .filter(|variable| is_input(variable))
        .count()
        > 1
}

#[tactic(auto, unfolding(crate::specs::Causes::double_name))]
fn double_name(program: &Program) -> bool
    ensures { result ≡ double_name program.now }
{
    repeats_variable(program.variables())
        || second_input(program.variables())
        || program.decides().len() > 1
        || double_fields(program.variables(), program.blocks())
        || breaks_program(Rule::Fresh, program)
}

/// The name after the first `input`.
pub(crate) fn first_input(variables: &[Variable]) -> Option<&Identifier>
    ensures { option_copied result ≡ first_input variables.now }
{
    match variables {
        [] => None,
        [first, rest @ ..] => {
            if is_input(first) {
                Some(&first.name)
            } else {
                first_input(rest)
            }
        }
    }
}

#[tactic(auto, unfolding(crate::specs::Causes::no_input))]
fn no_input(program: &Program) -> bool
    ensures { result ≡ no_input program.now }
{
    first_input(program.variables()).is_none()
}

#[tactic(auto, unfolding(crate::specs::Causes::no_decision))]
fn no_decision(program: &Program) -> bool
    ensures { result ≡ no_decision program.now }
{
    program.decides().is_empty()
}

fn is_numbered_from(number: u32, blocks: &[Block]) -> bool
    requires { number + length blocks.now < 2 ^ 32 }
    ensures { result ≡ numbered_from number blocks.now }
{
    match blocks {
        [] => true,
        [first, rest @ ..] => first.number() == number && is_numbered_from(number + 1, rest),
    }
}

#[tactic(auto, unfolding(crate::specs::Causes::missing_round))]
fn missing_round(program: &Program) -> bool
    ensures { result ≡ missing_round program.now }
{
    let blocks = program.blocks();
    !(blocks.len() == program.period() as usize && is_numbered_from(1, blocks))
}

#[tactic(auto, unfolding(crate::specs::Causes::unknown_name))]
fn unknown_name(program: &Program) -> bool
    ensures { result ≡ unknown_name program.now }
{
    breaks_program(Rule::Known, program)
}

#[tactic(auto, unfolding(crate::specs::Causes::not_allowed_here))]
fn not_allowed_here(program: &Program) -> bool
    ensures { result ≡ not_allowed_here program.now }
{
    breaks_program(Rule::Allowed, program)
}

#[tactic(auto, unfolding(crate::specs::Causes::field_count))]
fn field_count(program: &Program) -> bool
    ensures { result ≡ field_count program.now }
{
    program
        .blocks()
        .iter()
        .any(|block| block.fields().len() != block.sent().len())
}

#[tactic(auto, unfolding(crate::specs::Causes::wrong_type))]
fn wrong_type(program: &Program) -> bool
    ensures { result ≡ wrong_type program.now }
{
    wrong_program(program)
}

/// The first cause that stands, in the order in which they are answered.
#[tactic(auto, unfolding(crate::specs::Causes::fault_of))]
pub(crate) fn first_cause(program: &Program) -> Option<CheckFault>
    ensures { result ≡ fault_of program.now }
{
    if double_name(program) {
        Some(CheckFault::DoubleName)
    } else if no_input(program) {
        Some(CheckFault::NoInput)
    } else if no_decision(program) {
        Some(CheckFault::NoDecision)
    } else if missing_round(program) {
        Some(CheckFault::MissingRound)
    } else if unknown_name(program) {
        Some(CheckFault::UnknownName)
    } else if not_allowed_here(program) {
        Some(CheckFault::NotAllowedHere)
    } else if field_count(program) {
        Some(CheckFault::FieldCount)
    } else if wrong_type(program) {
        Some(CheckFault::WrongType)
    } else {
        None
    }
}
