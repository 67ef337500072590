//! Recognizing an algorithm's program.
ghost use Rattle.std.specs.Prelude.{◌≡◌, ◌↔◌, IfOk, IfNone, IfSome, IsTrue};
ghost use Rattle.round_lang.specs.Source.{IsSource};
ghost use Rattle.proved_programs.specs.Proved.{IsOf, IsProved, own_of};
ghost use Rattle.proved_programs.specs.declared.algorithm.Algorithm.{Algorithm as AlgorithmValue};

use crate::algorithm::Algorithm;
use crate::same_but_values::same_but_values;
use algorithm_library::dls1_text;
use round_lang::{NoMemory, Program, parse};
use shelf_proofs::{
    algorithm_1_for_all, eager_algorithm_1, early_flooding, flooding, floodmin, last_voting,
    one_third_rule, rotating_coordinator, two_phase_commit, uniform_voting,
};
use std::alloc::Global;

/// The algorithm whose program this is, over any number of values, if there is one. Names, order
/// and blocks have to be the algorithm's; layout and comments don't.
pub fn algorithm_of(alloc: Global, program: &Program) -> Result<Option<Algorithm>, NoMemory>
    ensures program { IfOk result (λ found. IfSome found (λ a. IsOf a program.now)) }
    ensures proved { IfOk result (λ found. IfSome found (λ a. IsProved a program.now)) }
    ensures none { IfOk result (λ found. IfNone found
        ((a : AlgorithmValue) → IsOf a program.now → ⊥)) }
{
    for algorithm in [
        Algorithm::Algorithm1,
        Algorithm::EagerAlgorithm1,
        Algorithm::OneThirdRule,
        Algorithm::UniformVoting,
        Algorithm::LastVoting,
        Algorithm::RotatingCoordinator,
        Algorithm::Flooding,
        Algorithm::EarlyFlooding,
        Algorithm::FloodMin,
        Algorithm::TwoPhaseCommit,
    ] {
        if is_of(alloc, algorithm, program)? {
            is_proved(algorithm, program);
            return Ok(Some(algorithm));
        }
    }
    Ok(None)
}

/// Whether the program is the algorithm's.
fn is_of(alloc: Global, algorithm: Algorithm, program: &Program) -> Result<bool, NoMemory>
    ensures { IfOk result (λ answer. IsTrue answer ↔ IsOf algorithm program.now) }
{
    let own = own_program(alloc, algorithm)?;
    let is_same = match algorithm {
        Algorithm::TwoPhaseCommit => program.same(&own),
        _ => same_but_values(program, &own),
    };
    Ok(is_same)
}

/// The program of the algorithm's text.
fn own_program(alloc: Global, algorithm: Algorithm) -> Result<Program, NoMemory>
    ensures { IfOk result (λ own. own ≡ own_of algorithm) }
{
    match algorithm {
        Algorithm::Algorithm1 => {
            let Ok(text) = dls1_text(alloc, 2) else {
                return Err(NoMemory);
            };
            program_in(alloc, &text)
        }
        Algorithm::EagerAlgorithm1 => program_in(alloc, eager_algorithm_1()),
        Algorithm::OneThirdRule => program_in(alloc, one_third_rule()),
        Algorithm::UniformVoting => program_in(alloc, uniform_voting()),
        Algorithm::LastVoting => program_in(alloc, last_voting()),
        Algorithm::RotatingCoordinator => program_in(alloc, rotating_coordinator()),
        Algorithm::Flooding => program_in(alloc, flooding()),
        Algorithm::EarlyFlooding => program_in(alloc, early_flooding()),
        Algorithm::FloodMin => program_in(alloc, floodmin()),
        Algorithm::TwoPhaseCommit => program_in(alloc, two_phase_commit()),
    }
}

/// The program of a text that is one: only memory can be wanting.
fn program_in(alloc: Global, text: &str) -> Result<Program, NoMemory>
    ensures { IfOk result (λ program. IsSource text.now program) }
{
    match parse(alloc, text) {
        Ok(program) => Ok(program),
        Err(_) => Err(NoMemory),
    }
}

/// A law: the function does nothing. What is proved of an algorithm is proved of its programs.
fn is_proved(algorithm: Algorithm, program: &Program)
    requires { IsOf algorithm program.now }
    ensures { IsProved algorithm program.now }
{
    let _values = program.values();
    match algorithm {
        Algorithm::Algorithm1 => algorithm_1_for_all(),
        Algorithm::EagerAlgorithm1 => {
            let _text = eager_algorithm_1();
        }
        Algorithm::OneThirdRule => {
            let _text = one_third_rule();
        }
        Algorithm::UniformVoting => {
            let _text = uniform_voting();
        }
        Algorithm::LastVoting => {
            let _text = last_voting();
        }
        Algorithm::RotatingCoordinator => {
            let _text = rotating_coordinator();
        }
        Algorithm::Flooding => {
            let _text = flooding();
        }
        Algorithm::EarlyFlooding => {
            let _text = early_flooding();
        }
        Algorithm::FloodMin => {
            let _text = floodmin();
        }
        Algorithm::TwoPhaseCommit => {
            let _text = two_phase_commit();
        }
    }
}
