//! Decisions that are read from stored states.
ghost use Rattle.std.specs.Prelude.{◌≡◌, position};
ghost use Rattle.std.specs.Str.{bytes_eq};
ghost use Rattle.round_lang.specs.declared.program.Variable.{Variable};
ghost use Rattle.omission_explainer.specs.StoredDecisions.{IsDecidedAt, decision_at};

use round_lang::{Identifier, Program, Variable};
use step_machine::StoredState;

/// The place of the variable that the program's first `decide` line names.
pub(crate) fn decided_place(program: &Program) -> Option<usize>
    ensures { IsDecidedAt program.now result }
{
    let [name, ..] = program.decides() else {
        return None;
    };
    place_of(program.variables(), name)
}

fn place_of(variables: &[Variable], name: &Identifier) -> Option<usize>
    ensures { result ≡ position (λ (d : Variable). bytes_eq d.name name.now) variables.now }
{
    variables.iter().position(|variable| variable.name.is(name))
}

/// The decision in a state, by the place of the decided variable: its least member, none if it's
/// empty. Takes no memory.
pub(crate) fn decision_at(place: Option<usize>, state: &StoredState) -> Option<u32>
    ensures { result ≡ decision_at place state.now }
{
    let least = state.set_at(place?).least(64);
    if least < 64 { Some(least) } else { None }
}
