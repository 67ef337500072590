//! `==` on what derives it, which tells two values apart exactly if they are two.
ghost use Rattle.std.specs.Prelude.{◌≡◌, ◌↔◌, IsTrue};

use round_check::Checked;
use round_lang::{Assignment, Field, Value, Variable};
use round_meaning::Setup;

#[tactic(auto, using(round_lang::proofs::EqualityLaws::field_decides))]
pub fn is_one_field(one: &Field, other: &Field) -> bool
    ensures { IsTrue result ↔ (one.now ≡ other.now) }
{
    one == other
}

#[tactic(auto, using(round_lang::proofs::EqualityLaws::assignment_decides))]
pub fn is_one_assignment(one: &Assignment, other: &Assignment) -> bool
    ensures { IsTrue result ↔ (one.now ≡ other.now) }
{
    one == other
}

#[tactic(auto, using(round_lang::proofs::EqualityLaws::variable_decides))]
pub fn is_one_variable(one: &Variable, other: &Variable) -> bool
    ensures { IsTrue result ↔ (one.now ≡ other.now) }
{
    one == other
}

#[tactic(auto, using(round_lang::proofs::EqualityLaws::value_decides))]
pub fn is_one_value(one: &Value, other: &Value) -> bool
    ensures { IsTrue result ↔ (one.now ≡ other.now) }
{
    one == other
}

#[tactic(auto, using(round_lang::specs::Equality::is_same_decides))]
pub fn is_one_program(one: &Checked, other: &Checked) -> bool
    ensures { IsTrue result ↔ (one.now ≡ other.now) }
{
    one == other
}

#[tactic(auto, using(round_meaning::proofs::EqualityLaws::setup_decides))]
pub fn is_one_setup(one: &Setup, other: &Setup) -> bool
    ensures { IsTrue result ↔ (one.now ≡ other.now) }
{
    one == other
}

pub fn are_one_fields(one: &[Field], other: &[Field]) -> bool {
    one.len() == other.len()
        && one
            .iter()
            .zip(other)
            .all(|(one, other)| is_one_field(one, other))
}

pub fn are_one_assignments(one: &[Assignment], other: &[Assignment]) -> bool {
    one.len() == other.len()
        && one
            .iter()
            .zip(other)
            .all(|(one, other)| is_one_assignment(one, other))
}

pub fn are_one_variables(one: &[Variable], other: &[Variable]) -> bool {
    one.len() == other.len()
        && one
            .iter()
            .zip(other)
            .all(|(one, other)| is_one_variable(one, other))
}
