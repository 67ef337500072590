//! Where a program's values stand in its room.
ghost use Rattle.std.specs.Prelude.{◌≡◌, ◌<◌, ◌≤◌, ◌+◌, ◌*◌, ◌^◌, ◌++◌, IfOk, OnOk, length};
ghost use Rattle.round_check.specs.Types.{kind_type};
ghost use Rattle.step_code.specs.Layout.{behind, field_types, fields_at, variable_types};
ghost use Rattle.step_code.specs.Layout.{variables_at};

use crate::names::Known;
use crate::single::{further, size_of};
use round_lang::{Field, Ty, Variable, VariableKind};
use run_events::NoMemory;

/// The type of a variable; the input is a number.
pub(crate) fn variable_type(kind: &VariableKind) -> Ty
    ensures { result ≡ kind_type kind.now }
{
    match kind {
        VariableKind::Input => Ty::Num,
        VariableKind::State { ty, .. } => *ty,
    }
}

/// Adds the variables, whose words stand one behind the other from a place on.
pub(crate) fn place_variables(
    names: &mut Vec<Known>,
    k: u32,
    place: u16,
    variables: &[Variable],
) -> Result<u16, NoMemory>
    requires few { k ≤ 64 }
    requires near { place + 64 * length variables.now < 2 ^ 16 }
    ensures names { OnOk result (names.new.items
        ≡ names.old.items ++ variables_at k place variables.now) }
    ensures end { IfOk result (λ p. p ≡ behind k place (variable_types variables.now)) }
    ensures near { IfOk result (λ p. p ≤ place + 64 * length variables.now) }
{
    match variables {
        [] => Ok(place),
        [first, rest @ ..] => {
            let ty = variable_type(&first.kind);
            let name = first.name.copy()?;
            names.push(Known { name, ty, place })?;
            place_variables(names, k, further(place, size_of(k, ty)), rest)
        }
    }
}

/// Adds the fields of a message, whose words stand one behind the other from a place on.
pub(crate) fn place_fields(
    names: &mut Vec<Known>,
    k: u32,
    place: u16,
    fields: &[Field],
) -> Result<u16, NoMemory>
    requires few { k ≤ 64 }
    requires near { place + 64 * length fields.now < 2 ^ 16 }
    ensures names { OnOk result (names.new.items
        ≡ names.old.items ++ fields_at k place fields.now) }
    ensures end { IfOk result (λ p. p ≡ behind k place (field_types fields.now)) }
    ensures near { IfOk result (λ p. p ≤ place + 64 * length fields.now) }
{
    match fields {
        [] => Ok(place),
        [first, rest @ ..] => {
            let ty = first.ty;
            let name = first.name.copy()?;
            names.push(Known { name, ty, place })?;
            place_fields(names, k, further(place, size_of(k, ty)), rest)
        }
    }
}
