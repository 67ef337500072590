//! What a report says of a program's variables.
ghost use Rattle.std.specs.Prelude.{◌≡◌, IfOk};
ghost use Rattle.omission_explainer.specs.Reported.{declared_names, declared_types};
ghost use Rattle.round_check.specs.Types.{kind_type};

use crate::listed::Listed;
use round_lang::{Identifier, Program, Ty, VariableKind};
use run_events::NoMemory;
use std::alloc::Global;

/// The names of the variables, in the order in which they are declared.
pub fn variable_names(alloc: Global, program: &Program) -> Result<Listed<Identifier>, NoMemory>
    ensures { IfOk result (λ names. names ≡ declared_names program.now) }
{
    let mut names = Vec::new(alloc);
    for variable in program.variables() {
        names.push(variable.name.copy()?)?;
    }
    Ok(Listed::new(names))
}

/// Their types, in the same order; an input is a number.
pub fn variable_types(alloc: Global, program: &Program) -> Result<Listed<Ty>, NoMemory>
    ensures { IfOk result (λ types. types ≡ declared_types program.now) }
{
    let mut types = Vec::new(alloc);
    for variable in program.variables() {
        types.push(type_of(&variable.kind))?;
    }
    Ok(Listed::new(types))
}

fn type_of(kind: &VariableKind) -> Ty
    ensures { result ≡ kind_type kind.now }
{
    match kind {
        VariableKind::Input => Ty::Num,
        VariableKind::State { ty, start: _ } => *ty,
    }
}
