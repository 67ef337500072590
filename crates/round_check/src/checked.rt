//! Checked programs.
ghost use Rattle.std.specs.Prelude.{◌≡◌, ◌↔◌, true, IfOk, IfErr, IfSome, IsErrOf, IsTrue, OnOk};
ghost use Rattle.std.specs.Prelude.{option_copied, slice_get};
ghost use Rattle.std.specs.Arc.{arc_value};
ghost use Rattle.round_check.specs.Causes.{fault_of, is_typed, input_name, decided_name};
ghost use Rattle.round_check.specs.Shapes.{message_kinds, state_kinds};

use crate::causes::{first_cause, first_input};
use crate::fault::CheckFault;
use crate::shapes::ShapedProgram;
use round_lang::{Identifier, Program, Shape};
use run_events::NoMemory;
use std::alloc::Global;
use std::marker::Model;
use std::sync::Arc;

/// A program in which every name has one meaning and every expression its type, with the shapes of
/// its states and messages; copies share them.
#[derive(Drop)]
pub struct Checked {
    shaped: Arc<ShapedProgram>,
}

impl Model for Checked {
    ghost use Rattle.std.specs.Prelude.{ℕ, ◌≡◌, true};
    ghost use Rattle.round_lang.specs.Syntax.{ProgramTree};
    ghost use Rattle.std.specs.Arc.{arc_value};
    ghost use Rattle.round_lang.specs.contracts.formula.Formula as formula;
    ghost use Rattle.std.specs.Coded.{codes};
    ghost use Rattle.round_check.specs.Causes.{is_typed};

    ghost Value = { ProgramTree };

    ghost coded = { Prim.hlevel (codes, formula.the_row.coded) };

    ghost view = { λ c. (arc_value c.shaped).program };

    ghost invariant = { λ c. is_typed (arc_value c.shaped).program ≡ true };
}

/// The program if no cause stands against it, else the first that stands; NoMemory only if
/// none stands and memory runs out.
pub fn check(alloc: Global, program: Program) -> Result<Checked, CheckFault>
    ensures ok { IfOk result (λ checked. checked ≡ program) }
    ensures typed { OnOk result (is_typed program ≡ true) }
    ensures fault { IfSome (fault_of program) (λ fault. IsErrOf result fault) }
    ensures memory_alone { is_typed program ≡ true
        → IfErr result (λ fault. fault ≡ CheckFault.NoMemory) }
{
    if let Some(fault) = first_cause(&program) {
        return Err(fault);
    }
    match shared(alloc, program) {
        Ok(shaped) => Ok(Checked { shaped }),
        Err(NoMemory) => Err(CheckFault::NoMemory),
    }
}

fn shared(alloc: Global, program: Program) -> Result<Arc<ShapedProgram>, NoMemory>
    ensures { IfOk result (λ shaped. (arc_value shaped).program ≡ program) }
{
    Ok(Arc::new(alloc, ShapedProgram::new(alloc, program)?)?)
}

impl Checked {
    pub fn program(&self) -> &Program
        ensures { result.now ≡ self.now }
    {
        &self.shaped.program
    }

    /// The kinds of a state's values.
    pub fn state_shape(&self) -> &Shape
        ensures { result.now ≡ state_kinds self.now }
    {
        &self.shaped.state
    }

    /// The kinds of the values in a message of a block.
    pub fn message_shape(&self, block: usize) -> Option<&Shape>
        ensures { option_copied result ≡ slice_get (message_kinds self.now) block }
    {
        self.shaped.messages.get(block)
    }

    /// The same program; its tree and its shapes are shared.
    pub fn copy(&self) -> Result<Checked, NoMemory>
        ensures { IfOk result (λ checked. checked ≡ self.now) }
    {
        Ok(Checked {
            shaped: Arc::try_clone(&self.shaped)?,
        })
    }

    /// Whether both are one program, wherever they lie.
    pub fn same(&self, other: &Checked) -> bool
        ensures { IsTrue result ↔ (self.now ≡ other.now) }
    {
        self.shaped.spelling == other.shaped.spelling
    }

    /// Nothing at run time: what every checked program keeps.
    pub fn typed(&self)
        ensures { is_typed self.now ≡ true }
    {
        let _shaped = &self.shaped;
    }

    /// The input's name.
    pub fn input(&self) -> &Identifier
        ensures { result.now ≡ input_name self.now }
    {
        match first_input(self.shaped.program.variables()) {
            Some(name) => name,
            None => unreachable!(),
        }
    }

    /// The name after `decide`.
    pub fn decided(&self) -> &Identifier
        ensures { result.now ≡ decided_name self.now }
    {
        match self.shaped.program.decides() {
            [first, ..] => first,
            [] => unreachable!(),
        }
    }
}

/// Equal if both are one program, wherever they lie.
impl PartialEq for Checked {
    ghost use Rattle.round_lang.specs.Equality.{is_same, is_same_per};
    ghost use Rattle.round_check.specs.contracts.checked.Checked as checked;

    ghost eq = { is_same checked.the_row.coded };

    ghost laws = { is_same_per checked.the_row.coded };

    fn eq(&self, other: &Checked) -> bool {
        self.same(other)
    }
}

impl Eq for Checked {
    ghost use Rattle.round_lang.specs.Equality.{is_same_equiv};
    ghost use Rattle.round_check.specs.contracts.checked.Checked as checked;

    ghost laws = { is_same_equiv checked.the_row.coded };
}
