//! Programs.
ghost use Rattle.std.specs.Prelude.{◌≡◌, ◌≤◌, ◌<◌, ◌↔◌, IsTrue, length, vec_len};
ghost use Rattle.round_lang.specs.Limits.{IsSized, max_period, max_values, max_variables};

use crate::block::Block;
use crate::equal::same_parts;
use crate::expr::Ty;
use crate::formula::Formula;
use crate::identifier::Identifier;
use std::marker::Model;

/// How a state variable begins: as the node's input, or with the value of a formula.
#[derive(PartialEq, Eq, Drop, Debug)]
pub enum VariableKind {
    Input,
    State { ty: Ty, start: Formula },
}

/// A state variable.
#[derive(PartialEq, Eq, Drop, Debug)]
pub struct Variable {
    pub name: Identifier,
    pub kind: VariableKind,
}

/// A program over the values 0 to K-1, whose blocks recur with a period: K is 1 to 64, the period 1
/// to 8, and there are at most 16 variables, the input among them.
#[derive(Drop, Debug)]
pub struct Program {
    values: u32,
    period: u32,
    variables: Vec<Variable>,
    decides: Vec<Identifier>,
    blocks: Vec<Block>,
}

impl Model for Program {
    ghost use Rattle.std.specs.Prelude.{vec_len};
    ghost use Rattle.round_lang.specs.Syntax.{ProgramTree};
    ghost use Rattle.round_lang.specs.Limits.{IsSized};
    ghost use Rattle.round_lang.specs.contracts.formula.Formula as formula;
    ghost use Rattle.std.specs.Coded.{codes};

    ghost Value = { ProgramTree };

    ghost coded = { Prim.hlevel (codes, formula.the_row.coded) };

    ghost view = { λ p. record {
      values = p.values;
      period = p.period;
      variables = p.variables.items;
      decides = p.decides.items;
      blocks = p.blocks.items;
    } };

    ghost invariant = { λ p. IsSized p.values p.period (vec_len p.variables) };
}

impl Program {
    ghost use Rattle.round_lang.specs.Syntax.{ProgramTree};

    pub fn new(
        values: u32,
        period: u32,
        variables: Vec<Variable>,
        decides: Vec<Identifier>,
        blocks: Vec<Block>,
    ) -> Program
        requires { IsSized values period (vec_len variables) }
        ensures { result ≡ record {
          values = values;
          period = period;
          variables = variables.items;
          decides = decides.items;
          blocks = blocks.items;
        } }
    {
        Program {
            values,
            period,
            variables,
            decides,
            blocks,
        }
    }

    /// K, the number of values.
    pub fn values(&self) -> u32
        ensures value { result ≡ self.now.values }
        ensures some { 0 < result }
        ensures few { result ≤ max_values }
    {
        self.values
    }

    /// How many rounds a period has.
    pub fn period(&self) -> u32
        ensures value { result ≡ self.now.period }
        ensures some { 0 < result }
        ensures few { result ≤ max_period }
    {
        self.period
    }

    /// The state variables in the order of their declarations, the input among them.
    pub fn variables(&self) -> &[Variable]
        ensures value { result.now ≡ self.now.variables }
        ensures few { length result.now ≤ max_variables }
    {
        &self.variables
    }

    /// The name after each `decide`.
    pub fn decides(&self) -> &[Identifier]
        ensures { result.now ≡ self.now.decides }
    {
        &self.decides
    }

    pub fn blocks(&self) -> &[Block]
        ensures { result.now ≡ self.now.blocks }
    {
        &self.blocks
    }

    /// Whether both are one program.
    pub fn same(&self, other: &Program) -> bool
        ensures { IsTrue result ↔ (self.now ≡ other.now) }
    {
        self.values == other.values
            && self.period == other.period
            && same_parts(&self.variables, &other.variables)
            && same_parts(&self.decides, &other.decides)
            && same_parts(&self.blocks, &other.blocks)
    }
}

/// Equal if both are one program, wherever they lie.
impl PartialEq for Program {
    ghost use Rattle.round_lang.specs.Equality.{is_same, is_same_per};
    ghost use Rattle.round_lang.specs.contracts.program.Program as program;

    ghost eq = { is_same program.the_row.coded };

    ghost laws = { is_same_per program.the_row.coded };

    fn eq(&self, other: &Program) -> bool {
        self.same(other)
    }
}

impl Eq for Program {
    ghost use Rattle.round_lang.specs.Equality.{is_same_equiv};
    ghost use Rattle.round_lang.specs.contracts.program.Program as program;

    ghost laws = { is_same_equiv program.the_row.coded };
}
