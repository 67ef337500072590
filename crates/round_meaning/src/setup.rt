//! What a run is asked for with.
ghost use Rattle.std.specs.Prelude.{◌≡◌, ◌<◌, ◌↔◌, All, IsTrue, IfOk, length, slice_index};
ghost use Rattle.round_meaning.specs.Setups.{IsLawful, IsSetup};

use round_check::Checked;
use run_events::{MAX_NODES, MAX_ROUNDS, NoMemory};
use std::marker::Model;

/// The most faults of a lawful setup.
pub const MAX_FAULTS: u32 = 15;

/// The nodes' inputs, by node.
#[derive(Drop, Debug)]
pub struct Inputs {
    values: Vec<u32>,
}

impl Model for Inputs {
    ghost use Rattle.std.specs.Prelude.{List, ℕ};

    ghost Value = { List ℕ };

    ghost view = { λ i. i.values.items };
}

impl Inputs {
    pub fn new(values: Vec<u32>) -> Inputs
        ensures { result ≡ values.items }
    {
        Inputs { values }
    }

    pub fn into_vec(self) -> Vec<u32>
        ensures { result.items ≡ self }
    {
        let Inputs { values } = self;
        values
    }

    pub fn as_slice(&self) -> &[u32]
        ensures { result.now ≡ self.now }
    {
        &self.values
    }

    /// The input of a node, 0 if it has none.
    pub fn of(&self, node: u32) -> u32
        ensures { result ≡ slice_index self.now node }
    {
        match self.values.get(node as usize) {
            Some(input) => *input,
            None => 0,
        }
    }

    pub fn copy(&self) -> Result<Inputs, NoMemory>
        ensures { IfOk result (λ i. i ≡ self.now) }
    {
        Ok(Inputs {
            values: self.values.clone()?,
        })
    }

    /// Whether both give each node the same input.
    pub fn same(&self, other: &Inputs) -> bool
        ensures { IsTrue result ↔ (self.now ≡ other.now) }
    {
        self.values.as_slice() == other.values.as_slice()
    }
}

/// Equal if both give each node the same input, wherever they lie.
impl PartialEq for Inputs {
    ghost use Rattle.round_lang.specs.Equality.{is_same, is_same_per};
    ghost use Rattle.round_meaning.specs.contracts.setup.Inputs as inputs;

    ghost eq = { is_same inputs.the_row.coded };

    ghost laws = { is_same_per inputs.the_row.coded };

    fn eq(&self, other: &Inputs) -> bool {
        self.same(other)
    }
}

impl Eq for Inputs {
    ghost use Rattle.round_lang.specs.Equality.{is_same_equiv};
    ghost use Rattle.round_meaning.specs.contracts.setup.Inputs as inputs;

    ghost laws = { is_same_equiv inputs.the_row.coded };
}

/// N nodes of which up to t may fail, each node's input, and how many rounds are to be run. A
/// lawful one has 1 to 16 nodes, 0 to 15 faults, 1 to 4,096 rounds and an input below K for each
/// node.
#[derive(PartialEq, Eq, Drop, Debug)]
pub struct Setup {
    pub nodes: u32,
    pub faults: u32,
    pub inputs: Inputs,
    pub rounds: u32,
}

impl Setup {
    pub fn is_lawful(&self, program: &Checked) -> bool
        ensures { IsTrue result ↔ IsLawful program.now.values self.now }
    {
        is_sized(self) && are_below(self.inputs.as_slice(), program.program().values())
    }

    pub fn copy(&self) -> Result<Setup, NoMemory>
        ensures { IfOk result (λ s. s ≡ self.now) }
    {
        Ok(Setup {
            nodes: self.nodes,
            faults: self.faults,
            inputs: self.inputs.copy()?,
            rounds: self.rounds,
        })
    }

    /// Whether both ask for the same run.
    pub fn same(&self, other: &Setup) -> bool
        ensures { IsTrue result ↔ (self.now ≡ other.now) }
    {
        self.nodes == other.nodes
            && self.faults == other.faults
            && self.inputs.same(&other.inputs)
            && self.rounds == other.rounds
    }
}

fn is_sized(setup: &Setup) -> bool
    ensures { IsTrue result ↔ IsSetup setup.now }
{
    1 <= setup.nodes
        && setup.nodes <= MAX_NODES
        && setup.faults <= MAX_FAULTS
        && 1 <= setup.rounds
        && setup.rounds <= MAX_ROUNDS
        && setup.inputs.as_slice().len() == setup.nodes as usize
}

fn are_below(inputs: &[u32], values: u32) -> bool
    ensures { IsTrue result ↔ All (λ x. x < values) inputs.now }
{
    inputs.iter().all(|input| *input < values)
}
