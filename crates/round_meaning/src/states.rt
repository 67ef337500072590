//! The states of all nodes, round by round.
ghost use Rattle.std.specs.Prelude.{◌≡◌, ◌<◌, ◌≤◌, [], ◌∷◌, ◌++◌, length, OnErr, OnOk};
ghost use Rattle.round_meaning.specs.States.{state_in};

use crate::turn::decision_of;
use round_check::Checked;
use round_lang::Vars;
use run_events::NoMemory;
use std::alloc::Global;
use std::marker::Model;

/// The states of all nodes at one time, by node.
#[derive(Drop)]
pub(crate) struct Snapshot {
    states: Vec<Vars>,
}

impl Model for Snapshot {
    ghost use Rattle.std.specs.Prelude.{List};
    ghost use Rattle.round_lang.specs.declared.value.Value.{Value as OneValue};

    ghost Value = { List (List OneValue) };

    ghost view = { λ s. s.states.items };
}

impl Snapshot {
    pub(crate) fn new(alloc: Global) -> Snapshot
        ensures { result ≡ [] }
    {
        Snapshot {
            states: Vec::new(alloc),
        }
    }

    pub(crate) fn push(&mut self, state: Vars) -> Result<(), NoMemory>
        ensures ok { OnOk result (self.new ≡ self.old ++ state ∷ []) }
        ensures err { OnErr result (self.new ≡ self.old) }
    {
        self.states.push(state)?;
        Ok(())
    }

    /// The state of a node.
    pub(crate) fn state(&self, node: u32) -> &Vars
        requires { node < length self.now }
        ensures { result.now ≡ state_in self.now node }
    {
        &self.states[node as usize]
    }
}

/// The states of all nodes of a program after each round of a run, the initial ones among them.
#[derive(Drop)]
pub struct StateTable {
    program: Checked,
    nodes: u32,
    rounds: u32,
    snapshots: Vec<Snapshot>,
}

impl Model for StateTable {
    ghost use Rattle.round_meaning.specs.States.{IsComplete, States};
    ghost use Rattle.round_lang.specs.contracts.formula.Formula as formula;
    ghost use Rattle.std.specs.Coded.{codes};

    ghost Value = { States };

    ghost coded = { Prim.hlevel (codes, formula.the_row.coded) };

    ghost view = { λ t. record {
      program = t.program;
      nodes = t.nodes;
      rounds = t.rounds;
      by_round = t.snapshots.items;
    } };

    ghost invariant = { λ t. IsComplete t.nodes t.rounds t.snapshots.items };
}

impl StateTable {
    ghost use Rattle.std.specs.Prelude.{◌≡◌, ◌<◌, ◌≤◌};
    ghost use Rattle.round_meaning.specs.States.{IsComplete, state_of};
    ghost use Rattle.round_meaning.specs.Turn.{decision};

    pub(crate) fn new(
        program: Checked,
        nodes: u32,
        rounds: u32,
        snapshots: Vec<Snapshot>,
    ) -> StateTable
        requires { IsComplete nodes rounds snapshots.items }
        ensures { result ≡ record {
          program = program;
          nodes = nodes;
          rounds = rounds;
          by_round = snapshots.items;
        } }
    {
        StateTable {
            program,
            nodes,
            rounds,
            snapshots,
        }
    }

    pub fn nodes(&self) -> u32
        ensures { result ≡ self.now.nodes }
    {
        self.nodes
    }

    /// How many rounds were run.
    pub fn rounds(&self) -> u32
        ensures { result ≡ self.now.rounds }
    {
        self.rounds
    }

    /// The state of a node after a round, the initial one at round 0.
    pub fn state(&self, node: u32, round: u32) -> &Vars
        requires node { node < self.now.nodes }
        requires round { round ≤ self.now.rounds }
        ensures { result.now ≡ state_of self.now node round }
    {
        let snapshot = &self.snapshots[round as usize];
        snapshot.state(node)
    }

    /// The decision in that state.
    pub fn decision(&self, node: u32, round: u32) -> Option<u32>
        requires node { node < self.now.nodes }
        requires round { round ≤ self.now.rounds }
        ensures { result ≡ decision self.now.program (state_of self.now node round) }
    {
        decision_of(&self.program, self.state(node, round))
    }
}
