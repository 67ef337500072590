//! Rows of missed nodes that are given, some of which a trial leaves out.
ghost use Rattle.std.specs.Prelude.{false};

use crate::missing::{Rows, stopped};
use round_explorer::{Case, is_row, may_be_heard};
use round_meaning::{NodeSet, OmissionTable};
use run_events::NoMemory;
use std::alloc::Global;

/// Some nodes in the rows from one place up to another.
#[derive(Clone, Copy, PartialEq, Eq, Debug)]
pub(crate) struct Block {
    pub(crate) first: usize,
    pub(crate) after: usize,
    pub(crate) nodes: NodeSet,
}

impl Block {
    fn nothing() -> Block {
        Block {
            first: 0,
            after: 0,
            nodes: NodeSet::empty(),
        }
    }

    /// Those of the nodes in a row that are in the block.
    fn part_of(self, place: usize, row: NodeSet) -> u64 {
        if self.first <= place && place < self.after {
            self.nodes.bits & row.bits
        } else {
            0
        }
    }
}

/// What each node misses in each round up to one, but for the nodes that have stopped. No contract
/// speaks of it: whether the runs fail that are made of it is tested.
#[derive(Drop)]
pub(crate) struct Listed {
    /// A row for each node in each round.
    rows: Vec<NodeSet>,
    nodes: u32,
    /// What is left out for a trial.
    trial: Block,
}

impl Listed {
    /// What a table omits up to a round.
    pub(crate) fn new(
        alloc: Global,
        case: &Case<'_>,
        last: u32,
        table: &OmissionTable,
    ) -> Result<Listed, NoMemory> {
        let nodes = case.setup().nodes;
        let mut rows = Vec::new(alloc);
        for round in 1..=last {
            for me in 0..nodes {
                rows.push(row_in(case, table, round, me))?;
            }
        }
        Ok(Listed {
            rows,
            nodes,
            trial: Block::nothing(),
        })
    }

    pub(crate) fn len(&self) -> usize {
        self.rows.len()
    }

    /// How many messages are omitted.
    pub(crate) fn count(&self) -> u64 {
        let mut count: u64 = 0;
        for row in &self.rows {
            count = count.saturating_add(u64::from(row.bits.count_ones()));
        }
        count
    }

    /// Whether a message of the block is omitted.
    pub(crate) fn omits_in(&self, block: Block) -> bool {
        for place in block.first..block.after {
            if let Some(row) = self.rows.get(place) {
                if block.part_of(place, *row) != 0 {
                    return true;
                }
            }
        }
        false
    }

    /// Leaves out a block until it's settled.
    pub(crate) fn leave_out(&mut self, block: Block) {
        self.trial = block;
    }

    /// Leaves it out for good, or not at all.
    pub(crate) fn settle(&mut self, for_good: bool) {
        if for_good {
            for place in self.trial.first..self.trial.after {
                self.take_out(place);
            }
        }
        self.trial = Block::nothing();
    }

    fn take_out(&mut self, place: usize) {
        if let Some(row) = self.rows.get_mut(place) {
            row.bits &= !self.trial.part_of(place, *row);
        }
    }
}

impl Rows for Listed {
    ghost complete = { false };

    fn begin_round(&mut self, _round: u32) {}

    fn row(&mut self, case: &Case<'_>, round: u32, me: u32) -> Option<NodeSet> {
        let before = u64::from(round.saturating_sub(1)).saturating_mul(u64::from(self.nodes));
        let place = before.saturating_add(u64::from(me)) as usize;
        let row = *self.rows.get(place)?;
        let kept = row.bits & !self.trial.part_of(place, row);
        let missed = NodeSet {
            bits: kept | stopped(case, round).bits,
        };
        if is_row(case, round, missed) {
            Some(missed)
        } else {
            None
        }
    }
}

/// The nodes that node `me` misses in a round and might hear.
fn row_in(case: &Case<'_>, table: &OmissionTable, round: u32, me: u32) -> NodeSet {
    let mut row = NodeSet::empty();
    for from in 0..case.setup().nodes {
        if table.is_omitted(me, round, from) && may_be_heard(case, round, from) {
            row = row.with(from);
        }
    }
    row
}
