//! Reports: what a run of single steps was, as a run in rounds with omissions.

use crate::listed::Listed;
use round_lang::{Identifier, Ty};
use round_meaning::NodeSet;
use std::marker::Model;
use std::sync::Arc;
use step_machine::StoredState;

/// A closed round of a node: the nodes heard from, those that were silent to it, those whose
/// message was omitted, and its state and decision after the round. Rounds count from 1 and nodes
/// from 0.
#[derive(Drop)]
pub struct ReportRow {
    pub round: u32,
    pub node: u32,
    pub heard: NodeSet,
    pub silent: NodeSet,
    pub omitted: NodeSet,
    pub state: Arc<StoredState>,
    pub decision: Option<u32>,
}

impl Model for ReportRow {
    ghost use Rattle.std.specs.Arc.{arc_value};
    ghost use Rattle.omission_explainer.specs.Rows.{ClosedRound};

    ghost Value = { ClosedRound };

    ghost view = { λ r. record {
      round = r.round;
      node = r.node;
      heard = r.heard.bits;
      silent = r.silent.bits;
      omitted = r.omitted.bits;
      state = arc_value r.state;
      decision = r.decision;
    } };
}

/// A run in rounds of a program over the values 0 to `values` - 1, of which there are 1 to 64.
///
/// `names` and `types` are the variables' in the order of their declarations, the input among them.
/// `rows` has a row for each closed round of each node, by round and then by node. `counts` has for
/// each node from 0 its number of steps, idle ones too, and its number of closed rounds.
#[derive(Drop)]
pub struct Report {
    pub values: u32,
    pub names: Listed<Identifier>,
    pub types: Listed<Ty>,
    pub rows: Listed<ReportRow>,
    pub counts: Listed<(u64, u64)>,
}
