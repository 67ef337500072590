//! What a run in lockstep goes by.
ghost use Rattle.std.specs.Prelude.{◌≡◌, ◌<◌, ◌≤◌, ◌↔◌, IfSome, IsNone, IsTrue, true};
ghost use Rattle.lockstep_runs.specs.Changes.{due_by, own_delay, stop_of, timing_by};
ghost use Rattle.lockstep_runs.specs.IdleTicks.{step_list, turn_step};
ghost use Rattle.run_events.specs.Limits.{max_nodes};
ghost use Rattle.round_meaning.specs.Omissions.{is_omitted};

use crate::changes::{Changes, last_stop, own_delay};
use policies::Bounded;
use round_meaning::NodeSet;
use run_events::InFlight;

/// The correct nodes, the tables, and what happens beside them.
#[derive(Clone, Copy)]
pub struct Course<'a> {
    pub correct: NodeSet,
    pub bounded: &'a Bounded,
    pub changes: &'a Changes,
}

impl<'a> Course<'a> {
    /// Whether a node that took a step in each tick before takes one in this tick.
    pub(crate) fn goes_on(&self, node: u32, now: u32) -> bool
        ensures { IsTrue result ↔ IfSome
            (stop_of self.now.changes.now.stops.items self.now.correct.bits node)
            (λ stop. now < stop) }
    {
        self.correct.contains(node) || now < last_stop(&self.changes.stops, node)
    }

    /// The node of so many whose turn it is in a tick, if it hasn't stopped by then.
    pub fn step_of(&self, nodes: u32, tick: u32, turn: u32) -> Option<u32>
        requires turn { turn < nodes }
        requires nodes { nodes ≤ max_nodes }
        ensures step { step_list result ≡ turn_step (timing_by self.now.bounded.now
            self.now.changes.now self.now.correct.bits) nodes tick turn }
        ensures node { IfSome result (λ node. node < nodes) }
    {
        let first = self.bounded.orders.entry(tick as usize, 0) % nodes;
        let node = (first + turn) % nodes;
        if self.goes_on(node, tick) {
            Some(node)
        } else {
            None
        }
    }

    /// The tick in which a message is due, if it isn't omitted.
    pub(crate) fn due(&self, message: &InFlight) -> Option<u64>
        ensures omitted { let n = message.now.name in IsNone result
            ↔ (is_omitted self.now.changes.now.omissions n.to n.round n.from ≡ true) }
        ensures due { IfSome result (λ due. due ≡ due_by self.now.bounded.now
            (own_delay self.now.changes.now.delays.items message.now.name) message.now) }
    {
        let changes = self.changes;
        let name = message.name;
        if changes.omissions.is_omitted(name.to, name.round, name.from) {
            return None;
        }
        match own_delay(&changes.delays, name) {
            None => Some(self.bounded.due(message)),
            Some(delay) => Some(u64::from(message.sent_at) + u64::from(delay.max(1))),
        }
    }
}
