//! The end of a node's round.
ghost use Rattle.std.specs.Arc.{arc_value};
ghost use Rattle.std.specs.Prelude.{◌≡◌, ◌<◌, IfOk, Some, length};
ghost use Rattle.step_machine.specs.Nodes.{IsEnd, IsHeld, algorithm_in, held_now};

use crate::node::Node;
use crate::sealed::Sealed;
use crate::stored_state::StoredState;
use round_lang::Vars;
use run_events::NoMemory;
use std::sync::Arc;

/// What a node ended its round with.
#[derive(Clone, Copy)]
pub struct Finished<'a> {
    pub(super) node: &'a Node,
    pub(super) ghost ended: { IsEnd node.now },
}

impl<'a> Finished<'a> {
    /// The node that ended a round.
    pub fn node(&self) -> u32
        ensures value { result ≡ self.now.node.now.me }
        ensures one { result < self.now.node.now.setup.nodes }
    {
        let node = self.node;
        node.me
    }

    pub fn round(&self) -> u32
        ensures { result ≡ self.now.node.now.round }
    {
        let node = self.node;
        node.round
    }

    /// The state before the round's end.
    pub fn old(&self) -> &'a Vars
        ensures { result.now ≡ self.now.node.now.state }
    {
        let node = self.node;
        &node.state
    }

    /// The frames of the round, from which the new state was computed, by sender.
    pub fn frames(&self) -> &'a [Option<Sealed>]
        ensures value { result.now ≡ held_now self.now.node.now }
        ensures sized { length result.now ≡ self.now.node.now.setup.nodes }
        ensures held { IsHeld (algorithm_in self.now.node.now) self.now.node.now.setup.nodes
            self.now.node.now.me self.now.node.now.round result.now }
    {
        let node = self.node;
        node.held[0].frames()
    }

    /// The state after the round in few bytes, to be shared. Its kinds are shared with the program.
    pub fn stored_state(&self) -> Result<Arc<StoredState>, NoMemory>
        ensures { IfOk result (λ s. Some (arc_value s) ≡ self.now.node.now.next) }
    {
        let node = self.node;
        let shape = node.machine.program().state_shape();
        let stored = StoredState::new(node.alloc, shape, &node.next)?;
        Ok(Arc::new(node.alloc, stored)?)
    }
}
