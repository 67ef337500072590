//! Sets of nodes.
ghost use Rattle.std.specs.Prelude.{◌≡◌};
ghost use Rattle.round_lang.specs.Sets.{only, union};
ghost use Rattle.round_meaning.specs.Nodes.{has_node};

use round_lang::ValueSet;

/// A set of nodes, each below 64.
#[derive(Clone, Copy, PartialEq, Eq, Debug)]
pub struct NodeSet {
    pub bits: u64,
}

impl NodeSet {
    pub fn empty() -> NodeSet
        ensures { result.bits ≡ 0 }
    {
        NodeSet { bits: 0 }
    }

    /// The same with one node more.
    pub fn with(self, node: u32) -> NodeSet
        ensures { result.bits ≡ union self.bits (only 64 node) }
    {
        let one = ValueSet::single(64, node);
        NodeSet {
            bits: ValueSet { bits: self.bits }.union(one).bits,
        }
    }

    pub fn contains(self, node: u32) -> bool
        ensures { result ≡ has_node self.bits node }
    {
        ValueSet { bits: self.bits }.has(64, node)
    }
}
