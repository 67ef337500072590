//! Lists of nodes.
ghost use Rattle.std.specs.Prelude.{◌≡◌};

use std::marker::Model;

/// Nodes in the order in which a text names them; one may stand there more than once.
#[derive(Drop, Debug)]
pub struct NodeList {
    nodes: Vec<u32>,
}

impl Model for NodeList {
    ghost use Rattle.std.specs.Prelude.{List, ℕ};

    ghost Value = { List ℕ };

    ghost view = { λ l. l.nodes.items };
}

impl NodeList {
    ghost use Rattle.omission_texts.specs.Meaning.{has_node};

    pub fn new(nodes: Vec<u32>) -> NodeList
        ensures { result ≡ nodes.items }
    {
        NodeList { nodes }
    }

    pub fn as_slice(&self) -> &[u32]
        ensures { result.now ≡ self.now }
    {
        &self.nodes
    }

    /// Takes as long as the list.
    pub fn contains(&self, node: u32) -> bool
        ensures { result ≡ has_node self.now node }
    {
        self.nodes.contains(&node)
    }
}
