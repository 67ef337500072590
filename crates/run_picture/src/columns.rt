//! Where events stand from left to right.
use round_meaning::NodeSet;

/// The columns of a picture, which are given to steps in the order of the trace. Steps that follow
/// each other share a column if they are of different nodes, and none of them takes a message that
/// was sent or copied in it: so time never goes back, neither along a lane nor along an arrow. A
/// column also begins if a gap between two columns has no room for the end of one more arrow.
///
/// Places are counted in half columns: a column's is even, and between two columns it's odd.
#[derive(Clone, Copy)]
pub(crate) struct Columns {
    column: u32,
    filled: NodeSet,
    is_full: bool,
}

impl Columns {
    pub(crate) fn new() -> Columns {
        Columns {
            column: 0,
            filled: NodeSet::empty(),
            is_full: false,
        }
    }

    /// The place of the next step, which is of this node. `latest` is where the last of the
    /// messages that it takes was made, if it takes any.
    pub(crate) fn step(&mut self, node: u32, latest: Option<u32>) -> u32 {
        if self.is_full || self.filled.contains(node) || self.is_reached(latest) {
            self.begin_column();
        }
        self.filled = self.filled.with(node);
        self.here()
    }

    /// The place of a step that isn't drawn. If it takes a message, what follows is drawn after it.
    pub(crate) fn pass(&mut self, latest: Option<u32>) -> u32 {
        if latest.is_some() {
            self.is_full = true;
        }
        self.between()
    }

    /// Begins a column.
    pub(crate) fn begin_column(&mut self) {
        self.column = self.column.saturating_add(1);
        self.filled = NodeSet::empty();
        self.is_full = false;
    }

    /// The place of an event of the network.
    pub(crate) fn between(&self) -> u32 {
        self.here().saturating_add(1)
    }

    /// The place of the last column.
    pub(crate) fn here(&self) -> u32 {
        self.column.saturating_mul(2)
    }

    fn is_reached(&self, latest: Option<u32>) -> bool {
        match latest {
            Some(at) => self.here() <= at,
            None => false,
        }
    }
}
