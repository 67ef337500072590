//! A node's buffer, which knows whose it is.
ghost use Rattle.std.specs.Prelude.{◌≡◌, [], IfOk};

use round_check::Checked;
use round_meaning::Setup;
use run_events::NoMemory;
use std::alloc::Global;
use step_book::Buffer;

/// The frames that are in flight to a node or wait for it, with the node's number, so that a call
/// can tell whose buffer stands under the lock that it took.
#[derive(Drop)]
pub(crate) struct NodeBuffer {
    pub(crate) frames: Buffer,
    pub(crate) node: u32,
}

impl NodeBuffer {
    /// No frames for a node of a run.
    pub(crate) fn new(
        alloc: Global,
        program: &Checked,
        setup: &Setup,
        node: u32,
    ) -> Result<NodeBuffer, NoMemory>
        ensures node { IfOk result (λ buffer. buffer.node ≡ node) }
        ensures program { IfOk result (λ buffer. buffer.frames.program ≡ program.now) }
        ensures setup { IfOk result (λ buffer. buffer.frames.setup ≡ setup.now) }
        ensures flying { IfOk result (λ buffer. buffer.frames.flying ≡ []) }
        ensures waiting { IfOk result (λ buffer. buffer.frames.waiting ≡ []) }
    {
        Ok(NodeBuffer {
            frames: Buffer::new(alloc, program, setup)?,
            node,
        })
    }
}
