//! Where messages come from.
use frame_format::Layout;
use round_lang::Vars;
use std::alloc::Global;
use std::sync::Arc;

/// The state that a node says something of, and the layout of the frames that it says it in. It's
/// shared by all that the node sends in a round.
#[derive(Drop)]
pub(crate) struct Origin {
    pub(crate) alloc: Global,
    pub(crate) state: Vars,
    pub(crate) layout: Arc<Layout>,
}
