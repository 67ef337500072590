//! What happens in a run.

use crate::name::Name;

/// An event of a trace: a node takes its next step, or the network lets a copy of a message go to
/// its receiver's buffer, loses it, or makes it of the original.
#[derive(Clone, Copy, PartialEq, Eq, Debug)]
pub enum Event {
    Step(u32),
    Release(Name),
    Drop(Name),
    Copy(Name),
}
