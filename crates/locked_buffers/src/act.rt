//! What the network does to a copy of a message.
ghost use Rattle.std.specs.Prelude.{◌≡◌};
ghost use Rattle.locked_buffers.specs.Acts.{event_of};

use run_events::{Event, Name};
use step_machine::Sealed;

/// What the network does to a copy of a message: it lets the copy go to those that wait for their
/// receiver, loses it, or makes it of copy 0.
#[derive(Clone, Copy)]
pub(crate) enum Act {
    Release,
    Drop,
    Copy,
}

impl Act {
    /// The event of this act on a copy.
    pub(crate) fn event(self, name: Name) -> Event
        ensures { result ≡ event_of self name }
    {
        match self {
            Act::Release => Event::Release(name),
            Act::Drop => Event::Drop(name),
            Act::Copy => Event::Copy(name),
        }
    }
}

/// What an act found under the lock of the receiver's buffer.
#[derive(Drop)]
pub(crate) struct Found {
    /// Whether the copy's frame is in flight.
    pub(crate) has_frame: bool,
    /// What is to be in flight, if the act makes a copy and copy 0 is in flight.
    pub(crate) copied: Option<Sealed>,
}
