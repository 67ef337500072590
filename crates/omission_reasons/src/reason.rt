//! Why a message wasn't heard.

/// Why a copy of a message isn't heard in the message's round. Places are those of events in the
/// trace, from 0.
#[derive(Clone, Copy, PartialEq, Eq, Debug)]
pub enum Reason {
    /// Its sender never took the step that sends the message.
    NotSent,
    /// It's still in flight.
    InFlight,
    /// The network dropped it.
    Dropped {
        place: usize,
    },
    /// It was released, and waits in the buffer of its receiver, which received nothing after that.
    Waiting {
        released: usize,
    },
    /// It was received in a round after the message's.
    Late {
        released: usize,
        received: usize,
        round: u32,
    },
    /// It was received before the first round in which the message is kept.
    Early {
        released: usize,
        received: usize,
        round: u32,
    },
}
