//! What the threads of nodes pass.
use run_events::Name;

/// A moment of a node's thread: before it prepares a message and before it finishes a round, while
/// it holds no lock; in a send, with the lock of the receiver's buffer held and the book's not; and
/// when a send or the end of a round is recorded and the locks are given back.
#[derive(Clone, Copy, PartialEq, Eq, Debug)]
pub enum Point {
    Prepare(Name),
    Finish { node: u32, round: u32 },
    Send(Name),
    Sent(Name),
    Closed { node: u32, round: u32 },
}

/// What may watch or hold the threads at their points.
pub trait Gate {
    /// A thread has come to this point; it goes on when this returns.
    fn pass(&self, point: Point);
}

/// A gate that does nothing.
#[derive(Clone, Copy)]
pub struct OpenGate;

impl Gate for OpenGate {
    fn pass(&self, _point: Point) {}
}
