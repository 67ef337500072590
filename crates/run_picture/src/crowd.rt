//! Ends of arrows before a lane.

/// How many rows of ends stand on each side of a lane.
const ROWS: u32 = 2;

/// What an arrow ends in if no receive takes its message.
#[derive(Clone, Copy, PartialEq, Eq, Debug)]
pub(crate) enum End {
    /// The message is dropped: a cross of its own.
    Cross,
    /// The message is released, and waits: a ring that it shares with all such messages.
    Ring,
}

/// The ends of arrows that no receive takes, in one gap between two columns, on both sides of the
/// lane of their receiver.
#[derive(Clone, Copy)]
pub(crate) struct Crowd {
    at: u32,
    above: Side,
    below: Side,
}

/// One side of a lane: how many rows are taken, and in which of them the ring stands.
#[derive(Clone, Copy)]
struct Side {
    taken: u32,
    ring: Option<u32>,
}

impl Crowd {
    pub(crate) fn new() -> Crowd {
        Crowd::at(0)
    }

    /// The row of the next end in this gap, from the lane outwards; `None` if none is left.
    pub(crate) fn row(&mut self, at: u32, is_above: bool, end: End) -> Option<u32> {
        if self.at != at {
            *self = Crowd::at(at);
        }
        if is_above {
            self.above.row(end)
        } else {
            self.below.row(end)
        }
    }

    fn at(at: u32) -> Crowd {
        Crowd {
            at,
            above: Side::empty(),
            below: Side::empty(),
        }
    }
}

impl Side {
    fn empty() -> Side {
        Side {
            taken: 0,
            ring: None,
        }
    }

    fn row(&mut self, end: End) -> Option<u32> {
        match end {
            End::Cross => self.take(),
            End::Ring => {
                if self.ring.is_none() {
                    self.ring = self.take();
                }
                self.ring
            }
        }
    }

    fn take(&mut self) -> Option<u32> {
        let row = self.taken;
        if row >= ROWS {
            return None;
        }
        self.taken = row + 1;
        Some(row)
    }
}
