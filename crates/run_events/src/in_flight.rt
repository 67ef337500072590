//! Messages that the network has.

use crate::name::Name;

/// A message in flight, with its sender's step number and the count of messages sent before it.
#[derive(Clone, Copy, PartialEq, Eq, Debug)]
pub struct InFlight {
    pub name: Name,
    pub sent_at: u32,
    pub serial: usize,
}
