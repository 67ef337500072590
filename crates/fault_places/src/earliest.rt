//! The first fault of a text among those that are found.
ghost use Rattle.std.specs.Prelude.{◌≡◌, ◌≤◌, ◌<◌, Some};

use crate::fault::FaultPlace;

/// The fault that begins first among those that were noted, and where it begins.
#[derive(Clone, Copy, Debug)]
pub(crate) struct Earliest<'a> {
    pub(crate) first: usize,
    pub(crate) fault: Option<FaultPlace<'a>>,
}

impl<'a> Earliest<'a> {
    /// No fault yet.
    pub(crate) fn new() -> Earliest<'a> {
        Earliest {
            first: usize::MAX,
            fault: None,
        }
    }

    /// Notes a fault that begins at the offset. Of two that begin there the one noted first stays.
    pub(crate) fn note(&mut self, first: usize, fault: FaultPlace<'a>)
        ensures earlier { first < self.old.first → self.new.first ≡ first }
        ensures told { first < self.old.first → self.new.fault ≡ Some fault.entry }
        ensures kept { self.old.first ≤ first → self.new ≡ self.old }
    {
        if first < self.first {
            self.first = first;
            self.fault = Some(fault);
        }
    }
}
