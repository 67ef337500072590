//! Crashes, omissions and delays of single messages.
ghost use Rattle.std.specs.Prelude.{◌≡◌, ◌↔◌, [], All, IsTrue};
ghost use Rattle.lockstep_runs.specs.Changes.{AreFit, IsFitDelay, IsFitStop, is_of, own_delay};
ghost use Rattle.lockstep_runs.specs.Changes.{stop_or};

use round_meaning::{NodeSet, OmissionTable, Setup};
use run_events::Name;
use schedule_text::Stop;
use std::alloc::Global;

/// The delay of a single message, in steps.
#[derive(Clone, Copy, PartialEq, Eq, Debug)]
pub struct MessageDelay {
    pub sender: u32,
    pub receiver: u32,
    pub round: u32,
    pub delay: u32,
}

/// What happens in a run beside what its tables say.
///
/// A node with a stop takes so many steps, one in each tick from the first on, in the same turns as
/// the correct nodes. Of several stops of a node the last holds. A message that is omitted is never
/// released. A message with a delay of its own is due by that one, of which 0 counts as 1, even
/// if it's above the bound; of several delays of a message the last holds.
#[derive(Drop)]
pub struct Changes {
    pub stops: Vec<Stop>,
    pub omissions: OmissionTable,
    pub delays: Vec<MessageDelay>,
}

impl Changes {
    /// No change; takes no memory.
    pub fn none(alloc: Global) -> Changes
        ensures stops { result.stops.items ≡ [] }
        ensures omissions { result.omissions ≡ [] }
        ensures delays { result.delays.items ≡ [] }
    {
        Changes {
            stops: Vec::new(alloc),
            omissions: OmissionTable::new(alloc),
            delays: Vec::new(alloc),
        }
    }

    /// Whether each stop is of a node of the run that isn't correct, and each delay of a message of
    /// the run.
    pub(crate) fn are_fit(&self, setup: &Setup, correct: NodeSet) -> bool
        ensures { IsTrue result ↔ AreFit setup.now correct.bits self.now }
    {
        are_fit_stops(&self.stops, setup, correct) && are_fit_delays(&self.delays, setup)
    }
}

/// The number of steps of a node's last stop, or 0 if it has none.
pub(crate) fn last_stop(stops: &[Stop], node: u32) -> u32
    ensures { result ≡ stop_or 0 stops.now node }
{
    let mut found = 0;
    for stop in stops {
        if stop.node == node {
            found = stop.steps;
        }
    }
    found
}

/// A message's own delay, if it has one; the last entry for it counts.
pub(crate) fn own_delay(delays: &[MessageDelay], name: Name) -> Option<u32>
    ensures { result ≡ own_delay delays.now name }
{
    let mut found = None;
    for delay in delays {
        if is_of(*delay, name) {
            found = Some(delay.delay);
        }
    }
    found
}

fn is_of(delay: MessageDelay, name: Name) -> bool
    ensures { result ≡ is_of delay name }
{
    delay.sender == name.from && delay.receiver == name.to && delay.round == name.round
}

fn are_fit_stops(stops: &[Stop], setup: &Setup, correct: NodeSet) -> bool
    ensures { IsTrue result ↔ All (IsFitStop setup.now correct.bits) stops.now }
{
    for stop in stops {
        if stop.node >= setup.nodes || correct.contains(stop.node) {
            return false;
        }
    }
    true
}

fn are_fit_delays(delays: &[MessageDelay], setup: &Setup) -> bool
    ensures { IsTrue result ↔ All (IsFitDelay setup.now) delays.now }
{
    for delay in delays {
        if !is_fit_delay(*delay, setup) {
            return false;
        }
    }
    true
}

fn is_fit_delay(delay: MessageDelay, setup: &Setup) -> bool
    ensures { IsTrue result ↔ IsFitDelay setup.now delay }
{
    delay.sender < setup.nodes
        && delay.receiver < setup.nodes
        && 0 < delay.round
        && delay.round <= setup.rounds
}
