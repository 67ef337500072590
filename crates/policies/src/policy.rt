//! What a policy is asked and what it answers.
ghost use Rattle.std.specs.Prelude.{ℕ, List, Option};
ghost use Rattle.run_events.specs.declared.in_flight.InFlight.{InFlight as OneInFlight};
ghost use Rattle.policies.specs.declared.policy.Choice.{Choice as OneChoice};

use run_events::InFlight;

/// What the network does next, and with which message: its place in the list of those in flight,
/// from 0. A place past the end of the list counts as no choice.
///
/// `Copy` makes the least copy that wasn't made of the message; at an entry that isn't copy 0, or
/// if all copies were made, it counts as no choice.
#[derive(Clone, Copy, PartialEq, Eq, Debug)]
pub enum Choice {
    Release(usize),
    Drop(usize),
    Copy(usize),
}

/// Who decides what the network does next.
pub trait Policy {
    /// What it answers at a tick over the messages in flight, and what it is after that.
    ghost chooses: { Self → ℕ → List OneInFlight → Option OneChoice → Self → Type 0 };

    /// What the network does next at the tick `now`, over the copies of messages in flight, which
    /// stand in the order of their serials, and then of their copy numbers.
    fn choose(&mut self, now: u32, flight: &[InFlight]) -> Option<Choice>
        ensures { chooses self.old now flight.now result self.new };
}
