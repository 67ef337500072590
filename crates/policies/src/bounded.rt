//! Messages that are delayed by so many steps.
ghost use Rattle.std.specs.Prelude.{◌≡◌, ◌≤◌, ◌↔◌, IfSome, IfNone, IsTrue, All};
ghost use Rattle.policies.specs.Policies.{BoundedChooses, IsDue, IsLeastDue, delay_of, due_at};

use crate::policy::{Choice, Policy};
use crate::table::Table;
use run_events::InFlight;

/// Delays each message by a table, within a bound from a step on.
///
/// The message with the serial k has the delay `delays[k mod len]`: 1 if the table is empty or
/// the entry is 0, and at most `delta` if it was sent at the step `gst` or later. It's released
/// from the tick `sent_at + delay` on, and of those that are due the one with the least serial goes
/// first. `orders` says which node takes its step first in a tick.
#[derive(Drop, Debug)]
pub struct Bounded {
    pub delta: u32,
    pub gst: u32,
    pub delays: Table,
    pub orders: Table,
}

impl Bounded {
    /// The delay of a message, in steps.
    pub fn delay(&self, message: &InFlight) -> u32
        ensures { result ≡ delay_of self.now message.now }
    {
        let delay = self.delays.entry(message.serial, 1).max(1);
        if message.sent_at < self.gst {
            delay
        } else {
            delay.min(self.delta)
        }
    }

    /// The tick from which on a message is released.
    pub fn due(&self, message: &InFlight) -> u64
        ensures { result ≡ due_at self.now message.now }
    {
        u64::from(message.sent_at) + u64::from(self.delay(message))
    }
}

impl Policy for Bounded {
    ghost chooses = { λ old now flight answer new. BoundedChooses old now flight answer
        × (new ≡ old) };

    fn choose(&mut self, now: u32, flight: &[InFlight]) -> Option<Choice> {
        least_due(self, now, flight).map(Choice::Release)
    }
}

/// The place of the message with the least serial of those that are due; of several with this
/// serial, the first.
fn least_due(policy: &Bounded, now: u32, flight: &[InFlight]) -> Option<usize>
    ensures some { IfSome result (IsLeastDue policy.now now flight.now) }
    ensures none { IfNone result (All (λ m. ¬ (IsDue policy.now now m)) flight.now) }
{
    let mut least: Option<usize> = None;
    for (place, message) in flight.iter().enumerate() {
        if policy.due(message) <= u64::from(now) {
            match least {
                Some(other) if flight[other].serial <= message.serial => {}
                _ => least = Some(place),
            }
        }
    }
    least
}
