//! Messages in an order that was fixed beforehand.
ghost use Rattle.std.specs.Prelude.{◌≡◌, IfSome, IfNone, List, All};
ghost use Rattle.run_events.specs.declared.name.Name.{Name as OneName};
ghost use Rattle.run_events.specs.declared.in_flight.InFlight.{InFlight as OneInFlight};
ghost use Rattle.policies.specs.Policies.{IsFirstPlace, ScriptChooses};

use crate::policy::{Choice, Policy};
use run_events::{InFlight, Name};
use std::collections::VecDeque;
use std::marker::Model;

/// Releases these messages in their order, each by its copy 0 once that is in flight, and until
/// then none; after the last of them it chooses nothing.
#[derive(Drop)]
pub struct Script {
    names: VecDeque<Name>,
}

impl Model for Script {
    ghost Value = { List OneName };

    ghost view = { λ s. s.names.items };
}

impl Script {
    /// Which copy a name names isn't looked at.
    pub fn new(names: Vec<Name>) -> Script
        ensures { result ≡ names.items }
    {
        Script {
            names: VecDeque::from(names),
        }
    }
}

impl Policy for Script {
    ghost chooses = { λ old _now flight answer new. ScriptChooses old flight answer new };

    fn choose(&mut self, _now: u32, flight: &[InFlight]) -> Option<Choice> {
        let name = self.names.front()?.original();
        let place = place_of(flight, name)?;
        let _released = self.names.pop_front();
        Some(Choice::Release(place))
    }
}

/// The first place at which this copy of a message is in flight.
fn place_of(flight: &[InFlight], name: Name) -> Option<usize>
    ensures some { IfSome result (IsFirstPlace (λ (m : OneInFlight). m.name ≡ name) flight.now) }
    ensures none { IfNone result (All (λ (m : OneInFlight). ¬ (m.name ≡ name)) flight.now) }
{
    for (place, message) in flight.iter().enumerate() {
        if message.name == name {
            return Some(place);
        }
    }
    None
}
