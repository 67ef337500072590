//! Nothing until much is in flight.
ghost use Rattle.policies.specs.Policies.{HoardChooses};

use crate::policy::{Choice, Policy};
use crate::prompt::release_first;
use run_events::InFlight;

/// Chooses nothing until so many messages are in flight at one call, and from then on as
/// [`Prompt`](crate::Prompt) does. The count is 0 from then on.
#[derive(Clone, Copy, PartialEq, Eq, Debug)]
pub struct Hoard {
    pub count: usize,
}

impl Policy for Hoard {
    ghost chooses = { λ old _now flight answer new.
        HoardChooses old.count flight answer new.count };

    fn choose(&mut self, _now: u32, flight: &[InFlight]) -> Option<Choice> {
        if flight.len() < self.count {
            return None;
        }
        self.count = 0;
        release_first(flight)
    }
}
