//! Everything at once, in order.
ghost use Rattle.std.specs.Prelude.{◌≡◌};
ghost use Rattle.policies.specs.Policies.{prompt_choice};

use crate::policy::{Choice, Policy};
use run_events::InFlight;

/// Releases the first message in flight, if there is one.
#[derive(Clone, Copy, PartialEq, Eq, Debug)]
pub struct Prompt;

impl Policy for Prompt {
    ghost chooses = { λ _old _now flight answer _new. answer ≡ prompt_choice flight };

    fn choose(&mut self, _now: u32, flight: &[InFlight]) -> Option<Choice> {
        release_first(flight)
    }
}

/// The release of the first message in flight, if there is one.
pub(crate) fn release_first(flight: &[InFlight]) -> Option<Choice>
    ensures { result ≡ prompt_choice flight.now }
{
    match flight {
        [] => None,
        [_first, ..] => Some(Choice::Release(0)),
    }
}
