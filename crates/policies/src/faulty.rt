//! Choices that were made beforehand.
ghost use Rattle.std.specs.Prelude.{◌≡◌, List};
ghost use Rattle.policies.specs.declared.policy.Choice.{Choice as OneChoice};
ghost use Rattle.policies.specs.Policies.{FaultyChooses};

use crate::policy::{Choice, Policy};
use crate::prompt::release_first;
use run_events::InFlight;
use std::collections::VecDeque;
use std::marker::Model;

/// Makes these choices, one a call, each as it stands, and then chooses as
/// [`Prompt`](crate::Prompt) does. A choice is used up also if it counts as none.
#[derive(Drop)]
pub struct Faulty {
    choices: VecDeque<Choice>,
}

impl Model for Faulty {
    ghost Value = { List OneChoice };

    ghost view = { λ f. f.choices.items };
}

impl Faulty {
    pub fn new(choices: Vec<Choice>) -> Faulty
        ensures { result ≡ choices.items }
    {
        Faulty {
            choices: VecDeque::from(choices),
        }
    }
}

impl Policy for Faulty {
    ghost chooses = { λ old _now flight answer new. FaultyChooses old flight answer new };

    fn choose(&mut self, _now: u32, flight: &[InFlight]) -> Option<Choice> {
        match self.choices.pop_front() {
            Some(choice) => Some(choice),
            None => release_first(flight),
        }
    }
}
