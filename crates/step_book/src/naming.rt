//! Names of messages.
ghost use Rattle.std.specs.Prelude.{◌↔◌, IsTrue};
ghost use Rattle.step_book.specs.Names.{IsName};

use round_meaning::Setup;
use run_events::{MAX_COPY, Name};

/// Whether a name is that of a copy of a message of the setup's rounds.
pub fn is_name(setup: &Setup, name: Name) -> bool
    ensures { IsTrue result ↔ IsName setup.now name }
{
    name.from < setup.nodes
        && name.to < setup.nodes
        && 1 <= name.round
        && name.round <= setup.rounds
        && name.copy <= MAX_COPY
}
