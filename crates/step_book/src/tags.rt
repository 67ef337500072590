//! Frames by name and sender's state, and when a message was carried.
ghost use Rattle.std.specs.Prelude.{◌≡◌, ◌↔◌, IsTrue, Some, option_map};
ghost use Rattle.step_book.specs.Work.{is_within, tag_of};
ghost use Rattle.step_book.specs.World.{earliest};

use crate::mark::Mark;
use run_events::Name;
use step_machine::{ROUNDS_HELD, Sealed, StoredState};

/// The first of the rounds in which a message of this round is kept.
pub fn earliest(round: u32) -> u32
    ensures { result ≡ earliest round }
{
    round.saturating_sub(ROUNDS_HELD) + 1
}

/// Whether a message was released while its receiver's step count stood from `first` on and below
/// `end`.
pub fn is_within(mark: Mark, first: u64, end: u64) -> bool
    ensures { result ≡ is_within mark first end }
{
    match mark {
        Mark::Released(count) => first <= count && count < end,
        Mark::Unsent | Mark::Silent | Mark::Flying | Mark::Lost => false,
    }
}

/// Whether there is a frame, and it's a copy of this message with this state of its sender.
pub(crate) fn is_tagged(frame: &Option<Sealed>, name: Name, state: &StoredState) -> bool
    ensures { IsTrue result
        ↔ (option_map tag_of frame.now ≡ Some (record { name = name; state = state.now })) }
{
    match frame {
        Some(frame) => frame.name().original() == name && state.same(frame.state()),
        None => false,
    }
}
