//! Which messages a report omits.
ghost use Rattle.std.specs.Prelude.{◌≡◌, ◌↔◌, IsTrue};
ghost use Rattle.run_events.specs.Names.{original};
ghost use Rattle.step_book.specs.Log.{mark_in};
ghost use Rattle.step_book.specs.Names.{IsName};
ghost use Rattle.omission_reasons.specs.Reasons.{IsOmitted};

use run_events::Name;
use slot_plans::Plan;
use step_book::{Book, Mark, earliest};

/// Whether the report of a run omits a message: its round is closed at its receiver, its sender
/// wasn't silent, and no copy of it was carried.
pub fn is_omitted<P: Plan>(book: &Book<P>, name: Name) -> bool
    requires { IsName book.now.log.setup name }
    ensures { IsTrue result ↔ IsOmitted (P.start book.now.plan) book.now.log name }
{
    book.agrees();
    if book.round_of(name.to) <= name.round {
        return false;
    }
    if is_silent(book, name) {
        return false;
    }
    let first = u64::from(book.plan().start(earliest(name.round)));
    let end = u64::from(book.plan().start(name.round + 1));
    !book.was_released(name, first, end)
}

/// Whether a message's sender was silent when it came to its slot.
pub(crate) fn is_silent<P: Plan>(book: &Book<P>, name: Name) -> bool
    requires { IsName book.now.log.setup name }
    ensures { IsTrue result
        ↔ mark_in (P.start book.now.plan) book.now.log (original name) ≡ Mark.Silent }
{
    book.mark(name.original()) == Mark::Silent
}
