//! How long a receiver lacks a message.
ghost use Rattle.std.specs.Prelude.{◌≡◌, ◌≤◌};
ghost use Rattle.run_events.specs.Limits.{max_copy};
ghost use Rattle.step_book.specs.Log.{count_of, history, mark_in, world_of};
ghost use Rattle.step_book.specs.Names.{IsName};
ghost use Rattle.omission_explainer.specs.Lateness.{copy_open_until, marks_of, open_until};

use run_events::Name;
use slot_plans::Plan;
use step_book::{Book, Mark};

/// Up to which step number its receiver lacks a message: its copies' least.
pub fn open_until<P: Plan>(book: &Book<P>, name: Name) -> u64
    requires { IsName book.now.log.setup name }
    ensures { result ≡ open_until (count_of book.now.log name.to)
        (marks_of (world_of (P.start book.now.plan) book.now.log) (history book.now.log) name) }
{
    match book.mark(name.original()) {
        Mark::Unsent | Mark::Silent => 0,
        Mark::Flying | Mark::Released(_) | Mark::Lost => copy_open_until(book, name, 0)
            .min(copy_open_until(book, name, 1))
            .min(copy_open_until(book, name, 2))
            .min(copy_open_until(book, name, 3)),
    }
}

/// Up to which step number its receiver lacks a copy of a message.
fn copy_open_until<P: Plan>(book: &Book<P>, name: Name, copy: u32) -> u64
    requires name { IsName book.now.log.setup name }
    requires copy { copy ≤ max_copy }
    ensures { result ≡ copy_open_until (count_of book.now.log name.to)
        (mark_in (P.start book.now.plan) book.now.log (record name { copy = copy })) }
{
    match book.mark(Name { copy, ..name }) {
        Mark::Released(count) => count,
        Mark::Unsent | Mark::Silent | Mark::Flying | Mark::Lost => book.count_of(name.to),
    }
}
