//! What is read of a book under its lock, if it's of the run.
ghost use Rattle.std.specs.Prelude.{◌≡◌, IfErr, IfOk, IfSome, OnErr, OnOk};
ghost use Rattle.step_book.specs.Names.{IsName};
ghost use Rattle.locked_buffers.specs.Commits.{IsUnreadable};
ghost use Rattle.locked_buffers.specs.Runs.{AddsSentAfter, IsFlightAfter, IsNextCopy};
ghost use Rattle.locked_buffers.specs.Runs.{IsRecordOfRun};

use crate::fault::RelayFault;
use crate::run::Run;
use run_events::{InFlight, Name};
use slot_plans::Plan;
use std::alloc::Global;
use step_book::{Book, add_names};

/// Refuses a book of another run.
fn allow<P: Plan>(run: &Run<P>, book: &Book<P>) -> Result<(), RelayFault>
    ensures of_run { OnOk result (IsRecordOfRun P.start run.now book.now) }
    ensures cause { IfErr result (IsUnreadable run.now book.now) }
{
    if !run.has_book(book) {
        return Err(RelayFault::Stranger);
    }
    book.agrees_by_places();
    Ok(())
}

/// The copies in flight, and how many events are recorded.
pub(crate) fn read_flight<P: Plan>(
    run: &Run<P>,
    alloc: Global,
    book: &Book<P>,
) -> Result<(Vec<InFlight>, usize), RelayFault>
    ensures of_run { OnOk result (IsRecordOfRun P.start run.now book.now) }
    ensures flight { IfOk result (λ o. IsFlightAfter P.start book.now o.0.items o.1) }
    ensures cause { IfErr result (IsUnreadable run.now book.now) }
{
    allow(run, book)?;
    let flight = book.flight(alloc)?;
    Ok((flight, book.trace().len()))
}

/// Adds the names of the messages that were sent after the first `known`, and answers how many
/// events are recorded.
pub(crate) fn read_sent<P: Plan>(
    run: &Run<P>,
    book: &Book<P>,
    known: usize,
    sent: &mut Vec<Name>,
) -> Result<usize, RelayFault>
    ensures of_run { OnOk result (IsRecordOfRun P.start run.now book.now) }
    ensures sent { IfOk result (AddsSentAfter P.start book.now known sent.old.items
        sent.new.items) }
    ensures err { OnErr result (sent.new.items ≡ sent.old.items) }
    ensures cause { IfErr result (IsUnreadable run.now book.now) }
{
    allow(run, book)?;
    if let Some(rest) = book.messages().get(known..) {
        add_names(sent, rest)?;
    }
    Ok(book.trace().len())
}

/// The least copy of a message that can be made, if there is one.
pub(crate) fn read_copy<P: Plan>(
    run: &Run<P>,
    book: &Book<P>,
    name: Name,
) -> Result<Option<Name>, RelayFault>
    requires { IsName run.now.setup name }
    ensures of_run { OnOk result (IsRecordOfRun P.start run.now book.now) }
    ensures copy { IfOk result (IsNextCopy P.start book.now name) }
    ensures known { IfOk result (λ copied. IfSome copied (IsName run.now.setup)) }
    ensures cause { IfErr result (IsUnreadable run.now book.now) }
{
    allow(run, book)?;
    Ok(book.next_copy(name))
}
