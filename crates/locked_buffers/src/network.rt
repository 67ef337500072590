//! What the network does under both locks, recorded whole or not at all.
ghost use Rattle.std.specs.Prelude.{◌≡◌, ◌<◌, ◌↔◌, IfErr, IfOk, IsTrue, OnErr, OnOk};
ghost use Rattle.step_book.specs.Names.{IsName};
ghost use Rattle.step_journal.specs.Fits.{IsOfRun};
ghost use Rattle.locked_buffers.specs.Acts.{ActFails, AgreesFor, IsReadyFor, IsRecorded};
ghost use Rattle.locked_buffers.specs.Acts.{MovesFrame, event_of};
ghost use Rattle.locked_buffers.specs.Commits.{Agrees, told_with};
ghost use Rattle.locked_buffers.specs.Frames.{HasFrame, flying_as};

use crate::act::{Act, Found};
use crate::fault::RelayFault;
use crate::node_buffer::NodeBuffer;
use crate::run::Run;
use crate::seat::Relay;
use run_events::{Name, NoMemory};
use slot_plans::Plan;
use step_book::{Book, Buffer, StoredEvent, room};
use step_machine::Sealed;

/// Whether the book is of the run, as the buffer is, and says that this copy is in flight just
/// if the buffer has a frame at its place.
pub(crate) fn agree<P: Plan>(
    run: &Run<P>,
    buffer: &Buffer,
    book: &Book<P>,
    name: Name,
    has_frame: bool,
) -> bool
    requires name { IsName run.now.setup name }
    requires of_run { IsOfRun run.now.program run.now.setup buffer.now }
    requires frame { HasFrame (flying_as run.now.setup.nodes buffer.now name) has_frame }
    ensures { IsTrue result ↔ Agrees P.start run.now buffer.now book.now name }
{
    // Nothing at run time: the contract speaks of it.
    let _buffer = buffer;
    run.has_book(book) && book.is_flying(name) == has_frame
}

/// Whether book and buffer agree on what the act is for.
fn agree_for<P: Plan>(
    run: &Run<P>,
    buffer: &NodeBuffer,
    book: &Book<P>,
    act: Act,
    name: Name,
    found: &Found,
) -> bool
    requires name { IsName run.now.setup name }
    requires ready { IsReadyFor run.now act name buffer.now found.now }
    ensures { IsTrue result ↔ AgreesFor P.start run.now act buffer.now.frames book.now name }
{
    let agrees = agree(run, &buffer.frames, book, name, found.has_frame);
    match act {
        Act::Release | Act::Drop => agrees,
        Act::Copy => {
            let original = name.original();
            agrees && agree(run, &buffer.frames, book, original, found.copied.is_some())
        }
    }
}

/// Does an act: it is recorded in the book, and the frame moves in the buffer.
fn perform<P: Plan>(
    run: &Run<P>,
    buffer: &mut NodeBuffer,
    book: &mut Book<P>,
    act: Act,
    name: Name,
    found: Found,
) -> Result<bool, NoMemory>
    requires name { IsName run.now.setup name }
    requires other { act ≡ Act.Copy → 0 < name.copy }
    requires ready { IsReadyFor run.now act name buffer.old found }
    requires agree { AgreesFor P.start run.now act buffer.old.frames book.old name }
    ensures recorded { IfOk result (λ done. IsRecorded P.start act name done book.old book.new) }
    ensures frame { IfOk result (λ done.
        MovesFrame run.now.setup.nodes act name done buffer.old buffer.new) }
    ensures err { OnErr result ((book.new ≡ book.old) × (buffer.new ≡ buffer.old)) }
{
    let place = run.place(name);
    let copied = found.copied;
    match act {
        Act::Release => {
            let moved = book.release(name)?;
            if moved {
                buffer.frames.let_go(name.round, place);
            }
            Ok(moved)
        }
        Act::Drop => {
            let lost = book.drop_copy(name)?;
            if lost {
                buffer.frames.remove(name.round, place);
            }
            Ok(lost)
        }
        Act::Copy => {
            buffer.frames.honest();
            let made = book.make_copy(name)?;
            if made {
                if let Some(frame) = copied {
                    buffer.frames.put(name.round, place, frame);
                }
            }
            Ok(made)
        }
    }
}

/// An act of the network, for which the buffer is ready: true if a copy was let go, lost or made.
pub(crate) fn commit_act<P: Plan>(
    run: &Run<P>,
    relay: &mut Relay,
    buffer: &mut NodeBuffer,
    book: &mut Book<P>,
    act: Act,
    name: Name,
    found: Found,
) -> Result<bool, RelayFault>
    requires name { IsName run.now.setup name }
    requires other { act ≡ Act.Copy → 0 < name.copy }
    requires ready { IsReadyFor run.now act name buffer.old found }
    ensures recorded { IfOk result (λ done. IsRecorded P.start act name done book.old book.new) }
    ensures told { IfOk result (λ done. relay.new ≡ told_with relay.old (event_of act name) done) }
    ensures frame { IfOk result (λ done.
        MovesFrame run.now.setup.nodes act name done buffer.old buffer.new) }
    ensures err { OnErr result ((book.new ≡ book.old) × (relay.new ≡ relay.old)
        × (buffer.new ≡ buffer.old)) }
    ensures taken { OnOk result (AgreesFor P.start run.now act buffer.old.frames book.old name) }
    ensures cause { IfErr result (ActFails P.start run.now act buffer.old.frames book.old name) }
{
    if !agree_for(run, buffer, book, act, name, &found) {
        return Err(RelayFault::Stranger);
    }
    run.sound();
    room(&mut relay.events)?;
    room(&mut relay.answers)?;
    let done = perform(run, buffer, book, act, name, found)?;
    relay
        .events
        .push_reserved(StoredEvent::new(act.event(name)));
    relay.answers.push_reserved(done);
    Ok(done)
}
