//! What is recorded under the locks. Each call records the whole of it or nothing: all room is made
//! before the book is called, and from then on nothing can fail. The names that a receive hands out
//! are noted before, and taken back if the book refuses. The buffer was made ready before the
//! book's lock was taken.
ghost use Rattle.std.specs.Arc.{arc_value};
ghost use Rattle.std.specs.Prelude.{◌≡◌, ◌≢◌, ◌↔◌, ◌+◌, ◌^◌, ◌<◌, ◌∷◌, ◌++◌, [], All, IfErr};
ghost use Rattle.std.specs.Prelude.{IfOk, OnErr, OnOk, Some};
ghost use Rattle.step_book.specs.Buffers.{names_in};
ghost use Rattle.step_book.specs.Effects.{Closes, Receives, Sends};
ghost use Rattle.step_book.specs.Log.{end_state};
ghost use Rattle.step_book.specs.Names.{IsName};
ghost use Rattle.step_machine.specs.Sealed.{IsPrepared, frame_of};
ghost use Rattle.locked_buffers.specs.Commits.{AreMail, CloseFails, ReceiveFails, SendFails};
ghost use Rattle.locked_buffers.specs.Commits.{TakesClose, TakesReceive, TakesSend};
ghost use Rattle.locked_buffers.specs.Frames.{HasPlaceFor, IsBufferOf, IsSeen, PutsFrame, TakesAll};
ghost use Rattle.locked_buffers.specs.Runs.{algorithm_by};

use crate::account::are_same_names;
use crate::fault::PostFault;
use crate::network::agree;
use crate::node_buffer::NodeBuffer;
use crate::run::Run;
use crate::seat::Seat;
use slot_plans::Plan;
use std::sync::Arc;
use step_book::{Book, CloseFault, Mailbox, ReceiveFault, Refused, SendFault, room};
use step_journal::Took;
use step_machine::{Finished, Prepared, StoredState};

/// A send that the seat allows.
pub(crate) fn commit_send<P: Plan>(
    run: &Run<P>,
    seat: &mut Seat,
    buffer: &mut NodeBuffer,
    book: &mut Book<P>,
    prepared: Prepared,
    has_frame: bool,
) -> Result<(), Refused>
    requires name { IsName run.now.setup prepared.name }
    requires work { IsPrepared (algorithm_by run.now) prepared }
    requires small { seat.old.steps < 2 ^ 33 }
    requires seen { IsSeen run.now prepared.name buffer.old has_frame }
    requires place { HasPlaceFor run.now.setup.nodes buffer.old.frames prepared.name }
    ensures recorded { OnOk result (Sends P.start prepared book.old book.new) }
    ensures seat { OnOk result (seat.new ≡ record seat.old { steps = seat.old.steps + 1 }) }
    ensures frame { OnOk result (PutsFrame run.now.setup.nodes prepared.name (frame_of prepared)
        buffer.old buffer.new) }
    ensures err { OnErr result ((book.new ≡ book.old) × (seat.new ≡ seat.old)
        × (buffer.new ≡ buffer.old)) }
    ensures taken { OnOk result (TakesSend P.start run.now buffer.old.frames book.old prepared) }
    ensures cause { IfErr result (λ refused. SendFails P.start run.now buffer.old.frames book.old
        prepared refused.fault) }
    ensures back { IfErr result (λ refused. refused.prepared ≡ prepared) }
{
    let name = prepared.name();
    if !agree(run, &buffer.frames, book, name, has_frame) {
        return Err(Refused {
            fault: SendFault::Stranger,
            prepared,
        });
    }
    match book.refuses_send(&prepared) {
        None => {}
        Some(SendFault::NoMemory) => return Err(Refused::memory(prepared)),
        Some(_) => {
            return Err(Refused {
                fault: SendFault::Stranger,
                prepared,
            });
        }
    }
    let place = run.place(name);
    match book.record_send(&prepared) {
        Ok(()) => {}
        Err(_) => return Err(Refused::memory(prepared)),
    }
    seat.steps += 1;
    if let Some(frame) = prepared.into_sealed() {
        buffer.frames.put(name.round, place, frame);
    }
    Ok(())
}

/// A receive that the seat allows: the frames that wait, whose names wait in the seat's mail, which
/// hands them out.
pub(crate) fn commit_receive<P: Plan>(
    run: &Run<P>,
    node: u32,
    mail: &mut Mailbox,
    buffer: &mut NodeBuffer,
    book: &mut Book<P>,
) -> Result<Took, PostFault>
    requires node { node < run.now.setup.nodes }
    requires buffer { IsBufferOf run.now node buffer.old }
    requires names { mail.old.waiting ≡ names_in buffer.old.frames.waiting }
    requires known { All (IsName run.now.setup) mail.old.waiting }
    ensures recorded { OnOk result (Receives P.start node book.old book.new) }
    ensures noted { IfOk result (λ took. mail.new.handed
        ≡ mail.old.handed ++ names_in took.frames.items ∷ []) }
    ensures frames { IfOk result (λ took.
        TakesAll took.frames.items buffer.old buffer.new) }
    ensures mail { IfOk result (λ took. AreMail run.now node took.frames.items) }
    ensures err { OnErr result ((book.new ≡ book.old) × (mail.new.handed ≡ mail.old.handed)
        × (buffer.new ≡ buffer.old)) }
    ensures taken { OnOk result (TakesReceive P.start run.now buffer.old.frames book.old node) }
    ensures cause { IfErr result (ReceiveFails P.start run.now buffer.old.frames book.old node) }
{
    if !run.has_book(book) || !are_same_names(mail.waiting(), book.waiting(node)) {
        return Err(PostFault::Stranger);
    }
    book.agrees();
    buffer.frames.honest();
    mail.hand_out()?;
    match book.receive(node) {
        Ok(()) => {}
        Err(fault) => {
            mail.take_back();
            return Err(fault_of_receive(fault));
        }
    }
    let frames = buffer.frames.take();
    Ok(Took { frames })
}

/// The fault of a receive that the book refuses, though the seat allows it.
fn fault_of_receive(fault: ReceiveFault) -> PostFault
    ensures memory { (result ≡ PostFault.NoMemory) ↔ (fault ≡ ReceiveFault.NoMemory) }
    ensures other { fault ≢ ReceiveFault.NoMemory → result ≡ PostFault.Stranger }
{
    match fault {
        ReceiveFault::NoMemory => PostFault::NoMemory,
        _ => PostFault::Stranger,
    }
}

/// The end of a round that the seat allows, with the state that it ended with, which the seat and
/// the book share.
pub(crate) fn commit_close<P: Plan>(
    run: &Run<P>,
    seat: &mut Seat,
    book: &mut Book<P>,
    finished: &Finished<'_>,
    state: Arc<StoredState>,
) -> Result<(), CloseFault>
    requires program { finished.now.node.now.program ≡ run.now.program }
    requires setup { finished.now.node.now.setup ≡ run.now.setup }
    requires state { Some (arc_value state) ≡ finished.now.node.now.next }
    ensures recorded { OnOk result (Closes P.start finished.now.node.now book.old book.new) }
    ensures seat { OnOk result (seat.new ≡ record seat.old {
      states = seat.old.states ++ end_state
          finished.now.node.now ∷ [];
    }) }
    ensures err { OnErr result ((book.new ≡ book.old) × (seat.new ≡ seat.old)) }
    ensures taken { OnOk result (TakesClose P.start run.now book.old finished.now.node.now) }
    ensures cause { IfErr result (CloseFails P.start run.now book.old finished.now.node.now) }
{
    if !run.has_book(book) {
        return Err(CloseFault::Stranger);
    }
    match book.refuses_close(finished) {
        None => {}
        Some(CloseFault::NoMemory) => return Err(CloseFault::NoMemory),
        Some(_) => return Err(CloseFault::Stranger),
    }
    let Ok(own) = Arc::try_clone(&state) else {
        return Err(CloseFault::NoMemory);
    };
    room(&mut seat.states)?;
    book.record_close(finished, state)?;
    seat.states.push_reserved(own);
    Ok(())
}
