//! What a call does while it holds a buffer's lock and doesn't yet hold the book's, which all
//! threads want: whether the buffer is of the run, room and copies of frames, and the names of
//! those that wait.
ghost use Rattle.std.specs.Prelude.{◌≡◌, All, IfErr, IfOk, OnOk, option_map};
ghost use Rattle.step_book.specs.Buffers.{names_in};
ghost use Rattle.step_book.specs.Names.{IsName};
ghost use Rattle.step_journal.specs.Fits.{IsOfRun};
ghost use Rattle.run_events.specs.Names.{original};
ghost use Rattle.step_machine.specs.Sealed.{copied_as};
ghost use Rattle.locked_buffers.specs.Acts.{IsReadyFor};
ghost use Rattle.locked_buffers.specs.Commits.{IsUnread, IsUnready};
ghost use Rattle.locked_buffers.specs.Frames.{HasFrame, HasPlaceFor, IsSeen, SameBuffer, flying_as};

use crate::act::{Act, Found};
use crate::fault::{PostFault, RelayFault};
use crate::names::add_names_of;
use crate::node_buffer::NodeBuffer;
use crate::run::Run;
use run_events::{Name, NoMemory};
use slot_plans::Plan;
use std::alloc::Global;
use step_book::{Buffer, Mailbox};
use step_machine::Sealed;

/// Makes room in a buffer of the run for the frame of a message in flight, and says whether there
/// is one at its place already.
pub(crate) fn make_place<P: Plan>(
    run: &Run<P>,
    buffer: &mut NodeBuffer,
    name: Name,
) -> Result<bool, RelayFault>
    requires own { buffer.old.node ≡ name.to }
    requires name { IsName run.now.setup name }
    ensures seen { IfOk result (IsSeen run.now name buffer.new) }
    ensures place { OnOk result (HasPlaceFor run.now.setup.nodes buffer.new.frames name) }
    ensures same { SameBuffer buffer.old buffer.new }
    ensures cause { IfErr result (IsUnready run.now buffer.old.frames) }
{
    if !run.has_buffer(&buffer.frames) {
        return Err(RelayFault::Stranger);
    }
    let is_there = has_frame(run, &buffer.frames, name);
    buffer.frames.reserve_flying(name.round, run.place(name))?;
    Ok(is_there)
}

/// Makes a buffer of the run ready for an act of the network: room for the frame where the act
/// brings one, and the frame that it makes.
pub(crate) fn make_ready<P: Plan>(
    run: &Run<P>,
    buffer: &mut NodeBuffer,
    act: Act,
    name: Name,
) -> Result<Found, RelayFault>
    requires own { buffer.old.node ≡ name.to }
    requires name { IsName run.now.setup name }
    ensures ready { IfOk result (IsReadyFor run.now act name buffer.new) }
    ensures same { SameBuffer buffer.old buffer.new }
    ensures cause { IfErr result (IsUnready run.now buffer.old.frames) }
{
    if !run.has_buffer(&buffer.frames) {
        return Err(RelayFault::Stranger);
    }
    let has_frame = has_frame(run, &buffer.frames, name);
    let copied = match act {
        Act::Release => {
            buffer.frames.reserve_waiting()?;
            None
        }
        Act::Drop => None,
        Act::Copy => {
            buffer.frames.reserve_flying(name.round, run.place(name))?;
            copy_of(run, &buffer.frames, name)?
        }
    };
    Ok(Found { has_frame, copied })
}

/// Whether a buffer has a frame in flight at the place of a message. The frame itself, which lies
/// in the memory of its sender's thread, isn't looked at: its name is compared when it's handed
/// out.
fn has_frame<P: Plan>(run: &Run<P>, buffer: &Buffer, name: Name) -> bool
    requires { IsName run.now.setup name }
    ensures { HasFrame (flying_as run.now.setup.nodes buffer.now name) result }
{
    buffer.flying(name.round, run.place(name)).is_some()
}

/// Has the names of the frames that wait in a buffer of the run, which are of messages of the run,
/// wait in a mail.
pub(crate) fn note_names<P: Plan>(
    run: &Run<P>,
    buffer: &Buffer,
    mail: &mut Mailbox,
) -> Result<(), PostFault>
    ensures of_run { OnOk result (IsOfRun run.now.program run.now.setup buffer.now) }
    ensures names { OnOk result (mail.new.waiting ≡ names_in buffer.now.waiting) }
    ensures known { OnOk result (All (IsName run.now.setup) mail.new.waiting) }
    ensures handed { mail.new.handed ≡ mail.old.handed }
    ensures cause { IfErr result (IsUnread run.now buffer.now) }
{
    if !run.has_buffer(buffer) {
        return Err(PostFault::Stranger);
    }
    mail.forget();
    add_names_of(run, buffer.waiting(), mail)
}

/// The frame in flight as copy 0 of a message, as the copy of this name.
fn copy_of<P: Plan>(run: &Run<P>, buffer: &Buffer, name: Name) -> Result<Option<Sealed>, NoMemory>
    requires { IsName run.now.setup name }
    ensures { IfOk result (λ copied. copied ≡ option_map (copied_as name.copy)
        (flying_as run.now.setup.nodes buffer.now (original name))) }
{
    match buffer.flying(name.round, run.place(name.original())) {
        Some(frame) => Ok(Some(frame.copied(name.copy)?)),
        None => Ok(None),
    }
}
