//! The names of frames.
ghost use Rattle.std.specs.Prelude.{◌≡◌, [], All, IfErr, OnOk};
ghost use Rattle.step_book.specs.Buffers.{names_in};
ghost use Rattle.step_book.specs.Names.{IsName};
ghost use Rattle.locked_buffers.specs.Commits.{IsUnnamed};

use crate::fault::PostFault;
use crate::run::Run;
use slot_plans::Plan;
use step_book::{Mailbox, Waiting, is_name};

/// Has the names of frames wait in a mail where none waits, if all are of messages of the run.
pub(crate) fn add_names_of<P: Plan>(
    run: &Run<P>,
    frames: &Waiting,
    mail: &mut Mailbox,
) -> Result<(), PostFault>
    requires { mail.old.waiting ≡ [] }
    ensures names { OnOk result (mail.new.waiting ≡ names_in frames.now.items) }
    ensures known { OnOk result (All (IsName run.now.setup) mail.new.waiting) }
    ensures handed { mail.new.handed ≡ mail.old.handed }
    ensures cause { IfErr result (IsUnnamed run.now frames.now.items) }
{
    run.sound();
    while let Some(frame) = frames.at(mail.waiting().len()) {
        let name = frame.name();
        if !is_name(&run.setup, name) {
            return Err(PostFault::Stranger);
        }
        mail.push(name)?;
    }
    Ok(())
}
