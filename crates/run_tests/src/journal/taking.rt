//! A receive, and what becomes of each frame.
ghost use Rattle.std.specs.Prelude.{◌≡◌, All};
ghost use Rattle.step_book.specs.Buffers.{IsMail};
ghost use Rattle.step_machine.specs.Nodes.{algorithm_in};

use crate::journal::doing::number_of;
use crate::journal::seen::{Answer, Seen, tell};
use crate::journal::telling::tell_name;
use slot_plans::Known;
use step_book::{ReceiveFault, Waiting};
use step_journal::Journal;
use step_machine::Node;
use test_kit::Fault;

/// The node takes frames, and what becomes of each is told.
fn take_all(node: &mut Node, frames: Waiting, out: &mut String) -> Result<(), Fault>
    requires { All (IsMail (algorithm_in node.old) node.old.setup.nodes node.old.me) frames.items }
    ensures program { node.new.program ≡ node.old.program }
    ensures setup { node.new.setup ≡ node.old.setup }
{
    out.push_str("took")?;
    let mut frames = frames.into_frames();
    while let Some(frame) = frames.next() {
        tell_name(out, frame.name())?;
        let taken = node.take(frame);
        write!(out, " {taken:?}")?;
    }
    Ok(())
}

/// A receive step; if it is refused for memory, it's made again.
pub fn receive(journal: &mut Journal<Known>, node: &mut Node, out: &mut String) -> Result<(), Fault>
    requires program { node.old.program ≡ journal.old.log.program }
    requires setup { node.old.setup ≡ journal.old.log.setup }
    ensures program { journal.new.log.program ≡ journal.old.log.program }
    ensures setup { journal.new.log.setup ≡ journal.old.log.setup }
    ensures node_program { node.new.program ≡ node.old.program }
    ensures node_setup { node.new.setup ≡ node.old.setup }
{
    let Some(me) = number_of(journal, node) else {
        return tell::<ReceiveFault>(out, Answer::Outside, "");
    };
    let before = Seen::of(journal, me);
    let fault = match journal.receive(me) {
        Ok(took) => return take_all(node, took.frames, out),
        Err(fault) => fault,
    };
    if Seen::of(journal, me) != before {
        return tell::<ReceiveFault>(out, Answer::Changed, "");
    }
    if fault != ReceiveFault::NoMemory {
        return tell(out, Answer::Said(fault), "");
    }
    match journal.receive(me) {
        Ok(took) => take_all(node, took.frames, out),
        Err(fault) => tell(out, Answer::Said(fault), ""),
    }
}
