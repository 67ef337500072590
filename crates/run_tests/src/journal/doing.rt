//! Deeds on a journal. A call that is refused for memory must leave all as it was, and is made
//! again.
ghost use Rattle.std.specs.Prelude.{◌≡◌, ◌<◌, ◌≤◌, IfSome};
ghost use Rattle.run_tests.specs.declared.journal.act.Network.TheVariants as Network;
ghost use Rattle.step_book.specs.Names.{IsName};
ghost use Rattle.step_machine.specs.Sealed.{IsPrepared};
ghost use Rattle.step_machine.specs.Nodes.{algorithm_in, format_in};

use crate::journal::act::{Deed, Network};
use crate::journal::sealing::seal;
use crate::journal::seen::{Answer, Seen, tell};
use crate::journal::taking::receive;
use crate::journal::telling::within;
use run_events::{Name, NoMemory};
use slot_plans::Known;
use std::alloc::Global;
use step_book::{CloseFault, IdleFault, SendFault};
use step_journal::Journal;
use step_machine::{Node, Prepared};
use test_kit::Fault;

/// What the node has for another.
pub fn prepare(node: &mut Node, to: u32) -> Option<Prepared>
    requires to { to < node.old.setup.nodes }
    requires last { node.old.round ≤ node.old.setup.rounds }
    ensures ready { IfSome result (λ p. p ≡ record {
      format = format_in node.old;
      name = record { from = node.old.me; to = to; round = node.old.round; copy = 0 };
      state = node.old.state;
      message = (algorithm_in node.old).send node.old.round node.old.state node.old.me to;
    }) }
    ensures prepared { IfSome result (IsPrepared (algorithm_in node.old)) }
    ensures node { node.new ≡ node.old }
{
    match node.prepare(to) {
        Ok(prepared) => Some(prepared),
        Err(_) => node.prepare(to).ok(),
    }
}

/// The number of the node.
pub fn number_of(journal: &Journal<Known>, node: &mut Node) -> Option<u32>
    requires setup { node.old.setup ≡ journal.now.log.setup }
    ensures node { node.new ≡ node.old }
    ensures me { IfSome result (λ me. me ≡ node.old.me) }
    ensures within { IfSome result (λ me. me < journal.now.log.setup.nodes) }
{
    let me = node.number();
    if me < journal.book().setup().nodes {
        Some(me)
    } else {
        None
    }
}

/// A send that isn't refused for memory, or is then made again with the work that came back.
fn send(journal: &mut Journal<Known>, node: &mut Node, to: u32) -> Answer<SendFault>
    requires program { node.old.program ≡ journal.old.log.program }
    requires setup { node.old.setup ≡ journal.old.log.setup }
    ensures program { journal.new.log.program ≡ journal.old.log.program }
    ensures setup { journal.new.log.setup ≡ journal.old.log.setup }
    ensures node { node.new ≡ node.old }
{
    let setup = journal.book().setup();
    if to >= setup.nodes || node.round() == 0 || node.round() > setup.rounds {
        return Answer::Outside;
    }
    let Some(me) = number_of(journal, node) else {
        return Answer::Outside;
    };
    let Some(prepared) = prepare(node, to) else {
        return Answer::NoMemory;
    };
    let before = Seen::of(journal, me);
    let name = prepared.name();
    match journal.send(prepared) {
        Ok(()) => Answer::Done,
        Err(refused) => {
            if Seen::of(journal, me) != before || refused.prepared.name() != name {
                return Answer::Changed;
            }
            if refused.fault != SendFault::NoMemory {
                return Answer::Said(refused.fault);
            }
            match journal.send(refused.prepared) {
                Ok(()) => Answer::Done,
                Err(refused) => Answer::Said(refused.fault),
            }
        }
    }
}

/// A node ends its round, and the journal closes it or says why not.
fn end_round(journal: &mut Journal<Known>, node: &mut Node, me: u32) -> Answer<CloseFault>
    requires me { me < journal.old.log.setup.nodes }
    requires round { node.old.round ≤ node.old.setup.rounds }
    requires program { node.old.program ≡ journal.old.log.program }
    requires setup { node.old.setup ≡ journal.old.log.setup }
    ensures program { journal.new.log.program ≡ journal.old.log.program }
    ensures setup { journal.new.log.setup ≡ journal.old.log.setup }
    ensures node_program { node.new.program ≡ node.old.program }
    ensures node_setup { node.new.setup ≡ node.old.setup }
{
    let before = Seen::of(journal, me);
    let finished = node.finish();
    let mut closed = journal.close(&finished);
    if closed == Err(CloseFault::NoMemory) && Seen::of(journal, me) == before {
        closed = journal.close(&finished);
    }
    match closed {
        Ok(()) => {
            node.settle();
            Answer::Done
        }
        Err(fault) => {
            if Seen::of(journal, me) != before {
                return Answer::Changed;
            }
            Answer::Said(fault)
        }
    }
}

fn close(journal: &mut Journal<Known>, node: &mut Node) -> Answer<CloseFault>
    requires program { node.old.program ≡ journal.old.log.program }
    requires setup { node.old.setup ≡ journal.old.log.setup }
    ensures program { journal.new.log.program ≡ journal.old.log.program }
    ensures setup { journal.new.log.setup ≡ journal.old.log.setup }
    ensures node_program { node.new.program ≡ node.old.program }
    ensures node_setup { node.new.setup ≡ node.old.setup }
{
    if node.round() > journal.book().setup().rounds {
        return Answer::Outside;
    }
    let Some(me) = number_of(journal, node) else {
        return Answer::Outside;
    };
    end_round(journal, node, me)
}

fn idle(journal: &mut Journal<Known>, node: &mut Node) -> Answer<IdleFault>
    requires setup { node.old.setup ≡ journal.old.log.setup }
    ensures program { journal.new.log.program ≡ journal.old.log.program }
    ensures setup { journal.new.log.setup ≡ journal.old.log.setup }
    ensures node { node.new ≡ node.old }
{
    let Some(me) = number_of(journal, node) else {
        return Answer::Outside;
    };
    let before = Seen::of(journal, me);
    let Err(fault) = journal.idle_step(me) else {
        return Answer::Done;
    };
    if Seen::of(journal, me) != before {
        return Answer::Changed;
    }
    if fault != IdleFault::NoMemory {
        return Answer::Said(fault);
    }
    match journal.idle_step(me) {
        Ok(()) => Answer::Done,
        Err(fault) => Answer::Said(fault),
    }
}

/// An event of the network.
fn happen(journal: &mut Journal<Known>, deed: Network, name: Name) -> Result<bool, NoMemory>
    requires name { IsName journal.old.log.setup name }
    requires other { (deed ≡ Network.Copy) → 0 < name.copy }
    ensures program { journal.new.log.program ≡ journal.old.log.program }
    ensures setup { journal.new.log.setup ≡ journal.old.log.setup }
{
    match deed {
        Network::Release => journal.release(name),
        Network::Drop => journal.drop_frame(name),
        Network::Copy => journal.copy_frame(name),
    }
}

/// An event of the network, which answers whether it moved, lost or made a copy; if it's refused
/// for memory, it's made again.
fn answer(journal: &mut Journal<Known>, deed: Network, name: Name) -> Answer<bool>
    ensures program { journal.new.log.program ≡ journal.old.log.program }
    ensures setup { journal.new.log.setup ≡ journal.old.log.setup }
{
    if !within(journal, name) || (deed == Network::Copy && name.copy == 0) {
        return Answer::Outside;
    }
    let before = Seen::of(journal, name.to);
    if let Ok(moved) = happen(journal, deed, name) {
        return Answer::Said(moved);
    }
    if Seen::of(journal, name.to) != before {
        return Answer::Changed;
    }
    match happen(journal, deed, name) {
        Ok(moved) => Answer::Said(moved),
        Err(_) => Answer::NoMemory,
    }
}

fn skip(journal: &Journal<Known>, node: &mut Node) -> Answer<NoMemory>
    requires { node.old.setup ≡ journal.now.log.setup }
    ensures program { node.new.program ≡ node.old.program }
    ensures setup { node.new.setup ≡ node.old.setup }
{
    if node.round() > journal.book().setup().rounds {
        return Answer::Outside;
    }
    let _finished = node.finish();
    node.settle();
    Answer::Done
}

/// Does it, and writes what the journal answers.
pub fn perform(
    alloc: Global,
    journal: &mut Journal<Known>,
    node: &mut Node,
    deed: Deed,
    out: &mut String,
) -> Result<(), Fault>
    requires program { node.old.program ≡ journal.old.log.program }
    requires setup { node.old.setup ≡ journal.old.log.setup }
    ensures program { journal.new.log.program ≡ journal.old.log.program }
    ensures setup { journal.new.log.setup ≡ journal.old.log.setup }
    ensures node_program { node.new.program ≡ node.old.program }
    ensures node_setup { node.new.setup ≡ node.old.setup }
{
    match deed {
        Deed::Send(to) => tell(out, send(journal, node, to), "sent"),
        Deed::Seal(to) => seal(alloc, journal, node, to, out),
        Deed::Receive => receive(journal, node, out),
        Deed::Close => tell(out, close(journal, node), "closed"),
        Deed::Idle => tell(out, idle(journal, node), "idle"),
        Deed::Skip => tell(out, skip(journal, node), "skipped"),
        Deed::Network(event, name) => tell(out, answer(journal, event, name), ""),
    }
}
