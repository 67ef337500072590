//! The end of a run under locks: its journal, if the seats and the relay were told what the book
//! has recorded.
ghost use Rattle.std.specs.Prelude.{◌≡◌, ◌<◌, ◌∷◌, ◌↔◌, [], IfOk, IsOk, IsTrue};
ghost use Rattle.std.specs.Prelude.{if◌then◌else◌, map};
ghost use Rattle.step_book.specs.Log.{states_of};
ghost use Rattle.step_journal.specs.Fits.{Fits};
ghost use Rattle.locked_buffers.specs.Accounts.{AccountsAgree, IsAccountOf, IsTold};
ghost use Rattle.locked_buffers.specs.Accounts.{network_event, network_events};
ghost use Rattle.locked_buffers.specs.Runs.{IsBookOfRun};

use crate::fault::Unmatched;
use crate::run::Run;
use crate::seat::{Relay, Seat};
use run_events::Event;
use slot_plans::Plan;
use std::sync::Arc;
use step_book::{Book, Buffer, Mailbox, StoredEvent, StoredName};
use step_journal::Journal;
use step_machine::StoredState;

/// The journal of a book and its buffers, if the book is of the run, the buffers are of it too
/// and hold the frames that the book names, and the seats and the relay were told what it has
/// recorded. Takes no memory.
pub(crate) fn joined<P: Plan>(
    run: &Run<P>,
    book: Book<P>,
    buffers: Vec<Buffer>,
    seats: &[Seat],
    relay: &Relay,
) -> Result<Journal<P>, Unmatched>
    ensures ok { IfOk result (λ journal. journal ≡ book) }
    ensures cause { IsOk result ↔ (IsBookOfRun run.now book × Fits (P.start book.plan) book.log
        buffers.items × AccountsAgree (P.start book.plan) book seats.now relay.now) }
{
    if run.has_book(&book)
        && Journal::fits(&book, &buffers)
        && accounts_agree(&book, seats, relay)
    {
        Ok(Journal::join(book, buffers))
    } else {
        Err(Unmatched)
    }
}

/// Whether there is a seat for each node, in the order of the nodes, and the seats and the relay
/// were told what the book has recorded. Takes no memory.
fn accounts_agree<P: Plan>(book: &Book<P>, seats: &[Seat], relay: &Relay) -> bool
    ensures { IsTrue result ↔ AccountsAgree (P.start book.now.plan) book.now seats.now relay.now }
{
    let nodes = book.setup().nodes;
    if seats.len() != nodes as usize {
        return false;
    }
    for node in 0..nodes {
        if !is_account(book, node, &seats[node as usize]) {
            return false;
        }
    }
    is_told(book, relay)
}

/// Whether the seat has the book's account of a node.
fn is_account<P: Plan>(book: &Book<P>, node: u32, seat: &Seat) -> bool
    requires { node < book.now.log.setup.nodes }
    ensures { IsTrue result ↔ IsAccountOf (P.start book.now.plan) book.now.log node seat.now }
{
    seat.node == node
        && seat.steps == book.count_of(node)
        && are_handed(book.mail(node), &seat.handed)
        && are_states(book.states(node), &seat.states)
}

/// Whether the receives of a node handed out the names that it was told, receive by receive.
fn are_handed(mail: &Mailbox, told: &Mailbox) -> bool
    ensures { IsTrue result ↔ (told.now.handed ≡ mail.now.handed) }
{
    if told.receives() != mail.receives() {
        return false;
    }
    for receive in 0..told.receives() {
        if !are_same_names(told.handed(receive), mail.handed(receive)) {
            return false;
        }
    }
    true
}

/// Whether the states have the same values.
fn are_states(recorded: &[Arc<StoredState>], states: &[Arc<StoredState>]) -> bool
    ensures { IsTrue result ↔ (states_of states.now ≡ states_of recorded.now) }
{
    if states.len() != recorded.len() {
        return false;
    }
    for (place, state) in states.iter().enumerate() {
        if !recorded[place].equals(state) {
            return false;
        }
    }
    true
}

/// Whether the relay was told the network's events and what became of them.
fn is_told<P: Plan>(book: &Book<P>, relay: &Relay) -> bool
    ensures { IsTrue result ↔ IsTold (P.start book.now.plan) book.now.log relay.now }
{
    are_events(book.trace(), &relay.events) && are_same_answers(&relay.answers, book.answers())
}

/// Whether these are the network's events of a trace.
fn are_events(trace: &[StoredEvent], events: &[StoredEvent]) -> bool
    ensures { IsTrue result ↔ (events.now ≡ network_events trace.now) }
{
    let mut told = 0;
    for stored in trace {
        let event = stored.event();
        if is_of_network(event) {
            if told >= events.len() || events[told].event() != event {
                return false;
            }
            told += 1;
        }
    }
    told == events.len()
}

/// Whether an event is one of the network.
fn is_of_network(event: Event) -> bool
    ensures { network_event event ≡ (if result then event ∷ [] else []) }
{
    match event {
        Event::Step(_) => false,
        Event::Release(_) | Event::Drop(_) | Event::Copy(_) => true,
    }
}

/// Whether both are the same names, in the same order.
pub(crate) fn are_same_names(left: &[StoredName], right: &[StoredName]) -> bool
    ensures { IsTrue result ↔ (left.now ≡ right.now) }
{
    if left.len() != right.len() {
        return false;
    }
    for (place, name) in left.iter().enumerate() {
        if !is_same_name(name, &right[place]) {
            return false;
        }
    }
    true
}

/// Whether both are the same name.
fn is_same_name(left: &StoredName, right: &StoredName) -> bool
    ensures { IsTrue result ↔ (left.now ≡ right.now) }
{
    left.name() == right.name()
}

/// Whether both are the same answers, in the same order.
fn are_same_answers(left: &[bool], right: &[bool]) -> bool
    ensures { IsTrue result ↔ (left.now ≡ right.now) }
{
    left == right
}
