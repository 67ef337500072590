//! Events in few bytes.
ghost use Rattle.std.specs.Prelude.{◌≡◌, IfOk};
ghost use Rattle.run_events.specs.Stored.{IsStorable, IsStorableName, event_of};

use crate::event::Event;
use crate::name::Name;
use crate::no_memory::NoMemory;
use crate::stored_name::{ends_of, name_in, turn_of};
use std::alloc::Global;
use std::marker::Model;

/// What a stored event is.
#[derive(Clone, Copy, PartialEq, Eq, Debug)]
enum Kind {
    Step,
    Release,
    Drop,
    Copy,
}

/// An event of a run, which has so few nodes and rounds that this takes 4 bytes: its kind in one of
/// them, sender and receiver in one, and round and copy in two. A step's node stands as the sender.
#[derive(Drop)]
pub struct StoredEvent {
    kind: Kind,
    ends: u8,
    turn: u16,
}

impl Model for StoredEvent {
    ghost use Rattle.run_events.specs.declared.event.Event.{Event};
    ghost use Rattle.run_events.specs.Stored.{event_of, name_of};

    ghost Value = { Event };

    ghost view = { λ s. event_of s.kind (name_of s.ends s.turn) };
}

impl StoredEvent {
    /// An event of a run.
    #[inline(always)]
    pub fn new(event: Event) -> StoredEvent
        requires { IsStorable event }
        ensures { result ≡ event }
    {
        match event {
            Event::Step(node) => StoredEvent {
                kind: Kind::Step,
                ends: ends_of(node, 0),
                turn: 0,
            },
            Event::Release(name) => of_network(Kind::Release, name),
            Event::Drop(name) => of_network(Kind::Drop, name),
            Event::Copy(name) => of_network(Kind::Copy, name),
        }
    }

    /// The event.
    #[inline(always)]
    pub fn event(&self) -> Event
        ensures { result ≡ self.now }
    {
        let name = name_in(self.ends, self.turn);
        match self.kind {
            Kind::Step => Event::Step(name.from),
            Kind::Release => Event::Release(name),
            Kind::Drop => Event::Drop(name),
            Kind::Copy => Event::Copy(name),
        }
    }
}

/// An event of this kind that names a message.
#[inline(always)]
fn of_network(kind: Kind, name: Name) -> StoredEvent
    requires { IsStorableName name }
    ensures { result ≡ event_of kind name }
{
    StoredEvent {
        kind,
        ends: ends_of(name.from, name.to),
        turn: turn_of(name.round, name.copy),
    }
}

/// The events that are stored.
pub fn events_of(alloc: Global, stored: &[StoredEvent]) -> Result<Vec<Event>, NoMemory>
    ensures { IfOk result (λ events. events.items ≡ stored.now) }
{
    let mut events = Vec::with_capacity(alloc, stored.len())?;
    for event in stored {
        events.push(event.event())?;
    }
    Ok(events)
}
