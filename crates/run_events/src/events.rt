//! Lists of events in few bytes.
ghost use Rattle.std.specs.Prelude.{◌≡◌, ◌<◌, ◌++◌, ◌∷◌, [], IfOk, IsTrue, OnErr, OnOk, false};
ghost use Rattle.std.specs.Prelude.{vec_capacity, vec_len};
ghost use Rattle.run_events.specs.Stored.{AreLate, IsStorable, IsStorableName};

use crate::event::Event;
use crate::limits::{MAX_COPY, MAX_NODES};
use crate::name::Name;
use crate::no_memory::NoMemory;
use crate::stored_event::{StoredEvent, events_of};
use std::alloc::Global;
use std::marker::Model;

/// Events of any numbers: in 4 bytes each up to the first whose numbers are too large for that, and
/// whole from there on.
#[derive(Drop)]
pub struct Events {
    stored: Vec<StoredEvent>,
    whole: Vec<Event>,
}

impl Model for Events {
    ghost use Rattle.std.specs.Prelude.{◌++◌, List};
    ghost use Rattle.run_events.specs.declared.event.Event.{Event};
    ghost use Rattle.run_events.specs.Stored.{AreLate};

    ghost Value = { List Event };

    ghost view = { λ s. s.stored.items ++ s.whole.items };

    ghost invariant = { λ s. AreLate s.whole.items };
}

impl Events {
    /// No events; takes no memory.
    pub fn new(alloc: Global) -> Events
        ensures { result ≡ [] }
    {
        Events {
            stored: Vec::new(alloc),
            whole: Vec::new(alloc),
        }
    }

    /// Adds an event.
    #[inline(always)]
    pub fn push(&mut self, event: Event) -> Result<(), NoMemory>
        ensures ok { OnOk result (self.new ≡ self.old ++ event ∷ []) }
        ensures err { OnErr result (self.new ≡ self.old) }
    {
        if self.whole.is_empty() && is_storable(event) {
            if self.stored.len() == self.stored.capacity() {
                make_room(&mut self.stored)?;
            }
            self.stored.push_reserved(StoredEvent::new(event));
        } else {
            self.whole.push(event)?;
        }
        Ok(())
    }

    /// The events up to the first whose numbers are too large, and those from it on.
    pub fn parts(&self) -> (&[StoredEvent], &[Event])
        ensures all { self.now ≡ result.0.now ++ result.1.now }
        ensures late { AreLate result.1.now }
    {
        (&self.stored, &self.whole)
    }

    /// Takes all events away and keeps their memory.
    pub fn clear(&mut self)
        ensures { self.new ≡ [] }
    {
        self.stored.clear();
        self.whole.clear();
    }

    /// The events as they are elsewhere.
    pub fn to_vec(&self, alloc: Global) -> Result<Vec<Event>, NoMemory>
        ensures { IfOk result (λ events. events.items ≡ self.now) }
    {
        let mut events = events_of(alloc, &self.stored)?;
        events.extend_from_slice(&self.whole)?;
        Ok(events)
    }
}

/// Makes room for one event more. It stands apart, since a list seldom grows.
#[inline(never)]
fn make_room(events: &mut Vec<StoredEvent>) -> Result<(), NoMemory>
    ensures same { events.new.items ≡ events.old.items }
    ensures room { OnOk result (vec_len events.new < vec_capacity events.new) }
{
    events.reserve(1)?;
    Ok(())
}

/// Whether an event can be stored in 4 bytes.
#[inline(always)]
fn is_storable(event: Event) -> bool
    ensures storable { IsTrue result → IsStorable event }
    ensures all { result ≡ false → ¬ IsStorable event }
{
    match event {
        Event::Step(node) => node < MAX_NODES,
        Event::Release(name) | Event::Drop(name) | Event::Copy(name) => is_storable_name(name),
    }
}

/// Whether a name can.
#[inline(always)]
fn is_storable_name(name: Name) -> bool
    ensures storable { IsTrue result → IsStorableName name }
    ensures all { result ≡ false → ¬ IsStorableName name }
{
    name.from < MAX_NODES && name.to < MAX_NODES && name.round < 16384 && name.copy <= MAX_COPY
}
