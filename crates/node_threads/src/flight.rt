//! What the network knows to be in flight.
ghost use Rattle.std.specs.Prelude.{◌≡◌, ◌<◌, ◌≤◌, ◌∷◌, ◌++◌, [], IfSome, OnErr, OnOk, drop};
ghost use Rattle.std.specs.Prelude.{insert, length, remove, slice_get};
ghost use Rattle.node_threads.specs.Flights.{AreCopies, AreFewGone, IsNoted};

use policies::Choice;
use run_events::{Event, InFlight, NoMemory};
use std::alloc::Global;
use std::marker::Model;

/// How many entries must be gone before their room is given back.
const FEWEST: usize = 64;

/// A list of copies in flight, whose first entry is removed in constant time.
#[derive(Drop)]
pub(crate) struct Flight {
    entries: Vec<InFlight>,
    /// How many entries at the beginning are gone.
    gone: usize,
}

impl Model for Flight {
    ghost use Rattle.std.specs.Prelude.{List, drop, length};
    ghost use Rattle.run_events.specs.declared.in_flight.InFlight.{InFlight as OneInFlight};
    ghost use Rattle.node_threads.specs.Flights.{AreFewGone};

    ghost Value = { List OneInFlight };

    ghost view = { λ s. drop s.gone s.entries.items };

    ghost invariant = { λ s. AreFewGone (length s.entries.items) s.gone };
}

impl Flight {
    pub(crate) fn new(alloc: Global) -> Flight
        ensures { result ≡ [] }
    {
        Flight {
            entries: Vec::new(alloc),
            gone: 0,
        }
    }

    pub(crate) fn messages(&self) -> &[InFlight]
        ensures { result.now ≡ self.now }
    {
        &self.entries[self.gone..]
    }

    /// Adds what was sent last.
    pub(crate) fn push(&mut self, message: InFlight) -> Result<(), NoMemory>
        ensures ok { OnOk result (self.new ≡ self.old ++ message ∷ []) }
        ensures err { OnErr result (self.new ≡ self.old) }
    {
        self.entries.push(message)?;
        Ok(())
    }

    /// Adds a copy at a place.
    pub(crate) fn insert(&mut self, place: usize, message: InFlight) -> Result<(), NoMemory>
        requires { place ≤ length self.old }
        ensures ok { OnOk result (self.new ≡ insert self.old place message) }
        ensures err { OnErr result (self.new ≡ self.old) }
    {
        self.entries.insert(self.gone + place, message)?;
        Ok(())
    }

    /// Removes what was released or dropped.
    pub(crate) fn remove(&mut self, place: usize)
        requires { place < length self.old }
        ensures { self.new ≡ remove self.old place }
    {
        if place == 0 {
            self.gone = reclaim(&mut self.entries, self.gone + 1);
        } else {
            let _message = self.entries.remove(self.gone + place);
            self.gone = reclaim(&mut self.entries, self.gone);
        }
    }

    /// Notes what is in flight after an event that came of a choice.
    pub(crate) fn note(&mut self, choice: Choice, event: Event) -> Result<(), NoMemory>
        ensures noted { OnOk result (IsNoted choice event self.old self.new) }
        ensures err { OnErr result (self.new ≡ self.old) }
    {
        match (choice, event) {
            (Choice::Copy(place), Event::Copy(name)) if place < self.messages().len() => {
                let messages = self.messages();
                let copied = InFlight {
                    name,
                    ..messages[place]
                };
                let after = end_of_copies(messages, place);
                self.insert(after, copied)?;
            }
            (Choice::Release(place) | Choice::Drop(place), _) if place < self.messages().len() => {
                self.remove(place);
            }
            _ => {}
        }
        Ok(())
    }
}

/// Gives room back once half of the entries are gone, and answers how many are gone then.
fn reclaim(entries: &mut Vec<InFlight>, gone: usize) -> usize
    requires { gone ≤ length entries.old.items }
    ensures left { drop result entries.new.items ≡ drop gone entries.old.items }
    ensures few { AreFewGone (length entries.new.items) result }
{
    let left = entries.len() - gone;
    if gone < FEWEST || gone < left {
        return gone;
    }
    entries.rotate_left(gone);
    entries.truncate(left);
    0
}

/// The end of the entries from a place on that are copies of one message.
fn end_of_copies(messages: &[InFlight], place: usize) -> usize
    requires { place < length messages.now }
    ensures copies { IfSome (slice_get messages.now place)
        (λ message. AreCopies messages.now message.serial place result) }
    ensures high { result ≤ length messages.now }
{
    let serial = messages[place].serial;
    let mut end = place + 1;
    while end < messages.len() && messages[end].serial == serial {
        end += 1;
    }
    end
}
