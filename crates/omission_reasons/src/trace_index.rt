//! Where the events of each node and of each message stand in a trace.
ghost use Rattle.std.specs.Prelude.{◌≡◌, ◌≤◌, [], ℕ, IfOk, OnOk, slice_get, slice_index_or};
ghost use Rattle.run_events.specs.Limits.{max_nodes};
ghost use Rattle.step_book.specs.Trace.{is_step};
ghost use Rattle.omission_reasons.specs.Listing.{has_number, listed, number_of};
ghost use Rattle.omission_reasons.specs.Indexing.{IsIndexOf};

use crate::places::Places;
use run_events::{Event, Name, NoMemory};
use slot_plans::Plan;
use std::alloc::Global;
use step_book::Book;

/// Where the events of a run stand in its trace: the steps of each node, and the network's events
/// that name each message.
#[derive(Drop)]
pub struct TraceIndex {
    steps: Places,
    events: Places,
}

impl TraceIndex {
    /// The index of a run so far, by one pass over its trace.
    pub fn new<P: Plan>(alloc: Global, book: &Book<P>) -> Result<TraceIndex, NoMemory>
        ensures { IfOk result (IsIndexOf book.now.log) }
    {
        let nodes = book.setup().nodes;
        let mut index = TraceIndex {
            steps: Places::new(alloc),
            events: Places::new(alloc),
        };
        for (place, event) in book.trace().iter().enumerate() {
            index.add(nodes, place, event.event())?;
        }
        Ok(index)
    }

    /// Adds an event that stands at a place.
    fn add(&mut self, nodes: u32, place: usize, event: Event) -> Result<(), NoMemory>
        requires few { nodes ≤ max_nodes }
        ensures steps { OnOk result ((node : ℕ) → slice_index_or self.new.steps node []
            ≡ listed (is_step node) event place (slice_index_or self.old.steps node [])) }
        ensures events { OnOk result ((k : ℕ) → slice_index_or self.new.events k []
            ≡ listed (has_number nodes k) event place (slice_index_or self.old.events k [])) }
    {
        match event {
            Event::Step(node) => self.steps.add(node as usize, place),
            Event::Release(name) | Event::Drop(name) | Event::Copy(name) => {
                self.events.add(number_of(nodes, name), place)
            }
        }
    }

    /// The place in the trace of a node's step by its number, both from 0, if it was taken.
    pub fn step_place(&self, node: u32, step: u64) -> Option<usize>
        ensures { result ≡ slice_get (slice_index_or self.now.steps node []) step }
    {
        self.steps.list(node as usize).get(step as usize).copied()
    }

    /// The places of the network's events that name a message of a run with so many nodes.
    pub(crate) fn of_message(&self, nodes: u32, name: Name) -> &[usize]
        requires few { nodes ≤ max_nodes }
        ensures { result.now ≡ slice_index_or self.now.events (number_of nodes name) [] }
    {
        self.events.list(number_of(nodes, name))
    }
}

/// The number of a message in a run with so many nodes.
fn number_of(nodes: u32, name: Name) -> usize
    requires few { nodes ≤ max_nodes }
    ensures { result ≡ number_of nodes name }
{
    let nodes = nodes as usize;
    (name.round as usize * nodes + name.from as usize) * nodes + name.to as usize
}
