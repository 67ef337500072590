//! The messages that are drawn, and what became of each of their copies.
use crate::moment::Moment;
use run_events::{Name, NoMemory};
use std::alloc::Global;

/// What became of a copy of a message.
#[derive(Clone, Copy, PartialEq, Eq, Debug)]
pub(crate) enum Fate {
    /// It's still in flight.
    Flying,
    /// The network lost it. Its arrow ends in this row before the receiver's lane.
    Dropped {
        dropped: Moment,
        row: u32,
    },
    /// It was released, and no receive took it. Its arrow ends in this row before the receiver's
    /// lane.
    Waiting {
        released: Moment,
        row: u32,
    },
    /// It was released, and taken by a receive of this round.
    Received {
        released: Moment,
        received: Moment,
        round: u32,
    },
}

/// A copy that was made: copy 0 by its sender, any other by the network.
#[derive(Clone, Copy, PartialEq, Eq, Debug)]
pub(crate) struct MadeCopy {
    pub made: Moment,
    pub fate: Fate,
}

/// A message, or silence, with the copies of it that were made, by their numbers.
#[derive(Clone, Copy)]
pub(crate) struct Sent {
    pub name: Name,
    pub sent: Moment,
    pub is_silent: bool,
    pub copies: [Option<MadeCopy>; 4],
}

impl Sent {
    /// A message that was sent, whose copy 0 is in flight, or silence.
    pub(crate) fn new(name: Name, sent: Moment, is_silent: bool) -> Sent {
        let original = MadeCopy {
            made: sent,
            fate: Fate::Flying,
        };
        let first = if is_silent { None } else { Some(original) };
        Sent {
            name,
            sent,
            is_silent,
            copies: [first, None, None, None],
        }
    }
}

/// The messages of each sender, by round and then by receiver. A node sends to all nodes in turn,
/// so those of one sender have no gap.
#[derive(Drop)]
pub(crate) struct Messages {
    nodes: usize,
    first_round: u32,
    sent: Vec<Vec<Sent>>,
}

impl Messages {
    /// No messages of so many nodes, from this round on.
    pub(crate) fn new(alloc: Global, nodes: u32, first_round: u32) -> Result<Messages, NoMemory> {
        let mut sent = Vec::new(alloc);
        for _sender in 0..nodes {
            sent.push(Vec::new(alloc))?;
        }
        Ok(Messages {
            nodes: nodes as usize,
            first_round,
            sent,
        })
    }

    /// Adds the next message of its sender.
    pub(crate) fn add(&mut self, sent: Sent) -> Result<(), NoMemory> {
        if let Some(list) = self.sent.get_mut(sent.name.from as usize) {
            list.push(sent)?;
        }
        Ok(())
    }

    /// The messages of a sender, in the order of its steps.
    pub(crate) fn of(&self, sender: u32) -> &[Sent] {
        match self.sent.get(sender as usize) {
            Some(list) => list,
            None => &[],
        }
    }

    /// The message of a name, if it's drawn.
    pub(crate) fn message(&self, name: Name) -> Option<&Sent> {
        self.of(name.from).get(self.place(name)?)
    }

    /// A copy of a message, if it was made and is drawn.
    pub(crate) fn copy(&self, name: Name) -> Option<MadeCopy> {
        let copy = self.message(name)?.copies.get(name.copy as usize)?;
        *copy
    }

    /// Notes a copy, or what became of it, if it's drawn.
    pub(crate) fn note(&mut self, name: Name, copy: MadeCopy) {
        let Some(place) = self.place(name) else {
            return;
        };
        let Some(list) = self.sent.get_mut(name.from as usize) else {
            return;
        };
        let Some(sent) = list.get_mut(place) else {
            return;
        };
        if let Some(kept) = sent.copies.get_mut(name.copy as usize) {
            *kept = Some(copy);
        }
    }

    /// The place of a message among those of its sender.
    fn place(&self, name: Name) -> Option<usize> {
        let round = name.round.checked_sub(self.first_round)? as usize;
        let before = round.saturating_mul(self.nodes);
        Some(before.saturating_add(name.to as usize))
    }
}
