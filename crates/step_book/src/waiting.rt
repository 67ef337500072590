//! The frames that wait for a node.
ghost use Rattle.std.specs.Prelude.{◌≡◌, ◌<◌, ◌++◌, ◌∷◌, [], All, OnOk, option_copied};
ghost use Rattle.std.specs.Prelude.{slice_get};
ghost use Rattle.step_book.specs.Buffers.{IsMail};
ghost use Rattle.step_book.specs.Taking.{HasTaken};
ghost use Rattle.step_machine.specs.Nodes.{HasPlaces, algorithm_in};

use crate::frames::Frames;
use run_events::NoMemory;
use std::alloc::Global;
use std::marker::Model;
use std::mem;
use step_machine::{Node, Sealed};

/// How many frames there are in a piece: as many as a run has nodes at most.
const PIECE: usize = 16;

/// The frames that were released to a node and not yet taken, in the order of their releases. They
/// lie in pieces, of which all but the last are full: many frames need no long stretch of memory
/// then, and lie where frames in flight lay before.
#[derive(Drop)]
pub struct Waiting {
    alloc: Global,
    full: Vec<Vec<Sealed>>,
    last: Vec<Sealed>,
}

impl Model for Waiting {
    ghost use Rattle.std.specs.Prelude.{◌-◌, vec_capacity, vec_len};
    ghost use Rattle.step_book.specs.Pieces.{ArePieces, WaitingView, joined};

    ghost Value = { WaitingView };

    ghost view = { λ w. record {
      items = joined w.full.items w.last.items;
      spare = vec_capacity w.last - vec_len w.last;
    } };

    ghost invariant = { λ w. ArePieces w.full.items w.last };
}

impl Waiting {
    /// No frames; takes no memory.
    pub(crate) fn new(alloc: Global) -> Waiting
        ensures { result.items ≡ [] }
    {
        Waiting {
            alloc,
            full: Vec::new(alloc),
            last: Vec::new(alloc),
        }
    }

    /// The frame at a place, from 0, in the order of their releases; none past the last.
    pub fn at(&self, place: usize) -> Option<&Sealed>
        ensures { option_copied result ≡ slice_get self.now.items place }
    {
        match self.full.get(place / PIECE) {
            Some(piece) => piece.get(place % PIECE),
            None => self.last.get(place - self.full.len() * PIECE),
        }
    }

    /// The frames, to be taken one by one. Takes no memory.
    #[inline(always)]
    pub fn into_frames(self) -> Frames
        ensures { result ≡ self.items }
    {
        let Waiting { alloc, full, last } = self;
        Frames::new(alloc, full, last)
    }

    /// Makes room for one frame more.
    #[inline(always)]
    pub(crate) fn reserve(&mut self) -> Result<(), NoMemory>
        ensures room { OnOk result (0 < self.new.spare) }
        ensures same { self.new.items ≡ self.old.items }
    {
        if self.last.len() == self.last.capacity() {
            return self.next_piece();
        }
        Ok(())
    }

    /// Begins a piece behind the last, which has no room. It stands apart, since that is rare.
    #[inline(never)]
    fn next_piece(&mut self) -> Result<(), NoMemory>
        requires { self.old.spare ≡ 0 }
        ensures room { OnOk result (0 < self.new.spare) }
        ensures same { self.new.items ≡ self.old.items }
    {
        let next = Vec::with_capacity(self.alloc, PIECE)?;
        if self.last.is_empty() {
            self.last = next;
            return Ok(());
        }
        self.full.reserve(1)?;
        let last = mem::replace(&mut self.last, next);
        self.full.push_reserved(last);
        Ok(())
    }

    /// Adds a frame that there is room for.
    #[inline(always)]
    pub(crate) fn push(&mut self, frame: Sealed)
        requires { 0 < self.old.spare }
        ensures { self.new.items ≡ self.old.items ++ frame ∷ [] }
    {
        self.last.push_reserved(frame);
    }
}

/// The node takes frames that were sent to it, in their order. Takes no memory.
#[inline(always)]
pub fn take_all(node: &mut Node, frames: Waiting)
    requires places { HasPlaces node.old.setup.nodes node.old.held }
    requires mail { All
        (IsMail (algorithm_in node.old) node.old.setup.nodes node.old.me) frames.items }
    ensures { HasTaken node.old node.new frames.items }
{
    let mut frames = frames.into_frames();
    while let Some(frame) = frames.next() {
        let _taken = node.take(frame);
    }
}
