//! The frames of one round in flight to a node.
ghost use Rattle.std.specs.Prelude.{◌≡◌, ◌<◌, ◌↔◌, [], All, IsTrue, MatchOption, None, OnOk, Some};
ghost use Rattle.std.specs.Prelude.{length, slice_index_or, vec_len};
ghost use Rattle.step_book.specs.Tables.{PutsAt, SameTable};

use crate::spare_places::SparePlaces;
use run_events::NoMemory;
use std::alloc::Global;
use std::marker::Model;
use std::mem;
use step_machine::{FramePlace, Sealed, SealedView};

/// The frames of one round in flight to a node, by their places in a table that grows with the
/// copies. With its last frame its places become spare ones.
#[derive(Drop)]
pub(crate) struct RoundFrames {
    frames: Vec<FramePlace>,
    // A hint: before the places are given away, they are looked at themselves.
    count: u32,
}

impl Model for RoundFrames {
    ghost use Rattle.std.specs.Prelude.{List, Option};
    ghost use Rattle.step_machine.specs.Sealed.{Frame};

    ghost Value = { List (Option Frame) };

    ghost view = { λ r. r.frames.items };
}

impl RoundFrames {
    /// No frames; takes no memory.
    pub(crate) fn new(alloc: Global) -> RoundFrames
        ensures { result ≡ [] }
    {
        RoundFrames {
            frames: Vec::new(alloc),
            count: 0,
        }
    }

    /// How many places there are.
    pub(crate) fn len(&self) -> usize
        ensures { result ≡ length self.now }
    {
        self.frames.len()
    }

    /// The frame at a place.
    pub(crate) fn at(&self, place: usize) -> Option<SealedView<'_>>
        ensures { result ≡ slice_index_or self.now place None }
    {
        match self.frames.get(place) {
            Some(kept) => kept.frame(),
            None => None,
        }
    }

    /// Makes room for a frame at a place; the first time, for one of each node, by the spare places
    /// if there are some.
    #[inline(always)]
    pub(crate) fn reserve(
        &mut self,
        spare: &mut SparePlaces,
        nodes: usize,
        place: usize,
    ) -> Result<(), NoMemory>
        ensures room { OnOk result (place < length self.new) }
        ensures same { SameTable None self.old self.new }
    {
        if place < self.frames.len() {
            return Ok(());
        }
        grow(&mut self.frames, spare, nodes, place)
    }

    /// Puts a frame at a place.
    #[inline(always)]
    pub(crate) fn put(&mut self, place: usize, frame: Sealed)
        requires { place < length self.old }
        ensures { PutsAt None self.old self.new place (Some frame) }
    {
        self.frames[place] = FramePlace::of(frame);
        self.count = self.count.saturating_add(1);
    }

    /// Takes the frame at a place away.
    #[inline(always)]
    pub(crate) fn take(
        &mut self,
        alloc: Global,
        spare: &mut SparePlaces,
        place: usize,
    ) -> Option<Sealed>
        requires { place < length self.old }
        ensures taken { result ≡ slice_index_or self.old place None }
        ensures rest { PutsAt None self.old self.new place None }
    {
        let frame = self.frames[place].take();
        self.count = self.count.saturating_sub(1);
        if self.count == 0 && are_none(&self.frames) {
            spare.keep(mem::replace(&mut self.frames, Vec::new(alloc)));
        }
        frame
    }
}

/// Makes a table longer than a place, and gives it a place for each node at once. It stands apart,
/// since that is rare.
#[inline(never)]
fn grow(
    frames: &mut Vec<FramePlace>,
    spare: &mut SparePlaces,
    nodes: usize,
    place: usize,
) -> Result<(), NoMemory>
    ensures long { OnOk result (place < vec_len frames.new) }
    ensures same { SameTable None frames.old.items frames.new.items }
{
    begin(frames, spare);
    let Some(least) = place.checked_add(1) else {
        return Err(NoMemory);
    };
    let length = least.max(nodes);
    if frames.len() < length {
        frames.resize_with(length, || FramePlace::free())?;
    }
    Ok(())
}

/// Gives a table without places the spare ones, if there are any.
fn begin(frames: &mut Vec<FramePlace>, spare: &mut SparePlaces)
    ensures { SameTable None frames.old.items frames.new.items }
{
    if frames.is_empty() {
        spare.give(frames);
    }
}

/// Whether no place has a frame.
fn are_none(frames: &[FramePlace]) -> bool
    ensures { IsTrue result ↔ All (λ frame. frame ≡ None) frames.now }
{
    frames.iter().all(|kept| kept.is_free())
}
