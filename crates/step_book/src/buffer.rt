//! The frames of one node.
ghost use Rattle.std.specs.Prelude.{◌≡◌, ℕ, ◌<◌, ◌≤◌, ◌++◌, [], IfOk, IsTrue, MatchOption, OnOk};
ghost use Rattle.std.specs.Prelude.{None, Some};
ghost use Rattle.std.specs.Prelude.{option_to_list, vec_len};
ghost use Rattle.step_machine.specs.Sealed.{IsHonest};
ghost use Rattle.step_book.specs.Buffers.{AreHonest, IsSameRun, flying_at, run_of};
ghost use Rattle.step_book.specs.Tables.{HasPlace, Puts, SameTables};

use crate::round_frames::RoundFrames;
use crate::spare_places::SparePlaces;
use crate::waiting::Waiting;
use round_check::Checked;
use round_meaning::Setup;
use run_events::NoMemory;
use std::alloc::Global;
use std::marker::Model;
use std::mem;
use step_machine::{Sealed, SealedView};

/// The frames in flight to a node of a run, by their places in a table for each round, the first of
/// no round, and those that were released to the node and not yet taken. Each says what the state
/// that it names sends in that run.
#[derive(Drop)]
pub struct Buffer {
    // What nearly each call changes stands first, as in the book.
    waiting: Waiting,
    flying: Vec<RoundFrames>,
    spare: SparePlaces,
    alloc: Global,
    program: Checked,
    setup: Setup,
}

impl Model for Buffer {
    ghost use Rattle.round_lang.specs.contracts.formula.Formula as formula;
    ghost use Rattle.round_meaning.specs.Rounds.{algorithm_of};
    ghost use Rattle.std.specs.Coded.{codes};
    ghost use Rattle.step_machine.specs.Sealed.{IsHonest};
    ghost use Rattle.step_book.specs.Buffers.{AreHonest, BufferView};

    ghost Value = { BufferView };

    ghost coded = { Prim.hlevel (codes, formula.the_row.coded) };

    ghost view = { λ s. record {
      program = s.program;
      setup = s.setup;
      flying = s.flying.items;
      waiting = s.waiting.items;
      spare = s.waiting.spare;
    } };

    ghost invariant = { λ s. AreHonest (algorithm_of s.program s.setup) s.flying.items
        s.waiting.items };
}

impl Buffer {
    /// No frames of a run.
    pub fn new(alloc: Global, program: &Checked, setup: &Setup) -> Result<Buffer, NoMemory>
        ensures program { IfOk result (λ buffer. buffer.program ≡ program.now) }
        ensures setup { IfOk result (λ buffer. buffer.setup ≡ setup.now) }
        ensures flying { IfOk result (λ buffer. buffer.flying ≡ []) }
        ensures waiting { IfOk result (λ buffer. buffer.waiting ≡ []) }
    {
        Ok(Buffer {
            alloc,
            program: program.copy()?,
            setup: setup.copy()?,
            flying: Vec::new(alloc),
            spare: SparePlaces::new(alloc),
            waiting: Waiting::new(alloc),
        })
    }

    /// The program of its run.
    pub fn program(&self) -> &Checked
        ensures { result.now ≡ self.now.program }
    {
        &self.program
    }

    /// The setup of its run.
    pub fn setup(&self) -> &Setup
        ensures { result.now ≡ self.now.setup }
    {
        &self.setup
    }

    /// Nothing at run time: each frame says what the state that it names sends.
    pub fn honest(&self)
        ensures { AreHonest (run_of self.now) self.now.flying self.now.waiting }
    {
        let _waiting = &self.waiting;
    }

    /// The frames that were released and not yet taken, in the order of their releases.
    pub fn waiting(&self) -> &Waiting
        ensures { result.now.items ≡ self.now.waiting }
    {
        &self.waiting
    }

    /// The frame in flight at a place of a round's table.
    pub fn flying(&self, round: u32, place: usize) -> Option<SealedView<'_>>
        ensures { result ≡ flying_at self.now round place }
    {
        match self.flying.get(round as usize) {
            Some(table) => table.at(place),
            None => None,
        }
    }

    /// Whether no round's table reaches a place: then no frame is in flight from there on.
    pub fn is_free_from(&self, place: usize) -> bool
        ensures { IsTrue result → (round later : ℕ) → place ≤ later
            → flying_at self.now round later ≡ None }
    {
        self.flying.iter().all(|table| table.len() <= place)
    }

    /// Makes room for a frame in flight at a place of a round's table.
    #[inline(always)]
    pub fn reserve_flying(&mut self, round: u32, place: usize) -> Result<(), NoMemory>
        ensures room { OnOk result (HasPlace self.new.flying round place) }
        ensures flying { SameTables None self.old.flying self.new.flying }
        ensures waiting { self.new.waiting ≡ self.old.waiting }
        ensures run { IsSameRun self.old self.new }
    {
        let nodes = self.setup.nodes as usize;
        add_tables(self.alloc, &mut self.flying, round as usize)?;
        self.flying[round as usize].reserve(&mut self.spare, nodes, place)
    }

    /// Makes room for one more frame that waits, in pieces of 16.
    #[inline(always)]
    pub fn reserve_waiting(&mut self) -> Result<(), NoMemory>
        ensures room { OnOk result (0 < self.new.spare) }
        ensures flying { self.new.flying ≡ self.old.flying }
        ensures waiting { self.new.waiting ≡ self.old.waiting }
        ensures run { IsSameRun self.old self.new }
    {
        self.waiting.reserve()
    }

    /// A frame more in flight.
    #[inline(always)]
    pub fn put(&mut self, round: u32, place: usize, frame: Sealed)
        requires place { HasPlace self.old.flying round place }
        requires honest { IsHonest (run_of self.old) frame }
        ensures flying { Puts None self.old.flying self.new.flying round place (Some frame) }
        ensures waiting { self.new.waiting ≡ self.old.waiting }
        ensures run { IsSameRun self.old self.new }
    {
        self.flying[round as usize].put(place, frame);
    }

    /// The frame at a place, if there is one, goes from flight to those that wait.
    #[inline(always)]
    pub fn let_go(&mut self, round: u32, place: usize)
        requires place { HasPlace self.old.flying round place }
        requires room { 0 < self.old.spare }
        ensures flying { Puts None self.old.flying self.new.flying round place None }
        ensures waiting { self.new.waiting
            ≡ self.old.waiting ++ option_to_list (flying_at self.old round place) }
        ensures run { IsSameRun self.old self.new }
    {
        let alloc = self.alloc;
        if let Some(frame) = self.flying[round as usize].take(alloc, &mut self.spare, place) {
            self.waiting.push(frame);
        }
    }

    /// The frame at a place is lost.
    pub fn remove(&mut self, round: u32, place: usize)
        requires { HasPlace self.old.flying round place }
        ensures flying { Puts None self.old.flying self.new.flying round place None }
        ensures waiting { self.new.waiting ≡ self.old.waiting }
        ensures run { IsSameRun self.old self.new }
    {
        let alloc = self.alloc;
        let _lost = self.flying[round as usize].take(alloc, &mut self.spare, place);
    }

    /// Takes the frames that wait.
    #[inline(always)]
    pub fn take(&mut self) -> Waiting
        ensures taken { result.items ≡ self.old.waiting }
        ensures waiting { self.new.waiting ≡ [] }
        ensures flying { self.new.flying ≡ self.old.flying }
        ensures run { IsSameRun self.old self.new }
    {
        let alloc = self.alloc;
        mem::replace(&mut self.waiting, Waiting::new(alloc))
    }
}

/// Adds empty tables until the round has one.
fn add_tables(alloc: Global, tables: &mut Vec<RoundFrames>, round: usize) -> Result<(), NoMemory>
    ensures there { OnOk result (round < vec_len tables.new) }
    ensures same { SameTables None tables.old.items tables.new.items }
{
    while tables.len() <= round {
        tables.push(RoundFrames::new(alloc))?;
    }
    Ok(())
}
