//! A node.
ghost use Rattle.std.specs.Arc.{arc_value};
ghost use Rattle.std.specs.Borrow.{sem};
ghost use Rattle.std.specs.Prelude.{◌≡◌, ◌≢◌, suc, ◌+◌, ◌<◌, ◌≤◌, ◌↔◌, IfOk, IsSome, None};
ghost use Rattle.std.specs.Prelude.{replicate};
ghost use Rattle.std.specs.Option.{ForSome};
ghost use Rattle.round_meaning.specs.Rounds.{algorithm_of};
ghost use Rattle.round_meaning.specs.Setups.{IsSetup};
ghost use Rattle.step_machine.specs.Sealed.{IsPrepared, IsHonest};
ghost use Rattle.step_machine.specs.Nodes.{HasSettled, IsDoubled, IsEnd, IsSameTurn, ahead};
ghost use Rattle.step_machine.specs.Nodes.{algorithm_in, format_in, held_with, sent_to};
ghost use Rattle.step_machine.specs.NodeInside.{IsOrigin};
ghost use Rattle.frame_format.specs.Formats.{kinds_at};
ghost use Rattle.frame_format.specs.Spelling.{AreOf};

mod finished;

use crate::held::Held;
use crate::machine::{Machine, keeps_types};
use crate::origin::Origin;
use crate::prepared::Prepared;
use crate::sealed::Sealed;
use crate::spoken::Spoken;
pub use finished::Finished;
use frame_format::Layout;
use round_check::Checked;
use round_lang::{Message, Vars};
use round_meaning::{Setup, is_broadcast};
use run_events::{Name, NoMemory};
use std::alloc::Global;
use std::marker::Model;
use std::mem;
use std::sync::Arc;

/// How many rounds' frames a node holds: those of its own, and of three rounds after it.
pub const ROUNDS_HELD: u32 = 4;

/// What became of a frame that was handed to a node.
#[derive(Clone, Copy, PartialEq, Eq, Debug)]
pub enum Taken {
    /// It is of the node's round, or of one of the three rounds after it.
    Kept,
    /// It is of an earlier round, and was dropped.
    Late,
    /// It is of a round further ahead than the node keeps frames of, and was dropped.
    Early,
    /// A frame of its sender and of its round is held already, and it was dropped.
    Doubled,
}

/// One node, outside of all locks: its program and setup, its round (from 1), its state after the
/// round before, the room of the next one, which the round's end is written to, and the frames that
/// it holds of its round and of the three after it. The two states change places as it goes on.
///
/// A copy of the state is shared by all that the node sends in its round. Where the program sends
/// the same message to all nodes, it's computed once, and its frames lie in one piece of memory
/// that all of them share.
#[derive(Drop)]
pub struct Node {
    alloc: Global,
    machine: Machine,
    layout: Arc<Layout>,
    setup: Setup,
    me: u32,
    round: u32,
    state: Vars,
    next: Vars,
    has_ended: bool,
    held: Vec<Held>,
    origin: Option<Arc<Origin>>,
    spoken: Option<Spoken>,
}

impl Model for Node {
    ghost use Rattle.std.specs.Prelude.{◌≡◌, ◌<◌, option_map};
    ghost use Rattle.std.specs.Arc.{arc_value};
    ghost use Rattle.round_lang.specs.contracts.formula.Formula as formula;
    ghost use Rattle.std.specs.Coded.{codes};
    ghost use Rattle.step_machine.specs.Nodes.{NodeView};

    ghost Value = { NodeView };

    ghost coded = { Prim.hlevel (codes, formula.the_row.coded) };

    ghost use Rattle.step_machine.specs.NodeInside.{node_seen, IsKept};

    ghost view = { node_seen };

    ghost invariant = { IsKept };
}

impl Node {
    ghost use Rattle.step_machine.specs.Lending.{LeavesEnded};

    /// The node `me` before its first round.
    pub fn new(alloc: Global, program: &Checked, setup: &Setup, me: u32) -> Result<Node, NoMemory>
        requires sized { IsSetup setup.now }
        requires me { me < setup.now.nodes }
        ensures { IfOk result (λ n. n ≡ record {
          program = program.now;
          setup = setup.now;
          me = me;
          round = 1;
          state = (algorithm_of program.now setup.now).init me;
          held = replicate (suc ahead) (replicate setup.now.nodes None);
          next = None;
        }) }
    {
        let layout = Layout::of(alloc, program, setup.nodes)?;
        let layout = Arc::new(alloc, layout)?;
        let mut machine = Machine::new(alloc, program)?;
        let state = machine.init(alloc, setup, me)?;
        let next = state.copy(alloc)?;
        let held = none_held(alloc, setup.nodes)?;
        Ok(Node {
            alloc,
            machine,
            layout,
            setup: setup.copy()?,
            me,
            round: 1,
            state,
            next,
            has_ended: false,
            held,
            origin: None,
            spoken: None,
        })
    }

    /// The round that it is in: the first that it hasn't settled.
    pub fn round(&self) -> u32
        ensures { result ≡ self.now.round }
    {
        self.round
    }

    /// Its number, from 0.
    pub fn number(&self) -> u32
        ensures value { result ≡ self.now.me }
        ensures one { result < self.now.setup.nodes }
    {
        self.me
    }

    /// What it sends to `dest` in its round, which is one of the setup's.
    #[inline(always)]
    pub fn prepare(&mut self, dest: u32) -> Result<Prepared, NoMemory>
        requires dest { dest < self.old.setup.nodes }
        requires last { self.old.round ≤ self.old.setup.rounds }
        ensures ready { IfOk result (λ p. p ≡ record {
          format = format_in self.old;
          name = record { from = self.old.me; to = dest; round = self.old.round; copy = 0 };
          state = self.old.state;
          message = (algorithm_in self.old).send self.old.round self.old.state self.old.me dest;
        }) }
        ensures prepared { IfOk result (IsPrepared (algorithm_in self.old)) }
        ensures same { self.new ≡ self.old }
    {
        // Each call is given a name of its own, so that the frequent one's stays out of memory.
        let (from, to, round) = (self.me, dest, self.round);
        if let Some(spoken) = &self.spoken {
            return spoken.prepared(Name {
                from,
                to,
                round,
                copy: 0,
            });
        }
        self.prepare_first(Name {
            from,
            to,
            round,
            copy: 0,
        })
    }

    /// What it sends if it hasn't said anything to all in its round. It stands apart, since that
    /// is rare.
    #[inline(never)]
    fn prepare_first(&mut self, name: Name) -> Result<Prepared, NoMemory>
        requires named { name
            ≡ record { from = self.old.me; to = name.to; round = self.old.round; copy = 0 } }
        requires to { name.to < self.old.setup.nodes }
        requires last { self.old.round ≤ self.old.setup.rounds }
        ensures ready { IfOk result (λ p. p ≡ record {
          format = format_in self.old;
          name = name;
          state = self.old.state;
          message = sent_to self.old name.to;
        }) }
        ensures prepared { IfOk result (IsPrepared (algorithm_in self.old)) }
        ensures same { self.new ≡ self.old }
    {
        let message = self.message_to(name.to)?;
        let origin = self.shared_origin()?;
        if !is_broadcast(self.machine.program(), self.round) {
            return Prepared::new(name, origin, message);
        }
        let spoken = Spoken::new(origin, self.me, self.round, message)?;
        let prepared = spoken.prepared(name)?;
        self.spoken = Some(spoken);
        Ok(prepared)
    }

    /// What it sends to `dest`, none for silence.
    fn message_to(&mut self, dest: u32) -> Result<Option<Message>, NoMemory>
        ensures says { IfOk result (λ message. message ≡ sent_to self.old dest) }
        ensures kinds { IfOk result (λ message. ForSome message
            (AreOf self.old.program.values (kinds_at (format_in self.old) self.old.round))) }
        ensures same { self.new ≡ self.old }
    {
        keeps_types(self.machine.program());
        let message = self.machine.send(
            self.alloc,
            &self.setup,
            self.round,
            &self.state,
            self.me,
            dest,
        )?;
        Ok(message)
    }

    /// Where its messages come from, as it is shared by all that it sends in its round.
    fn shared_origin(&mut self) -> Result<Arc<Origin>, NoMemory>
        ensures origin { IfOk result (λ origin.
            IsOrigin self.old.state (format_in self.old) (arc_value origin)) }
        ensures same { self.new ≡ self.old }
    {
        if let Some(origin) = &self.origin {
            return Ok(Arc::try_clone(origin)?);
        }
        let origin = Origin {
            alloc: self.alloc,
            state: self.state.copy(self.alloc)?,
            layout: Arc::try_clone(&self.layout)?,
        };
        let origin = Arc::new(self.alloc, origin)?;
        self.origin = Some(Arc::try_clone(&origin)?);
        Ok(origin)
    }

    /// Takes a frame that was sent to it. What isn't kept is dropped.
    #[inline(always)]
    pub fn take(&mut self, frame: Sealed) -> Taken
        requires from { frame.name.from < self.old.setup.nodes }
        requires to { frame.name.to ≡ self.old.me }
        requires honest { IsHonest (algorithm_in self.old) frame }
        ensures late { (result ≡ Taken.Late) ↔ (frame.name.round < self.old.round) }
        ensures early { (result ≡ Taken.Early) ↔ (self.old.round + ahead < frame.name.round) }
        ensures doubled { (result ≡ Taken.Doubled) ↔ IsDoubled self.old frame }
        ensures kept { (result ≡ Taken.Kept)
            → self.new ≡ record self.old { held = held_with self.old frame } }
        ensures dropped { (result ≢ Taken.Kept) → self.new ≡ self.old }
    {
        let name = frame.name();
        if name.round < self.round {
            return Taken::Late;
        }
        let ahead = name.round - self.round;
        if ahead >= ROUNDS_HELD {
            return Taken::Early;
        }
        let held = &mut self.held[ahead as usize];
        if held.has(name.from) {
            return Taken::Doubled;
        }
        held.put(name.from, frame);
        Taken::Kept
    }

    /// Ends the round: computes the next state from the frames held of it, and leaves the node as
    /// it is. Takes no memory.
    pub fn finish(&mut self) -> Finished<'_>
        ensures* leaves { sem 𝓛 (LeavesEnded self.entry result) }
        ensures ended { IsSameTurn self.old result.node.now }
    {
        self.end_round();
        Finished { node: self }
    }

    /// Writes the state after the round to its room.
    fn end_round(&mut self)
        ensures same { IsSameTurn self.old self.new }
        ensures ended { IsEnd self.new }
    {
        keeps_types(self.machine.program());
        self.machine.end(
            &self.setup,
            self.round,
            self.me,
            self.held[0].frames(),
            &self.state,
            &mut self.next,
        );
        self.has_ended = true;
    }

    /// Adopts the state of the last `finish`, drops the frames of the round that ended, and goes on
    /// to the next round, whose frames it holds already. Takes no memory.
    pub fn settle(&mut self)
        requires ended { IsSome self.old.next }
        requires within { self.old.round ≤ self.old.setup.rounds }
        ensures { HasSettled self.old self.new }
    {
        mem::swap(&mut self.state, &mut self.next);
        self.has_ended = false;
        self.held[0].clear();
        self.held.rotate_left(1);
        self.origin = None;
        self.spoken = None;
        self.round += 1;
    }
}

/// No frames, with a place for each of so many senders in each round.
fn none_held(alloc: Global, senders: u32) -> Result<Vec<Held>, NoMemory>
    ensures { IfOk result (λ held. held.items ≡ replicate (suc ahead) (replicate senders None)) }
{
    let mut held = Vec::with_capacity(alloc, ROUNDS_HELD as usize)?;
    for _round in 0..ROUNDS_HELD {
        held.push(Held::new(alloc, senders)?)?;
    }
    Ok(held)
}
