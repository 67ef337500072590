//! A program's code at work: the initial state, what is sent, and a round's end.
ghost use Rattle.std.specs.Prelude.{◌≡◌, ◌+◌, ◌++◌, ◌<◌, ◌≤◌, ◌^◌, [], ◌∷◌, ℕ, List, IfOk, IfSome};
ghost use Rattle.std.specs.Prelude.{IsNone, Some, length, map, slice_index};
ghost use Rattle.round_lang.specs.declared.value.Value.{Value};
ghost use Rattle.round_lang.specs.Tree.{Tree};
ghost use Rattle.round_meaning.specs.declared.received.Received.{Received};
ghost use Rattle.round_meaning.specs.declared.setup.Setup.{Setup as OneSetup};
ghost use Rattle.round_meaning.specs.Meaning.{Env, value};
ghost use Rattle.round_meaning.specs.Rounds.{algorithm_of};
ghost use Rattle.round_meaning.specs.Turn.{initial, node_env, with_dest};
ghost use Rattle.step_code.specs.Small.{IsSmallEnv};
ghost use Rattle.round_lang.specs.Values.{flag};
ghost use Rattle.step_code.specs.Layout.{room_of};
ghost use Rattle.step_code.specs.Relation.{Filled};
ghost use Rattle.step_code.specs.Rooms.{IsRoomOf};
ghost use Rattle.step_code.specs.Turns.{env_words, HasState, HasTurn, InTurn, IsOfRound, IsOfState};
ghost use Rattle.step_code.specs.Turns.{IsPart, Loaded, Sending};

use crate::block_code::BlockCode;
use crate::fields::Fields;
use crate::program::StepProgram;
use crate::room::Room;
use round_lang::{Block, Message, Vars};
use round_meaning::Setup;
use run_events::NoMemory;
use std::alloc::Global;

impl StepProgram {
    /// The initial state of node `me`.
    pub fn init(
        &self,
        alloc: Global,
        setup: &Setup,
        me: u32,
        room: &mut Room,
    ) -> Result<Vars, NoMemory>
        requires { IsRoomOf self.now room.old }
        ensures state { IfOk result (λ vs. vs ≡ (algorithm_of self.now setup.now).init me) }
        ensures kinds { IfOk result (IsOfState self.now) }
        ensures room { IsRoomOf self.now room.new }
    {
        self.start(room, setup, me);
        let state = 13 + self.values() as usize;
        room.values(
            alloc,
            self.program().state_shape(),
            state,
            self.message_place(),
        )
    }

    /// What node `me` in a state sends to `dest` in a round, none if it's silent.
    pub fn send(
        &self,
        alloc: Global,
        setup: &Setup,
        round: u32,
        state: &Vars,
        me: u32,
        dest: u32,
        room: &mut Room,
    ) -> Result<Option<Message>, NoMemory>
        requires room { IsRoomOf self.now room.old }
        requires state { IsOfState self.now state.now }
        ensures message { IfOk result (λ m. m
            ≡ (algorithm_of self.now setup.now).send round state.now me dest) }
        ensures kinds { IfOk result (λ m. IfSome m (IsOfRound self.now round)) }
        ensures room { IsRoomOf self.now room.new }
    {
        let Some(part) = self.part(round) else {
            return Ok(None);
        };
        self.load(room, setup, round, me, dest, state);
        if !self.asks(round, part.block, part.code, room) {
            return Ok(None);
        }
        Ok(Some(self.says(alloc, round, part.block, part.code, room)?))
    }

    /// Brings node `me`'s state before a round into the room.
    pub fn init_turn(&self, setup: &Setup, round: u32, me: u32, state: &Vars, room: &mut Room)
        requires room { IsRoomOf self.now room.old }
        requires state { IsOfState self.now state.now }
        ensures { InTurn self.now setup.now round me state.now [] room.new }
    {
        self.load(room, setup, round, me, 0, state);
    }

    /// Takes a message of the round; takes no memory.
    pub fn message<F: Fields>(&self, round: u32, from: u32, fields: &F, room: &mut Room)
        requires long { length room.old ≡ room_of self.now }
        requires kinds { IsOfRound self.now round (F.values fields.now) }
        ensures takes { (s : OneSetup) (i : ℕ) (old : List Value) (inbox : List Received)
            → InTurn self.now s round i old inbox room.old
            → InTurn self.now s round i old
            (inbox ++ record { from = from; message = F.values fields.now } ∷ []) room.new }
        ensures long { length room.new ≡ length room.old }
    {
        if let Some(code) = self.of_round(round) {
            code.message(from, fields, room);
        }
    }

    /// Ends the round: writes the new state over one; takes no memory.
    pub fn end(&self, round: u32, state: &mut Vars, room: &mut Room)
        requires turn { HasTurn self.now round room.old }
        requires state { IsOfState self.now state.old }
        ensures state { (s : OneSetup) (i : ℕ) (old : List Value) (inbox : List Received)
            → InTurn self.now s round i old inbox room.old
            → state.new ≡ (algorithm_of self.now s).end round i inbox old }
        ensures kinds { IsOfState self.now state.new }
        ensures room { IsRoomOf self.now room.new }
    {
        self.finish(round, room);
        let place = 13 + self.values() as usize;
        room.give(state, place, self.message_place());
    }

    /// Computes the new state in the room.
    fn finish(&self, round: u32, room: &mut Room)
        requires { length room.old ≡ room_of self.now }
        ensures { (s : OneSetup) (i : ℕ) (old : List Value) (inbox : List Received)
            → InTurn self.now s round i old inbox room.old
            → HasState self.now ((algorithm_of self.now s).end round i inbox old) room.new }
    {
        if let Some(part) = self.part(round) {
            room.run(self.values(), &part.code.end);
        }
    }

    /// Writes what a node knows of itself and its round.
    fn set_env(&self, room: &mut Room, setup: &Setup, round: u32, me: u32, dest: u32)
        requires long { length room.old ≡ room_of self.now }
        requires few { self.now.values ≤ 64 }
        ensures words { Filled 5 (env_words self.now setup.now.nodes setup.now.faults round me dest)
            room.old room.new }
        ensures small { IsSmallEnv (with_dest dest
            (node_env self.now setup.now.nodes setup.now.faults round me)) }
    {
        let phase = round.saturating_sub(1) / self.program().program().period() + 1;
        let words = [
            word(me),
            word(setup.nodes),
            word(setup.faults),
            word(round),
            word(phase),
            word(dest),
            0,
        ];
        room.fill(5, &words);
    }

    /// Brings what a node knows, and its state, into the room.
    fn load(&self, room: &mut Room, setup: &Setup, round: u32, me: u32, dest: u32, state: &Vars)
        requires room { IsRoomOf self.now room.old }
        requires state { IsOfState self.now state.now }
        ensures { Loaded self.now setup.now.nodes setup.now.faults round me dest state.now
            room.new }
    {
        let place = 13 + self.values() as usize;
        self.set_env(room, setup, round, me, dest);
        room.fill(place, state.as_words());
    }

    /// Computes the initial state of node `me` in the room.
    fn start(&self, room: &mut Room, setup: &Setup, me: u32)
        requires { IsRoomOf self.now room.old }
        ensures state { HasState self.now (initial self.now setup.now.nodes setup.now.faults
            (slice_index setup.now.inputs me) me) room.new }
    {
        let k = self.values();
        self.set_env(room, setup, 0, me, 0);
        room.fill(12 + k as usize, &[u64::from(setup.inputs.of(me))]);
        room.run(k, self.init_code());
    }

    /// Whether the block's condition holds.
    fn asks(&self, round: u32, block: &Block, code: &BlockCode, room: &mut Room) -> bool
        requires part { IsPart self.now round block.now code.now }
        requires long { length room.old ≡ room_of self.now }
        ensures holds { (env : Env) → Sending self.now env room.old
            → result ≡ flag (value block.now.condition env) }
        ensures stays { (env : Env) → Sending self.now env room.old
            → Sending self.now env room.new }
        ensures long { length room.new ≡ length room.old }
    {
        room.run(self.values(), &code.condition);
        room.word(code.place as usize) != 0
    }

    /// The message that the block's formulas are.
    fn says(
        &self,
        alloc: Global,
        round: u32,
        block: &Block,
        code: &BlockCode,
        room: &mut Room,
    ) -> Result<Message, NoMemory>
        requires part { IsPart self.now round block.now code.now }
        requires ready { (env : Env) × Sending self.now env room.old }
        ensures message { (env : Env) → Sending self.now env room.old
            → IfOk result (λ m. m ≡ map (λ (t : Tree). value t env) block.now.sent) }
        ensures kinds { IfOk result (IsOfRound self.now round) }
        ensures room { IsRoomOf self.now room.new }
    {
        room.run(self.values(), &code.sent);
        let shape = self.shape(round, block);
        room.values(alloc, shape, self.message_place(), code.free as usize)
    }
}

/// A number as a word of the room.
fn word(number: u32) -> u64
    ensures word { result ≡ number }
    ensures small { result < 2 ^ 32 }
{
    u64::from(number)
}
