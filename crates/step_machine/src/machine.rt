//! A program's code, and the room of words that a node runs it in.
ghost use Rattle.std.specs.Prelude.{◌≡◌, ◌∷◌, ◌++◌, ℕ, List, [], IfOk, length};
ghost use Rattle.round_lang.specs.declared.value.Value.{Value};
ghost use Rattle.round_meaning.specs.declared.received.Received.{Received};
ghost use Rattle.round_meaning.specs.declared.setup.Setup.{Setup as OneSetup};
ghost use Rattle.round_meaning.specs.Rounds.{algorithm_of};
ghost use Rattle.step_code.specs.Layout.{room_of};
ghost use Rattle.step_code.specs.Turns.{InTurn, IsOfRound, IsOfState};
ghost use Rattle.step_machine.specs.Nodes.{inbox_of};
ghost use Rattle.step_machine.specs.Reading.{AreOfRound};
ghost use Rattle.step_machine.specs.Sealed.{KeepsTypes};

use crate::fields::FrameFields;
use crate::sealed::Sealed;
use round_check::Checked;
use round_lang::{Message, Vars};
use round_meaning::{Setup, types_are_kept};
use run_events::NoMemory;
use std::alloc::Global;
use std::marker::Model;
use step_code::{Room, RoundCode, StepProgram, compile};

/// A program's code with a room that it runs in, seen by contracts as the program. Code reads
/// words, of the kinds that the program's states and messages have.
#[derive(Drop)]
pub(crate) struct Machine {
    code: StepProgram,
    room: Room,
}

impl Model for Machine {
    ghost use Rattle.round_lang.specs.Syntax.{ProgramTree};
    ghost use Rattle.round_lang.specs.contracts.formula.Formula as formula;
    ghost use Rattle.std.specs.Coded.{codes};
    ghost use Rattle.step_code.specs.Rooms.{IsRoomOf};

    ghost Value = { ProgramTree };

    ghost coded = { Prim.hlevel (codes, formula.the_row.coded) };

    ghost view = { λ m. m.code };

    ghost invariant = { λ m. IsRoomOf m.code m.room };
}

impl Machine {
    pub(crate) fn new(alloc: Global, program: &Checked) -> Result<Machine, NoMemory>
        ensures { IfOk result (λ m. m ≡ program.now) }
    {
        let code = compile(alloc, program)?;
        let room = Room::new(alloc, &code)?;
        Ok(Machine { code, room })
    }

    pub(crate) fn program(&self) -> &Checked
        ensures { result.now ≡ self.now }
    {
        self.code.program()
    }

    /// The initial state of node `me`.
    pub(crate) fn init(&mut self, alloc: Global, setup: &Setup, me: u32) -> Result<Vars, NoMemory>
        ensures state { IfOk result (λ vs. vs ≡ (algorithm_of self.old setup.now).init me) }
        ensures kinds { IfOk result (IsOfState self.old) }
        ensures same { self.new ≡ self.old }
    {
        self.code.init(alloc, setup, me, &mut self.room)
    }

    /// What node `me` in a state sends to `dest` in a round, none if it's silent.
    pub(crate) fn send(
        &mut self,
        alloc: Global,
        setup: &Setup,
        round: u32,
        state: &Vars,
        me: u32,
        dest: u32,
    ) -> Result<Option<Message>, NoMemory>
        requires { IsOfState self.old state.now }
        ensures message { IfOk result (λ m. m
            ≡ (algorithm_of self.old setup.now).send round state.now me dest) }
        ensures same { self.new ≡ self.old }
    {
        self.code
            .send(alloc, setup, round, state, me, dest, &mut self.room)
    }

    /// Writes the state of node `me` after a round over another, from the state before it and the
    /// frames held of it.
    pub(crate) fn end(
        &mut self,
        setup: &Setup,
        round: u32,
        me: u32,
        held: &[Option<Sealed>],
        state: &Vars,
        next: &mut Vars,
    )
        requires state { IsOfState self.old state.now }
        requires next { IsOfState self.old next.old }
        requires held { AreOfRound self.old round held.now }
        ensures state { next.new
            ≡ (algorithm_of self.old setup.now).end round me (inbox_of held.now) state.now }
        ensures kinds { IsOfState self.old next.new }
        ensures same { self.new ≡ self.old }
    {
        self.code.init_turn(setup, round, me, state, &mut self.room);
        take_round(&self.code, round, held, &mut self.room);
        self.code.end(round, next, &mut self.room);
    }
}

/// Nothing at run time: the program's states and messages keep their types.
pub(crate) fn keeps_types(program: &Checked)
    ensures { KeepsTypes program.now }
{
    types_are_kept(program);
}

/// Takes the messages of a round, in rising order of sender.
fn take_round(program: &StepProgram, round: u32, held: &[Option<Sealed>], room: &mut Room)
    requires long { length room.old ≡ room_of program.now }
    requires kinds { AreOfRound program.now round held.now }
    ensures { (s : OneSetup) (i : ℕ) (old : List Value) (inbox : List Received)
        → InTurn program.now s round i old inbox room.old
        → InTurn program.now s round i old (inbox ++ inbox_of held.now) room.new }
{
    if let Some(code) = program.of_round(round) {
        take_all(&code, held, room);
    }
}

/// Takes the messages, in rising order of sender.
fn take_all(code: &RoundCode<'_>, held: &[Option<Sealed>], room: &mut Room)
    requires long { length room.old ≡ room_of code.now.program }
    requires kinds { AreOfRound code.now.program code.now.round held.now }
    ensures { (s : OneSetup) (i : ℕ) (old : List Value) (inbox : List Received)
        → InTurn code.now.program s code.now.round i old inbox room.old
        → InTurn code.now.program s code.now.round i old (inbox ++ inbox_of held.now) room.new }
{
    match held {
        [] => {}
        [first, rest @ ..] => {
            if let Some(frame) = first {
                take(code, frame, room);
            }
            take_all(code, rest, room);
        }
    }
}

/// Takes a message, which is read where it lies.
fn take(code: &RoundCode<'_>, frame: &Sealed, room: &mut Room)
    requires long { length room.old ≡ room_of code.now.program }
    requires kinds { IsOfRound code.now.program code.now.round frame.now.message }
    ensures takes { (s : OneSetup) (i : ℕ) (old : List Value) (inbox : List Received)
        → InTurn code.now.program s code.now.round i old inbox room.old
        → InTurn code.now.program s code.now.round i old
        (inbox ++ record { from = frame.now.name.from; message = frame.now.message } ∷ [])
        room.new }
    ensures long { length room.new ≡ length room.old }
{
    let fields = FrameFields {
        fields: frame.fields_of(code.kinds()),
    };
    code.message(frame.name().from, &fields, room);
}
