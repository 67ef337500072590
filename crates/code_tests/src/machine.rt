//! The code of a program at work, each time in a room of its own.
ghost use Rattle.std.specs.Prelude.{◌≡◌, ◌++◌, ◌↔◌, ℕ, List, All, IsTrue, length};
ghost use Rattle.round_lang.specs.declared.value.Value.{Value as OneValue};
ghost use Rattle.round_meaning.specs.declared.received.Received.{Received as OneReceived};
ghost use Rattle.round_meaning.specs.declared.setup.Setup.{Setup as OneSetup};
ghost use Rattle.step_code.specs.Layout.{room_of};
ghost use Rattle.step_code.specs.Turns.{InTurn, IsOfRound};

use round_lang::{Message, Vars};
use round_meaning::{Received, Setup};
use std::alloc::Global;
use step_code::{Room, StepProgram};
use test_kit::Fault;

/// The initial state of a node.
pub fn started(alloc: Global, code: &StepProgram, setup: &Setup, me: u32) -> Result<Vars, Fault> {
    let mut room = Room::new(alloc, code)?;
    Ok(code.init(alloc, setup, me, &mut room)?)
}

/// What a node in a state sends to another in a round.
pub fn sent(
    alloc: Global,
    code: &StepProgram,
    setup: &Setup,
    round: u32,
    state: &Vars,
    me: u32,
    dest: u32,
) -> Result<Option<Message>, Fault> {
    if !code.is_state(state) {
        return Err(Fault::Unreadable);
    }
    let mut room = Room::new(alloc, code)?;
    Ok(code.send(alloc, setup, round, state, me, dest, &mut room)?)
}

/// The state after a round with an inbox.
pub fn ended(
    alloc: Global,
    code: &StepProgram,
    setup: &Setup,
    round: u32,
    me: u32,
    inbox: &[Received],
    state: &Vars,
) -> Result<Vars, Fault> {
    if !code.is_state(state) || !are_messages(code, round, inbox) {
        return Err(Fault::Unreadable);
    }
    let mut room = Room::new(alloc, code)?;
    let mut next = state.copy(alloc)?;
    code.init_turn(setup, round, me, state, &mut room);
    take_all(code, round, inbox, &mut room);
    code.end(round, &mut next, &mut room);
    Ok(next)
}

fn are_messages(code: &StepProgram, round: u32, inbox: &[Received]) -> bool
    ensures { IsTrue result
        ↔ All (λ (it : OneReceived). IsOfRound code.now round it.message) inbox.now }
{
    inbox.iter().all(|it| code.is_message(round, &it.message))
}

/// Takes the messages in their order.
fn take_all(code: &StepProgram, round: u32, inbox: &[Received], room: &mut Room)
    requires long { length room.old ≡ room_of code.now }
    requires kinds { All (λ (it : OneReceived). IsOfRound code.now round it.message) inbox.now }
    ensures { (s : OneSetup) (i : ℕ) (old : List OneValue) (before : List OneReceived)
        → InTurn code.now s round i old before room.old
        → InTurn code.now s round i old (before ++ inbox.now) room.new }
{
    match inbox {
        [] => {}
        [first, rest @ ..] => {
            code.message(round, first.from, &first.message, room);
            take_all(code, round, rest, room);
        }
    }
}
