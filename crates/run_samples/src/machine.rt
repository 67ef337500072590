//! A program's code at work on the nodes of a sample.
ghost use Rattle.std.specs.Prelude.{◌≡◌, ◌<◌, [], All, IfOk, List, OnErr, OnOk, length};
ghost use Rattle.round_lang.specs.declared.value.Value.{Value};
ghost use Rattle.round_meaning.specs.declared.received.Received.{Received};
ghost use Rattle.round_meaning.specs.Nodes.{has_node};
ghost use Rattle.round_meaning.specs.Rounds.{algorithm_of, inbox};
ghost use Rattle.round_meaning.specs.States.{state_in};
ghost use Rattle.round_explorer.specs.Reached.{end_without};
ghost use Rattle.step_code.specs.Rooms.{IsRoomOf};
ghost use Rattle.step_code.specs.Turns.{InTurn, IsOfState};
ghost use Rattle.run_samples.specs.Samples.{inbox_with};

use round_check::Checked;
use round_lang::Vars;
use round_meaning::{NodeSet, Setup};
use run_events::NoMemory;
use std::alloc::Global;
use std::marker::Model;
use step_code::{Room, StepProgram, compile};

/// A program's code, and the rooms that it runs in: one for what nodes send, and one for the node
/// whose round is ended. Contracts see the program.
#[derive(Drop)]
pub(crate) struct Machine {
    code: StepProgram,
    sending: Room,
    ending: Room,
}

impl Model for Machine {
    ghost use Rattle.round_lang.specs.Syntax.{ProgramTree};
    ghost use Rattle.round_lang.specs.contracts.formula.Formula as formula;
    ghost use Rattle.std.specs.Coded.{codes};
    ghost use Rattle.step_code.specs.Rooms.{IsRoomOf};

    ghost Value = { ProgramTree };

    ghost coded = { Prim.hlevel (codes, formula.the_row.coded) };

    ghost view = { λ m. m.code };

    ghost invariant = { λ m. IsRoomOf m.code m.sending × IsRoomOf m.code m.ending };
}

impl Machine {
    pub(crate) fn new(alloc: Global, program: &Checked) -> Result<Machine, NoMemory>
        ensures { IfOk result (λ m. m ≡ program.now) }
    {
        let code = compile(alloc, program)?;
        let sending = Room::new(alloc, &code)?;
        let ending = Room::new(alloc, &code)?;
        Ok(Machine {
            code,
            sending,
            ending,
        })
    }

    /// The initial state of node `me`.
    pub(crate) fn init(&mut self, alloc: Global, setup: &Setup, me: u32) -> Result<Vars, NoMemory>
        ensures state { IfOk result (λ vs. vs ≡ (algorithm_of self.old setup.now).init me) }
        ensures kinds { IfOk result (IsOfState self.old) }
        ensures same { self.new ≡ self.old }
    {
        self.code.init(alloc, setup, me, &mut self.ending)
    }

    /// Writes the state of node `me` after a round over another, from the states before it, if it
    /// misses these nodes. If memory runs out, nothing is said of what is written.
    pub(crate) fn end(
        &mut self,
        alloc: Global,
        setup: &Setup,
        round: u32,
        before: &[Vars],
        me: u32,
        missed: NodeSet,
        state: &mut Vars,
    ) -> Result<(), NoMemory>
        requires nodes { length before.now ≡ setup.now.nodes }
        requires me { me < setup.now.nodes }
        requires before { All (IsOfState self.old) before.now }
        requires state { IsOfState self.old state.old }
        ensures state { OnOk result (state.new ≡ end_without (algorithm_of self.old setup.now)
            (has_node missed.bits) before.now round me) }
        ensures kinds { OnOk result (IsOfState self.old state.new) }
        ensures same { self.new ≡ self.old }
    {
        let old = &before[me as usize];
        self.code.init_turn(setup, round, me, old, &mut self.ending);
        take_all(
            alloc,
            &self.code,
            setup,
            round,
            before,
            me,
            missed,
            &mut self.sending,
            &mut self.ending,
        )?;
        self.code.end(round, state, &mut self.ending);
        Ok(())
    }
}

/// Takes what a node that misses these nodes gets in a round, in rising order of sender.
fn take_all(
    alloc: Global,
    code: &StepProgram,
    setup: &Setup,
    round: u32,
    before: &[Vars],
    me: u32,
    missed: NodeSet,
    sending: &mut Room,
    ending: &mut Room,
) -> Result<(), NoMemory>
    requires nodes { length before.now ≡ setup.now.nodes }
    requires before { All (IsOfState code.now) before.now }
    requires sending { IsRoomOf code.now sending.old }
    requires ending { InTurn code.now setup.now round me (state_in before.now me) [] ending.old }
    ensures turn { OnOk result (InTurn code.now setup.now round me (state_in before.now me)
        (inbox (algorithm_of code.now setup.now) (has_node missed.bits) (state_in before.now)
        round me) ending.new) }
    ensures sending { IsRoomOf code.now sending.new }
    ensures ending { IsRoomOf code.now ending.new }
{
    for from in 0..setup.nodes {
        if !missed.contains(from) {
            let state = &before[from as usize];
            take_from(alloc, code, setup, round, state, from, me, sending, ending)?;
        }
    }
    Ok(())
}

/// Takes what a node in a state sends to another in its turn, if it isn't silent.
fn take_from(
    alloc: Global,
    code: &StepProgram,
    setup: &Setup,
    round: u32,
    state: &Vars,
    from: u32,
    me: u32,
    sending: &mut Room,
    ending: &mut Room,
) -> Result<(), NoMemory>
    requires state { IsOfState code.now state.now }
    requires sending { IsRoomOf code.now sending.old }
    requires ending { IsRoomOf code.now ending.old }
    ensures turn { OnOk result ((old : List Value) (inbox : List Received)
        → InTurn code.now setup.now round me old inbox ending.old
        → InTurn code.now setup.now round me old (inbox_with from
        ((algorithm_of code.now setup.now).send round state.now from me) inbox) ending.new) }
    ensures err { OnErr result (ending.new ≡ ending.old) }
    ensures sending { IsRoomOf code.now sending.new }
{
    let Some(message) = code.send(alloc, setup, round, state, from, me, sending)? else {
        return Ok(());
    };
    code.message(round, from, &message, ending);
    Ok(())
}
