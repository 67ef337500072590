//! Compiled programs.
ghost use Rattle.std.specs.Prelude.{◌≡◌, ◌≤◌, ◌<◌, ◌^◌, ◌+◌, ◌-◌, ◌%◌, ◌↔◌, true, IsTrue, IfOk};
ghost use Rattle.std.specs.Prelude.{IfSome, IsNone, None, OnOk, Some, length, option_copied};
ghost use Rattle.std.specs.Prelude.{slice_get};
ghost use Rattle.round_check.specs.Shapes.{block_kinds};
ghost use Rattle.round_check.specs.Causes.{is_typed};
ghost use Rattle.round_meaning.specs.Turn.{block_at};
ghost use Rattle.step_code.specs.Assignments.{StartsNumbers, starts_top};
ghost use Rattle.step_code.specs.Layout.{init_code, message_place, room_of, start_names};
ghost use Rattle.step_code.specs.Layout.{state_place};
ghost use Rattle.step_code.specs.Machine.{Fine};
ghost use Rattle.step_code.specs.Turns.{IsOfRound, IsOfState, IsPart};

use crate::block_code::{BlockCode, compile_blocks};
use crate::instr::Instr;
use crate::joining::join_jumps;
use crate::layout::place_variables;
use crate::names::Known;
use crate::pieces::{Piece, emit_starts};
use crate::round_code::RoundCode;
use crate::single::further;
use round_check::Checked;
use round_lang::{Block, Message, Program, Shape, Ty, Vars};
use run_events::NoMemory;
use std::alloc::Global;
use std::marker::Model;

/// A block with its code, and where the free words begin.
#[derive(Clone, Copy)]
pub(crate) struct Part<'a> {
    pub(crate) block: &'a Block,
    pub(crate) code: &'a BlockCode,
    pub(crate) free: usize,
}

/// A program's flat code, seen by contracts as the program. It keeps that the code is that of the
/// program, that no jump leaves it, that each operand stands in the room and is of the kind that
/// its operator takes, that each loop has K turns, and that it uses no more words than it states.
#[derive(Drop)]
pub struct StepProgram {
    program: Checked,
    room: usize,
    message: u16,
    init: Vec<Instr>,
    blocks: Vec<BlockCode>,
}

impl Model for StepProgram {
    ghost use Rattle.round_lang.specs.Syntax.{ProgramTree};
    ghost use Rattle.round_lang.specs.contracts.formula.Formula as formula;
    ghost use Rattle.std.specs.Coded.{codes};
    ghost use Rattle.step_code.specs.Inside.{IsKept};

    ghost Value = { ProgramTree };

    ghost coded = { Prim.hlevel (codes, formula.the_row.coded) };

    ghost view = { λ s. s.program };

    ghost invariant = { IsKept };
}

impl StepProgram {
    /// How many words its code uses: what a room of it has.
    pub fn words(&self) -> usize
        ensures words { result ≡ room_of self.now }
        ensures constants { 13 + self.now.values ≤ result }
    {
        self.room
    }

    /// The program that it's the code of.
    pub fn program(&self) -> &Checked
        ensures { result.now ≡ self.now }
    {
        &self.program
    }

    /// K.
    pub(crate) fn values(&self) -> u32
        ensures value { result ≡ self.now.values }
        ensures few { result ≤ 64 }
    {
        self.program.program().values()
    }

    /// Whether the values are of the kinds that a state's are.
    pub fn is_state(&self, values: &Vars) -> bool
        ensures { IsTrue result ↔ IsOfState self.now values.now }
    {
        self.program.state_shape().is(values.kinds())
    }

    /// Whether the values are of the kinds that those of a round's messages are.
    pub fn is_message(&self, round: u32, values: &Message) -> bool
        ensures { IsTrue result ↔ IsOfRound self.now round values.now }
    {
        let place = place_at(self.program.program(), round);
        match self.program.message_shape(place) {
            Some(shape) => shape.is(values.kinds()),
            None => true,
        }
    }

    /// Where the words of a message begin, which is where those of the state end.
    pub(crate) fn message_place(&self) -> usize
        ensures place { result ≡ message_place self.now }
        ensures behind { state_place self.now.values ≤ result }
        ensures within { result ≤ room_of self.now }
        ensures near { result < 2 ^ 16 }
    {
        self.message as usize
    }

    /// The code of the initial state.
    pub(crate) fn init_code(&self) -> &[Instr]
        ensures code { result.now ≡ init_code self.now }
        ensures fine { Fine self.now.values (room_of self.now) result.now (length result.now) }
        ensures typed { is_typed self.now ≡ true }
        ensures numbers { StartsNumbers self.now.variables }
    {
        &self.init
    }

    /// The block of a round, with its code.
    pub(crate) fn part(&self, round: u32) -> Option<Part<'_>>
        ensures some { IfSome result (λ part. IsPart self.now round part.block.now part.code.now) }
        ensures free { IfSome result (λ part. part.free ≡ part.code.now.free) }
        ensures near { IfSome result (λ part. part.free < 2 ^ 16) }
        ensures none { IsNone result → block_at self.now round ≡ None }
    {
        let program = self.program.program();
        let place = place_at(program, round);
        let block = block_in(program, place)?;
        let code = code_in(self.blocks.as_slice(), place)?;
        let free = code.free as usize;
        Some(Part { block, code, free })
    }

    /// The code of a round, none if the round has no block.
    pub fn of_round(&self, round: u32) -> Option<RoundCode<'_>>
        ensures some { IfSome result (λ code. code
            ≡ record { program = self.now; round = round }) }
        ensures none { IsNone result → block_at self.now round ≡ None }
    {
        let part = self.part(round)?;
        Some(RoundCode {
            program: self,
            round,
            part,
            kinds: self.shape(round, part.block).kinds(),
            values: self.values(),
            message: self.message_place(),
        })
    }

    /// The kinds of a message's values in a round.
    pub(crate) fn shape(&self, round: u32, block: &Block) -> &Shape
        requires { block_at self.now round ≡ Some block.now }
        ensures { result.now ≡ block_kinds self.now.values block.now }
    {
        let place = place_at(self.program.program(), round);
        match self.program.message_shape(place) {
            Some(shape) => shape,
            None => unreachable!(),
        }
    }
}

/// The place of a round's block.
fn place_at(program: &Program, round: u32) -> usize
    ensures { result ≡ (round - 1) % program.now.period }
{
    let place = round.saturating_sub(1) % program.period();
    place as usize
}

fn block_in(program: &Program, place: usize) -> Option<&Block>
    ensures { option_copied result ≡ slice_get program.now.blocks place }
{
    program.blocks().get(place)
}

fn code_in(codes: &[BlockCode], place: usize) -> Option<&BlockCode>
    ensures { option_copied result ≡ slice_get codes.now place }
{
    codes.get(place)
}

/// The code of a checked program.
pub fn compile(alloc: Global, program: &Checked) -> Result<StepProgram, NoMemory>
    ensures { IfOk result (λ s. s ≡ program.now) }
{
    program.typed();
    let tree = program.program();
    let k = tree.values();
    let mut variables = Vec::new(alloc);
    let state = further(13, k);
    let message = place_variables(&mut variables, k, state, tree.variables())?;
    let start = start_piece(alloc, program, state, message)?;
    let mut blocks = Vec::new(alloc);
    let top = compile_blocks(&mut blocks, alloc, tree, &variables, message, tree.blocks())?;
    Ok(StepProgram {
        program: program.copy()?,
        room: start.top.max(top),
        message,
        init: start.code,
        blocks,
    })
}

/// The code of the initial state.
fn start_piece(
    alloc: Global,
    program: &Checked,
    state: u16,
    message: u16,
) -> Result<Piece, NoMemory>
    requires state { state ≡ 13 + program.now.values }
    requires message { message ≡ message_place program.now }
    requires low { message < 2 ^ 11 }
    ensures code { IfOk result (λ r. r.code.items ≡ init_code program.now) }
    ensures top { IfOk result (λ r. r.top ≡ starts_top program.now.values (start_names program.now)
        program.now.variables (message_place program.now)) }
    ensures numbers { OnOk result (StartsNumbers program.now.variables) }
{
    let tree = program.program();
    let k = tree.values();
    let place = further(12, k);
    let name = program.input().copy()?;
    let mut names = Vec::new(alloc);
    names.push(Known {
        name,
        ty: Ty::Num,
        place,
    })?;
    let mut code = Vec::new(alloc);
    let top = emit_starts(&mut code, k, &names, tree.variables(), state, message)?;
    join_jumps(code.as_mut_slice());
    Ok(Piece { code, top })
}
