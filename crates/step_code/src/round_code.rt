//! The code of a round, which takes the round's messages.
ghost use Rattle.std.specs.Prelude.{◌≡◌, ◌++◌, ◌∷◌, [], ℕ, List, length, map};
ghost use Rattle.round_lang.specs.declared.value.Value.{Value};
ghost use Rattle.round_lang.specs.Words.{kind_of};
ghost use Rattle.round_meaning.specs.declared.received.Received.{Received};
ghost use Rattle.round_meaning.specs.declared.setup.Setup.{Setup as OneSetup};
ghost use Rattle.step_code.specs.Layout.{room_of};
ghost use Rattle.step_code.specs.Turns.{InTurn, IsOfRound};

use crate::fields::{Fields, load_fields};
use crate::instr::Instr;
use crate::program::{Part, StepProgram};
use crate::room::Room;
use crate::run::run;
use round_lang::Kind;
use std::marker::Model;

/// The code of a round, looked up once for all messages of the round. Contracts see the program
/// and the round.
#[derive(Drop)]
pub struct RoundCode<'p> {
    pub(crate) program: &'p StepProgram,
    pub(crate) round: u32,
    pub(crate) part: Part<'p>,
    pub(crate) kinds: &'p [Kind],
    pub(crate) values: u32,
    pub(crate) message: usize,
}

impl<'p> Model for RoundCode<'p> {
    ghost use Rattle.round_lang.specs.contracts.formula.Formula as formula;
    ghost use Rattle.std.specs.Coded.{codes};
    ghost use Rattle.step_code.specs.Turns.{RoundView};
    ghost use Rattle.step_code.specs.RoundInside.{round_seen, IsRoundKept};

    ghost Value = { RoundView };

    ghost coded = { Prim.hlevel (codes, formula.the_row.coded) };

    ghost view = { round_seen };

    ghost invariant = { IsRoundKept };
}

impl<'p> RoundCode<'p> {
    /// The kinds of the values of the round's messages.
    #[inline(always)]
    pub fn kinds(&self) -> &'p [Kind]
        ensures { (vs : List Value) → IsOfRound self.now.program self.now.round vs
            → map kind_of vs ≡ result.now }
    {
        self.kinds
    }

    /// Takes a message of the round; takes no memory.
    #[inline(always)]
    pub fn message<F: Fields>(&self, from: u32, fields: &F, room: &mut Room)
        requires long { length room.old ≡ room_of self.now.program }
        requires kinds { IsOfRound self.now.program self.now.round (F.values fields.now) }
        ensures takes { (s : OneSetup) (i : ℕ) (old : List Value) (inbox : List Received)
            → InTurn self.now.program s self.now.round i old inbox room.old
            → InTurn self.now.program s self.now.round i old
            (inbox ++ record { from = from; message = F.values fields.now } ∷ []) room.new }
        ensures long { length room.new ≡ length room.old }
    {
        let words = room.words.as_mut_slice();
        let listed = self.part.block.fields();
        let code: &[Instr] = &self.part.code.on_message;
        words[11] = u64::from(from);
        load_fields(fields, 0, listed, self.values, self.message, words);
        run(self.values, code, 0, code.len(), words);
        words[11] = 0;
    }
}
