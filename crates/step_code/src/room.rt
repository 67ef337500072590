//! The room of a program.
ghost use Rattle.std.specs.Prelude.{◌≡◌, ◌≤◌, ◌<◌, ◌+◌, ◌-◌, ℕ, IfOk, length, take, drop};
ghost use Rattle.std.specs.Prelude.{slice_index};
ghost use Rattle.round_lang.specs.Words.{kind_of, values_of, IsSpelled};
ghost use Rattle.std.specs.Prelude.{map};
ghost use Rattle.step_code.specs.Machine.{run, Fine};
ghost use Rattle.step_code.specs.Relation.{Filled};
ghost use Rattle.step_code.specs.Rooms.{HasConstants, IsRoomOf};

use crate::instr::Instr;
use crate::program::StepProgram;
use crate::run::run;
use round_lang::{Shape, ValueSet, Vars};
use run_events::NoMemory;
use smallvec::SmallVec;
use std::alloc::Global;
use std::marker::Model;

/// How many words lie in the room itself; more take an allocation.
const INLINE: usize = 64;

/// The words that a program's code runs over. It's made once; no run takes memory.
#[derive(Drop)]
pub struct Room {
    pub(crate) words: SmallVec<u64, INLINE>,
}

impl Model for Room {
    ghost use Rattle.std.specs.Prelude.{List, ℕ};

    ghost Value = { List ℕ };

    ghost view = { λ r. r.words.items };
}

impl Room {
    /// A room for a program.
    pub fn new(alloc: Global, program: &StepProgram) -> Result<Room, NoMemory>
        ensures { IfOk result (λ r. IsRoomOf program.now r) }
    {
        let mut words = SmallVec::from_elem(alloc, 0, program.words())?;
        set_constants(program.values(), words.as_mut_slice());
        Ok(Room { words })
    }

    /// The word at a place.
    pub(crate) fn word(&self, place: usize) -> u64
        requires { place < length self.now }
        ensures { result ≡ slice_index self.now place }
    {
        self.words.as_slice()[place]
    }

    /// Writes these words from a place on.
    pub(crate) fn fill(&mut self, first: usize, words: &[u64])
        requires { first + length words.now ≤ length self.old }
        ensures { Filled first words.now self.old self.new }
    {
        fill(self.words.as_mut_slice(), first, words);
    }

    /// Runs the code.
    pub(crate) fn run(&mut self, k: u32, code: &[Instr])
        requires k { k ≤ 64 }
        requires fine { Fine k (length self.old) code.now (length code.now) }
        ensures words { self.new ≡ run k code.now (length code.now) 0 self.old }
        ensures long { length self.new ≡ length self.old }
    {
        let words = self.words.as_mut_slice();
        run(k, code, 0, code.len(), words);
    }

    /// The values of these kinds that the words between two places spell.
    pub(crate) fn values(
        &self,
        alloc: Global,
        shape: &Shape,
        from: usize,
        to: usize,
    ) -> Result<Vars, NoMemory>
        requires order { from ≤ to }
        requires within { to ≤ length self.now }
        requires spelled { IsSpelled shape.now (take (to - from) (drop from self.now)) }
        ensures { IfOk result (λ v. v
            ≡ values_of shape.now (take (to - from) (drop from self.now))) }
    {
        Vars::of_words(alloc, shape, &self.words.as_slice()[from..to])
    }

    /// Gives the words between two places to values of the kinds that they spell.
    pub(crate) fn give(&self, vars: &mut Vars, from: usize, to: usize)
        requires order { from ≤ to }
        requires within { to ≤ length self.now }
        requires spelled { IsSpelled (map kind_of vars.old)
            (take (to - from) (drop from self.now)) }
        ensures { vars.new
            ≡ values_of (map kind_of vars.old) (take (to - from) (drop from self.now)) }
    {
        vars.set_words(&self.words.as_slice()[from..to]);
    }
}

/// Writes these words from a place on.
fn fill(room: &mut [u64], first: usize, words: &[u64])
    requires { first + length words.now ≤ length room.old }
    ensures { Filled first words.now room.old room.new }
{
    for i in 0..words.len() {
        room[first + i] = words[i];
    }
}

/// Writes the words that all code reads into a room of zeros.
fn set_constants(k: u32, room: &mut [u64])
    requires k { k ≤ 64 }
    requires long { 12 + k ≤ length room.old }
    requires zeros { (i : ℕ) → slice_index room.old i ≡ 0 }
    ensures { HasConstants k room.new }
{
    room[1] = 1;
    room[2] = 2;
    room[3] = 3;
    room[4] = ValueSet::all(k).bits;
}
