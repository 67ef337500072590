//! States in few bytes.
ghost use Rattle.std.specs.Prelude.{◌≡◌, ◌↔◌, IfOk, IsTrue, map};
ghost use Rattle.round_lang.specs.Values.{at, set};
ghost use Rattle.round_lang.specs.Words.{kind_of};

use crate::state_reader::StateReader;
use crate::word_bytes::{BYTES, are_words, spell_the_same, spelled, words_of};
use round_lang::{Shape, ValueSet, Vars};
use run_events::NoMemory;
use smallvec::SmallVec;
use std::alloc::Global;
use std::marker::Model;

/// Values in few bytes: the words of a state, each as an unsigned LEB128 number.
#[derive(Drop)]
pub struct StoredState {
    shape: Shape,
    bytes: SmallVec<u8, BYTES>,
}

impl Model for StoredState {
    ghost use Rattle.std.specs.Prelude.{List};
    ghost use Rattle.round_lang.specs.declared.value.Value.{Value as OneValue};
    ghost use Rattle.round_lang.specs.Words.{values_of, IsSpelled};
    ghost use Rattle.step_machine.specs.StoredStates.{words_in};

    ghost Value = { List OneValue };

    ghost view = { λ s. values_of s.shape (words_in s.bytes.items) };

    ghost invariant = { λ s. IsSpelled s.shape (words_in s.bytes.items) };
}

impl StoredState {
    /// The same values; the shape is shared.
    pub fn new(alloc: Global, shape: &Shape, state: &Vars) -> Result<StoredState, NoMemory>
        requires { map kind_of state.now ≡ shape.now }
        ensures { IfOk result (λ s. s ≡ state.now) }
    {
        let bytes = spelled(alloc, state.as_words())?;
        Ok(StoredState {
            shape: shape.copy()?,
            bytes,
        })
    }

    /// The values as they are elsewhere.
    pub fn state(&self, alloc: Global) -> Result<Vars, NoMemory>
        ensures { IfOk result (λ state. state ≡ self.now) }
    {
        let words = words_of(alloc, self.bytes.as_slice())?;
        Vars::of_words(alloc, &self.shape, words.as_slice())
    }

    /// The values one behind the other. Takes no memory.
    pub fn reader(&self) -> StateReader<'_>
        ensures { result ≡ self.now }
    {
        StateReader::new(self.shape.kinds(), self.bytes.as_slice())
    }

    /// The value at a place as a set. Takes no memory.
    pub fn set_at(&self, place: usize) -> ValueSet
        ensures { result.bits ≡ set (at self.now place) }
    {
        let mut reader = self.reader();
        for _ in 0..place {
            reader.skip();
        }
        reader.next_set()
    }

    /// Whether a state has the same values. Takes no memory.
    pub fn same(&self, state: &Vars) -> bool
        ensures { IsTrue result ↔ (self.now ≡ state.now) }
    {
        are_words(self.bytes.as_slice(), state.as_words()) && self.shape.is(state.kinds())
    }

    /// Whether another has the same values. Takes no memory.
    pub fn equals(&self, other: &StoredState) -> bool
        ensures { IsTrue result ↔ (self.now ≡ other.now) }
    {
        spell_the_same(self.bytes.as_slice(), other.bytes.as_slice())
            && self.shape.is(other.shape.kinds())
    }
}
