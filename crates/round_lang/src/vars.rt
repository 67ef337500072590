//! A node's state and messages, seen by contracts as lists of values.
ghost use Rattle.std.specs.Prelude.{◌≡◌, ◌<◌, ◌≤◌, ◌↔◌, [], IfOk, IfSome, IsTrue, OnErr, OnOk};
ghost use Rattle.std.specs.Prelude.{length, map, slice_index, slice_set};
ghost use Rattle.std.specs.List.{AllByRecursion};
ghost use Rattle.round_lang.specs.Values.{at, num, flag, set, row};
ghost use Rattle.round_lang.specs.Words.{all_words, kind_of, read, read_spot, size, values_of};
ghost use Rattle.round_lang.specs.Words.{IsSmall, IsSpelled};

use crate::builder::VarsBuilder;
use crate::kind::Kind;
use crate::sets::ValueSet;
use crate::shape::Shape;
use crate::value::Value;
use crate::words::{row_of, write};
use run_events::NoMemory;
use smallvec::SmallVec;
use std::alloc::Global;
use std::marker::Model;

/// How many words lie in a state or message itself; more take an allocation.
pub(crate) const INLINE: usize = 2;

/// Values in the order of their declarations: a node's state, or a message. They are words, which
/// the kinds of the shape tell how to read.
#[derive(Drop, Debug)]
pub struct Vars {
    shape: Shape,
    words: SmallVec<u64, INLINE>,
}

/// The values of a block's fields, in order.
pub type Message = Vars;

impl Model for Vars {
    ghost use Rattle.std.specs.Prelude.{List};
    ghost use Rattle.round_lang.specs.declared.value.Value.{Value as OneValue};
    ghost use Rattle.round_lang.specs.Words.{values_of, IsSpelled};

    ghost Value = { List OneValue };

    ghost view = { λ v. values_of v.shape v.words.items };

    ghost invariant = { λ v. IsSpelled v.shape v.words.items };
}

impl Vars {
    /// No values; takes no memory.
    pub fn new(alloc: Global) -> Vars
        ensures { result ≡ [] }
    {
        Vars {
            shape: Shape::empty(),
            words: SmallVec::new(alloc),
        }
    }

    /// The values that these words spell.
    pub(crate) fn spelled(shape: Shape, words: SmallVec<u64, INLINE>) -> Vars
        requires { IsSpelled shape words.items }
        ensures { result ≡ values_of shape words.items }
    {
        Vars { shape, words }
    }

    /// The values of these kinds that the words spell.
    pub fn of_words(alloc: Global, shape: &Shape, words: &[u64]) -> Result<Vars, NoMemory>
        requires { IsSpelled shape.now words.now }
        ensures { IfOk result (λ v. v ≡ values_of shape.now words.now) }
    {
        Ok(Vars {
            shape: shape.copy()?,
            words: SmallVec::from_slice(alloc, words)?,
        })
    }

    /// The words that the values are spelled with, one value behind the other.
    pub fn as_words(&self) -> &[u64]
        ensures words { result.now ≡ all_words self.now }
        ensures small { AllByRecursion IsSmall self.now }
    {
        self.words.as_slice()
    }

    /// Writes other values of the same kinds, which the words spell.
    pub fn set_words(&mut self, words: &[u64])
        requires { IsSpelled (map kind_of self.old) words.now }
        ensures { self.new ≡ values_of (map kind_of self.old) words.now }
    {
        self.words.as_mut_slice().copy_from_slice(words);
    }

    /// The kinds of the values, in order.
    pub fn kinds(&self) -> &[Kind]
        ensures { result.now ≡ map kind_of self.now }
    {
        self.shape.kinds()
    }

    pub fn len(&self) -> usize
        ensures { result ≡ length self.now }
    {
        self.shape.kinds().len()
    }

    pub fn is_empty(&self) -> bool
        ensures { IsTrue result ↔ (self.now ≡ []) }
    {
        self.shape.kinds().is_empty()
    }

    /// Writes the value at a place, if it has one. Memory is wanted only if the value is of
    /// another kind than the one before.
    pub fn put(&mut self, place: usize, value: &Value) -> Result<(), NoMemory>
        ensures ok { OnOk result (self.new ≡ slice_set self.old place value.now) }
        ensures err { OnErr result (self.new ≡ self.old) }
    {
        let Some((kind, first)) = self.shape.spot(place) else {
            return Ok(());
        };
        if kind == value.kind() {
            write(self.words.as_mut_slice(), first, value);
        } else {
            *self = self.with(place, value)?;
        }
        Ok(())
    }

    /// The same values but for the one at a place, laid out anew.
    fn with(&self, place: usize, value: &Value) -> Result<Vars, NoMemory>
        ensures { IfOk result (λ v. v ≡ slice_set self.now place value.now) }
    {
        let mut values = VarsBuilder::new(*self.words.allocator());
        for i in 0..self.len() {
            let one = self.value_with(place, value, i)?;
            values.push(&one)?;
        }
        values.finish(&self.shape)
    }

    /// A copy of value `i` where another value stands at a place.
    fn value_with(&self, place: usize, value: &Value, i: usize) -> Result<Value, NoMemory>
        requires { i < length self.now }
        ensures { IfOk result (λ v. v ≡ at (slice_set self.now place value.now) i) }
    {
        if i == place {
            value.copy()
        } else {
            self.value(i)
        }
    }

    /// The kind of the value at a place, and the words from its first one on.
    fn spot(&self, place: usize) -> Option<(Kind, &[u64])>
        ensures value { read_spot result ≡ at self.now place }
        ensures small { IfSome result (λ s. IsSmall (read s.0 s.1.now)) }
        ensures whole { IfSome result (λ s. size s.0 ≤ length s.1.now) }
    {
        let (kind, first) = self.shape.spot(place)?;
        Some((kind, &self.words.as_slice()[first..]))
    }

    /// A copy of the value at a place, the number 0 if there is none.
    pub fn value(&self, place: usize) -> Result<Value, NoMemory>
        ensures { IfOk result (λ v. v ≡ at self.now place) }
    {
        let Some((kind, words)) = self.spot(place) else {
            return Ok(Value::Num(0));
        };
        Ok(match kind {
            Kind::Num => Value::Num(words[0] as u32),
            Kind::Flag => Value::Flag(words[0] == 1),
            Kind::Set => Value::Set(ValueSet { bits: words[0] }),
            Kind::Row(size) => Value::Row(row_of(*self.words.allocator(), &words[..size])?),
        })
    }

    /// The number at a place.
    pub fn num(&self, place: usize) -> u32
        ensures { result ≡ num (at self.now place) }
    {
        match self.spot(place) {
            Some((Kind::Num, words)) => words[0] as u32,
            _ => 0,
        }
    }

    /// The truth value at a place.
    pub fn flag(&self, place: usize) -> bool
        ensures { result ≡ flag (at self.now place) }
    {
        match self.spot(place) {
            Some((Kind::Flag, words)) => words[0] == 1,
            _ => false,
        }
    }

    /// The set at a place.
    pub fn set(&self, place: usize) -> ValueSet
        ensures { result.bits ≡ set (at self.now place) }
    {
        match self.spot(place) {
            Some((Kind::Set, words)) => ValueSet { bits: words[0] },
            _ => ValueSet::empty(),
        }
    }

    /// The entry of the row at a place, 0 past its end.
    pub fn entry(&self, place: usize, entry: u32) -> u32
        ensures { result ≡ slice_index (row (at self.now place)) entry }
    {
        match self.spot(place) {
            Some((Kind::Row(size), words)) => match words[..size].get(entry as usize) {
                Some(word) => *word as u32,
                None => 0,
            },
            _ => 0,
        }
    }

    pub fn copy(&self, alloc: Global) -> Result<Vars, NoMemory>
        ensures { IfOk result (λ v. v ≡ self.now) }
    {
        Ok(Vars {
            shape: self.shape.copy()?,
            words: SmallVec::from_slice(alloc, self.words.as_slice())?,
        })
    }

    /// Whether both hold the same values.
    pub fn same(&self, other: &Vars) -> bool
        ensures { IsTrue result ↔ (self.now ≡ other.now) }
    {
        self.words.as_slice() == other.words.as_slice() && self.shape.is(other.shape.kinds())
    }
}

/// Equal if both hold the same values, wherever they lie.
impl PartialEq for Vars {
    ghost use Rattle.round_lang.specs.Equality.{is_same, is_same_per};
    ghost use Rattle.round_lang.specs.contracts.vars.Vars as vars;

    ghost eq = { is_same vars.the_row.coded };

    ghost laws = { is_same_per vars.the_row.coded };

    fn eq(&self, other: &Vars) -> bool {
        self.same(other)
    }
}

impl Eq for Vars {
    ghost use Rattle.round_lang.specs.Equality.{is_same_equiv};
    ghost use Rattle.round_lang.specs.contracts.vars.Vars as vars;

    ghost laws = { is_same_equiv vars.the_row.coded };
}
