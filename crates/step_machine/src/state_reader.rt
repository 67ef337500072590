//! States that are read one value behind the other.
ghost use Rattle.std.specs.Prelude.{◌≡◌, IfSome, drop, slice_index};
ghost use Rattle.round_lang.specs.Values.{at, num, flag, set, row};
ghost use Rattle.round_lang.specs.Words.{read, values_of, IsSmall, IsSpelled};
ghost use Rattle.step_machine.specs.StoredStates.{words_in, read_next};

use crate::word_bytes::{first_word, skip_words, split_word};
use round_lang::{Kind, ValueSet};
use std::marker::Model;

/// The values of a stored state that are left to read. Reading takes no memory.
#[derive(Drop)]
pub struct StateReader<'a> {
    kinds: &'a [Kind],
    bytes: &'a [u8],
}

impl<'a> Model for StateReader<'a> {
    ghost use Rattle.std.specs.Prelude.{List};
    ghost use Rattle.round_lang.specs.declared.value.Value.{Value as OneValue};
    ghost use Rattle.round_lang.specs.Words.{values_of, IsSpelled};
    ghost use Rattle.step_machine.specs.StoredStates.{words_in};

    ghost Value = { List OneValue };

    ghost view = { λ s. values_of s.kinds.now (words_in s.bytes.now) };

    ghost invariant = { λ s. IsSpelled s.kinds.now (words_in s.bytes.now) };
}

impl<'a> StateReader<'a> {
    /// The values that the words in the bytes spell.
    pub(crate) fn new(kinds: &'a [Kind], bytes: &'a [u8]) -> StateReader<'a>
        requires { IsSpelled kinds.now (words_in bytes.now) }
        ensures { result ≡ values_of kinds.now (words_in bytes.now) }
    {
        StateReader { kinds, bytes }
    }

    /// The next value as a number; 0 if it is of another kind or there is none.
    pub fn next_num(&mut self) -> u32
        ensures value { result ≡ num (at self.old 0) }
        ensures rest { self.new ≡ drop 1 self.old }
    {
        match self.take_next() {
            Some((Kind::Num, bytes)) => first_word(bytes) as u32,
            _ => 0,
        }
    }

    /// The next value as a truth value; false if it is of another kind or there is none.
    pub fn next_flag(&mut self) -> bool
        ensures value { result ≡ flag (at self.old 0) }
        ensures rest { self.new ≡ drop 1 self.old }
    {
        match self.take_next() {
            Some((Kind::Flag, bytes)) => first_word(bytes) == 1,
            _ => false,
        }
    }

    /// The next value as a set; the empty set if it is of another kind or there is none.
    pub fn next_set(&mut self) -> ValueSet
        ensures value { result.bits ≡ set (at self.old 0) }
        ensures rest { self.new ≡ drop 1 self.old }
    {
        match self.take_next() {
            Some((Kind::Set, bytes)) => ValueSet {
                bits: first_word(bytes),
            },
            _ => ValueSet::empty(),
        }
    }

    /// The next value as a row; one without entries if it is of another kind or there is none.
    pub fn next_row(&mut self) -> RowReader<'a>
        ensures value { result ≡ row (at self.old 0) }
        ensures rest { self.new ≡ drop 1 self.old }
    {
        match self.take_next() {
            Some((Kind::Row(entries), bytes)) => RowReader { entries, bytes },
            _ => RowReader {
                entries: 0,
                bytes: &[],
            },
        }
    }

    /// Passes the next value by.
    pub(crate) fn skip(&mut self)
        ensures { self.new ≡ drop 1 self.old }
    {
        self.take_next();
    }

    /// The next value's kind, and the bytes from its first one on; none behind the last value.
    fn take_next(&mut self) -> Option<(Kind, &'a [u8])>
        ensures value { read_next result ≡ at self.old 0 }
        ensures small { IfSome result (λ s. IsSmall (read s.0 (words_in s.1.now))) }
        ensures rest { self.new ≡ drop 1 self.old }
    {
        let (kind, kinds) = self.kinds.split_first()?;
        let bytes = self.bytes;
        *self = StateReader::new(kinds, skip_words(bytes, kind.size()));
        Some((*kind, bytes))
    }
}

/// The entries of a row that are left to read.
#[derive(Drop)]
pub struct RowReader<'a> {
    entries: usize,
    bytes: &'a [u8],
}

impl<'a> Model for RowReader<'a> {
    ghost use Rattle.std.specs.Prelude.{List, ℕ, take};
    ghost use Rattle.step_machine.specs.StoredStates.{words_in};

    ghost Value = { List ℕ };

    ghost view = { λ r. take r.entries (words_in r.bytes.now) };
}

impl<'a> RowReader<'a> {
    /// The next entry, 0 behind the last one.
    pub fn next_entry(&mut self) -> u64
        ensures entry { result ≡ slice_index self.old 0 }
        ensures rest { self.new ≡ drop 1 self.old }
    {
        if self.entries == 0 {
            return 0;
        }
        self.entries -= 1;
        let Some((entry, bytes)) = split_word(self.bytes) else {
            return 0;
        };
        self.bytes = bytes;
        entry
    }
}
