//! Lists of values in the making, seen by contracts as lists of values.
ghost use Rattle.std.specs.Prelude.{◌≡◌, ◌<◌, ◌^◌, [], ◌∷◌, ◌++◌, All, IfOk, OnErr, OnOk};
ghost use Rattle.round_lang.specs.Words.{words_of, IsSmall};

use crate::kind::Kind;
use crate::shape::Shape;
use crate::value::Value;
use crate::vars::{INLINE, Vars};
use run_events::NoMemory;
use smallvec::SmallVec;
use std::alloc::Global;
use std::marker::Model;

/// How many kinds lie in a builder itself: a message has no more fields.
const KINDS: usize = 8;

/// Values that are added one after the other.
#[derive(Drop, Debug)]
pub struct VarsBuilder {
    kinds: SmallVec<Kind, KINDS>,
    words: SmallVec<u64, INLINE>,
}

impl Model for VarsBuilder {
    ghost use Rattle.std.specs.Prelude.{List};
    ghost use Rattle.round_lang.specs.declared.value.Value.{Value as OneValue};
    ghost use Rattle.round_lang.specs.Words.{values_of, IsSpelled};

    ghost Value = { List OneValue };

    ghost view = { λ b. values_of b.kinds.items b.words.items };

    ghost invariant = { λ b. IsSpelled b.kinds.items b.words.items };
}

impl VarsBuilder {
    /// No values yet; takes no memory.
    pub fn new(alloc: Global) -> VarsBuilder
        ensures { result ≡ [] }
    {
        VarsBuilder {
            kinds: SmallVec::new(alloc),
            words: SmallVec::new(alloc),
        }
    }

    /// Adds a value at the end.
    pub fn push(&mut self, value: &Value) -> Result<(), NoMemory>
        ensures ok { OnOk result (self.new ≡ self.old ++ value.now ∷ []) }
        ensures err { OnErr result (self.new ≡ self.old) }
    {
        let kind = value.kind();
        self.kinds.reserve(1)?;
        push_words(&mut self.words, value)?;
        self.kinds.push_reserved(kind);
        Ok(())
    }

    /// The values, under the given shape if it is theirs, else under one of their own.
    pub fn finish(self, shape: &Shape) -> Result<Vars, NoMemory>
        ensures { IfOk result (λ v. v ≡ self) }
    {
        let VarsBuilder { kinds, words } = self;
        let shape = if shape.is(kinds.as_slice()) {
            shape.copy()?
        } else {
            Shape::new(*kinds.allocator(), kinds.as_slice())?
        };
        Ok(Vars::spelled(shape, words))
    }
}

/// Adds the words of a value at the end.
fn push_words(words: &mut SmallVec<u64, INLINE>, value: &Value) -> Result<(), NoMemory>
    ensures ok { OnOk result (words.new.items ≡ words.old.items ++ words_of value.now) }
    ensures small { IsSmall value.now }
    ensures err { OnErr result (words.new ≡ words.old) }
{
    match value {
        Value::Num(n) => words.push(u64::from(*n))?,
        Value::Flag(b) => words.push(u64::from(*b))?,
        Value::Set(s) => words.push(s.bits)?,
        Value::Row(r) => push_entries(words, r.as_slice())?,
    }
    Ok(())
}

fn push_entries(words: &mut SmallVec<u64, INLINE>, entries: &[u32]) -> Result<(), NoMemory>
    ensures ok { OnOk result (words.new.items ≡ words.old.items ++ entries.now) }
    ensures small { All (λ entry. entry < 2 ^ 32) entries.now }
    ensures err { OnErr result (words.new ≡ words.old) }
{
    words.reserve(entries.len())?;
    for entry in entries {
        words.push_reserved(u64::from(*entry));
    }
    Ok(())
}
