//! Words of 64 bits in few bytes, by LEB128.
ghost use Rattle.std.specs.Prelude.{◌≡◌, ◌↔◌, ℕ, List, ◌∷◌, ◌++◌, [], IfOk, IsTrue, OnOk};
ghost use Rattle.std.specs.Prelude.{IfSome, IsNone, drop, option_to_list, slice_index};
ghost use Rattle.step_machine.specs.StoredStates.{words_from, words_in, IsWhole};

use run_events::NoMemory;
use smallvec::SmallVec;
use std::alloc::Global;

/// How many bytes lie in a list itself; more take an allocation.
pub(crate) const BYTES: usize = 16;

/// How many words that were read lie in a list itself; more take an allocation.
const WORDS: usize = 16;

/// Bytes that spell the words.
pub(crate) fn spelled(alloc: Global, words: &[u64]) -> Result<SmallVec<u8, BYTES>, NoMemory>
    ensures { IfOk result (λ bytes. words_in bytes.items ≡ words.now) }
{
    let mut bytes = SmallVec::with_capacity(alloc, bytes_for(words))?;
    for word in words {
        push_word(&mut bytes, *word)?;
    }
    Ok(bytes)
}

/// How many bytes the words take. Their list has room for so many from the start, and no proof
/// rests on the number: it only saves memory.
fn bytes_for(words: &[u64]) -> usize {
    let mut bytes = words.len();
    for word in words {
        if *word >= 128 {
            bytes = bytes.saturating_add(word.ilog2() as usize / 7);
        }
    }
    bytes
}

/// Adds the bytes of one word.
#[inline]
fn push_word(bytes: &mut SmallVec<u8, BYTES>, word: u64) -> Result<(), NoMemory>
    requires { IsWhole bytes.old.items }
    ensures whole { OnOk result (IsWhole bytes.new.items) }
    ensures words { OnOk result (words_in bytes.new.items
        ≡ words_in bytes.old.items ++ word ∷ []) }
{
    let mut left = word;
    while left >= 128 {
        bytes.push((left % 128 + 128) as u8)?;
        left /= 128;
    }
    bytes.push(left as u8)?;
    Ok(())
}

/// The words that the bytes spell.
pub(crate) fn words_of(alloc: Global, bytes: &[u8]) -> Result<SmallVec<u64, WORDS>, NoMemory>
    ensures { IfOk result (λ words. words.items ≡ words_in bytes.now) }
{
    let mut words = SmallVec::with_capacity(alloc, bytes.len())?;
    let mut begun = Begun::new();
    for byte in bytes {
        if let Some(word) = begun.take(*byte) {
            words.push(word)?;
        }
    }
    Ok(words)
}

/// The first word that the bytes spell, and the bytes behind it.
#[inline]
pub(crate) fn split_word(bytes: &[u8]) -> Option<(u64, &[u8])>
    ensures some { IfSome result (λ s. words_in bytes.now ≡ s.0 ∷ words_in s.1.now) }
    ensures none { IsNone result → words_in bytes.now ≡ [] }
{
    let (byte, behind) = bytes.split_first()?;
    if *byte < 128 {
        return Some((u64::from(*byte), behind));
    }
    split_long_word(bytes)
}

/// The same, byte by byte: `split_word` is faster if the word is one byte.
fn split_long_word(bytes: &[u8]) -> Option<(u64, &[u8])>
    ensures some { IfSome result (λ s. words_in bytes.now ≡ s.0 ∷ words_in s.1.now) }
    ensures none { IsNone result → words_in bytes.now ≡ [] }
{
    let mut begun = Begun::new();
    let mut left = bytes;
    while let Some((byte, behind)) = left.split_first() {
        left = behind;
        if let Some(word) = begun.take(*byte) {
            return Some((word, left));
        }
    }
    None
}

/// The first word that the bytes spell, 0 if there is none.
pub(crate) fn first_word(bytes: &[u8]) -> u64
    ensures { result ≡ slice_index (words_in bytes.now) 0 }
{
    match split_word(bytes) {
        Some((word, _)) => word,
        None => 0,
    }
}

/// The bytes behind those of so many words. Each byte below 128 ends a word, so no word is read.
#[inline]
pub(crate) fn skip_words(bytes: &[u8], count: usize) -> &[u8]
    ensures { words_in result.now ≡ drop count (words_in bytes.now) }
{
    let mut left = bytes;
    let mut ahead = count;
    while ahead > 0 {
        let Some((byte, behind)) = left.split_first() else {
            return left;
        };
        left = behind;
        if *byte < 128 {
            ahead -= 1;
        }
    }
    left
}

/// Whether the bytes spell these words.
pub(crate) fn are_words(bytes: &[u8], words: &[u64]) -> bool
    ensures { IsTrue result ↔ (words_in bytes.now ≡ words.now) }
{
    let mut begun = Begun::new();
    let mut left = words;
    for byte in bytes {
        if let Some(word) = begun.take(*byte) {
            let Some((first, others)) = left.split_first() else {
                return false;
            };
            if *first != word {
                return false;
            }
            left = others;
        }
    }
    left.is_empty()
}

/// Whether both spell the same words.
pub(crate) fn spell_the_same(one: &[u8], other: &[u8]) -> bool
    ensures { IsTrue result ↔ (words_in one.now ≡ words_in other.now) }
{
    let mut left = one;
    let mut right = other;
    while let Some((word, behind)) = split_word(left) {
        let Some((same, others)) = split_word(right) else {
            return false;
        };
        if word != same {
            return false;
        }
        left = behind;
        right = others;
    }
    split_word(right).is_none()
}

/// A number of which some bytes are read: what they count, and what 1 counts in the next byte.
#[derive(Clone, Copy)]
struct Begun {
    value: u64,
    weight: u64,
}

impl Begun {
    /// None of its bytes are read.
    fn new() -> Begun
        ensures value { result.value ≡ 0 }
        ensures weight { result.weight ≡ 1 }
    {
        Begun {
            value: 0,
            weight: 1,
        }
    }

    /// Reads its next byte. The number, if that was its last byte; then another one begins.
    #[inline(always)]
    fn take(&mut self, byte: u8) -> Option<u64>
        ensures reads { (bytes : List ℕ) → words_from self.old.weight self.old.value (byte ∷ bytes)
            ≡ option_to_list result ++ words_from self.new.weight self.new.value bytes }
        ensures whole { IfSome result (λ _. (self.new.value ≡ 0) × (self.new.weight ≡ 1)) }
    {
        let digit = u64::from(byte);
        if digit < 128 {
            let word = self.value.wrapping_add(self.weight.wrapping_mul(digit));
            *self = Begun::new();
            return Some(word);
        }
        self.value = self
            .value
            .wrapping_add(self.weight.wrapping_mul(digit - 128));
        self.weight = self.weight.wrapping_mul(128);
        None
    }
}
