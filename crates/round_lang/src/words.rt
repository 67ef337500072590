//! Values that are spelled as words.
ghost use Rattle.std.specs.Prelude.{◌≡◌, ◌+◌, ◌≤◌, ◌<◌, ◌^◌, All, IfOk, length};
ghost use Rattle.round_lang.specs.Words.{words_of, written, IsSmall};

use crate::row::Row;
use crate::value::Value;
use run_events::NoMemory;
use std::alloc::Global;

/// The row whose entries are these words.
pub(crate) fn row_of(alloc: Global, words: &[u64]) -> Result<Row, NoMemory>
    requires { All (λ word. word < 2 ^ 32) words.now }
    ensures { IfOk result (λ r. r ≡ words.now) }
{
    let mut entries = Vec::with_capacity(alloc, words.len())?;
    for word in words {
        entries.push(*word as u32)?;
    }
    Ok(Row::new(entries))
}

/// Writes the words of a value from a place on.
pub(crate) fn write(words: &mut [u64], first: usize, value: &Value)
    requires { first + length (words_of value.now) ≤ length words.old }
    ensures words { words.new ≡ written words.old first (words_of value.now) }
    ensures small { IsSmall value.now }
{
    match value {
        Value::Num(n) => words[first] = u64::from(*n),
        Value::Flag(b) => words[first] = u64::from(*b),
        Value::Set(s) => words[first] = s.bits,
        Value::Row(r) => write_entries(words, first, r.as_slice()),
    }
}

fn write_entries(words: &mut [u64], first: usize, entries: &[u32])
    requires { first + length entries.now ≤ length words.old }
    ensures words { words.new ≡ written words.old first entries.now }
    ensures small { All (λ entry. entry < 2 ^ 32) entries.now }
{
    for (place, entry) in entries.iter().enumerate() {
        words[first + place] = u64::from(*entry);
    }
}
