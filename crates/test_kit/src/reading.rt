//! The words, parts and numbers of texts.
ghost use Rattle.std.specs.Prelude.{◌≡◌, ◌↔◌, ℕ, List, drop, map, Err, IfErr, IfOk, IsErr};
ghost use Rattle.std.specs.Iterator.{IsFinite};
ghost use Rattle.std.specs.List.{after_first, before_first};
ghost use Rattle.std.specs.Str.{trim};
ghost use Rattle.std.specs.String.{string_bytes};
ghost use Rattle.test_kit.specs.Reading.{GivesNumbers, GivesOther, IsListText, Writes, is_bar};
ghost use Rattle.test_kit.specs.Reading.{is_blank};
ghost use Rattle.test_kit.specs.declared.fault.Fault.TheVariants.{Unreadable};

use crate::fault::Fault;
use std::alloc::Global;

/// The texts before and behind the first blank, or the whole and an empty one.
pub fn cut(text: &str) -> (&str, &str)
    ensures before { result.0.now ≡ before_first is_blank text.now }
    ensures behind { result.1.now ≡ after_first is_blank text.now }
{
    text.split_once(' ').unwrap_or((text, ""))
}

/// The texts before and behind the first bar, without the white space around each.
pub fn cut_pair(text: &str) -> Result<(&str, &str), Fault>
    ensures before { IfOk result (λ pair. pair.0.now ≡ trim (before_first is_bar text.now)) }
    ensures behind { IfOk result (λ pair. pair.1.now ≡ trim (after_first is_bar text.now)) }
    ensures err { IsErr result ↔ (before_first is_bar text.now ≡ text.now) }
    ensures fault { IfErr result (λ fault. fault ≡ Unreadable) }
{
    match text.split_once('|') {
        Some((one, other)) => Ok((one.trim(), other.trim())),
        None => Err(Fault::Unreadable),
    }
}

/// The number that a text writes in decimal digits, with or without a plus before them.
pub fn number(text: &str) -> Result<u32, Fault>
    ensures ok { IfOk result (Writes text.now) }
    ensures none { IfErr result (λ _. (n : ℕ) → ¬ (Writes text.now n)) }
    ensures fault { IfErr result (λ fault. fault ≡ Unreadable) }
{
    text.parse().map_err(|_| Fault::Unreadable)
}

/// The numbers that these texts write.
pub fn numbers<'a, I: Iterator<Item = &'a str> + Drop>(
    alloc: Global,
    words: I,
) -> Result<Vec<u32>, Fault>
    requires can { I.can_next words }
    requires ends { IsFinite (I.remaining words) }
    ensures ok { IfOk result (λ ns. GivesNumbers I.next_gives words ns.items) }
    ensures unreadable { result ≡ Err Unreadable → GivesOther I.next_gives words }
{
    let mut numbers = Vec::new(alloc);
    for word in words {
        numbers.push(number(word)?)?;
    }
    Ok(numbers)
}

/// Numbers with commas between them, none in `-`.
pub fn comma_numbers(alloc: Global, text: &str) -> Result<Vec<u32>, Fault>
    ensures ok { IfOk result (λ ns. IsListText text.now ns.items) }
    ensures unreadable { result ≡ Err Unreadable → (ns : List ℕ) → ¬ (IsListText text.now ns) }
{
    if text == "-" {
        return Ok(Vec::new(alloc));
    }
    numbers(alloc, text.split(','))
}

/// The words after the program's own name.
pub fn texts<'a>(alloc: Global, words: &'a [String]) -> Result<Vec<&'a str>, Fault>
    ensures { IfOk result (λ texts. map (λ text. text.now) texts.items
        ≡ map string_bytes (drop 1 words.now)) }
{
    let mut texts = Vec::new(alloc);
    for word in words.iter().skip(1) {
        texts.push(word.as_str())?;
    }
    Ok(texts)
}
