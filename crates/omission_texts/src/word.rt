//! What single words of a line say.
ghost use Rattle.std.specs.Prelude.{◌≡◌, ◌==◌, ◌<◌, map, true, IfOk};
ghost use Rattle.std.specs.Char.{is_ascii_digit};
ghost use Rattle.std.specs.List.{list_all, slice_split};
ghost use Rattle.schedule_text.specs.Numbers.{is_number, value_of};
ghost use Rattle.omission_texts.specs.Forms as form;
ghost use Rattle.omission_texts.specs.Forms.{Gives, GivesItems};

use crate::fault::LineFault;
use crate::line::RoundRange;
use crate::nodes::NodeList;
use run_events::NoMemory;
use std::alloc::Global;

/// The parts of a text between these marks.
pub(crate) fn parts<'a>(alloc: Global, text: &'a str, mark: char) -> Result<Vec<&'a str>, NoMemory>
    requires { mark < 128 }
    ensures { IfOk result
        (λ parts. map (λ x. x.now) parts.items ≡ slice_split (λ b. b == mark) text.now) }
{
    Ok(text.split(mark).collect(alloc)?)
}

fn are_digits(text: &[u8]) -> bool
    ensures { result ≡ list_all is_ascii_digit text.now }
{
    text.iter().all(|b| b.is_ascii_digit())
}

pub(crate) fn is_number(word: &str) -> bool
    ensures { result ≡ is_number word.now }
{
    match word.as_bytes() {
        [] => false,
        [first, rest @ ..] => first.is_ascii_digit() && are_digits(rest),
    }
}

/// What the digits of a word spell.
pub(crate) fn number(word: &str) -> Result<u32, LineFault>
    requires { is_number word.now ≡ true }
    ensures { result ≡ form.number_in word.now }
{
    match word.parse::<u32>() {
        Ok(number) => Ok(number),
        Err(_) => Err(LineFault::Large),
    }
}

/// Whether a word is a round, or a first and a last one.
pub(crate) fn are_rounds(word: &str) -> bool
    ensures { result ≡ form.are_rounds word.now }
{
    match word.split_once('-') {
        Some((first, last)) => is_number(first) && is_number(last),
        None => is_number(word),
    }
}

/// The rounds that such a word names.
pub(crate) fn rounds(word: &str) -> Result<RoundRange, LineFault>
    requires { form.are_rounds word.now ≡ true }
    ensures { result ≡ form.rounds_in word.now }
{
    match word.split_once('-') {
        Some((first, last)) => range(first, last),
        None => range(word, word),
    }
}

fn range(first: &str, last: &str) -> Result<RoundRange, LineFault>
    requires first { is_number first.now ≡ true }
    requires last { is_number last.now ≡ true }
    ensures { result ≡ form.sized_rounds
        (record { first = value_of first.now; last = value_of last.now }) }
{
    Ok(RoundRange {
        first: number(first)?,
        last: number(last)?,
    })
}

/// Whether a word is nodes with commas between them, or `-`.
pub(crate) fn are_nodes(word: &str) -> bool
    ensures { result ≡ form.are_nodes word.now }
{
    word == "-" || word.split(',').all(|item| is_number(item))
}

/// The nodes that such a word names.
pub(crate) fn nodes(alloc: Global, word: &str) -> Result<NodeList, LineFault>
    requires { form.are_nodes word.now ≡ true }
    ensures { Gives result (form.nodes_in word.now) }
{
    if word == "-" {
        return Ok(NodeList::new(Vec::new(alloc)));
    }
    let items = parts(alloc, word, ',')?;
    Ok(NodeList::new(numbers(alloc, items.as_slice())?))
}

/// What these words of digits spell.
fn numbers(alloc: Global, words: &[&str]) -> Result<Vec<u32>, LineFault>
    requires { list_all is_number (map (λ w. w.now) words.now) ≡ true }
    ensures { GivesItems result (form.numbers_in (map (λ w. w.now) words.now)) }
{
    let mut numbers = Vec::new(alloc);
    for word in words {
        numbers.push(number(word)?)?;
    }
    Ok(numbers)
}
