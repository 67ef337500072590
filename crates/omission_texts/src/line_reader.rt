//! Reading a line.
ghost use Rattle.std.specs.Prelude.{◌≡◌, map};
ghost use Rattle.omission_texts.specs.Forms as form;
ghost use Rattle.omission_texts.specs.Forms.{Gives};

use crate::fault::LineFault;
use crate::line::OmissionLine;
use crate::word::{are_nodes, are_rounds, is_number, nodes, number, parts, rounds};
use std::alloc::Global;

/// What a line says.
#[tactic(auto, unfolding(crate::specs::Forms::line_in))]
pub(crate) fn read_line(alloc: Global, line: &str) -> Result<OmissionLine, LineFault>
    ensures { Gives result (form.line_in line.now) }
{
    let words = parts(alloc, line, ' ')?;
    read_words(alloc, words.as_slice())
}

/// What a line of these words says.
fn read_words(alloc: Global, words: &[&str]) -> Result<OmissionLine, LineFault>
    ensures { Gives result (form.words_in (map (λ w. w.now) words.now)) }
{
    match words {
        [word, a, b] => three_words(alloc, word, a, b),
        [word, a, b, c] => four_words(alloc, word, a, b, c),
        [] | [_] | [_, _] => Err(LineFault::Bad),
        [_, _, _, _, _, ..] => Err(LineFault::Bad),
    }
}

fn three_words(alloc: Global, word: &str, a: &str, b: &str) -> Result<OmissionLine, LineFault>
    ensures { Gives result (form.three_in word.now a.now b.now) }
{
    if word == "cut" {
        return cut(alloc, a, b);
    }
    Err(LineFault::Bad)
}

fn four_words(
    alloc: Global,
    word: &str,
    a: &str,
    b: &str,
    c: &str,
) -> Result<OmissionLine, LineFault>
    ensures { Gives result (form.four_in word.now a.now b.now c.now) }
{
    if word == "omit" {
        return omit(a, b, c);
    }
    if word == "crash" {
        return crash(alloc, a, b, c);
    }
    Err(LineFault::Bad)
}

/// The line of a receiver, rounds and a sender.
fn omit(receiver: &str, range: &str, sender: &str) -> Result<OmissionLine, LineFault>
    ensures { result ≡ form.omit_in receiver.now range.now sender.now }
{
    if !is_number(receiver) || !are_rounds(range) || !is_number(sender) {
        return Err(LineFault::Bad);
    }
    Ok(OmissionLine::Omit {
        receiver: number(receiver)?,
        rounds: rounds(range)?,
        sender: number(sender)?,
    })
}

/// The line of a list and rounds.
fn cut(alloc: Global, list: &str, range: &str) -> Result<OmissionLine, LineFault>
    ensures { Gives result (form.cut_in list.now range.now) }
{
    if !are_nodes(list) || !are_rounds(range) {
        return Err(LineFault::Bad);
    }
    Ok(OmissionLine::Cut {
        nodes: nodes(alloc, list)?,
        rounds: rounds(range)?,
    })
}

/// The line of a node, a round and a list.
fn crash(alloc: Global, node: &str, round: &str, list: &str) -> Result<OmissionLine, LineFault>
    ensures { Gives result (form.crash_in node.now round.now list.now) }
{
    if !is_number(node) || !is_number(round) || !are_nodes(list) {
        return Err(LineFault::Bad);
    }
    Ok(OmissionLine::Crash {
        node: number(node)?,
        round: number(round)?,
        reached: nodes(alloc, list)?,
    })
}
