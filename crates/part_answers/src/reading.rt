//! Reading what a part answers.
ghost use Rattle.std.specs.Prelude.{◌≡◌, ℕ, List, IfErr, IfNone, IfOk, IfSome};
ghost use Rattle.part_answers.specs.Parts.{IsNoPart, IsOnlyPart, IsWellFormed, part_text};
ghost use Rattle.part_answers.specs.Readings.{AreLinesOf, AreNoLines, BeginsWithAnswer};
ghost use Rattle.part_answers.specs.Readings.{BeginsWithHead};
ghost use Rattle.part_answers.specs.declared.answered.Answered.{Answered as AnsweredValue};
ghost use Rattle.part_answers.specs.declared.part.PartHead.{PartHead as HeadValue};

use crate::answered::{Answered, read_answered};
use crate::cutting::cut_at;
use crate::part::{PartAnswers, PartHead};
use std::alloc::{AllocFailed, Global};
use thiserror::Error;

/// Why a text isn't what a part answers.
#[derive(Clone, Copy, Debug, PartialEq, Eq, Error)]
pub enum PartFault {
    /// The first line at fault, where the first of the text is 1. If the text ends too early, it's
    /// the line that isn't there.
    #[error("line {0} isn't what a part answers")]
    BadLine(u32),
    #[error("out of memory")]
    NoMemory,
}

impl<T: Drop> From<AllocFailed<T>> for PartFault {
    ghost use Rattle.std.specs.Prelude.{◌≡◌};
    ghost use Rattle.part_answers.specs.declared.reading.PartFault.TheVariants as fault;

    ghost from_gives = { λ _ e. e ≡ fault.NoMemory };

    fn from(_error: AllocFailed<T>) -> PartFault {
        PartFault::NoMemory
    }
}

/// Reads what a part answers. Each line ends with LF, the last too, and nothing else is passed
/// over. `NoMemory` means out of memory alone.
pub fn read_part(alloc: Global, text: &str) -> Result<PartAnswers, PartFault>
    ensures ok { IfOk result (λ part. (text.now ≡ part_text part) × IsWellFormed part) }
    ensures only { IfOk result (IsOnlyPart text.now) }
    ensures err { IfErr result (IsNoPart text.now) }
{
    let Some((head, rest)) = first_head(text) else {
        return Err(PartFault::BadLine(1));
    };
    Ok(PartAnswers {
        part: head.part,
        question: head.question,
        answers: read_answers(alloc, rest)?,
    })
}

/// The first line, and the text behind it.
fn first_head(text: &str) -> Option<(PartHead, &str)>
    ensures some { IfSome result (λ p. BeginsWithHead text.now p.0 p.1.now) }
    ensures none { IfNone result
        ((h : HeadValue) (rest : List ℕ) → ¬ (BeginsWithHead text.now h rest)) }
{
    let (line, rest) = cut_at(text, '\n')?;
    Some((PartHead::read(line)?, rest))
}

/// What the first line answers of a property of this rank or a later one, and the text behind it.
fn first_answered(text: &str, least: u32) -> Option<(Answered, &str)>
    ensures some { IfSome result (λ p. BeginsWithAnswer text.now least p.0 p.1.now) }
    ensures none { IfNone result
        ((a : AnsweredValue) (rest : List ℕ) → ¬ (BeginsWithAnswer text.now least a rest)) }
{
    let (line, rest) = cut_at(text, '\n')?;
    let answered = read_answered(line)?;
    if answered.property.rank() < least {
        return None;
    }
    Some((answered, rest))
}

/// What the lines behind the first answer.
fn read_answers(alloc: Global, text: &str) -> Result<Vec<Answered>, PartFault>
    ensures ok { IfOk result (λ answers. AreLinesOf text.now answers.items) }
    ensures err { IfErr result (AreNoLines text.now) }
{
    let mut answers = Vec::new(alloc);
    let mut rest = text;
    let mut least = 0;
    let mut line = 2;
    loop {
        let Some((answered, after)) = first_answered(rest, least) else {
            return Err(PartFault::BadLine(line));
        };
        answers.push(answered)?;
        if after.is_empty() {
            return Ok(answers);
        }
        rest = after;
        least = answered.property.rank() + 1;
        line += 1;
    }
}
