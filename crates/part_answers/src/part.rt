//! Parts of a search, and what they answer.
ghost use Rattle.std.specs.Prelude.{◌≡◌, ◌≢◌, ◌↔◌, IfNone, IfSome, IsTrue};
ghost use Rattle.part_answers.specs.Heads.{IsHead, IsPart, head_text, share_text};
ghost use Rattle.part_answers.specs.declared.part.Part.{Part as PartValue};
ghost use Rattle.part_answers.specs.declared.part.PartHead.{PartHead as HeadValue};

use crate::answered::Answered;
use crate::cutting::{after_words, cut_at};
use crate::number::read_number;
use crate::question::Question;
use std::fmt;

/// How many parts a search may have.
pub const MAX_COUNT: u32 = 65_536;

/// Part `number` of `count`; the first is 1.
#[derive(Clone, Copy, Debug, PartialEq, Eq)]
pub struct Part {
    pub number: u32,
    pub count: u32,
}

/// Which part of which question is answered.
#[derive(Clone, Copy, Debug, PartialEq, Eq)]
pub struct PartHead {
    pub part: Part,
    pub question: Question,
}

/// What one part answers, in the order of the properties.
#[derive(Debug, Drop, PartialEq, Eq)]
pub struct PartAnswers {
    pub part: Part,
    pub question: Question,
    pub answers: Vec<Answered>,
}

/// Its number and how many parts there are, as `2/8`.
impl fmt::Display for Part {
    ghost use Rattle.std.specs.Prelude.{Some};
    ghost use Rattle.part_answers.specs.Heads.{share_text};

    ghost output = { λ part. Some (share_text part) };

    fn fmt<W: fmt::Write>(&self, f: &mut fmt::Formatter<W>) -> fmt::Result {
        write!(f, "{}/{}", self.number, self.count)
    }
}

/// The first line of a part's answers, without its end.
impl fmt::Display for PartHead {
    ghost use Rattle.std.specs.Prelude.{Some};
    ghost use Rattle.part_answers.specs.Heads.{head_text};

    ghost output = { λ head. Some (head_text head) };

    fn fmt<W: fmt::Write>(&self, f: &mut fmt::Formatter<W>) -> fmt::Result {
        let question = self.question.as_str();
        write!(f, "part {} of {question}", self.part)
    }
}

impl Part {
    /// The part that a text such as `2/8` names.
    pub fn read(text: &str) -> Option<Part>
        ensures some { IfSome result (λ part. (text.now ≡ share_text part) × IsPart part) }
        ensures none { IfNone result ((p : PartValue) → IsPart p → text.now ≢ share_text p) }
    {
        let (before, after) = cut_at(text, '/')?;
        let number = read_number(before)?;
        let count = read_number(after)?;
        let part = Part { number, count };
        if !part.is_one() {
            return None;
        }
        Some(part)
    }

    /// Whether there are at most `MAX_COUNT` parts, and it's one of them.
    pub fn is_one(self) -> bool
        ensures { IsTrue result ↔ IsPart self }
    {
        1 <= self.number && self.number <= self.count && self.count <= MAX_COUNT
    }
}

impl PartHead {
    /// What a first line says, without its end.
    pub(crate) fn read(line: &str) -> Option<PartHead>
        ensures some { IfSome result (λ head. (line.now ≡ head_text head) × IsHead head) }
        ensures none { IfNone result ((h : HeadValue) → IsHead h → line.now ≢ head_text h) }
    {
        let numbers_on = after_words(line, "part ")?;
        let (share, of_on) = cut_at(numbers_on, ' ')?;
        let part = Part::read(share)?;
        let digits = after_words(of_on, "of ")?;
        let question = Question::read(digits)?;
        Some(PartHead { part, question })
    }
}
