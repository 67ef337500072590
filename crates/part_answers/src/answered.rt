//! What is answered of a property.
ghost use Rattle.std.specs.Prelude.{◌≡◌, ◌≢◌, ◌++◌, ℕ, IfNone, IfSome, codes};
ghost use Rattle.std.specs.Fmt.{decimal};
ghost use Rattle.part_answers.specs.Answers.{IsAnswered, IsOutcome, IsRound, answered_text};
ghost use Rattle.part_answers.specs.Answers.{outcome_words};
ghost use Rattle.part_answers.specs.declared.answered.Answered.{Answered as AnsweredValue};
ghost use Rattle.part_answers.specs.declared.answered.Outcome.{Outcome as OutcomeValue};

use crate::cutting::{after_words, cut_at};
use crate::number::read_round;
use crate::property::Property;
use std::fmt;

/// What is answered of a property.
#[derive(Clone, Copy, Debug, PartialEq, Eq)]
pub enum Outcome {
    /// It holds in the rounds that are asked about.
    Holds,
    /// It holds in any number of rounds.
    HoldsInAllRounds,
    /// It fails in this round.
    Fails(u32),
}

/// A property, and what is answered of it.
#[derive(Clone, Copy, Debug, PartialEq, Eq)]
pub struct Answered {
    pub property: Property,
    pub outcome: Outcome,
}

/// The property, and `yes`, `yes in all rounds`, or `no` and the round.
impl fmt::Display for Answered {
    ghost use Rattle.std.specs.Prelude.{Some};
    ghost use Rattle.part_answers.specs.Answers.{answered_text};

    ghost output = { λ answered. Some (answered_text answered) };

    fn fmt<W: fmt::Write>(&self, f: &mut fmt::Formatter<W>) -> fmt::Result {
        let name = self.property.as_str();
        match self.outcome {
            Outcome::Holds => write!(f, "{name} yes"),
            Outcome::HoldsInAllRounds => write!(f, "{name} yes in all rounds"),
            Outcome::Fails(round) => write!(f, "{name} no in round {round}"),
        }
    }
}

/// The round of a `no`, from what follows the property.
fn read_failure(words: &str) -> Option<u32>
    ensures some { IfSome result
        (λ round. (words.now ≡ codes "no in round " ++ decimal round) × IsRound round) }
    ensures none { IfNone result
        ((r : ℕ) → IsRound r → words.now ≢ codes "no in round " ++ decimal r) }
{
    read_round(after_words(words, "no in round ")?)
}

/// What the words behind the property and a space answer of it.
fn read_outcome(words: &str) -> Option<Outcome>
    ensures some { IfSome result
        (λ outcome. (words.now ≡ outcome_words outcome) × IsOutcome outcome) }
    ensures none { IfNone result
        ((o : OutcomeValue) → IsOutcome o → words.now ≢ outcome_words o) }
{
    if words == "yes" {
        return Some(Outcome::Holds);
    }
    if words == "yes in all rounds" {
        return Some(Outcome::HoldsInAllRounds);
    }
    let round = read_failure(words)?;
    Some(Outcome::Fails(round))
}

/// What a line without its end answers.
pub(crate) fn read_answered(line: &str) -> Option<Answered>
    ensures some { IfSome result
        (λ answered. (line.now ≡ answered_text answered) × IsAnswered answered) }
    ensures none { IfNone result
        ((a : AnsweredValue) → IsAnswered a → line.now ≢ answered_text a) }
{
    let (name, words) = cut_at(line, ' ')?;
    let property = Property::named(name)?;
    let outcome = read_outcome(words)?;
    Some(Answered { property, outcome })
}
