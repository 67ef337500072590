//! The whole answer.
ghost use Rattle.std.specs.Prelude.{◌≡◌, ◌↔◌, All, IfOk, IsTrue};
ghost use Rattle.part_answers.specs.Tables.{IsNo, earlier};
ghost use Rattle.part_answers.specs.Wholes.{FailsIn, HoldsInAllRounds, IsAnswerOf, IsFailureIn};
ghost use Rattle.part_answers.specs.Wholes.{IsLeast, IsOutcomeOf, properties_of};

use crate::answered::{Answered, Outcome};
use crate::part::PartAnswers;
use crate::property::Property;
use std::alloc::{AllocError, Global};

/// The answers to these properties of all parts together.
pub(crate) fn whole_of(
    alloc: Global,
    answers: &[Answered],
    parts: &[PartAnswers],
) -> Result<Vec<Answered>, AllocError>
    ensures names { IfOk result
        (λ whole. properties_of whole.items ≡ properties_of answers.now) }
    ensures right { IfOk result (λ whole. All (IsAnswerOf parts.now) whole.items) }
{
    let mut whole = Vec::with_capacity(alloc, answers.len())?;
    for answered in answers {
        let property = answered.property;
        let outcome = outcome_of(property, parts);
        whole.push(Answered { property, outcome })?;
    }
    Ok(whole)
}

/// What all parts together answer of a property.
fn outcome_of(property: Property, parts: &[PartAnswers]) -> Outcome
    ensures { IsOutcomeOf parts.now property result }
{
    match least_failure(property, parts) {
        Some(round) => Outcome::Fails(round),
        None if hold_in_all_rounds(property, parts) => Outcome::HoldsInAllRounds,
        None => Outcome::Holds,
    }
}

/// Whether each part answers that the property holds in any number of rounds.
fn hold_in_all_rounds(property: Property, parts: &[PartAnswers]) -> bool
    ensures { IsTrue result ↔ All (HoldsInAllRounds property) parts.now }
{
    parts.iter().all(|part| holds_in_all_rounds(property, part))
}

/// Whether a part answers that the property holds in any number of rounds.
fn holds_in_all_rounds(property: Property, part: &PartAnswers) -> bool
    ensures { IsTrue result ↔ HoldsInAllRounds property part.now }
{
    part.answers.contains(&Answered {
        property,
        outcome: Outcome::HoldsInAllRounds,
    })
}

/// The least round in which some part answers that the property fails.
fn least_failure(property: Property, parts: &[PartAnswers]) -> Option<u32>
    ensures { IsLeast (FailsIn parts.now property) result }
{
    let mut least = None;
    for part in parts {
        least = earlier(least, failure_of(property, &part.answers));
    }
    least
}

/// The least round in which these answer that the property fails.
fn failure_of(property: Property, answers: &[Answered]) -> Option<u32>
    ensures { IsLeast (IsFailureIn answers.now property) result }
{
    let mut least = None;
    for answered in answers {
        least = earlier(least, failure_in(property, *answered));
    }
    least
}

/// The round in which one answers that the property fails.
fn failure_in(property: Property, answered: Answered) -> Option<u32>
    ensures { IsLeast (IsNo property answered) result }
{
    match answered.outcome {
        Outcome::Fails(round) if answered.property == property => Some(round),
        _ => None,
    }
}

/// The lesser of two rounds, if there are two.
fn earlier(first: Option<u32>, second: Option<u32>) -> Option<u32>
    ensures { result ≡ earlier first second }
{
    match first {
        None => second,
        Some(a) => {
            match second {
                None => Some(a),
                Some(b) => Some(a.min(b)),
            }
        }
    }
}
