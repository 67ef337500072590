//! Which parts make a whole.
ghost use Rattle.std.specs.Prelude.{◌≡◌, ◌≤◌, ◌↔◌, All, IfErr, IfNone, IfOk, IfSome, IsTrue};
ghost use Rattle.std.specs.Prelude.{length};
ghost use Rattle.part_answers.specs.Tables.{AreMarked, IsFirstOther, IsFirstUnmarked, IsInRange};
ghost use Rattle.part_answers.specs.Tables.{IsTable, IsTwice};
ghost use Rattle.part_answers.specs.Wholes.{AreAllParts, IsAlike, IsFaultOf, IsWhole};
ghost use Rattle.part_answers.specs.Wholes.{properties_of};

use crate::answered::Answered;
use crate::part::PartAnswers;
use crate::whole::whole_of;
use std::alloc::{AllocError, AllocFailed, Global};
use thiserror::Error;

/// Why parts make no whole.
#[derive(Clone, Copy, Debug, PartialEq, Eq, Error)]
pub enum PartsFault {
    #[error("there are no parts")]
    NoParts,
    /// The place, from 0 on, of the first that isn't a part of the first one's search: another
    /// question, another count, other properties, or a number that isn't from 1 to the count.
    #[error("not all parts are of one search")]
    Other(usize),
    /// The number of a part that is there more than once.
    #[error("part {0} is there twice")]
    Twice(u32),
    /// The least number of a part that isn't there.
    #[error("part {0} is missing")]
    Missing(u32),
    #[error("out of memory")]
    NoMemory,
}

impl From<AllocError> for PartsFault {
    ghost use Rattle.std.specs.Prelude.{◌≡◌};
    ghost use Rattle.part_answers.specs.declared.joining.PartsFault.TheVariants as fault;

    ghost from_gives = { λ _ e. e ≡ fault.NoMemory };

    fn from(_error: AllocError) -> PartsFault {
        PartsFault::NoMemory
    }
}

/// What all parts of a search answer together.
///
/// A part of another search is told before one that is there twice, and that before a missing one.
/// `NoMemory` means out of memory alone.
pub fn together(alloc: Global, parts: &[PartAnswers]) -> Result<Vec<Answered>, PartsFault>
    ensures ok { IfOk result (λ whole. AreAllParts parts.now × IsWhole parts.now whole.items) }
    ensures err { IfErr result (IsFaultOf parts.now) }
{
    let [first, ..] = parts else {
        return Err(PartsFault::NoParts);
    };
    if let Some(place) = first_other(first, parts) {
        return Err(PartsFault::Other(place));
    }
    let are_there = mark(alloc, first.part.count, parts)?;
    if let Some(number) = first_missing(&are_there) {
        return Err(PartsFault::Missing(number));
    }
    Ok(whole_of(alloc, &first.answers, parts)?)
}

/// Whether the same properties are answered, in the same order.
fn have_same_properties(first: &[Answered], other: &[Answered]) -> bool
    ensures { IsTrue result ↔ (properties_of other.now ≡ properties_of first.now) }
{
    match first {
        [] => other.is_empty(),
        [one, first @ ..] => {
            match other {
                [] => false,
                [another, other @ ..] => {
                    one.property == another.property && have_same_properties(first, other)
                }
            }
        }
    }
}

/// Whether a part is of the search of the first one.
fn is_alike(first: &PartAnswers, other: &PartAnswers) -> bool
    ensures { IsTrue result ↔ IsAlike first.now other.now }
{
    let part = other.part;
    if part.count != first.part.count || part.number < 1 || first.part.count < part.number {
        return false;
    }
    other.question == first.question && have_same_properties(&first.answers, &other.answers)
}

/// The place of the first that isn't of the search of the first one.
fn first_other(first: &PartAnswers, parts: &[PartAnswers]) -> Option<usize>
    ensures some { IfSome result (IsFirstOther first.now parts.now) }
    ensures none { IfNone result (All (IsAlike first.now) parts.now) }
{
    for (place, part) in parts.iter().enumerate() {
        if !is_alike(first, part) {
            return Some(place);
        }
    }
    None
}

/// Which of so many parts are there; the place of part 1 is 0.
fn mark(alloc: Global, count: u32, parts: &[PartAnswers]) -> Result<Vec<bool>, PartsFault>
    requires { All (IsInRange count) parts.now }
    ensures ok { IfOk result (λ table. IsTable count parts.now table.items) }
    ensures err { IfErr result (IsTwice parts.now) }
{
    let mut are_there = vec![in alloc; false; count as usize]?;
    for part in parts {
        let number = part.part.number;
        let place = (number - 1) as usize;
        if are_there[place] {
            return Err(PartsFault::Twice(number));
        }
        are_there[place] = true;
    }
    Ok(are_there)
}

/// The number of the first part that isn't there.
fn first_missing(are_there: &[bool]) -> Option<u32>
    requires { length are_there.now ≤ u32.MAX }
    ensures some { IfSome result (IsFirstUnmarked are_there.now) }
    ensures none { IfNone result (AreMarked are_there.now (length are_there.now)) }
{
    let mut number = 0;
    for is_there in are_there {
        number += 1;
        if !is_there {
            return Some(number);
        }
    }
    None
}
