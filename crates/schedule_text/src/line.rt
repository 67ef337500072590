//! What single lines of a text say.
ghost use Rattle.std.specs.Prelude.{◌≡◌, option_map};
ghost use Rattle.std.specs.Str.{bytes_eq};
ghost use Rattle.std.specs.Char.{is_ascii_digit};
ghost use Rattle.std.specs.List.{list_all};
ghost use Rattle.schedule_text.specs.Numbers.{is_number, words_of};
ghost use Rattle.schedule_text.specs.Stages.{numbers_in};
ghost use Rattle.schedule_text.specs.Fronts.{fault_before, three_or_four, two_numbers};
ghost use Rattle.schedule_text.specs.Stages as spec;
ghost use Rattle.schedule_text.specs.Outcome.{GivesItems};

use crate::fault::LineFault;
use crate::number::{MAX_NUMBER, first_number};
use crate::pace::{Pace, Stop};
use run_events::{Event, Name, PlanKind};
use std::alloc::Global;

#[tactic(auto, unfolding(crate::specs::Stages::after))]
pub(crate) fn after<'a>(line: &'a [u8], start: &[u8]) -> Option<&'a [u8]>
    ensures { option_map (λ rest. rest.now) result ≡ spec.after start.now line.now }
{
    line.strip_prefix(start)
}

fn is_text(line: &[u8], text: &[u8]) -> bool
    ensures { result ≡ bytes_eq line.now text.now }
{
    line == text
}

/// The one number that a text is.
fn one_number(text: &[u8]) -> Result<u32, LineFault>
    ensures { result ≡ spec.one_of (numbers_in text.now) }
{
    let Some(front) = first_number(text) else {
        return Err(LineFault::Bad);
    };
    if front.rest.is_some() {
        return Err(LineFault::Bad);
    }
    if front.value > MAX_NUMBER {
        return Err(LineFault::Large);
    }
    Ok(front.value as u32)
}

/// The number of a line that is this beginning and one number.
#[tactic(auto, unfolding(crate::specs::Stages::one_after))]
pub(crate) fn number_after(line: &[u8], start: &[u8]) -> Result<u32, LineFault>
    ensures { result ≡ spec.one_after start.now line.now }
{
    match after(line, start) {
        Some(rest) => one_number(rest),
        None => Err(LineFault::Bad),
    }
}

/// The plan of a line `plan known D` or `plan growing`.
#[tactic(auto, unfolding(crate::specs::Stages::plan_of))]
pub(crate) fn plan_of(line: &[u8]) -> Result<PlanKind, LineFault>
    ensures { result ≡ spec.plan_of line.now }
{
    if is_text(line, b"plan growing") {
        return Ok(PlanKind::Growing);
    }
    Ok(PlanKind::Known(number_after(line, b"plan known ")?))
}

/// The pace of a line `pace free` or `pace ticks`.
#[tactic(auto, unfolding(crate::specs::Stages::pace_of))]
pub(crate) fn pace_of(line: &[u8]) -> Result<Pace, LineFault>
    ensures { result ≡ spec.pace_of line.now }
{
    if is_text(line, b"pace free") {
        return Ok(Pace::Free);
    }
    if is_text(line, b"pace ticks") {
        return Ok(Pace::Ticks);
    }
    Err(LineFault::Bad)
}

/// Two numbers that a text is, each above the largest counting as the next one.
fn two_numbers(text: &[u8]) -> Option<(u64, u64)>
    ensures { result ≡ two_numbers (numbers_in text.now) }
{
    let first = first_number(text)?;
    let second = first_number(first.rest?)?;
    if second.rest.is_some() {
        return None;
    }
    Some((first.value, second.value))
}

/// The stop of these numbers, if each fits.
fn sized_stop(node: u64, steps: u64) -> Result<Stop, LineFault>
    ensures { result ≡ spec.sized_stop node steps }
{
    if node > MAX_NUMBER || steps > MAX_NUMBER {
        return Err(LineFault::Large);
    }
    Ok(Stop {
        node: node as u32,
        steps: steps as u32,
    })
}

/// The stop of a line `stop I C`.
#[tactic(auto, unfolding(crate::specs::Stages::stop_of))]
pub(crate) fn stop_of(line: &[u8]) -> Result<Stop, LineFault>
    ensures { result ≡ spec.stop_of line.now }
{
    let Some(rest) = after(line, b"stop ") else {
        return Err(LineFault::Bad);
    };
    match two_numbers(rest) {
        Some((node, steps)) => sized_stop(node, steps),
        None => Err(LineFault::Bad),
    }
}

fn step_of(text: &[u8]) -> Result<Event, LineFault>
    ensures { result ≡ spec.step_of (numbers_in text.now) }
{
    Ok(Event::Step(one_number(text)?))
}

/// Three numbers that a text is, and a fourth if it has one, each above the largest counting as
/// the next one.
fn three_or_four(text: &[u8]) -> Option<(u64, u64, u64, Option<u64>)>
    ensures { result ≡ three_or_four (numbers_in text.now) }
{
    let first = first_number(text)?;
    let second = first_number(first.rest?)?;
    let third = first_number(second.rest?)?;
    let Some(rest) = third.rest else {
        return Some((first.value, second.value, third.value, None));
    };
    let fourth = first_number(rest)?;
    match fourth.rest {
        None => Some((first.value, second.value, third.value, Some(fourth.value))),
        Some(_) => None,
    }
}

/// The name of these numbers, if each fits.
fn sized_name(from: u64, to: u64, round: u64, copy: u64) -> Result<Name, LineFault>
    ensures { result ≡ spec.sized_name from to round copy }
{
    if from > MAX_NUMBER || to > MAX_NUMBER || round > MAX_NUMBER || copy > MAX_NUMBER {
        return Err(LineFault::Large);
    }
    Ok(Name {
        from: from as u32,
        to: to as u32,
        round: round as u32,
        copy: copy as u32,
    })
}

/// The name that a text `J I R` or `J I R Y` is; the copy is 0 if it's left out.
fn name_of(text: &[u8]) -> Result<Name, LineFault>
    ensures { result ≡ spec.name_of (numbers_in text.now) }
{
    match three_or_four(text) {
        Some((from, to, round, copy)) => sized_name(from, to, round, copy.unwrap_or(0)),
        None => Err(LineFault::Bad),
    }
}

/// The name that a text `J I R Y` is.
fn whole_name_of(text: &[u8]) -> Result<Name, LineFault>
    ensures { result ≡ spec.whole_name_of (numbers_in text.now) }
{
    match three_or_four(text) {
        Some((from, to, round, Some(copy))) => sized_name(from, to, round, copy),
        _ => Err(LineFault::Bad),
    }
}

/// The event of a line `step I`, `release J I R` or `drop J I R`, maybe with a Y, or
/// `copy J I R Y`.
#[tactic(auto, unfolding(crate::specs::Stages::event_of))]
pub(crate) fn event_of(line: &[u8]) -> Result<Event, LineFault>
    ensures { result ≡ spec.event_of line.now }
{
    if let Some(rest) = after(line, b"step ") {
        return step_of(rest);
    }
    if let Some(rest) = after(line, b"release ") {
        return Ok(Event::Release(name_of(rest)?));
    }
    if let Some(rest) = after(line, b"drop ") {
        return Ok(Event::Drop(name_of(rest)?));
    }
    match after(line, b"copy ") {
        Some(rest) => Ok(Event::Copy(whole_name_of(rest)?)),
        None => Err(LineFault::Bad),
    }
}

fn are_digits(text: &[u8]) -> bool
    ensures { result ≡ list_all is_ascii_digit text.now }
{
    text.iter().all(|b| b.is_ascii_digit())
}

fn is_number(word: &[u8]) -> bool
    ensures { result ≡ is_number word.now }
{
    match word {
        [] => false,
        [first, rest @ ..] => first.is_ascii_digit() && are_digits(rest),
    }
}

fn are_numbers(text: &[u8]) -> bool
    ensures { result ≡ list_all is_number (words_of text.now) }
{
    text.split(|b| *b == b' ').all(|word| is_number(word))
}

/// The numbers that a text is.
fn all_numbers(alloc: Global, text: &[u8]) -> Result<Vec<u32>, LineFault>
    ensures { GivesItems result (spec.all_of (numbers_in text.now)) }
{
    let mut values = Vec::new(alloc);
    let mut rest = text;
    'numbers: loop {
        let Some(front) = first_number(rest) else {
            return Err(LineFault::Bad);
        };
        if front.value > MAX_NUMBER {
            return Err(too_large(front.rest));
        }
        values.push(front.value as u32)?;
        match front.rest {
            None => return Ok(values),
            Some(next) => rest = next,
        }
    }
}

/// The fault of a number that is too large: shape goes before size, so what follows counts.
fn too_large(rest: Option<&[u8]>) -> LineFault
    ensures { result ≡ fault_before (option_map (λ text. text.now) rest.entry) }
{
    match rest {
        Some(text) if !are_numbers(text) => LineFault::Bad,
        _ => LineFault::Large,
    }
}

/// The values of a line `inputs V V ..`.
#[tactic(auto, unfolding(crate::specs::Stages::inputs_of))]
pub(crate) fn inputs_of(alloc: Global, line: &[u8]) -> Result<Vec<u32>, LineFault>
    ensures { GivesItems result (spec.inputs_of line.now) }
{
    match after(line, b"inputs ") {
        Some(rest) => all_numbers(alloc, rest),
        None => Err(LineFault::Bad),
    }
}
