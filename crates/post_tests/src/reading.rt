//! Texts of numbers, messages and choices, and why a schedule's text has no answer.
use policies::Choice;
use run_events::{InFlight, Name};
use schedule_text::ScheduleFault;
use std::alloc::Global;
use test_kit::{Fault, number, numbers};

/// Why there is no answer where the text of a schedule is refused.
pub fn schedule_fault(fault: ScheduleFault) -> Fault {
    match fault {
        ScheduleFault::NoMemory => Fault::NoMemory,
        _ => Fault::Unreadable,
    }
}

pub fn names(alloc: Global, words: &[String]) -> Result<Vec<Name>, Fault> {
    let mut names = Vec::new(alloc);
    for word in words {
        let numbers = numbers(alloc, word.split('.'))?;
        let [from, to, round, copy] = *numbers.as_slice() else {
            return Err(Fault::Unreadable);
        };
        names.push(Name {
            from,
            to,
            round,
            copy,
        })?;
    }
    Ok(names)
}

fn choice(text: &str) -> Result<Choice, Fault> {
    let Some((kind, place)) = text.split_once('.') else {
        return Err(Fault::Unreadable);
    };
    let place = number(place)? as usize;
    match kind {
        "release" => Ok(Choice::Release(place)),
        "drop" => Ok(Choice::Drop(place)),
        "copy" => Ok(Choice::Copy(place)),
        _ => Err(Fault::Unreadable),
    }
}

pub fn choices(alloc: Global, words: &[String]) -> Result<Vec<Choice>, Fault> {
    let mut choices = Vec::new(alloc);
    for word in words {
        choices.push(choice(word.as_str())?)?;
    }
    Ok(choices)
}

fn message(alloc: Global, text: &str) -> Result<InFlight, Fault> {
    let numbers = numbers(alloc, text.split('.'))?;
    let [from, to, round, copy, sent_at, serial] = *numbers.as_slice() else {
        return Err(Fault::Unreadable);
    };
    let name = Name {
        from,
        to,
        round,
        copy,
    };
    Ok(InFlight {
        name,
        sent_at,
        serial: serial as usize,
    })
}

/// Messages with single blanks between them, none in an empty text.
pub fn flight(alloc: Global, text: &str) -> Result<Vec<InFlight>, Fault> {
    let mut flight = Vec::new(alloc);
    if !text.is_empty() {
        for word in text.split(' ') {
            flight.push(message(alloc, word)?)?;
        }
    }
    Ok(flight)
}
