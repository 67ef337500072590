//! A policy, call by call.
use crate::chosen::Chosen;
use crate::reading::flight;
use policies::{Choice, Policy};
use std::alloc::Global;
use test_kit::{Fault, cut, number};

fn show(out: &mut String, choice: Option<Choice>) -> Result<(), Fault> {
    match choice {
        None => out.push_str("none")?,
        Some(Choice::Release(place)) => write!(out, "release {place}")?,
        Some(Choice::Drop(place)) => write!(out, "drop {place}")?,
        Some(Choice::Copy(place)) => write!(out, "copy {place}")?,
    }
    Ok(())
}

/// A line for each call of a policy, with what it chooses.
pub fn call_all(alloc: Global, mut policy: Chosen, input: &str) -> Result<String, Fault> {
    let mut out = String::new(alloc);
    for line in input.lines() {
        let (now, messages) = cut(line);
        let flight = flight(alloc, messages)?;
        show(&mut out, policy.choose(number(now)?, &flight))?;
        out.push_str("\n")?;
    }
    Ok(out)
}
