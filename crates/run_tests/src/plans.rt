//! What plans answer.
use crate::reading::{kind, two};
use run_events::MAX_ROUNDS;
use slot_plans::{Growing, Known, Plan, Slot};
use test_kit::{Fault, cut, number};

const OUTSIDE: &str = "not within its limits";

/// Answers one of a plan's acts.
fn answer_plan<P: Plan>(plan: &P, act: &str, out: &mut String) -> Result<(), Fault> {
    let (verb, rest) = cut(act);
    match verb {
        "round" => tell_round(plan, number(rest)?, out),
        "start" => tell_start(plan, number(rest)?, out),
        "place" => tell_place(plan, number(rest)?, out),
        "clear" => tell_clear(plan, two(rest)?, out),
        _ => Err(Fault::Unreadable),
    }
}

fn tell_round<P: Plan>(plan: &P, round: u32, out: &mut String) -> Result<(), Fault> {
    if round < 1 || round > MAX_ROUNDS {
        out.push_str(OUTSIDE)?;
        return Ok(());
    }
    let nodes = plan.nodes();
    let receives = plan.receives(round);
    let length = plan.len(round);
    write!(out, "{nodes} sends and {receives} receives, {length} steps")?;
    Ok(())
}

fn tell_start<P: Plan>(plan: &P, round: u32, out: &mut String) -> Result<(), Fault> {
    if round < 1 || round > MAX_ROUNDS + 1 {
        out.push_str(OUTSIDE)?;
        return Ok(());
    }
    let start = plan.start(round);
    write!(out, "{start}")?;
    Ok(())
}

fn tell_place<P: Plan>(plan: &P, step: u32, out: &mut String) -> Result<(), Fault> {
    if step >= plan.start(MAX_ROUNDS + 1) {
        out.push_str(OUTSIDE)?;
        return Ok(());
    }
    match plan.place(step) {
        Slot::Send { round, to } => write!(out, "send to {to} in round {round}")?,
        Slot::Receive { round, last: false } => write!(out, "receive in round {round}")?,
        Slot::Receive { round, last: true } => write!(out, "receive in round {round}, the last")?,
    }
    Ok(())
}

fn tell_clear<P: Plan>(plan: &P, terms: (u32, u32), out: &mut String) -> Result<(), Fault> {
    let (delta, gst) = terms;
    match plan.clear_round(delta, gst) {
        Some(round) => write!(out, "{round}")?,
        None => out.push_str("none")?,
    }
    Ok(())
}

/// Whether such a plan is within the limits.
fn tell_made(is_made: bool, out: &mut String) -> Result<(), Fault> {
    out.push_str(if is_made { "a plan" } else { "none" })?;
    Ok(())
}

fn tell_same(is_same: bool, out: &mut String) -> Result<(), Fault> {
    out.push_str(if is_same { "equal" } else { "different" })?;
    Ok(())
}

/// The texts on both sides of the word `and`.
fn both(text: &str) -> Result<(&str, &str), Fault> {
    text.split_once(" and ").ok_or(Fault::Unreadable)
}

fn tell_same_known(text: &str, out: &mut String) -> Result<(), Fault> {
    let (one, other) = both(text)?;
    let (nodes, delta) = two(one)?;
    let (other_nodes, other_delta) = two(other)?;
    tell_same(
        Known::new(nodes, delta) == Known::new(other_nodes, other_delta),
        out,
    )
}

fn tell_same_kinds(text: &str, out: &mut String) -> Result<(), Fault> {
    let (one, other) = both(text)?;
    tell_same(kind(one)? == kind(other)?, out)
}

fn tell_known(numbers: (u32, u32), out: &mut String) -> Result<(), Fault> {
    let (nodes, delta) = numbers;
    match Known::new(nodes, delta) {
        Some(plan) => write!(out, "{}", plan.delta())?,
        None => out.push_str("none")?,
    }
    Ok(())
}

/// Answers an act that makes its own plans.
fn answer_making(act: &str, out: &mut String) -> Result<(), Fault> {
    let (verb, rest) = cut(act);
    match verb {
        "known" => tell_known(two(rest)?, out),
        "growing" => tell_made(Growing::new(number(rest)?).is_some(), out),
        "plans" => tell_same_known(rest, out),
        "kinds" => tell_same_kinds(rest, out),
        _ => Err(Fault::Unreadable),
    }
}

fn answer_all<P: Plan>(plan: &P, input: &str, out: &mut String) -> Result<(), Fault> {
    for act in input.lines() {
        answer_plan(plan, act, out)?;
        out.push_str("\n")?;
    }
    Ok(())
}

/// Acts that make plans.
pub fn make_plans(input: &str, out: &mut String) -> Result<(), Fault> {
    for act in input.lines() {
        answer_making(act, out)?;
        out.push_str("\n")?;
    }
    Ok(())
}

/// Acts on the plan for so many nodes with the bound Δ.
pub fn ask_known(words: &[&str], input: &str, out: &mut String) -> Result<(), Fault> {
    let [nodes, delta] = words else {
        return Err(Fault::Unreadable);
    };
    match Known::new(number(nodes)?, number(delta)?) {
        Some(plan) => answer_all(&plan, input, out),
        None => Err(Fault::Unreadable),
    }
}

/// Acts on the growing plan for so many nodes.
pub fn ask_growing(words: &[&str], input: &str, out: &mut String) -> Result<(), Fault> {
    let [nodes] = words else {
        return Err(Fault::Unreadable);
    };
    match Growing::new(number(nodes)?) {
        Some(plan) => answer_all(&plan, input, out),
        None => Err(Fault::Unreadable),
    }
}
