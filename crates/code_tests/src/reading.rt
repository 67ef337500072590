//! Texts of numbers, values, setups and programs.
use round_check::{Checked, check};
use round_lang::{Row, Shape, Value, ValueSet, Vars, VarsBuilder, parse};
use round_meaning::{Inputs, Received, Setup};
use std::alloc::Global;
use test_kit::{Fault, cut, number, numbers};

fn set(text: &str) -> Result<ValueSet, Fault> {
    match text.parse() {
        Ok(bits) => Ok(ValueSet { bits }),
        Err(_) => Err(Fault::Unreadable),
    }
}

/// A value: `num 3`, `flag true`, `set 5` for the values 0 and 2, `row 1 2`.
fn value(alloc: Global, text: &str) -> Result<Value, Fault> {
    let (kind, rest) = cut(text.trim());
    match kind {
        "num" => Ok(Value::Num(number(rest)?)),
        "flag" => Ok(Value::Flag(rest == "true")),
        "set" => Ok(Value::Set(set(rest)?)),
        "row" => Ok(Value::Row(Row::new(numbers(alloc, rest.split(' '))?))),
        _ => Err(Fault::Unreadable),
    }
}

/// Values with commas between them, none in `-`.
pub fn vars(alloc: Global, text: &str) -> Result<Vars, Fault> {
    let mut builder = VarsBuilder::new(alloc);
    if text.trim() != "-" {
        for part in text.split(',') {
            builder.push(&value(alloc, part)?)?;
        }
    }
    Ok(builder.finish(&Shape::empty())?)
}

/// Messages behind their senders, with semicolons between them.
pub fn inbox(alloc: Global, text: &str) -> Result<Vec<Received>, Fault> {
    let mut inbox = Vec::new(alloc);
    if !text.is_empty() {
        for part in text.split(';') {
            let (from, message) = cut(part.trim());
            let from = number(from)?;
            let message = vars(alloc, message)?;
            inbox.push(Received { from, message })?;
        }
    }
    Ok(inbox)
}

/// The setup of these words: nodes, faults, rounds and inputs.
pub fn setup_of(alloc: Global, words: &[String]) -> Result<Setup, Fault> {
    let [nodes, faults, rounds, inputs @ ..] = words else {
        return Err(Fault::Unreadable);
    };
    Ok(Setup {
        nodes: number(nodes.as_str())?,
        faults: number(faults.as_str())?,
        inputs: Inputs::new(numbers(alloc, inputs.iter().map(String::as_str))?),
        rounds: number(rounds.as_str())?,
    })
}

/// The checked program that a text is.
pub fn checked_of(alloc: Global, text: &str) -> Result<Checked, Fault> {
    Ok(check(alloc, parse(alloc, text)?)?)
}
