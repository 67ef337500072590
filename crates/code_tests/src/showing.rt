//! Answers as texts.
use crate::both::Both;
use round_lang::{Message, Value, Vars};
use std::alloc::AllocError;
use test_kit::Fault;

fn show_value(out: &mut String, value: &Value) -> Result<(), AllocError> {
    match value {
        Value::Num(number) => write!(out, "num {number}")?,
        Value::Flag(flag) => write!(out, "flag {flag}")?,
        Value::Set(set) => write!(out, "set {}", set.bits)?,
        Value::Row(row) => {
            out.push_str("row")?;
            for entry in row.as_slice() {
                write!(out, " {entry}")?;
            }
        }
    }
    Ok(())
}

fn show_vars(out: &mut String, vars: &Vars) -> Result<(), Fault> {
    if vars.is_empty() {
        out.push_str("-")?;
    }
    for place in 0..vars.len() {
        if place > 0 {
            out.push_str(", ")?;
        }
        show_value(out, &vars.value(place)?)?;
    }
    Ok(())
}

fn show_message(out: &mut String, message: Option<&Message>) -> Result<(), Fault> {
    match message {
        Some(message) => show_vars(out, message),
        None => Ok(out.push_str("none")?),
    }
}

/// What the code and the evaluator answer, once if they agree.
pub fn show_both(out: &mut String, both: &Both) -> Result<(), Fault> {
    let (code, evaluated) = (both.code.as_ref(), both.evaluated.as_ref());
    if both.agree() {
        return show_message(out, code);
    }
    out.push_str("code ")?;
    show_message(out, code)?;
    out.push_str(" evaluator ")?;
    show_message(out, evaluated)
}
