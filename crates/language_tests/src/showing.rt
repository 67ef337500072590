//! Values as texts.
use round_lang::{Value, Vars};
use std::alloc::AllocError;
use test_kit::Fault;

pub fn show_yes(out: &mut String, is_so: bool) -> Result<(), AllocError> {
    out.push_str(if is_so { "yes" } else { "no" })
}

/// What something is, beside another.
pub fn show_same(out: &mut String, what: &str, is_same: bool) -> Result<(), AllocError> {
    out.push_str(what)?;
    out.push_str(if is_same { " same" } else { " different" })
}

pub fn show_number(out: &mut String, number: Option<u32>) -> Result<(), AllocError> {
    match number {
        Some(number) => write!(out, "{number}"),
        None => out.push_str("none"),
    }
}

/// Each number behind a blank.
pub fn show_numbers(out: &mut String, numbers: &[u32]) -> Result<(), AllocError> {
    for number in numbers {
        write!(out, " {number}")?;
    }
    Ok(())
}

pub fn show_value(out: &mut String, value: &Value) -> Result<(), AllocError> {
    match value {
        Value::Num(number) => write!(out, "num {number}"),
        Value::Flag(flag) => write!(out, "flag {flag}"),
        Value::Set(set) => write!(out, "set {}", set.bits),
        Value::Row(row) => {
            out.push_str("row")?;
            show_numbers(out, row.as_slice())
        }
    }
}

pub fn show_vars(out: &mut String, vars: &Vars) -> Result<(), Fault> {
    for place in 0..vars.len() {
        if place > 0 {
            out.push_str(", ")?;
        }
        show_value(out, &vars.value(place)?)?;
    }
    Ok(())
}
