//! The texts of the programs that are asked of.
use algorithm_library::gather_text;
use std::alloc::Global;
use std::fs;
use std::rt::Files;
use test_kit::{Fault, number};

/// The program in which the nodes with input 1 tell what they have seen.
fn gather_from_ones(alloc: Global, values: &str) -> Result<String, Fault> {
    Ok(format!(in alloc;
        "values {values} period 1 input x state seen: set = single(x) decide seen
        at 1: message (s: set) send when x = 1: (seen)
        on message: seen := seen union s; end:"
    )?)
}

/// The text of a program that has a name, or that a file is.
pub fn source<R: Files + AllocGlobal>(rt: &R, alloc: Global, name: &str) -> Result<String, Fault> {
    match name.split_once(':') {
        Some(("gather", values)) => Ok(gather_text(alloc, number(values)?)?),
        Some(("gather_from_ones", values)) => gather_from_ones(alloc, values),
        _ => Ok(fs::read_to_string(rt, name)?),
    }
}
