//! The programs of runs.
use algorithm_library::gather;
use round_check::{Checked, check};
use round_lang::parse;
use std::alloc::Global;
use std::fs;
use std::rt::Files;
use test_kit::{Fault, number};

/// The program of a source.
pub fn program<R: Files + AllocGlobal>(
    rt: &R,
    alloc: Global,
    source: &str,
) -> Result<Checked, Fault> {
    match source.split_once(':') {
        Some(("gather", values)) => Ok(gather(alloc, number(values)?)?),
        _ => {
            let text = fs::read_to_string(rt, source)?;
            Ok(check(alloc, parse(alloc, text.as_str())?)?)
        }
    }
}
