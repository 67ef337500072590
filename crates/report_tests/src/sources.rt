//! The programs of sources.
use round_check::{Checked, check};
use round_lang::parse;
use round_meaning::Setup;
use std::alloc::Global;
use std::fs;
use std::rt::Files;
use test_kit::{Fault, number, offered};

/// The program of a source, for a run of this setup.
pub(crate) fn program_of<R: Files + AllocGlobal>(
    rt: &R,
    alloc: Global,
    source: &str,
    setup: &Setup,
) -> Result<Checked, Fault> {
    match source.split_once(':') {
        Some(("gather_from_ones", values)) => gathering_from_ones(alloc, values),
        Some((name, values)) => {
            let name = name.strip_prefix('@').unwrap_or(name);
            offered(alloc, name, number(values)?, setup)
        }
        None => {
            let text = fs::read_to_string(rt, source)?;
            Ok(check(alloc, parse(alloc, text.as_str())?)?)
        }
    }
}

/// The program in which the nodes with input 1 tell what they have seen.
fn gathering_from_ones(alloc: Global, values: &str) -> Result<Checked, Fault> {
    let text = format!(in alloc;
        "values {values} period 1 input x state seen: set = single(x) decide seen
        at 1: message (s: set) send when x = 1: (seen)
        on message: seen := seen union s; end:"
    )?;
    Ok(check(alloc, parse(alloc, text.as_str())?)?)
}
