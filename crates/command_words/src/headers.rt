//! Headers that are given by their numbers.
ghost use Rattle.std.specs.Prelude.{◌↔◌, IfNone, IfSome, IsTrue};
ghost use Rattle.clap.specs.Words.{found_of, rows_of};
ghost use Rattle.command_words.specs.Headers.{HasHeaderNumbers, HeaderText};

use crate::values::{after_at, cut_at_colon, read_number};
use crate::words::optional_text;
use clap::ArgMatches;

/// The numbers of `@N:T:R`, a header that needs no file.
#[derive(Clone, Copy, Debug, PartialEq, Eq)]
pub struct HeaderNumbers {
    pub nodes: u32,
    pub faults: u32,
    pub rounds: u32,
}

/// The numbers that the name of a header says: none if it's a file's.
pub fn read_header_numbers(name: &str) -> Option<HeaderNumbers>
    ensures some { IfSome result (HeaderText name.now) }
    ensures none { IfNone result ((h : HeaderNumbers) → ¬ (HeaderText name.now h)) }
{
    let numbers = after_at(name)?;
    let (nodes, rest) = cut_at_colon(numbers)?;
    let (faults, rounds) = cut_at_colon(rest)?;
    let nodes = read_number(nodes)?;
    let faults = read_number(faults)?;
    let rounds = read_number(rounds)?;
    Some(HeaderNumbers {
        nodes,
        faults,
        rounds,
    })
}

/// Whether the header is given by its numbers.
pub(crate) fn has_header_numbers(matches: &ArgMatches<'_>) -> bool
    ensures { IsTrue result ↔ HasHeaderNumbers (rows_of (found_of matches.now)) }
{
    match optional_text(matches, "header") {
        Some(name) => read_header_numbers(name).is_some(),
        None => false,
    }
}
