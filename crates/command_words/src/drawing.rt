//! What the options of `draw` say: which rounds and nodes are drawn, and as what.
ghost use Rattle.std.specs.Prelude.{◌≡◌, ◌++◌, ◌∷◌, [], IfErr, IfNone, IfOk, IfSome};
ghost use Rattle.std.specs.List.{after_first, before_first};
ghost use Rattle.clap.specs.Words.{found_of, rows_of};
ghost use Rattle.command_words.specs.Given.{FailsByDrawing, FailsByRange, GivesDrawing, GivesRange};
ghost use Rattle.command_words.specs.Values.{RangeText, dash, is_dash};

use crate::values::read_number;
use crate::words::{WordsFault, has_flag, optional_text, table_of};
use clap::ArgMatches;
use std::alloc::Global;

/// Rounds from the first to the last, both of which are among them. Neither is 0, and the first is
/// no larger than the last.
#[derive(Clone, Copy, Debug, PartialEq, Eq)]
pub struct RoundRange {
    pub first: u32,
    pub last: u32,
}

/// What of a run is drawn, and as what.
#[derive(Debug, Drop, PartialEq, Eq)]
pub struct Drawing {
    /// The rounds of RANGE, if it isn't left out.
    pub rounds: Option<RoundRange>,
    /// The numbers of LIST in their order, also those that are there twice; empty if it is left
    /// out.
    pub nodes: Vec<u32>,
    /// A grid of rounds by nodes, and not the single steps.
    pub grid: bool,
    /// An HTML page that has the picture, and not the picture alone.
    pub html: bool,
}

/// The parts before and after the first dash.
fn cut_at_dash(text: &str) -> Option<(&str, &str)>
    ensures none { IfNone result (after_first is_dash text.now ≡ []) }
    ensures before { IfSome result (λ p. p.0.now ≡ before_first is_dash text.now) }
    ensures after { IfSome result (λ p. p.1.now ≡ after_first is_dash text.now) }
    ensures whole { IfSome result (λ p. text.now ≡ p.0.now ++ dash ∷ p.1.now) }
{
    text.split_once('-')
}

/// The rounds that a text names, if it is that of a range.
fn read_range(text: &str) -> Option<RoundRange>
    ensures some { IfSome result (RangeText text.now) }
    ensures none { IfNone result ((r : RoundRange) → ¬ (RangeText text.now r)) }
{
    let (before, after) = cut_at_dash(text)?;
    let first = read_number(before)?;
    let last = read_number(after)?;
    if first < 1 || last < first {
        return None;
    }
    Some(RoundRange { first, last })
}

/// The value of RANGE, if it isn't left out.
fn range_of(matches: &ArgMatches<'_>) -> Result<Option<RoundRange>, WordsFault>
    ensures ok { IfOk result (GivesRange (rows_of (found_of matches.now))) }
    ensures err { IfErr result (FailsByRange (rows_of (found_of matches.now))) }
{
    match optional_text(matches, "rounds") {
        None => Ok(None),
        Some(text) => match read_range(text) {
            Some(range) => Ok(Some(range)),
            None => Err(WordsFault::Range),
        },
    }
}

/// What the options of `draw` say.
pub(crate) fn drawing_of(alloc: Global, matches: &ArgMatches<'_>) -> Result<Drawing, WordsFault>
    ensures ok { IfOk result (GivesDrawing (rows_of (found_of matches.now))) }
    ensures err { IfErr result (FailsByDrawing (rows_of (found_of matches.now))) }
{
    Ok(Drawing {
        rounds: range_of(matches)?,
        nodes: table_of(alloc, matches, "nodes")?,
        grid: has_flag(matches, "grid"),
        html: has_flag(matches, "html"),
    })
}
