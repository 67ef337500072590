//! Options that name standard input.
ghost use Rattle.std.specs.Prelude.{◌≡◌, ◌↔◌, IfErr, IsTrue, OnOk, Some, codes};
ghost use Rattle.clap.specs.Words.{first_of, found_of, rows_of};
ghost use Rattle.command_words.specs.Inputs.{FailsByInputs, ReadsInputTwice};

use crate::words::{WordsFault, optional_text};
use clap::ArgMatches;

/// Whether the option's FILE is standard input.
fn is_input(matches: &ArgMatches<'_>, id: &str) -> bool
    ensures { IsTrue result ↔ first_of id.now (rows_of (found_of matches.now)) ≡ Some (codes "-") }
{
    match optional_text(matches, id) {
        Some(name) => name == "-",
        None => false,
    }
}

/// Refuses standard input as the file of the header and as that of the omissions.
pub(crate) fn check_inputs(matches: &ArgMatches<'_>) -> Result<(), WordsFault>
    ensures ok { OnOk result (¬ (ReadsInputTwice (rows_of (found_of matches.now)))) }
    ensures err { IfErr result (FailsByInputs (rows_of (found_of matches.now))) }
{
    if is_input(matches, "header") && is_input(matches, "omissions") {
        return Err(WordsFault::InputTwice);
    }
    Ok(())
}
