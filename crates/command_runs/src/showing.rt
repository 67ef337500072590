//! The texts of sources.
ghost use Rattle.std.specs.Prelude.{◌≡◌, IfErr, IfOk, OnOk, string_bytes};
ghost use Rattle.command_runs.specs.Library.{OffersText};
ghost use Rattle.command_runs.specs.Refused.{IsRefusedCommand, IsSilent};
ghost use Rattle.command_runs.specs.Served.{Serves, ShowsSource};
ghost use Rattle.command_runs.specs.Unshown.{IsUnshown, OffersNoText};

use crate::desk::Desk;
use crate::outcome::Outcome;
use crate::refusal::Refusal;
use crate::run::written;
use crate::sources::file_name;
use crate::texts::source_text_in;
use algorithm_library::{count_votes_text, dls1_text, gather_text};
use command_words::{Source, Words};
use std::alloc::Global;
use std::io::Write;

/// Prints the text of a source.
#[tactic(auto, using(crate::proofs::Telling::silent_same))]
pub(crate) fn show_source<'a, D: Desk, O: Write>(
    alloc: Global,
    source: Source<'a>,
    desk: &mut D,
    out: &mut O,
) -> Result<Outcome, Refusal>
    ensures done { IfOk result (λ o. o ≡ Outcome.Done) }
    ensures served { OnOk result (Serves (Words.Show source.entry) (D.files desk.old)
        (D.files desk.new) (O.contents out.old) (O.contents out.new)) }
    ensures refused { IfErr result
        (IsRefusedCommand (Words.Show source.entry) (D.files desk.old)) }
    ensures silent { IfErr result (IsSilent (O.contents out.old) (O.contents out.new)) }
    ensures written { D.written desk.new ≡ D.written desk.old }
{
    let text = source_text(alloc, source, desk)?;
    written(out.write_all(text.as_bytes()), out)
}

/// The text of a source, also if it's no program.
pub(crate) fn source_text<'a, D: Desk>(
    alloc: Global,
    source: Source<'a>,
    desk: &mut D,
) -> Result<String, Refusal>
    ensures shown { IfOk result (λ text.
        ShowsSource source.entry (D.files desk.old) (string_bytes text)) }
    ensures refused { IfErr result (IsUnshown source.entry (D.files desk.old)) }
    ensures written { D.written desk.new ≡ D.written desk.old }
{
    match source {
        Source::File(name) => source_text_in(alloc, file_name(name), desk),
        Source::Library { name, values } => offered_text(alloc, name, values),
    }
}

/// The text of a program of the library.
pub(crate) fn offered_text(alloc: Global, name: &str, values: u32) -> Result<String, Refusal>
    ensures offered { IfOk result (λ text. OffersText name.now values (string_bytes text)) }
    ensures refused { IfErr result (OffersNoText name.now values) }
{
    match name {
        "gather" => Ok(gather_text(alloc, values)?),
        "count_votes" => Ok(count_votes_text(alloc, values)?),
        "dls1" => Ok(dls1_text(alloc, values)?),
        _ => Err(Refusal::NoSuchProgram),
    }
}
