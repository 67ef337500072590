//! Programs, from source files and from the library.
ghost use Rattle.std.specs.Prelude.{◌≡◌, ℕ, List, IfErr, IfOk, string_bytes};
ghost use Rattle.command_runs.specs.Library.{Offers};
ghost use Rattle.command_runs.specs.Refused.{IsNoOffer, IsNoProgram, IsNotOpened};
ghost use Rattle.command_runs.specs.Served.{HoldsProgram, HoldsSourceText, Opens, SpellsTyped};
ghost use Rattle.command_runs.specs.Served.{file_name};
ghost use Rattle.command_runs.specs.Sources.{IsTextOfSource};
ghost use Rattle.command_runs.specs.Stages.{IsHeldBack, IsNoProgramOf};
ghost use Rattle.command_runs.specs.Texts.{HoldsWhole};
ghost use Rattle.command_runs.specs.Unshown.{HasNoSourceText};
ghost use Rattle.round_lang.specs.Limits.{max_text};

use crate::desk::Desk;
use crate::refusal::Refusal;
use crate::showing::offered_text;
use crate::texts::source_text_in;
use algorithm_library::{count_votes, dls1, gather};
use command_words::Source;
use round_check::{Checked, check};
use round_lang::parse;
use std::alloc::Global;

/// A source that was opened: the program of a file with its text, or where the library has one.
/// What the library refuses is refused later than what a file has.
#[derive(Drop)]
pub(crate) enum Opened<'a> {
    File { program: Checked, text: String },
    Library { name: &'a str, values: u32 },
}

/// Where the text of an opened source is: in memory, as it was read, or in the library.
#[derive(Drop)]
pub(crate) enum SourceText<'a> {
    File(String),
    Library { name: &'a str, values: u32 },
}

impl<'a> Opened<'a> {
    /// Reads and checks a source file; a source of the library is only named.
    pub(crate) fn open<D: Desk>(
        alloc: Global,
        source: Source<'a>,
        desk: &mut D,
    ) -> Result<Opened<'a>, Refusal>
        ensures opened { IfOk result (Opens source.entry (D.files desk.old)) }
        ensures refused { IfErr result (IsNotOpened source.entry (D.files desk.old)) }
        ensures files { (name : List ℕ) → D.files desk.new name ≡ D.files desk.old name }
        ensures written { D.written desk.new ≡ D.written desk.old }
    {
        match source {
            Source::File(name) => {
                let (program, text) = program_in(alloc, file_name(name), desk)?;
                Ok(Opened::File { program, text })
            }
            Source::Library { name, values } => Ok(Opened::Library { name, values }),
        }
    }

    /// The program, for a run on this number of nodes of which up to `faults` may fail.
    pub(crate) fn program(self, alloc: Global, nodes: u32, faults: u32) -> Result<Checked, Refusal>
        ensures program { IfOk result (HoldsProgram self.entry nodes faults) }
        ensures refused { IfErr result (IsHeldBack self.entry nodes faults) }
    {
        match self {
            Opened::File { program, .. } => Ok(program),
            Opened::Library { name, values } => offered(alloc, name, values, nodes, faults),
        }
    }

    /// The program, as `program` gives it, and the text of the source.
    pub(crate) fn with_text(
        self,
        alloc: Global,
        nodes: u32,
        faults: u32,
    ) -> Result<(Checked, SourceText<'a>), Refusal>
        ensures program { IfOk result (λ both. HoldsProgram self.entry nodes faults both.0) }
        ensures text { IfOk result (λ both. HoldsSourceText self.entry both.1) }
        ensures refused { IfErr result (IsHeldBack self.entry nodes faults) }
    {
        match self {
            Opened::File { program, text } => Ok((program, SourceText::File(text))),
            Opened::Library { name, values } => {
                let program = offered(alloc, name, values, nodes, faults)?;
                Ok((program, SourceText::Library { name, values }))
            }
        }
    }
}

impl<'a> SourceText<'a> {
    /// The text itself.
    pub(crate) fn into_string(self, alloc: Global) -> Result<String, Refusal>
        ensures text { IfOk result (λ text. IsTextOfSource self.entry (string_bytes text)) }
        ensures refused { IfErr result (HasNoSourceText self.entry) }
    {
        match self {
            SourceText::File(text) => Ok(text),
            SourceText::Library { name, values } => offered_text(alloc, name, values),
        }
    }
}

/// The program that a file has, and its text.
fn program_in<D: Desk>(
    alloc: Global,
    name: &str,
    desk: &mut D,
) -> Result<(Checked, String), Refusal>
    ensures spelled { IfOk result (λ both. SpellsTyped (string_bytes both.1) both.0) }
    ensures held { IfOk result (λ both.
        HoldsWhole max_text (D.files desk.old name.now) (string_bytes both.1)) }
    ensures refused { IfErr result (IsNoProgram (D.files desk.old name.now)) }
    ensures files { (other : List ℕ) → D.files desk.new other ≡ D.files desk.old other }
    ensures written { D.written desk.new ≡ D.written desk.old }
{
    let text = source_text_in(alloc, name, desk)?;
    let program = checked(alloc, text.as_str())?;
    Ok((program, text))
}

/// The program that a text in UTF-8 is.
fn checked(alloc: Global, text: &str) -> Result<Checked, Refusal>
    ensures program { IfOk result (SpellsTyped text.now) }
    ensures refused { IfErr result (IsNoProgramOf text.now) }
{
    Ok(check(alloc, parse(alloc, text)?)?)
}

/// A desk has standard input under `-`; a source file of that name is reached by its folder.
pub(crate) fn file_name(name: &str) -> &str
    ensures { result.now ≡ file_name name.now }
{
    if name == "-" { "./-" } else { name }
}

fn offered(
    alloc: Global,
    name: &str,
    values: u32,
    nodes: u32,
    faults: u32,
) -> Result<Checked, Refusal>
    ensures offered { IfOk result (Offers name.now values nodes faults) }
    ensures refused { IfErr result (IsNoOffer name.now values nodes faults) }
{
    match name {
        "gather" => Ok(gather(alloc, values)?),
        "count_votes" => Ok(count_votes(alloc, values)?),
        "dls1" => Ok(dls1(alloc, nodes, faults, values)?),
        _ => Err(Refusal::NoSuchProgram),
    }
}
