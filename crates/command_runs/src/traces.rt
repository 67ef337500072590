//! The file of a trace.
ghost use Rattle.std.specs.Prelude.{◌≡◌, ◌≤◌, ◌⊎◌, ◌++◌, ◌∷◌, [], IfErr, IfSome, IsSome, OnErr};
ghost use Rattle.std.specs.Prelude.{OnOk, Some, false, length, option_map, string_bytes};
ghost use Rattle.command_runs.specs.Apart.{IsApart, IsApartIfNamed, SparesSource};
ghost use Rattle.command_runs.specs.Desks.{MayWriteTrace, WroteAtMost};
ghost use Rattle.command_runs.specs.InRounds.{IsTraceFault};
ghost use Rattle.command_runs.specs.Refused.{of_unwritten};
ghost use Rattle.command_runs.specs.Stages.{HoldsText, WritesText};
ghost use Rattle.schedule_text.specs.Texts.{max_text as max_schedule};

use crate::desk::{Desk, DeskFault};
use crate::refusal::Refusal;
use crate::sources::file_name;
use crate::trace_fault::TraceFault;
use command_words::Source;
use schedule_text::MAX_TEXT;

/// Makes sure that the file of a trace can be written, and that it is neither the source's nor the
/// other one that is read.
pub(crate) fn try_trace<'a, D: Desk>(
    name: &str,
    source: Source<'a>,
    input: &str,
    desk: &mut D,
) -> Result<(), Refusal>
    ensures tried { OnOk result (D.can_write desk.new name.now) }
    ensures apart { OnOk result (IsApart name.now source.entry input.now) }
    ensures refused { IfErr result (λ r. (r ≡ Refusal.Write) ⊎ (r ≡ Refusal.NoMemory)) }
    ensures written { D.written desk.new ≡ D.written desk.old }
{
    if is_source(name, source, desk) || desk.overwrites(name, input) {
        return Err(Refusal::Write);
    }
    match desk.try_write(name) {
        Ok(()) => Ok(()),
        Err(fault) => Err(unwritten(fault)),
    }
}

/// Whether a file is that of the source.
fn is_source<'a, D: Desk>(name: &str, source: Source<'a>, desk: &D) -> bool
    ensures { result ≡ false → SparesSource name.now source.entry }
{
    match source {
        Source::File(file) => desk.overwrites(name, file_name(file)),
        Source::Library { .. } => false,
    }
}

/// The same if a trace is asked for.
pub(crate) fn try_trace_if_named<'a, D: Desk>(
    name: Option<&str>,
    source: Source<'a>,
    input: &str,
    desk: &mut D,
) -> Result<(), Refusal>
    ensures tried { OnOk result (IfSome name.entry (λ name. D.can_write desk.new name.now)) }
    ensures apart { OnOk result (IsApartIfNamed name.entry source.entry input.now) }
    ensures named { OnErr result (IsSome name.entry) }
    ensures refused { IfErr result (λ r. (r ≡ Refusal.Write) ⊎ (r ≡ Refusal.NoMemory)) }
    ensures written { D.written desk.new ≡ D.written desk.old }
{
    match name {
        Some(name) => try_trace(name, source, input, desk),
        None => Ok(()),
    }
}

/// Makes the text the whole file of the trace.
pub(crate) fn write_trace<D: Desk>(name: &str, text: &str, desk: &mut D) -> Result<(), Refusal>
    ensures held { OnOk result (IfSome (D.files desk.new name.now) (λ held. held ≡ text.now)) }
    ensures refused { IfErr result (λ r. (r ≡ Refusal.Write) ⊎ (r ≡ Refusal.NoMemory)) }
    ensures written { WroteAtMost (D.written desk.old) (D.written desk.new) name.now }
    ensures traced { OnOk result (D.written desk.new ≡ D.written desk.old ++ name.now ∷ []) }
{
    match desk.write(name, text.as_bytes()) {
        Ok(()) => Ok(()),
        Err(fault) => Err(unwritten(fault)),
    }
}

/// Makes the text the whole file of the trace, if there are both and commands can read it.
pub(crate) fn write_shown<D: Desk>(
    name: Option<&str>,
    text: &Option<String>,
    desk: &mut D,
) -> Result<(), TraceFault>
    ensures held { OnOk result (HoldsText (D.files desk.new) name.entry
        (option_map (λ text. string_bytes text) text.now)) }
    ensures refused { IfErr result
        (IsTraceFault (option_map (λ text. string_bytes text) text.now)) }
    ensures written { MayWriteTrace name.entry (D.written desk.old) (D.written desk.new) }
    ensures traced { OnOk result (WritesText name.entry
        (option_map (λ text. string_bytes text) text.now)
        (D.written desk.old) (D.written desk.new)) }
{
    match (name, text) {
        (Some(name), Some(text)) => write_readable(name, text.as_str(), desk),
        _ => Ok(()),
    }
}

/// Makes the text the whole file of the trace, if commands can read it.
fn write_readable<D: Desk>(name: &str, text: &str, desk: &mut D) -> Result<(), TraceFault>
    ensures held { OnOk result (IfSome (D.files desk.new name.now) (λ held. held ≡ text.now)) }
    ensures short { OnOk result (length text.now ≤ max_schedule) }
    ensures refused { IfErr result (IsTraceFault (Some text.now)) }
    ensures written { WroteAtMost (D.written desk.old) (D.written desk.new) name.now }
    ensures traced { OnOk result (D.written desk.new ≡ D.written desk.old ++ name.now ∷ []) }
{
    if text.len() > MAX_TEXT {
        return Err(TraceFault::TooLong);
    }
    let done = desk.write(name, text.as_bytes());
    match done {
        Ok(()) => Ok(()),
        Err(DeskFault::Failed) => Err(TraceFault::Unwritten),
        Err(DeskFault::NoMemory) => Err(TraceFault::NoMemory),
    }
}

/// That a file can't be written, or that there is no memory.
fn unwritten(fault: DeskFault) -> Refusal
    ensures refusal { result ≡ of_unwritten fault }
    ensures two { (result ≡ Refusal.Write) ⊎ (result ≡ Refusal.NoMemory) }
{
    match fault {
        DeskFault::Failed => Refusal::Write,
        DeskFault::NoMemory => Refusal::NoMemory,
    }
}
