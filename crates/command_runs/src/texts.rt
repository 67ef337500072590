//! Texts of files, within their limits.
ghost use Rattle.std.specs.Prelude.{◌≡◌, ℕ, Err, List, None, IfErr, IfOk, IfSome, string_bytes};
ghost use Rattle.command_runs.specs.Texts.{HasNoTextIn, HoldsNoWhole, HoldsWhole, IsTextIn};
ghost use Rattle.command_runs.specs.Texts.{IsTextOf};
ghost use Rattle.command_runs.specs.Refused.{HasNoText, no_fault};
ghost use Rattle.command_runs.specs.Unshown.{HasNoSource};
ghost use Rattle.round_lang.specs.Limits.{max_text};
ghost use Rattle.schedule_text.specs.Texts.{max_text as max_schedule};

use crate::desk::{Desk, DeskFault};
use crate::refusal::Refusal;
use adversary::ScheduleFault;
use round_lang::LangFault;
use schedule_text::begin_utf8;
use std::alloc::Global;

/// What was read of a file.
#[derive(Drop)]
pub(crate) enum Text {
    /// All its bytes, no more than the limit.
    Whole(Vec<u8>),
    /// It is longer than the limit; these are its first bytes, one more than the limit.
    Longer(Vec<u8>),
}

/// Why a file has no text within its limit.
#[derive(Clone, Copy, Debug, PartialEq, Eq)]
pub(crate) enum Unfit {
    /// It can't be read, or isn't UTF-8.
    NoText,
    TooLong,
    NoMemory,
}

impl Text {
    /// Reads a file up to its limit.
    fn read<D: Desk>(
        alloc: Global,
        name: &str,
        limit: usize,
        desk: &mut D,
    ) -> Result<Text, DeskFault>
        ensures held { IfOk result (λ text. IfSome (D.files desk.old name.now)
            (IsTextOf limit text)) }
        ensures failed { result ≡ Err DeskFault.Failed → D.files desk.old name.now ≡ None }
        ensures files { (other : List ℕ) → D.files desk.new other ≡ D.files desk.old other }
        ensures written { D.written desk.new ≡ D.written desk.old }
    {
        let bytes = desk.read(alloc, name, limit)?;
        if bytes.len() > limit {
            Ok(Text::Longer(bytes))
        } else {
            Ok(Text::Whole(bytes))
        }
    }

    /// The text, if it's whole and UTF-8.
    fn into_string(self) -> Result<String, Unfit>
        ensures whole { IfOk result (λ text. IsTextIn self (string_bytes text)) }
        ensures refused { IfErr result (HasNoTextIn self) }
    {
        match self {
            Text::Whole(bytes) => match String::from_utf8(bytes) {
                Ok(text) => Ok(text),
                Err(_) => Err(Unfit::NoText),
            },
            Text::Longer(bytes) if begin_utf8(&bytes) => Err(Unfit::TooLong),
            Text::Longer(_) => Err(Unfit::NoText),
        }
    }
}

/// Reads the whole text of a file, up to its limit.
pub(crate) fn read_whole<D: Desk>(
    alloc: Global,
    name: &str,
    limit: usize,
    desk: &mut D,
) -> Result<String, Unfit>
    ensures held { IfOk result (λ text.
        HoldsWhole limit (D.files desk.old name.now) (string_bytes text)) }
    ensures refused { IfErr result (HoldsNoWhole limit (D.files desk.old name.now)) }
    ensures files { (other : List ℕ) → D.files desk.new other ≡ D.files desk.old other }
    ensures written { D.written desk.new ≡ D.written desk.old }
{
    match Text::read(alloc, name, limit, desk) {
        Ok(text) => text.into_string(),
        Err(DeskFault::Failed) => Err(Unfit::NoText),
        Err(DeskFault::NoMemory) => Err(Unfit::NoMemory),
    }
}

/// The text of a source's file.
pub(crate) fn source_text_in<D: Desk>(
    alloc: Global,
    name: &str,
    desk: &mut D,
) -> Result<String, Refusal>
    ensures held { IfOk result (λ text.
        HoldsWhole max_text (D.files desk.old name.now) (string_bytes text)) }
    ensures refused { IfErr result (HasNoSource (D.files desk.old name.now)) }
    ensures files { (other : List ℕ) → D.files desk.new other ≡ D.files desk.old other }
    ensures written { D.written desk.new ≡ D.written desk.old }
{
    match read_whole(alloc, name, round_lang::MAX_TEXT, desk) {
        Ok(text) => Ok(text),
        Err(Unfit::NoText) => Err(Refusal::File),
        Err(Unfit::TooLong) => Err(Refusal::Source(LangFault::TooLong)),
        Err(Unfit::NoMemory) => Err(Refusal::NoMemory),
    }
}

/// The text of a file that is to be a schedule, a header, a thread setup or omissions.
pub(crate) fn schedule_text_in<D: Desk>(
    alloc: Global,
    name: &str,
    desk: &mut D,
) -> Result<String, Refusal>
    ensures held { IfOk result (λ text.
        HoldsWhole max_schedule (D.files desk.old name.now) (string_bytes text)) }
    ensures refused { IfErr result (HasNoText no_fault (D.files desk.old name.now)) }
    ensures files { (other : List ℕ) → D.files desk.new other ≡ D.files desk.old other }
    ensures written { D.written desk.new ≡ D.written desk.old }
{
    match read_whole(alloc, name, schedule_text::MAX_TEXT, desk) {
        Ok(text) => Ok(text),
        Err(Unfit::NoText) => Err(Refusal::File),
        Err(Unfit::TooLong) => Err(Refusal::Schedule(ScheduleFault::TooLong)),
        Err(Unfit::NoMemory) => Err(Refusal::NoMemory),
    }
}
