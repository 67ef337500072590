//! Parts of a search: what is told of one, and what all of them make together.
ghost use Rattle.std.specs.Prelude.{◌≡◌, ◌<◌, ◌++◌, ◌∷◌, [], ℕ, IfErr, IfOk, List, None, OnOk};
ghost use Rattle.std.specs.Prelude.{length};
ghost use Rattle.std.specs.Io.KnownBytes.{Appends};
ghost use Rattle.std.specs.List.{list_all};
ghost use Rattle.command_runs.specs.InParts.{HoldParts, HoldsPart, TellsWhole, explored_with};
ghost use Rattle.command_runs.specs.InParts.{head_as, is_yes, name_at, outcome_of_whole};
ghost use Rattle.command_runs.specs.Refused.{IsNotTogether, IsRefusedTogether, IsSilent};
ghost use Rattle.command_runs.specs.Stages.{IsBadPart, IsNoWhole, IsPartless};
ghost use Rattle.part_answers.specs.Parts.{IsWellFormed, part_text};
ghost use Rattle.part_answers.specs.Wholes.{AreAllParts, IsWhole};

use crate::desk::Desk;
use crate::outcome::Outcome;
use crate::part_refusal::PartRefusal;
use crate::refusal::Refusal;
use crate::run::written;
use crate::texts::{Unfit, read_whole};
use answer_details::{Details, write_detailed, write_detailed_data};
use command_words::AnswerFormat;
use exploration_texts::{Told, write_answers};
use part_answers::{
    Answered, PartAnswers, PartFault, PartHead, PartsFault, read_part, together, write_head,
};
use round_lang::MAX_TEXT;
use run_events::NoMemory;
use std::alloc::Global;
use std::io;
use std::io::Write;

/// Writes what is told of the properties, with the details if there are any, or of a part after its
/// first line. The first fault of the writer is answered as it came.
pub(crate) fn write_explored<O: Write>(
    head: &Option<PartHead>,
    told: &[Told],
    details: &Option<Details>,
    format: AnswerFormat,
    out: &mut O,
) -> io::Result<()>
    ensures { OnOk result (Appends (O.contents out.old) (O.contents out.new)
        (explored_with format head.now told.now details.now)) }
{
    match head {
        None => write_whole(told, details, format, out),
        Some(head) => {
            write_first(head, format, out)?;
            write_answers(told, format, out)
        }
    }
}

/// Writes the answers about all inputs that were asked about, with their details if there are any.
fn write_whole<O: Write>(
    told: &[Told],
    details: &Option<Details>,
    format: AnswerFormat,
    out: &mut O,
) -> io::Result<()>
    ensures { OnOk result (Appends (O.contents out.old) (O.contents out.new)
        (explored_with format None told.now details.now)) }
{
    match (format, details) {
        (AnswerFormat::Text, Some(details)) => write_detailed(told, details, out),
        (AnswerFormat::Json, Some(details)) => write_detailed_data(told, details, out),
        (_, None) => write_answers(told, format, out),
    }
}

/// Writes the first line of a part.
fn write_first<O: Write>(head: &PartHead, format: AnswerFormat, out: &mut O) -> io::Result<()>
    ensures { OnOk result (Appends (O.contents out.old) (O.contents out.new)
        (head_as format head.now)) }
{
    match format {
        AnswerFormat::Text => write_head(head, out),
        AnswerFormat::Json => {
            let (number, count) = (head.part.number, head.part.count);
            let question = head.question;
            writeln!(
                out,
                "{{\"part\":{number},\"of\":{count},\"question\":\"{question}\"}}"
            )
        }
    }
}

/// Puts the answers of all parts together, each of which is in the file of a name, and writes what
/// `explore` would without `--part`.
pub fn put_together<D: Desk, O: Write>(
    alloc: Global,
    names: &[&str],
    desk: &mut D,
    out: &mut O,
) -> Result<Outcome, Refusal>
    ensures served { IfOk result (λ o. TellsWhole (D.files desk.old) names.now o
        (O.contents out.old) (O.contents out.new)) }
    ensures refused { IfErr result (IsRefusedTogether (D.files desk.old) names.now) }
    ensures silent { IfErr result (IsSilent (O.contents out.old) (O.contents out.new)) }
    ensures written { D.written desk.new ≡ D.written desk.old }
{
    let parts = parts_in(alloc, names, desk)?;
    let whole = whole_of(alloc, &parts)?;
    written(part_answers::write_answers(&whole, out), out)?;
    Ok(outcome_of(&whole))
}

/// The parts whose answers the files have.
fn parts_in<D: Desk>(
    alloc: Global,
    names: &[&str],
    desk: &mut D,
) -> Result<Vec<PartAnswers>, Refusal>
    ensures held { IfOk result (λ parts. HoldParts (D.files desk.old) names.now parts.items) }
    ensures refused { IfErr result (IsNotTogether (D.files desk.old) names.now) }
    ensures written { D.written desk.new ≡ D.written desk.old }
{
    let mut parts = Vec::new(alloc);
    for place in 0..names.len() {
        let part = part_in(alloc, place, name_at(names, place), desk)?;
        add(&mut parts, part)?;
    }
    Ok(parts)
}

/// The name at a place.
fn name_at<'a>(names: &[&'a str], place: usize) -> &'a str
    requires { place < length names.now }
    ensures { result.now ≡ name_at names.now place }
{
    names[place]
}

fn add(parts: &mut Vec<PartAnswers>, part: PartAnswers) -> Result<(), NoMemory>
    ensures { OnOk result (parts.new.items ≡ parts.old.items ++ part ∷ []) }
{
    parts.push(part)?;
    Ok(())
}

/// The part whose answers a file has, which is at a place in the order of the words.
fn part_in<D: Desk>(
    alloc: Global,
    place: usize,
    name: &str,
    desk: &mut D,
) -> Result<PartAnswers, Refusal>
    ensures held { IfOk result (HoldsPart (D.files desk.old name.now)) }
    ensures refused { IfErr result (IsPartless place (D.files desk.old name.now)) }
    ensures files { (other : List ℕ) → D.files desk.new other ≡ D.files desk.old other }
    ensures written { D.written desk.new ≡ D.written desk.old }
{
    match read_whole(alloc, name, MAX_TEXT, desk) {
        Ok(text) => part_of(alloc, place, text.as_str()),
        Err(Unfit::NoText) => Err(Refusal::File),
        Err(Unfit::TooLong) => Err(Refusal::File),
        Err(Unfit::NoMemory) => Err(Refusal::NoMemory),
    }
}

/// The part whose answers a text is.
fn part_of(alloc: Global, place: usize, text: &str) -> Result<PartAnswers, Refusal>
    ensures held { IfOk result (λ part. (text.now ≡ part_text part) × IsWellFormed part) }
    ensures refused { IfErr result (IsBadPart place text.now) }
{
    match read_part(alloc, text) {
        Ok(part) => Ok(part),
        Err(PartFault::BadLine(line)) => Err(Refusal::Part(PartRefusal::Line {
            file: place,
            line,
        })),
        Err(PartFault::NoMemory) => Err(Refusal::NoMemory),
    }
}

/// What all parts make together.
fn whole_of(alloc: Global, parts: &[PartAnswers]) -> Result<Vec<Answered>, Refusal>
    ensures whole { IfOk result
        (λ whole. AreAllParts parts.now × IsWhole parts.now whole.items) }
    ensures refused { IfErr result (IsNoWhole parts.now) }
{
    match together(alloc, parts) {
        Ok(whole) => Ok(whole),
        Err(PartsFault::NoMemory) => Err(Refusal::NoMemory),
        Err(fault) => Err(Refusal::Part(PartRefusal::Parts(fault))),
    }
}

/// How a command ends that prints this.
fn outcome_of(whole: &[Answered]) -> Outcome
    ensures { result ≡ outcome_of_whole whole.now }
{
    if are_yes(whole) {
        Outcome::Done
    } else {
        Outcome::No
    }
}

/// Whether no failure is told of any property.
fn are_yes(whole: &[Answered]) -> bool
    ensures { result ≡ list_all is_yes whole.now }
{
    match whole {
        [] => true,
        [first, rest @ ..] => is_yes(first) && are_yes(rest),
    }
}

/// Whether no failure is told.
fn is_yes(one: &Answered) -> bool
    ensures { result ≡ is_yes one.now }
{
    !matches!(one.outcome, part_answers::Outcome::Fails(_))
}
