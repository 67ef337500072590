//! What is told of properties.
ghost use Rattle.std.specs.Prelude.{◌≡◌, IfNone, IfSome, OnOk, true};
ghost use Rattle.std.specs.Io.KnownBytes.{Appends};
ghost use Rattle.exploration_texts.specs.Lines.{answers_as, answers_data, answers_text, told_data};
ghost use Rattle.exploration_texts.specs.Lines.{told_line, told_members};
ghost use Rattle.exploration_texts.specs.Told.{IsFirstNo, all_hold, name_of};

use command_words::AnswerFormat;
use part_answers::{Answered as PartAnswered, Outcome, Property as PropertyName};
use round_explorer::{Answer, Counterexample, Property};
use std::io::Write;
use std::{fmt, io};

/// Whether a property holds of the runs that are asked about.
#[derive(Drop)]
pub enum Answered {
    /// It holds of all of them, in the rounds that are asked about.
    Holds,
    /// It holds of all of them, in any number of rounds.
    HoldsInAllRounds,
    /// It fails in this one.
    Fails(Counterexample),
    /// It fails in none of this many that were made at random.
    NotFound(u32),
}

/// What is answered of a property.
#[derive(Drop)]
pub struct Told {
    pub name: PropertyName,
    pub answer: Answered,
}

/// The answer of a search through all runs.
impl From<Answer> for Answered {
    ghost use Rattle.std.specs.Prelude.{◌≡◌};
    ghost use Rattle.exploration_texts.specs.Told.{answered_by};

    ghost from_gives = { λ answer a. a ≡ answered_by answer };

    fn from(answer: Answer) -> Answered {
        match answer {
            Answer::Holds => Answered::Holds,
            Answer::HoldsInAllRounds => Answered::HoldsInAllRounds,
            Answer::Fails(found) => Answered::Fails(found),
        }
    }
}

/// A property that doesn't hold, and a run in which it fails.
#[derive(Clone, Copy)]
pub struct Failed<'a> {
    pub name: PropertyName,
    pub found: &'a Counterexample,
}

/// The name of a property. Agreement, validity and finality at once have none: they are asked
/// together, and each is told of by itself.
pub(crate) fn name_of(property: Property<'_>) -> PropertyName
    ensures { result ≡ name_of property.entry }
{
    match property {
        Property::Agreement | Property::Safety => PropertyName::Agreement,
        Property::Validity => PropertyName::Validity,
        Property::Final => PropertyName::Final,
        Property::Termination => PropertyName::Termination,
        Property::Always(_) => PropertyName::Always,
    }
}

/// What a part of a search answers of a property.
const fn answer_of(property: PropertyName, outcome: Outcome) -> PartAnswered
    ensures { result ≡ record { property = property; outcome = outcome } }
{
    PartAnswered { property, outcome }
}

/// The property and its answer, as a part of a search has it; of a sample, in how many runs no
/// failure was found.
impl fmt::Display for Told {
    ghost use Rattle.std.specs.Prelude.{Some};
    ghost use Rattle.exploration_texts.specs.Lines.{told_text};

    ghost output = { λ told. Some (told_text told) };

    fn fmt<W: fmt::Write>(&self, f: &mut fmt::Formatter<W>) -> fmt::Result {
        let name = self.name;
        match &self.answer {
            Answered::Holds => write!(f, "{}", answer_of(name, Outcome::Holds)),
            Answered::HoldsInAllRounds => {
                write!(f, "{}", answer_of(name, Outcome::HoldsInAllRounds))
            }
            Answered::Fails(found) => write!(f, "{}", answer_of(name, Outcome::Fails(found.round))),
            Answered::NotFound(runs) => write!(f, "{} none found in {runs}", name.as_str()),
        }
    }
}

/// The first property of which a failure is told.
pub fn first_failure(told: &[Told]) -> Option<Failed<'_>>
    ensures none { IfNone result (all_hold told.now ≡ true) }
    ensures some { IfSome result (λ failed. IsFirstNo told.now failed.name failed.found.now) }
{
    match told {
        [] => None,
        [first, rest @ ..] => match &first.answer {
            Answered::Holds | Answered::HoldsInAllRounds | Answered::NotFound(_) => {
                first_failure(rest)
            }
            Answered::Fails(found) => Some(Failed {
                name: first.name,
                found,
            }),
        },
    }
}

/// Writes a line for each property, in words or as an object of JSON. The first fault of the writer
/// is answered as it came.
pub fn write_answers<W: Write>(told: &[Told], format: AnswerFormat, out: &mut W) -> io::Result<()>
    ensures { OnOk result
        (Appends (W.contents out.old) (W.contents out.new) (answers_as format told.now)) }
{
    match format {
        AnswerFormat::Text => write_lines(told, out),
        AnswerFormat::Json => write_data(told, out),
    }
}

fn write_lines<W: Write>(told: &[Told], out: &mut W) -> io::Result<()>
    ensures { OnOk result
        (Appends (W.contents out.old) (W.contents out.new) (answers_text told.now)) }
{
    for one in told {
        write_answer(one, out)?;
    }
    Ok(())
}

fn write_answer<W: Write>(told: &Told, out: &mut W) -> io::Result<()>
    ensures { OnOk result
        (Appends (W.contents out.old) (W.contents out.new) (told_line told.now)) }
{
    writeln!(out, "{told}")
}

fn write_data<W: Write>(told: &[Told], out: &mut W) -> io::Result<()>
    ensures { OnOk result
        (Appends (W.contents out.old) (W.contents out.new) (answers_data told.now)) }
{
    for one in told {
        write_object(one, out)?;
    }
    Ok(())
}

fn write_object<W: Write>(told: &Told, out: &mut W) -> io::Result<()>
    ensures { OnOk result
        (Appends (W.contents out.old) (W.contents out.new) (told_data told.now)) }
{
    write_members(told, out)?;
    writeln!(out, "}}")
}

/// Writes the object of a property and its answer, but for its end: more members may follow.
pub fn write_members<W: Write>(told: &Told, out: &mut W) -> io::Result<()>
    ensures { OnOk result
        (Appends (W.contents out.old) (W.contents out.new) (told_members told.now)) }
{
    let name = told.name.as_str();
    match &told.answer {
        Answered::Holds => {
            write!(
                out,
                "{{\"property\":\"{name}\",\"holds\":true,\"round\":null"
            )
        }
        Answered::HoldsInAllRounds => {
            write!(
                out,
                "{{\"property\":\"{name}\",\"holds\":true,\"round\":null,\"rounds\":\"all\""
            )
        }
        Answered::NotFound(runs) => {
            write!(
                out,
                "{{\"property\":\"{name}\",\"holds\":null,\"round\":null,\"runs\":{runs}"
            )
        }
        Answered::Fails(found) => {
            let round = found.round;
            write!(
                out,
                "{{\"property\":\"{name}\",\"holds\":false,\"round\":{round}"
            )
        }
    }
}
