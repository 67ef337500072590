//! What is printed of a search besides its answers.
ghost use Rattle.std.specs.Prelude.{◌≡◌, All};
ghost use Rattle.exploration_texts.specs.Stops.{IsToldToShow};
ghost use Rattle.round_meaning.specs.Setups.{IsSetup};

use crate::failing_run::SearchedRuns;
use crate::notes::write_notes;
use crate::text::text_of;
use command_words::{AnswerFormat, Exploring};
use exploration_texts::{Answered, Told};
use run_events::NoMemory;
use slot_plans::Plan;
use std::alloc::Global;

/// What is printed of a search besides its answers: words, or data in the format of objects.
#[derive(Drop)]
pub struct Details {
    /// The run in which each property fails, by the order of the answers; an empty text for a
    /// property that doesn't fail.
    pub runs: Vec<String>,
    /// The notes, a line each; none for the format of objects.
    pub notes: String,
}

/// The details of what was found in all runs of a program, or in a sample of them.
pub fn details_of<P: Plan>(
    alloc: Global,
    runs: &SearchedRuns<'_, P>,
    exploring: &Exploring<'_>,
    format: AnswerFormat,
    told: &[Told],
) -> Result<Details, NoMemory>
    requires plan { P.nodes runs.now.plan ≡ runs.now.setup.now.nodes }
    requires setup { IsSetup runs.now.setup.now }
    requires showable { All (IsToldToShow runs.now.setup.now) told.now }
{
    let mut notes = Vec::new(alloc);
    if format == AnswerFormat::Text {
        write_notes(alloc, runs.program.program(), exploring, told, &mut notes)?;
    }
    Ok(Details {
        runs: runs_of(alloc, runs, format, told)?,
        notes: text_of(alloc, notes),
    })
}

/// The run in which each property fails.
fn runs_of<P: Plan>(
    alloc: Global,
    runs: &SearchedRuns<'_, P>,
    format: AnswerFormat,
    told: &[Told],
) -> Result<Vec<String>, NoMemory>
    requires plan { P.nodes runs.now.plan ≡ runs.now.setup.now.nodes }
    requires setup { IsSetup runs.now.setup.now }
    requires showable { All (IsToldToShow runs.now.setup.now) told.now }
{
    let mut texts = Vec::new(alloc);
    for one in told {
        texts.push(run_of(alloc, runs, format, one)?)?;
    }
    Ok(texts)
}

/// The run in which a property fails, if it does.
fn run_of<P: Plan>(
    alloc: Global,
    runs: &SearchedRuns<'_, P>,
    format: AnswerFormat,
    told: &Told,
) -> Result<String, NoMemory>
    requires plan { P.nodes runs.now.plan ≡ runs.now.setup.now.nodes }
    requires setup { IsSetup runs.now.setup.now }
    requires showable { IsToldToShow runs.now.setup.now told.now }
{
    match &told.answer {
        Answered::Fails(found) => match format {
            AnswerFormat::Text => runs.failing_run(alloc, told.name, found),
            AnswerFormat::Json => runs.failing_data(alloc, found),
        },
        Answered::Holds | Answered::HoldsInAllRounds | Answered::NotFound(_) => {
            Ok(String::new(alloc))
        }
    }
}
