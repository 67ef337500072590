//! Which runs are asked about.
ghost use Rattle.std.specs.Prelude.{◌≡◌};
ghost use Rattle.exploration_texts.specs.Asking.{inputs_of, kind_of, lists_of, question_of};

use command_words::{Exploring, FaultChoice, InputChoice};
use round_explorer::{AskedInputs, FaultKind, Part, Question};

/// The question that the options ask.
pub fn question_of(exploring: &Exploring<'_>) -> Question
    ensures { result ≡ question_of exploring.now }
{
    Question {
        clear: exploring.clear,
        faults: kind_of(exploring.faults),
        hears: exploring.hears,
    }
}

/// Whose inputs are asked about.
pub fn inputs_of(exploring: &Exploring<'_>) -> AskedInputs
    ensures { result ≡ inputs_of exploring.now }
{
    match exploring.part {
        Some(part) => AskedInputs::Part(Part {
            index: part.number.saturating_sub(1),
            count: part.count,
        }),
        None => lists_of(exploring.inputs),
    }
}

fn lists_of(inputs: InputChoice) -> AskedInputs
    ensures { result ≡ lists_of inputs }
{
    match inputs {
        InputChoice::Header => AskedInputs::Header,
        InputChoice::Any => AskedInputs::Any,
    }
}

fn kind_of(faults: FaultChoice) -> FaultKind
    ensures { result ≡ kind_of faults }
{
    match faults {
        FaultChoice::Nobody => FaultKind::Nobody,
        FaultChoice::Omission => FaultKind::Omission,
        FaultChoice::Crash => FaultKind::Crash,
    }
}
