//! EXPR, the condition that is to be true of each state.
ghost use Rattle.std.specs.Prelude.{◌≡◌, IfErr, IfOk};
ghost use Rattle.std.specs.Fmt.{WritesOnOk};
ghost use Rattle.exploration_texts.specs.Conditions.{IsCondition, IsNoCondition};
ghost use Rattle.exploration_texts.specs.Lines.{check_text, condition_text, source_text};

use round_check::{CheckFault, Checked};
use round_lang::{Formula, LangFault, Span, parse_formula};
use run_events::NoMemory;
use std::alloc::Global;
use std::error::Error;
use std::fmt;

/// Why a text is no condition on the states of a program.
#[derive(Clone, Copy, Debug, PartialEq, Eq)]
pub enum ConditionFault {
    /// It's no expression.
    Source(LangFault),
    /// It's one, and no condition.
    Check(CheckFault),
    NoMemory,
}

/// The condition that a text is.
pub fn read_condition(
    alloc: Global,
    program: &Checked,
    text: &str,
) -> Result<Formula, ConditionFault>
    ensures read { IfOk result (IsCondition program.now text.now) }
    ensures refused { IfErr result (IsNoCondition program.now text.now) }
{
    let formula = parse_formula(alloc, text)?;
    match program.condition_fault(&formula) {
        None => Ok(formula),
        Some(fault) => Err(ConditionFault::from(fault)),
    }
}

/// The number of the cause, and its place in the text if it has one.
impl fmt::Display for ConditionFault {
    ghost use Rattle.std.specs.Prelude.{Some};
    ghost use Rattle.exploration_texts.specs.Lines.{condition_text};

    ghost output = { λ fault. Some (condition_text fault) };

    fn fmt<W: fmt::Write>(&self, f: &mut fmt::Formatter<W>) -> fmt::Result {
        match self {
            ConditionFault::Source(fault) => write_source(*fault, f),
            ConditionFault::Check(fault) => write_check(*fault, f),
            ConditionFault::NoMemory => write!(f, "no memory"),
        }
    }
}

impl Error for ConditionFault {}

fn write_source<W: fmt::Write>(fault: LangFault, f: &mut fmt::Formatter<W>) -> fmt::Result
    ensures { WritesOnOk W.write_str_gives f.old result (source_text fault) f.new }
{
    match fault {
        LangFault::BadToken(Span { first, after }) => write!(f, "source 1 at {first} {after}"),
        LangFault::Unexpected(Span { first, after }) => write!(f, "source 2 at {first} {after}"),
        LangFault::TooDeep => write!(f, "source 3"),
        LangFault::TooLong => write!(f, "source 4"),
        LangFault::LimitPassed(Span { first, after }) => write!(f, "source 5 at {first} {after}"),
        LangFault::NoMemory => write!(f, "no memory"),
    }
}

fn write_check<W: fmt::Write>(fault: CheckFault, f: &mut fmt::Formatter<W>) -> fmt::Result
    ensures { WritesOnOk W.write_str_gives f.old result (check_text fault) f.new }
{
    match fault {
        CheckFault::UnknownName => write!(f, "check 1"),
        CheckFault::DoubleName => write!(f, "check 2"),
        CheckFault::WrongType => write!(f, "check 3"),
        CheckFault::FieldCount => write!(f, "check 4"),
        CheckFault::NotAllowedHere => write!(f, "check 5"),
        CheckFault::NoInput => write!(f, "check 6"),
        CheckFault::NoDecision => write!(f, "check 7"),
        CheckFault::MissingRound => write!(f, "check 8"),
        CheckFault::NoMemory => write!(f, "no memory"),
    }
}

impl From<LangFault> for ConditionFault {
    ghost use Rattle.std.specs.Prelude.{◌≡◌};
    ghost use Rattle.exploration_texts.specs.Conditions.{of_source};

    ghost from_gives = { λ fault e. e ≡ of_source fault };

    fn from(fault: LangFault) -> ConditionFault {
        match fault {
            LangFault::NoMemory => ConditionFault::NoMemory,
            fault => ConditionFault::Source(fault),
        }
    }
}

impl From<CheckFault> for ConditionFault {
    ghost use Rattle.std.specs.Prelude.{◌≡◌};
    ghost use Rattle.exploration_texts.specs.Conditions.{of_check};

    ghost from_gives = { λ fault e. e ≡ of_check fault };

    fn from(fault: CheckFault) -> ConditionFault {
        match fault {
            CheckFault::NoMemory => ConditionFault::NoMemory,
            fault => ConditionFault::Check(fault),
        }
    }
}

impl From<NoMemory> for ConditionFault {
    ghost use Rattle.std.specs.Prelude.{◌≡◌};
    ghost use Rattle.exploration_texts.specs.declared.condition.ConditionFault.TheVariants as fault;

    ghost from_gives = { λ _ e. e ≡ fault.NoMemory };

    fn from(_error: NoMemory) -> ConditionFault {
        ConditionFault::NoMemory
    }
}
