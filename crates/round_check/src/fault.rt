//! Why a program is refused.
ghost use Rattle.std.specs.Prelude.{◌≡◌};

use run_events::NoMemory;
use thiserror::Error;

/// Why a program is refused, numbered as it is reported; the causes are answered in the order
/// DoubleName, NoInput, NoDecision, MissingRound, UnknownName, NotAllowedHere, FieldCount,
/// WrongType.
#[derive(Clone, Copy, PartialEq, Eq, Debug, Error)]
pub enum CheckFault {
    #[error("a name isn't declared")]
    UnknownName = 1,
    #[error("a name is declared twice")]
    DoubleName = 2,
    #[error("a type doesn't fit")]
    WrongType = 3,
    #[error("a message has more or fewer values than fields")]
    FieldCount = 4,
    #[error("a word or name may not stand where it does")]
    NotAllowedHere = 5,
    #[error("no variable is the input")]
    NoInput = 6,
    #[error("no variable decides")]
    NoDecision = 7,
    #[error("the blocks aren't those of the period's rounds in order")]
    MissingRound = 8,
    #[error("out of memory")]
    NoMemory = 9,
}

impl From<NoMemory> for CheckFault {
    ghost use Rattle.std.specs.Prelude.{◌≡◌};
    ghost use Rattle.round_check.specs.declared.fault.CheckFault.TheVariants as fault;

    ghost from_gives = { λ _ e. e ≡ fault.NoMemory };

    fn from(_error: NoMemory) -> CheckFault {
        CheckFault::NoMemory
    }
}
