//! Why a text is no schedule.

use run_events::NoMemory;
use std::alloc::AllocFailed;
use thiserror::Error;

/// Why a text is no schedule; lines count from 1.
#[derive(Clone, Copy, PartialEq, Eq, Debug, Error)]
pub enum ScheduleFault {
    /// The line has no form that may stand where it does. If a text ends within its header, or a
    /// thread setup before its pace, it is the number of the last line and one more.
    #[error("line {0} has no form that may stand there")]
    BadLine(u64),
    /// The line would do, but a number of it is above 4,294,967,295.
    #[error("a number of line {0} is above 4,294,967,295")]
    NumberTooLarge(u64),
    /// The text has more than 16,777,216 bytes.
    #[error("the text has more than 16,777,216 bytes")]
    TooLong,
    #[error("out of memory")]
    NoMemory,
}

/// Why a line is refused.
#[derive(Clone, Copy, PartialEq, Eq, Debug)]
pub(crate) enum LineFault {
    Bad,
    Large,
    NoMemory,
}

impl LineFault {
    ghost use Rattle.std.specs.Prelude.{◌≡◌, ◌≢◌};
    ghost use Rattle.schedule_text.specs.Stages.{at_line};
    ghost use Rattle.schedule_text.specs.declared.fault.ScheduleFault.TheVariants as ScheduleFault;

    /// The fault of the line of this number.
    pub(crate) fn at(self, number: u64) -> ScheduleFault
        ensures line { result ≡ at_line number self }
        ensures short { result ≢ ScheduleFault.TooLong }
    {
        match self {
            LineFault::Bad => ScheduleFault::BadLine(number),
            LineFault::Large => ScheduleFault::NumberTooLarge(number),
            LineFault::NoMemory => ScheduleFault::NoMemory,
        }
    }
}

impl From<NoMemory> for LineFault {
    ghost use Rattle.std.specs.Prelude.{◌≡◌};
    ghost use Rattle.schedule_text.specs.declared.fault.LineFault.TheVariants as line;

    ghost from_gives = { λ _ e. e ≡ line.NoMemory };

    fn from(_error: NoMemory) -> LineFault {
        LineFault::NoMemory
    }
}

impl<T: Drop> From<AllocFailed<T>> for LineFault {
    ghost use Rattle.std.specs.Prelude.{◌≡◌};
    ghost use Rattle.schedule_text.specs.declared.fault.LineFault.TheVariants as line;

    ghost from_gives = { λ _ e. e ≡ line.NoMemory };

    fn from(_error: AllocFailed<T>) -> LineFault {
        LineFault::NoMemory
    }
}
