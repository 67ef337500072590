//! Why a line is refused.
ghost use Rattle.std.specs.Prelude.{◌≡◌};
ghost use Rattle.omission_texts.specs.Forms.{at_line};

use run_events::NoMemory;
use schedule_text::ScheduleFault;
use std::alloc::AllocFailed;

/// Why a line is refused.
#[derive(Clone, Copy, PartialEq, Eq, Debug)]
pub(crate) enum LineFault {
    Bad,
    Large,
    NoMemory,
}

impl LineFault {
    /// The fault of the line of this number.
    pub(crate) fn at(self, number: u64) -> ScheduleFault
        ensures { result ≡ at_line number self }
    {
        match self {
            LineFault::Bad => ScheduleFault::BadLine(number),
            LineFault::Large => ScheduleFault::NumberTooLarge(number),
            LineFault::NoMemory => ScheduleFault::NoMemory,
        }
    }
}

impl<T: Drop> From<AllocFailed<T>> for LineFault {
    ghost use Rattle.std.specs.Prelude.{◌≡◌};
    ghost use Rattle.omission_texts.specs.declared.fault.LineFault.TheVariants as line;

    ghost from_gives = { λ _ e. e ≡ line.NoMemory };

    fn from(_error: AllocFailed<T>) -> LineFault {
        LineFault::NoMemory
    }
}

impl From<NoMemory> for LineFault {
    ghost use Rattle.std.specs.Prelude.{◌≡◌};
    ghost use Rattle.omission_texts.specs.declared.fault.LineFault.TheVariants as line;

    ghost from_gives = { λ _ e. e ≡ line.NoMemory };

    fn from(_error: NoMemory) -> LineFault {
        LineFault::NoMemory
    }
}
