//! Why there is no run.

use run_events::NoMemory;
use schedule_text::TextFault;
use thiserror::Error;

/// Why a run has no journal; positions count the events of the whole schedule, from 0.
#[derive(Clone, Copy, PartialEq, Eq, Debug, Error)]
pub enum RunFault {
    /// The setup isn't lawful for the program, a correct node or a stop is of no node of the setup,
    /// or a bound or a table is outside its limits.
    #[error("the setup, a node, a bound or a table isn't within its limits")]
    BadSetup,
    /// The first event that names what the setup doesn't have is a step of no node.
    #[error("event {0} is a step of no node")]
    UnknownNode(usize),
    /// The first event that names what the setup doesn't have is a release, drop or copy of no
    /// message, or a copy with the number 0.
    #[error("event {0} names no message")]
    UnknownMessage(usize),
    #[error("out of memory")]
    NoMemory,
    /// A thread couldn't be started; of runs by threads alone.
    #[error("a thread couldn't be started")]
    NoThread,
    /// What threads were told isn't what their run recorded; of runs by threads alone.
    #[error("what threads were told isn't what their run recorded")]
    Unmatched,
}

impl From<NoMemory> for RunFault {
    ghost use Rattle.std.specs.Prelude.{◌≡◌};
    ghost use Rattle.adversary.specs.declared.fault.RunFault.TheVariants as run;

    ghost from_gives = { λ _ fault. fault ≡ run.NoMemory };

    fn from(_error: NoMemory) -> RunFault {
        RunFault::NoMemory
    }
}

/// Why a schedule that is read while it's run has no journal.
#[derive(Clone, Copy, PartialEq, Eq, Debug, Error)]
pub enum ReadFault {
    /// The text is no schedule.
    #[error("{0}")]
    Text(TextFault),
    /// It is one, and isn't run.
    #[error("{0}")]
    Run(RunFault),
}

impl From<TextFault> for ReadFault {
    ghost use Rattle.std.specs.Prelude.{◌≡◌};
    ghost use Rattle.adversary.specs.declared.fault.ReadFault.TheVariants as read;

    ghost from_gives = { λ fault e. e ≡ read.Text fault };

    fn from(fault: TextFault) -> ReadFault {
        ReadFault::Text(fault)
    }
}

impl From<NoMemory> for ReadFault {
    ghost use Rattle.std.specs.Prelude.{◌≡◌};
    ghost use Rattle.adversary.specs.declared.fault.ReadFault.TheVariants as read;
    ghost use Rattle.adversary.specs.declared.fault.RunFault.TheVariants as run;

    ghost from_gives = { λ _ e. e ≡ read.Run run.NoMemory };

    fn from(_error: NoMemory) -> ReadFault {
        ReadFault::Run(RunFault::NoMemory)
    }
}
