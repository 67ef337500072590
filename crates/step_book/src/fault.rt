//! Why a book refuses an event.
ghost use Rattle.std.specs.Prelude.{◌≡◌};
ghost use Rattle.step_book.specs.declared.fault.ReceiveFault.TheVariants as receive;
ghost use Rattle.step_book.specs.declared.fault.CloseFault.TheVariants as close;
ghost use Rattle.step_book.specs.declared.fault.IdleFault.TheVariants as idle;

use run_events::NoMemory;
use step_machine::Prepared;
use thiserror::Error;

/// Why a send is refused.
#[derive(Clone, Copy, PartialEq, Eq, Debug, Error)]
pub enum SendFault {
    #[error("the node's next step isn't this send")]
    NotItsSlot = 1,
    #[error("a round before isn't closed")]
    NotClosed = 2,
    #[error("the work is of another run or another state")]
    Stranger = 3,
    #[error("out of memory")]
    NoMemory = 4,
}

/// A send that was refused gives the work back.
#[derive(Drop)]
pub struct Refused {
    pub fault: SendFault,
    pub prepared: Prepared,
}

impl Refused {
    /// The work comes back, since there is no memory.
    pub fn memory(prepared: Prepared) -> Refused
        ensures fault { result.fault ≡ SendFault.NoMemory }
        ensures prepared { result.prepared ≡ prepared }
    {
        Refused {
            fault: SendFault::NoMemory,
            prepared,
        }
    }
}

/// Why a receive is refused.
#[derive(Clone, Copy, PartialEq, Eq, Debug, Error)]
pub enum ReceiveFault {
    #[error("the node's next step isn't a receive")]
    NotItsSlot = 1,
    #[error("a round before isn't closed")]
    NotClosed = 2,
    #[error("out of memory")]
    NoMemory = 4,
}

impl From<NoMemory> for ReceiveFault {
    ghost from_gives = { λ _ e. e ≡ receive.NoMemory };

    fn from(_error: NoMemory) -> ReceiveFault {
        ReceiveFault::NoMemory
    }
}

/// Why a round isn't closed.
#[derive(Clone, Copy, PartialEq, Eq, Debug, Error)]
pub enum CloseFault {
    #[error("this round of the node isn't due to be closed")]
    NotDue = 1,
    #[error("the round's end is of another run, another state or other messages")]
    Stranger = 2,
    #[error("out of memory")]
    NoMemory = 3,
}

impl From<NoMemory> for CloseFault {
    ghost from_gives = { λ _ e. e ≡ close.NoMemory };

    fn from(_error: NoMemory) -> CloseFault {
        CloseFault::NoMemory
    }
}

/// Why an idle step is refused.
#[derive(Clone, Copy, PartialEq, Eq, Debug, Error)]
pub enum IdleFault {
    #[error("the node isn't past its last round")]
    NotPast = 1,
    #[error("out of memory")]
    NoMemory = 2,
}

impl From<NoMemory> for IdleFault {
    ghost from_gives = { λ _ e. e ≡ idle.NoMemory };

    fn from(_error: NoMemory) -> IdleFault {
        IdleFault::NoMemory
    }
}
