//! Why a post refuses what isn't a send or a close.
ghost use Rattle.std.specs.Prelude.{◌≡◌};
ghost use Rattle.locked_buffers.specs.Commits.{send_fault};
ghost use Rattle.locked_buffers.specs.declared.fault.PostFault.TheVariants as post;
ghost use Rattle.locked_buffers.specs.declared.fault.RelayFault.TheVariants as relay;

use run_events::NoMemory;
use std::fmt;
use step_book::SendFault;
use thiserror::Error;

/// Why a receive is refused. `Stranger`: what stands under the locks is of another run, the buffer
/// holds other frames than the book says, or the book refuses for another cause than memory.
#[derive(Clone, Copy, PartialEq, Eq, Debug, Error)]
pub enum PostFault {
    #[error("the node's next step isn't a receive")]
    NotItsSlot = 1,
    #[error("a round before isn't closed")]
    NotClosed = 2,
    #[error("what stands under the locks is of another run")]
    Stranger = 3,
    #[error("out of memory")]
    NoMemory = 4,
}

/// Why an event of the network is refused.
#[derive(Clone, Copy, PartialEq, Eq, Debug, Error)]
pub enum RelayFault {
    #[error("what stands under the locks is of another run")]
    Stranger = 3,
    #[error("out of memory")]
    NoMemory = 4,
}

impl From<NoMemory> for PostFault {
    ghost from_gives = { λ _ e. e ≡ post.NoMemory };

    fn from(_error: NoMemory) -> PostFault {
        PostFault::NoMemory
    }
}

impl From<NoMemory> for RelayFault {
    ghost from_gives = { λ _ e. e ≡ relay.NoMemory };

    fn from(_error: NoMemory) -> RelayFault {
        RelayFault::NoMemory
    }
}

impl From<RelayFault> for SendFault {
    ghost from_gives = { λ fault told. told ≡ send_fault fault };

    fn from(fault: RelayFault) -> SendFault {
        match fault {
            RelayFault::Stranger => SendFault::Stranger,
            RelayFault::NoMemory => SendFault::NoMemory,
        }
    }
}

/// The seats or the relay were told another thing than what is recorded, or what stands under the
/// locks is of another run.
#[derive(Clone, Copy, PartialEq, Eq, Debug)]
pub struct Unmatched;

impl fmt::Display for Unmatched {
    fn fmt<W: fmt::Write>(&self, f: &mut fmt::Formatter<W>) -> fmt::Result {
        write!(
            f,
            "the seats, the relay or what is under the locks isn't of the run"
        )
    }
}
