//! Why there is no grid.
ghost use Rattle.std.specs.Prelude.{◌≡◌};
ghost use Rattle.run_grid.specs.declared.fault.GridFault.TheVariants as fault;

use run_events::NoMemory;
use std::io;
use thiserror::Error;

/// Why a grid isn't written, or not as a whole.
#[derive(Clone, Copy, PartialEq, Eq, Debug, Error)]
pub enum GridFault {
    #[error("out of memory")]
    NoMemory,
    /// The writer failed; it may have a beginning of the grid.
    #[error("the grid can't be written")]
    Write,
}

impl From<NoMemory> for GridFault {
    ghost from_gives = { λ _ e. e ≡ fault.NoMemory };

    fn from(_error: NoMemory) -> GridFault {
        GridFault::NoMemory
    }
}

impl From<io::Error> for GridFault {
    ghost from_gives = { λ _ e. e ≡ fault.Write };

    fn from(_error: io::Error) -> GridFault {
        GridFault::Write
    }
}
