//! Why a report isn't written.
ghost use Rattle.std.specs.Prelude.{◌≡◌};
ghost use Rattle.run_data.specs.declared.fault.DataFault.TheVariants as fault;

use std::alloc::{AllocError, AllocFailed};
use std::io;
use thiserror::Error;

/// Why a report isn't written, or not as a whole: the writer may have a beginning of it.
#[derive(Clone, Copy, Debug, Error)]
pub enum DataFault {
    #[error("out of memory")]
    NoMemory,
    /// What the writer answered.
    #[error("the report can't be written: {0}")]
    Write(io::Error),
}

impl From<AllocError> for DataFault {
    ghost from_gives = { λ _ e. e ≡ fault.NoMemory };

    fn from(_error: AllocError) -> DataFault {
        DataFault::NoMemory
    }
}

impl<T: Drop> From<AllocFailed<T>> for DataFault {
    ghost from_gives = { λ _ e. e ≡ fault.NoMemory };

    fn from(_error: AllocFailed<T>) -> DataFault {
        DataFault::NoMemory
    }
}

impl From<io::Error> for DataFault {
    ghost from_gives = { λ error e. e ≡ fault.Write error };

    fn from(error: io::Error) -> DataFault {
        DataFault::Write(error)
    }
}
