//! Why the library has no such program.
ghost use Rattle.std.specs.Prelude.{◌≡◌};
ghost use Rattle.algorithm_library.specs.declared.fault.LibraryFault.TheVariants as fault;

use run_events::NoMemory;
use thiserror::Error;

/// Why the library has no such program, numbered as it is reported.
#[derive(Clone, Copy, PartialEq, Eq, Debug, Error)]
pub enum LibraryFault {
    #[error("too few nodes for so many faults")]
    TooFew = 1,
    #[error("a number outside its limits")]
    BadValues = 2,
    #[error("out of memory")]
    NoMemory = 4,
}

impl From<NoMemory> for LibraryFault {
    ghost from_gives = { λ _ e. e ≡ fault.NoMemory };

    fn from(_error: NoMemory) -> LibraryFault {
        LibraryFault::NoMemory
    }
}
