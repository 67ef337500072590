//! Why there is no picture.
ghost use Rattle.std.specs.Prelude.{◌≡◌};
ghost use Rattle.run_picture.specs.declared.fault.PictureFault.TheVariants as fault;

use run_events::NoMemory;
use std::io;
use thiserror::Error;

/// Why a picture isn't written, or not as a whole.
#[derive(Clone, Copy, PartialEq, Eq, Debug, Error)]
pub enum PictureFault {
    #[error("out of memory")]
    NoMemory,
    /// A run of more than 400 events is drawn only for a range of its rounds. Nothing was written.
    #[error("the run has more than 400 events, and no range of rounds is given")]
    TooManyEvents,
    /// The writer failed; it may have a beginning of the picture.
    #[error("the picture can't be written")]
    Write,
}

impl From<NoMemory> for PictureFault {
    ghost from_gives = { λ _ e. e ≡ fault.NoMemory };

    fn from(_error: NoMemory) -> PictureFault {
        PictureFault::NoMemory
    }
}

impl From<io::Error> for PictureFault {
    ghost from_gives = { λ _ e. e ≡ fault.Write };

    fn from(_error: io::Error) -> PictureFault {
        PictureFault::Write
    }
}
