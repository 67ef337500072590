//! Where the bytes of a text come from.
ghost use Rattle.std.specs.Prelude.{◌≡◌, ◌≤◌, ℕ, Err, IfSome, List, None, OnOk, Option, length};
ghost use Rattle.schedule_text.specs.Sources.{Adds};

use crate::fault::ScheduleFault;
use run_events::NoMemory;
use thiserror::Error;

/// Why a source gives no bytes.
#[derive(Clone, Copy, PartialEq, Eq, Debug, Error)]
pub enum SourceFault {
    #[error("the text can't be read")]
    Failed,
    #[error("out of memory")]
    NoMemory,
}

/// The bytes of a text, which are read piece by piece.
pub trait TextSource {
    // The bytes that are left, if they are known.
    ghost left: { Self → Option (List ℕ) } = { λ _. None };

    /// Adds the next bytes to a list: so many, or all that are left if these are fewer.
    fn add_next(&mut self, most: usize, bytes: &mut Vec<u8>) -> Result<(), SourceFault>
        ensures grows { OnOk result (length bytes.old.items ≤ length bytes.new.items) }
        ensures added { OnOk result (IfSome (left self.old)
            (λ were. Adds most were (left self.new) bytes.old.items bytes.new.items)) }
        ensures failed { result ≡ Err SourceFault.Failed → left self.old ≡ None };
}

/// Why the text of a source is no schedule.
#[derive(Clone, Copy, PartialEq, Eq, Debug, Error)]
pub enum TextFault {
    #[error("the text can't be read")]
    Failed,
    #[error("the text isn't UTF-8")]
    NotUtf8,
    #[error("{0}")]
    Schedule(ScheduleFault),
}

impl From<SourceFault> for TextFault {
    ghost use Rattle.std.specs.Prelude.{◌≡◌};
    ghost use Rattle.schedule_text.specs.Sources.{fault_of};

    ghost from_gives = { λ fault e. e ≡ fault_of fault };

    fn from(fault: SourceFault) -> TextFault {
        match fault {
            SourceFault::Failed => TextFault::Failed,
            SourceFault::NoMemory => TextFault::Schedule(ScheduleFault::NoMemory),
        }
    }
}

impl From<ScheduleFault> for TextFault {
    ghost use Rattle.std.specs.Prelude.{◌≡◌};
    ghost use Rattle.schedule_text.specs.declared.source.TextFault.TheVariants as text;

    ghost from_gives = { λ fault e. e ≡ text.Schedule fault };

    fn from(fault: ScheduleFault) -> TextFault {
        TextFault::Schedule(fault)
    }
}

impl From<NoMemory> for TextFault {
    ghost use Rattle.std.specs.Prelude.{◌≡◌};
    ghost use Rattle.schedule_text.specs.declared.fault.ScheduleFault.TheVariants as schedule;
    ghost use Rattle.schedule_text.specs.declared.source.TextFault.TheVariants as text;

    ghost from_gives = { λ _ e. e ≡ text.Schedule schedule.NoMemory };

    fn from(_error: NoMemory) -> TextFault {
        TextFault::Schedule(ScheduleFault::NoMemory)
    }
}
