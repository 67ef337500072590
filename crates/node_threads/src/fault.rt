//! Why a run by threads has no journal.
ghost use Rattle.std.specs.Prelude.{◌≡◌};
ghost use Rattle.node_threads.specs.Faults.{least_of, run_fault, thread_fault};
ghost use Rattle.node_threads.specs.declared.fault.ThreadFault.TheVariants as fault;

use crate::body::Halt;
use adversary::RunFault;
use run_events::NoMemory;

/// Why a run by threads has no journal; of several causes the first of these is told.
#[derive(Clone, Copy, PartialEq, Eq, Debug)]
pub(crate) enum ThreadFault {
    NoMemory,
    /// A thread couldn't be started.
    NoThread,
    /// A call was refused for another cause than memory, or what the threads were told isn't what
    /// is recorded.
    Unmatched,
}

impl ThreadFault {
    /// The one of both that is told.
    pub(crate) fn or(self, other: ThreadFault) -> ThreadFault
        ensures { result ≡ least_of self other }
    {
        match (self, other) {
            (ThreadFault::NoMemory, _) | (_, ThreadFault::NoMemory) => ThreadFault::NoMemory,
            (ThreadFault::NoThread, _) | (_, ThreadFault::NoThread) => ThreadFault::NoThread,
            _ => ThreadFault::Unmatched,
        }
    }
}

impl From<NoMemory> for ThreadFault {
    ghost from_gives = { λ _ told. told ≡ fault.NoMemory };

    fn from(_error: NoMemory) -> ThreadFault {
        ThreadFault::NoMemory
    }
}

impl From<Halt> for ThreadFault {
    ghost from_gives = { λ halt fault. fault ≡ thread_fault halt };

    fn from(halt: Halt) -> ThreadFault {
        match halt {
            Halt::NoMemory => ThreadFault::NoMemory,
            Halt::Refused => ThreadFault::Unmatched,
        }
    }
}

impl From<ThreadFault> for RunFault {
    ghost from_gives = { λ fault told. told ≡ run_fault fault };

    fn from(fault: ThreadFault) -> RunFault {
        match fault {
            ThreadFault::NoMemory => RunFault::NoMemory,
            ThreadFault::NoThread => RunFault::NoThread,
            ThreadFault::Unmatched => RunFault::Unmatched,
        }
    }
}
