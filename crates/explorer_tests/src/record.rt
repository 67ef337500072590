//! What a search tells of how far it has come.
use round_explorer::{Progress, Watch};
use std::fmt;
use std::sync::atomic::{AtomicBool, AtomicU32, AtomicU64, Ordering};

/// What a search told. One job of several tells, so no two notes come at once.
#[derive(Drop)]
pub struct Record {
    notes: AtomicU32,
    case: AtomicU64,
    cases: AtomicU64,
    round: AtomicU32,
    states: AtomicU64,
    transitions: AtomicU64,
    is_ordered: AtomicBool,
}

impl Record {
    pub fn new() -> Record {
        Record {
            notes: AtomicU32::new(0),
            case: AtomicU64::new(0),
            cases: AtomicU64::new(0),
            round: AtomicU32::new(1),
            states: AtomicU64::new(0),
            transitions: AtomicU64::new(0),
            is_ordered: AtomicBool::new(true),
        }
    }

    fn last(&self) -> Progress {
        Progress {
            case: self.case.load(Ordering::SeqCst),
            cases: self.cases.load(Ordering::SeqCst),
            round: self.round.load(Ordering::SeqCst),
            states: self.states.load(Ordering::SeqCst),
            transitions: self.transitions.load(Ordering::SeqCst),
        }
    }
}

impl Watch for Record {
    fn note(&self, progress: Progress) {
        if !follows(self.last(), progress) {
            self.is_ordered.store(false, Ordering::SeqCst);
        }
        self.case.store(progress.case, Ordering::SeqCst);
        self.cases.store(progress.cases, Ordering::SeqCst);
        self.round.store(progress.round, Ordering::SeqCst);
        self.states.store(progress.states, Ordering::SeqCst);
        self.transitions
            .store(progress.transitions, Ordering::SeqCst);
        self.notes.fetch_add(1, Ordering::SeqCst);
    }
}

/// Whether no count falls, and no round but to the first one of another case.
fn follows(before: Progress, progress: Progress) -> bool {
    let is_next = progress.round == 1 && before.case < progress.case;
    let is_later = before.case == progress.case && before.round <= progress.round;
    (is_next || is_later)
        && before.states <= progress.states
        && before.transitions <= progress.transitions
}

impl fmt::Display for Record {
    fn fmt<W: fmt::Write>(&self, f: &mut fmt::Formatter<W>) -> fmt::Result {
        let last = self.last();
        let order = if self.is_ordered.load(Ordering::SeqCst) {
            "in order"
        } else {
            "out of order"
        };
        write!(
            f,
            "{} notes {order} to {} of {} round {}",
            self.notes.load(Ordering::SeqCst),
            last.case,
            last.cases,
            last.round
        )?;
        write!(
            f,
            " states {} transitions {}",
            last.states, last.transitions
        )
    }
}
