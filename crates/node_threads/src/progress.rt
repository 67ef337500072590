//! How far the nodes and the network have come, by which they keep together under the free pace.
use run_events::NoMemory;
use std::alloc::Global;
use std::sync::Wait;
use std::sync::atomic::{AtomicU64, Ordering};
use std::thread::yield_now;
use std::time::Duration;

/// How often a thread that waits for the others yields its processor at most.
const YIELDS: u32 = 100;

/// How often it sleeps after that at most.
const SLEEPS: u32 = 50;

/// How long it sleeps each time, in microseconds.
const SLEEP: u64 = 100;

/// How far the nodes and the network have come. Whoever waits for the others gives way a number of
/// times only, and then goes on without them.
#[derive(Drop)]
pub(crate) struct Progress {
    /// The last round of which each node has sent all messages; no node waits for one that ended.
    sent: Vec<AtomicU64>,
    /// How many turns the network has begun.
    begun: AtomicU64,
    /// How many turns it has ended.
    ended: AtomicU64,
}

impl Progress {
    /// The progress of so many nodes and the network, before their first step.
    pub(crate) fn new(alloc: Global, nodes: u32) -> Result<Progress, NoMemory> {
        let mut sent = Vec::with_capacity(alloc, nodes as usize)?;
        for _node in 0..nodes {
            sent.push(AtomicU64::new(0))?;
        }
        Ok(Progress {
            sent,
            begun: AtomicU64::new(0),
            ended: AtomicU64::new(0),
        })
    }

    /// A node has sent all its messages of a round.
    pub(crate) fn note_sent(&self, node: u32, round: u32) {
        self.note(node, u64::from(round));
    }

    /// A node has ended.
    pub(crate) fn note_end(&self, node: u32) {
        self.note(node, u64::MAX);
    }

    fn note(&self, node: u32, round: u64) {
        if let Some(sent) = self.sent.get(node as usize) {
            sent.store(round, Ordering::SeqCst);
        }
    }

    /// The network begins a turn.
    pub(crate) fn begin_turn(&self) {
        self.begun.fetch_add(1, Ordering::SeqCst);
    }

    /// The network has ended its turn.
    pub(crate) fn end_turn(&self) {
        self.ended.fetch_add(1, Ordering::SeqCst);
    }

    /// The network has ended: no node waits for its turns any more.
    pub(crate) fn note_over(&self) {
        self.ended.store(u64::MAX, Ordering::SeqCst);
    }

    /// The number of the turn that the network began last.
    pub(crate) fn turn(&self) -> u64 {
        self.begun.load(Ordering::SeqCst)
    }

    /// Waits until each node has sent its messages of a round.
    pub(crate) fn await_sends<R: Wait>(&self, rt: &R, round: u32) {
        for attempt in 0..YIELDS + SLEEPS {
            if self.have_sent(round) {
                return;
            }
            give_way(rt, attempt);
        }
    }

    fn have_sent(&self, round: u32) -> bool {
        let round = u64::from(round);
        self.sent
            .iter()
            .all(|sent| sent.load(Ordering::SeqCst) >= round)
    }

    /// Waits until the network has ended a turn that began after this one.
    pub(crate) fn await_turn<R: Wait>(&self, rt: &R, turn: u64) {
        for attempt in 0..YIELDS + SLEEPS {
            if self.ended.load(Ordering::SeqCst) > turn {
                return;
            }
            give_way(rt, attempt);
        }
    }
}

/// Lets other threads go on: at first by a yield, which takes a microsecond if no other thread
/// wants the processor, and then asleep.
fn give_way<R: Wait>(rt: &R, attempt: u32) {
    if attempt < YIELDS {
        yield_now();
    } else {
        // No one knows of this word, so the sleep ends by its time alone.
        let word = AtomicU64::new(0);
        word.park_timeout(rt, 0, Duration::from_micros(SLEEP));
    }
}
