//! What the threads of a run wait by.
ghost use Rattle.std.specs.Prelude.{◌≡◌, IfOk};

use crate::body::Beat;
use crate::progress::Progress;
use run_events::NoMemory;
use schedule_text::Pace;
use std::alloc::Global;
use std::sync::atomic::{AtomicBool, Ordering};
use std::sync::{Condvar, Mutex, Wait};
use std::thread::yield_now;

/// How often the network yields its processor at most before it sleeps.
const YIELDS: u32 = 100;

/// What the threads know of one another.
#[derive(Drop)]
struct Count {
    /// The nodes that haven't ended.
    running: u32,
    /// The ticks that began.
    ticks: u64,
    /// The nodes that took their step of this tick.
    stepped: u32,
    /// Whether the network has ended.
    is_over: bool,
}

impl Count {
    fn note_step(&mut self) {
        self.stepped = self.stepped.saturating_add(1);
    }

    fn note_end(&mut self) {
        self.running = self.running.saturating_sub(1);
    }

    fn begin_tick(&mut self) {
        self.ticks = self.ticks.saturating_add(1);
        self.stepped = 0;
    }
}

/// What lets the nodes and the network of a run go on.
#[derive(Drop)]
pub(crate) struct Clock {
    pace: Pace,
    count: Mutex<Count>,
    /// Whether a node took a step or ended since the network's last turn; set before its first one.
    /// A node that finds it set needs no lock: its event was recorded before, and the network
    /// clears this before it looks.
    is_new: AtomicBool,
    /// A tick began, or the network ended.
    begun: Condvar,
    /// A node took a step or ended.
    moved: Condvar,
    progress: Progress,
}

impl Clock {
    /// A clock for so many nodes, before their first step.
    pub(crate) fn new(alloc: Global, pace: Pace, nodes: u32) -> Result<Clock, NoMemory>
        ensures { IfOk result (λ clock. clock.pace ≡ pace) }
    {
        let progress = Progress::new(alloc, nodes)?;
        Ok(Clock {
            pace,
            count: Mutex::new(Count {
                running: nodes,
                ticks: 0,
                stepped: 0,
                is_over: false,
            }),
            is_new: AtomicBool::new(true),
            begun: Condvar::new(),
            moved: Condvar::new(),
            progress,
        })
    }

    /// A node that took so many steps waits for its next; under the free pace it goes on at once.
    fn next<R: Wait>(&self, rt: &R, steps: u64) {
        match self.pace {
            Pace::Free => self.tell(rt, steps),
            Pace::Ticks => self.wait(rt, steps),
        }
    }

    /// Tells the network of a step, if it isn't told of one already. Most steps only look, so
    /// that the nodes share the cache line.
    fn tell<R: Wait>(&self, rt: &R, steps: u64) {
        if steps == 0 || self.is_new.load(Ordering::SeqCst) {
            return;
        }
        if self.is_new.swap(true, Ordering::SeqCst) {
            return;
        }
        let _count = self.count.lock(rt);
        self.moved.notify_all();
    }

    /// Counts a step, and waits for the next tick.
    fn wait<R: Wait>(&self, rt: &R, steps: u64) {
        let mut count = self.count.lock(rt);
        if steps > 0 {
            count.note_step();
            self.moved.notify_all();
        }
        let _count = self
            .begun
            .wait_while(rt, count, |it| it.ticks <= steps && !it.is_over);
    }

    /// A node has sent all its messages of a round.
    fn note_sent(&self, node: u32, round: u32) {
        self.progress.note_sent(node, round);
    }

    /// Before a node ends its round. Under the free pace it gives way until the messages of the
    /// round are sent and the network has had a turn since.
    fn gather<R: Wait>(&self, rt: &R, round: u32) {
        if self.pace == Pace::Ticks {
            return;
        }
        self.progress.await_sends(rt, round);
        let turn = self.progress.turn();
        self.tell(rt, 1);
        self.progress.await_turn(rt, turn);
    }

    /// A node ended.
    pub(crate) fn leave<R: Wait>(&self, rt: &R, node: u32) {
        self.progress.note_end(node);
        let mut count = self.count.lock(rt);
        count.note_end();
        self.is_new.store(true, Ordering::SeqCst);
        self.moved.notify_all();
    }

    /// The network ended: no node waits for it any more.
    pub(crate) fn close<R: Wait>(&self, rt: &R) {
        self.progress.note_over();
        let mut count = self.count.lock(rt);
        count.is_over = true;
        self.begun.notify_all();
    }

    /// The network waits for its next turn; false once every node ended. Under the free pace its
    /// first turn comes at once, and each other when a node has taken a step or has ended.
    pub(crate) fn begin_turn<R: Wait>(&self, rt: &R) -> bool {
        if self.pace == Pace::Free {
            self.await_news();
        }
        let count = self.count.lock(rt);
        if self.pace == Pace::Ticks {
            return count.running > 0;
        }
        let count = self.moved.wait_while(rt, count, |it| {
            !self.is_new.load(Ordering::SeqCst) && it.running > 0
        });
        self.is_new.store(false, Ordering::SeqCst);
        self.progress.begin_turn();
        count.running > 0
    }

    /// Yields for a while until a node has taken a step or ended. The next step mostly comes sooner
    /// than a thread that sleeps is woken.
    fn await_news(&self) {
        for _attempt in 0..YIELDS {
            if self.is_new.load(Ordering::SeqCst) {
                return;
            }
            yield_now();
        }
    }

    /// The network had its turn. In ticks the running nodes take their steps, and it waits until
    /// each has taken one or has ended.
    pub(crate) fn end_turn<R: Wait>(&self, rt: &R) {
        if self.pace == Pace::Free {
            self.progress.end_turn();
            return;
        }
        let mut count = self.count.lock(rt);
        count.begin_tick();
        self.begun.notify_all();
        let _count = self
            .moved
            .wait_while(rt, count, |it| it.stepped < it.running);
    }

    pub(crate) fn pace(&self) -> Pace
        ensures { result ≡ self.now.pace }
    {
        self.pace
    }
}

/// A clock, with the node whose thread waits by it.
#[derive(Clone, Copy)]
pub(crate) struct ClockBeat<'a, R: Wait> {
    pub(crate) rt: &'a R,
    pub(crate) clock: &'a Clock,
    pub(crate) node: u32,
}

impl<'a, R: Wait> Beat for ClockBeat<'a, R> {
    fn next(&self, steps: u64) {
        self.clock.next(self.rt, steps)
    }

    fn sent(&self, round: u32) {
        self.clock.note_sent(self.node, round)
    }

    fn gather(&self, round: u32) {
        self.clock.gather(self.rt, round)
    }

    fn leave(&self) {
        self.clock.leave(self.rt, self.node)
    }
}
