//! A policy that tells how far it has come, and a gate that holds nodes until it has.
use crate::chosen::Chosen;
use crate::gate::TURNS;
use locked_buffers::{Gate, Point};
use policies::{Choice, Policy};
use run_events::InFlight;
use std::sync::atomic::{AtomicBool, AtomicU64, Ordering};
use std::thread;

/// How many choices each node waits for before its message to node 1.
const CHOICES: u64 = 2;

/// How often a node yields the processor while the network falls asleep.
const PAUSE: u32 = 20_000;

/// Holds each of two nodes before its message to node 0 until the policy was asked, and for a while
/// longer, so that the network waits; and before its message to node 1 until the network has done
/// two choices. While both are held there, only what they sent can wake the network.
#[derive(Drop)]
pub struct Watch {
    is_asked: AtomicBool,
    /// How many choices were done when the policy was asked last.
    done: AtomicU64,
    gave_up: AtomicBool,
}

impl Watch {
    pub fn new() -> Watch {
        Watch {
            is_asked: AtomicBool::new(false),
            done: AtomicU64::new(0),
            gave_up: AtomicBool::new(false),
        }
    }

    pub fn gave_up(&self) -> bool {
        self.gave_up.load(Ordering::SeqCst)
    }

    fn note_question(&self, done: u64) {
        self.done.store(done, Ordering::SeqCst);
        self.is_asked.store(true, Ordering::SeqCst);
    }

    /// Whether a node may send to this one now.
    fn lets_send(&self, dest: u32) -> bool {
        match dest {
            0 => self.is_asked.load(Ordering::SeqCst),
            _ => self.done.load(Ordering::SeqCst) >= CHOICES,
        }
    }

    fn hold(&self, dest: u32) {
        for _turn in 0..TURNS {
            if self.lets_send(dest) {
                return;
            }
            thread::yield_now();
        }
        self.gave_up.store(true, Ordering::SeqCst);
    }
}

impl Gate for Watch {
    fn pass(&self, point: Point) {
        if let Point::Prepare(name) = point {
            self.hold(name.to);
            if name.to == 0 {
                pause();
            }
        }
    }
}

/// Gives the network the time to fall asleep.
fn pause() {
    for _turn in 0..PAUSE {
        thread::yield_now();
    }
}

/// A policy that is watched: it chooses as the one that it has.
#[derive(Drop)]
pub struct Watched<'a> {
    policy: Chosen,
    watch: &'a Watch,
    chosen: u64,
}

impl<'a> Watched<'a> {
    pub fn new(policy: Chosen, watch: &'a Watch) -> Watched<'a> {
        Watched {
            policy,
            watch,
            chosen: 0,
        }
    }
}

impl<'a> Policy for Watched<'a> {
    ghost use Rattle.std.specs.Prelude.{⊤};

    ghost chooses = { λ _old _now _flight _answer _new. ⊤ };

    fn choose(&mut self, now: u32, flight: &[InFlight]) -> Option<Choice> {
        self.watch.note_question(self.chosen);
        let choice = self.policy.choose(now, flight);
        if choice.is_some() {
            self.chosen = self.chosen.saturating_add(1);
        }
        choice
    }
}
