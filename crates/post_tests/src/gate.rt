//! A gate that holds some threads until others have passed.
use locked_buffers::{Gate, Point};
use run_events::Name;
use std::sync::atomic::{AtomicBool, Ordering};
use std::thread;

/// How often a held thread looks, and yields the processor, before it goes on.
pub const TURNS: u32 = 1_000_000;

/// Of four nodes, holds node 0 before its message to node 1 until node 2 has sent its own to node
/// 1; node 2 before its message to itself until node 0 has the lock of node 1's buffer; node 0
/// there until node 2 has sent to node 3; and node 0 before the end of its round until node 1 has
/// closed its own. Only threads that work at the same time, under a lock for each buffer, get past.
#[derive(Drop)]
pub struct Holder {
    two_sent_to_one: AtomicBool,
    zero_at_one: AtomicBool,
    two_sent_to_three: AtomicBool,
    one_closed: AtomicBool,
    gave_up: AtomicBool,
}

impl Holder {
    pub fn new() -> Holder {
        Holder {
            two_sent_to_one: AtomicBool::new(false),
            zero_at_one: AtomicBool::new(false),
            two_sent_to_three: AtomicBool::new(false),
            one_closed: AtomicBool::new(false),
            gave_up: AtomicBool::new(false),
        }
    }

    pub fn gave_up(&self) -> bool {
        self.gave_up.load(Ordering::SeqCst)
    }

    fn hold(&self, until: &AtomicBool) {
        for _turn in 0..TURNS {
            if until.load(Ordering::SeqCst) {
                return;
            }
            thread::yield_now();
        }
        self.gave_up.store(true, Ordering::SeqCst);
    }

    fn prepare(&self, name: Name) {
        match (name.from, name.to) {
            (0, 1) => self.hold(&self.two_sent_to_one),
            (2, 2) => self.hold(&self.zero_at_one),
            _ => {}
        }
    }

    fn send(&self, name: Name) {
        if name.from == 0 && name.to == 1 {
            self.zero_at_one.store(true, Ordering::SeqCst);
            self.hold(&self.two_sent_to_three);
        }
    }

    fn sent(&self, name: Name) {
        match (name.from, name.to) {
            (2, 1) => self.two_sent_to_one.store(true, Ordering::SeqCst),
            (2, 3) => self.two_sent_to_three.store(true, Ordering::SeqCst),
            _ => {}
        }
    }
}

impl Gate for Holder {
    fn pass(&self, point: Point) {
        match point {
            Point::Prepare(name) => self.prepare(name),
            Point::Send(name) => self.send(name),
            Point::Sent(name) => self.sent(name),
            Point::Finish { node: 0, .. } => self.hold(&self.one_closed),
            Point::Closed { node: 1, .. } => self.one_closed.store(true, Ordering::SeqCst),
            _ => {}
        }
    }
}
