//! How the locks of a post are taken.
ghost use Rattle.std.specs.Prelude.{◌≡◌, ◌<◌, IfSome, length};
ghost use Rattle.std.specs.Sync.Mutex.{mutex_guard_value};

use crate::node_buffer::NodeBuffer;
use std::hint::spin_loop;
use std::sync::atomic::AtomicU64;
use std::sync::{Mutex, MutexGuard, Wait};
use std::time::Duration;

/// How often a buffer's lock is tried before a thread sleeps for it.
const BUFFER_TRIES: u32 = 20;

/// How often the book's lock is tried before a thread gives way.
const BOOK_TRIES: u32 = 6;

/// How many pauses a thread gives way for at first: some microseconds.
const PAUSES: u32 = 100;

/// How long a thread sleeps when it gives way again, in microseconds.
const SLEEP: u64 = 100;

fn tried<T>(lock: &Mutex<T>, times: u32) -> Option<MutexGuard<'_, T>> {
    for _try in 0..times {
        if let Some(guard) = lock.try_lock() {
            return Some(guard);
        }
        spin_loop();
    }
    None
}

/// Takes a buffer's lock, which is held for less time than it takes to sleep and be woken, so it's
/// tried for a while first.
fn take_one<'a, T, R: Wait>(rt: &R, lock: &'a Mutex<T>) -> MutexGuard<'a, T> {
    match tried(lock, BUFFER_TRIES) {
        Some(guard) => guard,
        None => lock.lock(rt),
    }
}

/// Takes the lock of a node's buffer. `None`: another node's buffer stands under it, which no
/// contract of a lock can rule out.
pub(crate) fn take_buffer<'a, R: Wait>(
    rt: &R,
    locks: &'a [Mutex<NodeBuffer>],
    node: u32,
) -> Option<MutexGuard<'a, NodeBuffer>>
    requires { node < length locks.now }
    ensures { IfSome result (λ buffer. (mutex_guard_value buffer).node ≡ node) }
{
    let buffer = take_one(rt, &locks[node as usize]);
    if buffer.node != node {
        return None;
    }
    Some(buffer)
}

/// The book's lock, if it can be had at once. Whoever holds a buffer's lock lets go of it before
/// it gives way: the thread that has the book would soon wait for that buffer.
pub(crate) fn try_book<T>(lock: &Mutex<T>) -> Option<MutexGuard<'_, T>> {
    tried(lock, BOOK_TRIES)
}

/// Takes the book's lock for a thread that holds no other.
pub(crate) fn take_book<'a, T, R: Wait>(rt: &R, lock: &'a Mutex<T>) -> MutexGuard<'a, T> {
    let mut turn = Turn::new();
    for _ in rt.forever() {
        if let Some(guard) = try_book(lock) {
            return guard;
        }
        turn.give_way(rt);
    }
    unreachable!()
}

/// A call's turn at the book's lock. A thread that finds the lock taken leaves it to the one that
/// has it for a while, which then records many events without a wait: that takes less time than to
/// hand the book from one processor to the next at each event.
#[derive(Drop)]
pub(crate) struct Turn {
    gave_way: bool,
}

impl Turn {
    pub(crate) fn new() -> Turn {
        Turn { gave_way: false }
    }

    /// Whether the call gave way to another one.
    pub(crate) fn gave_way(&self) -> bool {
        self.gave_way
    }

    /// Waits without a look at the lock: first for some microseconds, which is enough where many
    /// threads want the book once, and then asleep.
    pub(crate) fn give_way<R: Wait>(&mut self, rt: &R) {
        if self.gave_way {
            // No one knows of this word, so the sleep ends by its time alone.
            let word = AtomicU64::new(0);
            word.park_timeout(rt, 0, Duration::from_micros(SLEEP));
        } else {
            self.gave_way = true;
            for _pause in 0..PAUSES {
                spin_loop();
            }
        }
    }
}
