//! Calls of nodes' threads that release what is sent, on one thread.
ghost use Rattle.std.specs.Prelude.{◌≡◌};

use locked_buffers::{Mail, OpenGate, Post, PostFault, PostMail, Relay, Seat};
use slot_plans::Plan;
use std::sync::atomic::{AtomicBool, Ordering};
use std::sync::{Mutex, Wait};
use step_book::{CloseFault, Refused};
use step_journal::Took;
use step_machine::{Finished, Prepared};

/// A post's calls, which release each message as soon as it was sent.
#[derive(Drop)]
pub struct Forwarding<'a, R: Wait, P: Plan> {
    pub rt: &'a R,
    pub post: &'a Post<P>,
    pub relay: &'a Mutex<Relay>,
    pub has_failed: &'a AtomicBool,
}

impl<'a, R: Wait, P: Plan> Forwarding<'a, R, P> {
    fn mail(&self) -> PostMail<'a, R, OpenGate, P>
        ensures { result.post.now ≡ self.now.post.now }
    {
        PostMail {
            rt: self.rt,
            post: self.post,
            gate: &OpenGate,
        }
    }
}

impl<'a, R: Wait, P: Plan> Mail<P> for Forwarding<'a, R, P> {
    ghost run = { λ mail. mail.post.now };

    fn send(&self, seat: &mut Seat, prepared: Prepared) -> Result<(), Refused> {
        let name = prepared.name();
        self.mail().send(seat, prepared)?;
        let mut relay = self.relay.lock(self.rt);
        if self.post.release(self.rt, &mut relay, name).is_err() {
            self.has_failed.store(true, Ordering::SeqCst);
        }
        Ok(())
    }

    fn receive(&self, seat: &mut Seat) -> Result<Took, PostFault> {
        self.mail().receive(seat)
    }

    fn close(&self, seat: &mut Seat, finished: &Finished<'_>) -> Result<(), CloseFault> {
        self.mail().close(seat, finished)
    }
}
