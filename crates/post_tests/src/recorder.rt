//! What records a run's events: a journal, or a post with its seats and its relay.
ghost use Rattle.std.specs.Prelude.{◌≡◌, ◌<◌, All, IfOk};
ghost use Rattle.round_lang.specs.Syntax.{ProgramTree};
ghost use Rattle.round_meaning.specs.Rounds.{algorithm_of};
ghost use Rattle.round_meaning.specs.declared.setup.Setup.{Setup as OneSetup};
ghost use Rattle.step_book.specs.Names.{IsName};
ghost use Rattle.step_book.specs.Buffers.{IsMail};
ghost use Rattle.step_machine.specs.Sealed.{IsPrepared};

use locked_buffers::{OpenGate, Post, PostFault, Relay, RelayFault, Seat};
use run_events::{InFlight, Name};
use slot_plans::Plan;
use std::alloc::Global;
use std::sync::Wait;
use step_book::{CloseFault, ReceiveFault, SendFault, Waiting};
use step_journal::Journal;
use step_machine::{Finished, Prepared};

/// What records the events of a run, of which `program` and `setup` are those.
pub trait Recorder {
    ghost program: { Self → ProgramTree };

    ghost setup: { Self → OneSetup };

    /// How many steps of the node are recorded.
    fn steps(&self, me: u32) -> u64
        requires { me < (setup self.now).nodes };

    /// A send step of the node.
    fn send(&mut self, me: u32, prepared: Prepared) -> Result<(), SendFault>
        requires name { IsName (setup self.old) prepared.name }
        requires own { prepared.name.from ≡ me }
        requires work { IsPrepared (algorithm_of (program self.old) (setup self.old)) prepared }
        ensures program { program self.new ≡ program self.old }
        ensures setup { setup self.new ≡ setup self.old };

    /// A receive step of the node.
    fn receive(&mut self, me: u32) -> Result<Waiting, PostFault>
        requires { me < (setup self.old).nodes }
        ensures mail { IfOk result (λ frames. All (IsMail
            (algorithm_of (program self.old) (setup self.old)) (setup self.old).nodes me)
            frames.items) }
        ensures program { program self.new ≡ program self.old }
        ensures setup { setup self.new ≡ setup self.old };

    /// Closes the node's due round.
    fn close(&mut self, me: u32, finished: &Finished<'_>) -> Result<(), CloseFault>
        requires program { finished.now.node.now.program ≡ program self.old }
        requires setup { finished.now.node.now.setup ≡ setup self.old }
        requires own { finished.now.node.now.me ≡ me }
        ensures program { program self.new ≡ program self.old }
        ensures setup { setup self.new ≡ setup self.old };

    /// Lets a copy go: whether it was in flight.
    fn release(&mut self, name: Name) -> Result<bool, RelayFault>
        requires { IsName (setup self.old) name }
        ensures program { program self.new ≡ program self.old }
        ensures setup { setup self.new ≡ setup self.old };

    /// Loses a copy: whether it was in flight.
    fn lose(&mut self, name: Name) -> Result<bool, RelayFault>
        requires { IsName (setup self.old) name }
        ensures program { program self.new ≡ program self.old }
        ensures setup { setup self.new ≡ setup self.old };

    /// Makes a copy: whether it could be made.
    fn copy(&mut self, name: Name) -> Result<bool, RelayFault>
        requires name { IsName (setup self.old) name }
        requires other { 0 < name.copy }
        ensures program { program self.new ≡ program self.old }
        ensures setup { setup self.new ≡ setup self.old };

    /// The copies in flight, and how many events are recorded.
    fn flight(&self, alloc: Global) -> Result<(Vec<InFlight>, usize), RelayFault>;
}

fn as_post(fault: ReceiveFault) -> PostFault {
    match fault {
        ReceiveFault::NotItsSlot => PostFault::NotItsSlot,
        ReceiveFault::NotClosed => PostFault::NotClosed,
        ReceiveFault::NoMemory => PostFault::NoMemory,
    }
}

impl<P: Plan> Recorder for Journal<P> {
    ghost program = { λ journal. journal.log.program };

    ghost setup = { λ journal. journal.log.setup };

    fn steps(&self, me: u32) -> u64 {
        self.book().count_of(me)
    }

    fn send(&mut self, me: u32, prepared: Prepared) -> Result<(), SendFault> {
        let _me = me;
        self.send(prepared).map_err(|refused| refused.fault)
    }

    fn receive(&mut self, me: u32) -> Result<Waiting, PostFault> {
        match self.receive(me) {
            Ok(took) => Ok(took.frames),
            Err(fault) => Err(as_post(fault)),
        }
    }

    fn close(&mut self, me: u32, finished: &Finished<'_>) -> Result<(), CloseFault> {
        let _me = me;
        self.close(finished)
    }

    fn release(&mut self, name: Name) -> Result<bool, RelayFault> {
        Ok(self.release(name)?)
    }

    fn lose(&mut self, name: Name) -> Result<bool, RelayFault> {
        Ok(self.drop_frame(name)?)
    }

    fn copy(&mut self, name: Name) -> Result<bool, RelayFault> {
        Ok(self.copy_frame(name)?)
    }

    fn flight(&self, alloc: Global) -> Result<(Vec<InFlight>, usize), RelayFault> {
        Ok((self.flight(alloc)?, self.book().trace().len()))
    }
}

/// A post, with the seats and the relay that its calls are made with. A call that is refused for
/// memory is made once more, with the work that came back; if it's refused again, the answer is
/// that of a stranger, which no journal gives.
#[derive(Drop)]
pub struct Counter<'a, R: Wait, P: Plan> {
    pub rt: &'a R,
    pub post: Post<P>,
    pub seats: Vec<Seat>,
    pub relay: Relay,
}

impl<'a, R: Wait, P: Plan> Recorder for Counter<'a, R, P> {
    ghost program = { λ counter. counter.post.program };

    ghost setup = { λ counter. counter.post.setup };

    fn steps(&self, me: u32) -> u64 {
        self.seats.get(me as usize).map_or(0, |seat| seat.steps())
    }

    fn send(&mut self, me: u32, prepared: Prepared) -> Result<(), SendFault> {
        match self.seats.get_mut(me as usize) {
            Some(seat) if seat.node() == me => {
                let Err(refused) = self.post.send(self.rt, seat, prepared, &OpenGate) else {
                    return Ok(());
                };
                if refused.fault != SendFault::NoMemory {
                    return Err(refused.fault);
                }
                self.post
                    .send(self.rt, seat, refused.prepared, &OpenGate)
                    .map_err(|_| SendFault::Stranger)
            }
            _ => Err(SendFault::Stranger),
        }
    }

    fn receive(&mut self, me: u32) -> Result<Waiting, PostFault> {
        match self.seats.get_mut(me as usize) {
            Some(seat) if seat.node() == me => match self.post.receive(self.rt, seat) {
                Ok(took) => Ok(took.frames),
                Err(PostFault::NoMemory) => match self.post.receive(self.rt, seat) {
                    Ok(took) => Ok(took.frames),
                    Err(_) => Err(PostFault::Stranger),
                },
                Err(fault) => Err(fault),
            },
            _ => Err(PostFault::Stranger),
        }
    }

    fn close(&mut self, me: u32, finished: &Finished<'_>) -> Result<(), CloseFault> {
        match self.seats.get_mut(me as usize) {
            Some(seat) if seat.node() == me => match self.post.close(self.rt, seat, finished) {
                Err(CloseFault::NoMemory) => self
                    .post
                    .close(self.rt, seat, finished)
                    .map_err(|_| CloseFault::Stranger),
                closed => closed,
            },
            _ => Err(CloseFault::Stranger),
        }
    }

    fn release(&mut self, name: Name) -> Result<bool, RelayFault> {
        match self.post.release(self.rt, &mut self.relay, name) {
            Err(RelayFault::NoMemory) => self
                .post
                .release(self.rt, &mut self.relay, name)
                .map_err(|_| RelayFault::Stranger),
            moved => moved,
        }
    }

    fn lose(&mut self, name: Name) -> Result<bool, RelayFault> {
        match self.post.drop_frame(self.rt, &mut self.relay, name) {
            Err(RelayFault::NoMemory) => self
                .post
                .drop_frame(self.rt, &mut self.relay, name)
                .map_err(|_| RelayFault::Stranger),
            lost => lost,
        }
    }

    fn copy(&mut self, name: Name) -> Result<bool, RelayFault> {
        match self.post.copy_frame(self.rt, &mut self.relay, name) {
            Err(RelayFault::NoMemory) => self
                .post
                .copy_frame(self.rt, &mut self.relay, name)
                .map_err(|_| RelayFault::Stranger),
            made => made,
        }
    }

    fn flight(&self, alloc: Global) -> Result<(Vec<InFlight>, usize), RelayFault> {
        let _alloc = alloc;
        match self.post.flight(self.rt) {
            Err(RelayFault::NoMemory) => self
                .post
                .flight(self.rt)
                .map_err(|_| RelayFault::Stranger),
            flight => flight,
        }
    }
}
