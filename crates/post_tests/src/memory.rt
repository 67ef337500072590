//! Nodes' bodies on one thread, one node after another, over a journal in memory and no post.
ghost use Rattle.std.specs.Prelude.{◌≡◌};
ghost use Rattle.round_meaning.specs.Setups.{IsLawful};

use crate::alone::run_all;
use crate::reports::report;
use locked_buffers::{Mail, PostFault, Run, Seat, may_close, refuses_receive, refuses_send};
use round_check::Checked;
use round_meaning::Setup;
use slot_plans::Plan;
use std::alloc::Global;
use std::sync::atomic::{AtomicBool, Ordering};
use std::sync::{Mutex, Wait};
use step_book::{CloseFault, ReceiveFault, Refused, SendFault};
use step_journal::{Journal, Took};
use step_machine::{Finished, Prepared};
use test_kit::Fault;

/// A journal of a run, which releases each message as soon as it was sent.
#[derive(Drop)]
pub struct Memory<'a, R: Wait, P: Plan> {
    rt: &'a R,
    run: &'a Run<P>,
    journal: &'a Mutex<Journal<P>>,
    has_failed: &'a AtomicBool,
}

impl<'a, R: Wait, P: Plan> Mail<P> for Memory<'a, R, P> {
    ghost run = { λ mail. mail.run.now };

    fn send(&self, seat: &mut Seat, prepared: Prepared) -> Result<(), Refused> {
        let name = prepared.name();
        if let Some(fault) = refuses_send(self.run, seat, name) {
            return Err(Refused { fault, prepared });
        }
        let mut journal = self.journal.lock(self.rt);
        if !self.run.has_book(journal.book()) {
            return Err(Refused {
                fault: SendFault::Stranger,
                prepared,
            });
        }
        match journal.send(prepared) {
            Ok(()) => {}
            Err(
                Refused {
                    fault: SendFault::NoMemory,
                    prepared,
                },
            ) => return Err(Refused::memory(prepared)),
            Err(Refused { fault: _, prepared }) => {
                return Err(Refused {
                    fault: SendFault::Stranger,
                    prepared,
                });
            }
        }
        if journal.release(name).is_err() {
            self.has_failed.store(true, Ordering::SeqCst);
        }
        seat.note_step();
        Ok(())
    }

    fn receive(&self, seat: &mut Seat) -> Result<Took, PostFault> {
        if let Some(fault) = refuses_receive(self.run, seat) {
            return Err(fault);
        }
        let mut journal = self.journal.lock(self.rt);
        if !self.run.has_book(journal.book()) {
            return Err(PostFault::Stranger);
        }
        let took = match journal.receive(seat.node()) {
            Ok(took) => took,
            Err(ReceiveFault::NoMemory) => return Err(PostFault::NoMemory),
            Err(_) => return Err(PostFault::Stranger),
        };
        match seat.note_receive(self.run, &took.frames) {
            Ok(()) => Ok(took),
            Err(PostFault::NoMemory) => Err(PostFault::NoMemory),
            Err(_) => Err(PostFault::Stranger),
        }
    }

    fn close(&self, seat: &mut Seat, finished: &Finished<'_>) -> Result<(), CloseFault> {
        if !may_close(self.run, seat, finished.round()) {
            return Err(CloseFault::NotDue);
        }
        let mut journal = self.journal.lock(self.rt);
        if !self.run.has_book(journal.book()) {
            return Err(CloseFault::Stranger);
        }
        match journal.close(finished) {
            Ok(()) => {}
            Err(CloseFault::NoMemory) => return Err(CloseFault::NoMemory),
            Err(_) => return Err(CloseFault::Stranger),
        }
        match seat.note_close(finished) {
            Ok(()) => Ok(()),
            Err(_) => Err(CloseFault::NoMemory),
        }
    }
}

/// A seat for each node, before its first step.
fn all_seats(alloc: Global, program: &Checked, setup: &Setup) -> Result<Vec<Seat>, Fault> {
    let mut seats = Vec::new(alloc);
    for node in 0..setup.nodes {
        seats.push(Seat::open(alloc, program, setup, node)?)?;
    }
    Ok(seats)
}

/// How each node ended and what its seat counts, and the report.
pub fn answer<R: Wait, P: Plan>(
    rt: &R,
    alloc: Global,
    program: &Checked,
    setup: &Setup,
    plan: P,
) -> Result<String, Fault>
    requires lawful { IsLawful program.now.values setup.now }
    requires nodes { P.nodes plan ≡ setup.now.nodes }
{
    let mut out = String::new(alloc);
    let run = Run::new(program, setup, plan)?;
    let journal = Mutex::new(Journal::open(alloc, program, setup, plan)?);
    let has_failed = AtomicBool::new(false);
    let mail = Memory {
        rt,
        run: &run,
        journal: &journal,
        has_failed: &has_failed,
    };
    let seats = all_seats(alloc, program, setup)?;
    let seats = run_all(alloc, &mail, program, setup, plan, seats, &mut out)?;
    if has_failed.load(Ordering::SeqCst) {
        return Err(Fault::NoMemory);
    }
    for seat in &seats {
        let (node, steps, round) = (seat.node(), seat.steps(), seat.round());
        write!(out, "seat {node} steps {steps} round {round}\n")?;
    }
    out.push_str(report(alloc, &journal.into_inner())?.as_str())?;
    Ok(out)
}
