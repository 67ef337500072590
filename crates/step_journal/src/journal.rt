//! The record of a run with the frames that it names.
ghost use Rattle.std.specs.Prelude.{◌≡◌, ◌<◌, ◌↔◌, All, IfErr, IfOk, IfSome, IsSome, IsTrue};
ghost use Rattle.std.specs.Prelude.{OnErr, OnOk};
ghost use Rattle.round_meaning.specs.Rounds.{algorithm_of};
ghost use Rattle.round_meaning.specs.Setups.{IsLawful};
ghost use Rattle.run_events.specs.Names.{original};
ghost use Rattle.step_machine.specs.Sealed.{IsPrepared};
ghost use Rattle.step_book.specs.Agreed.{IsSaid, JournalAgrees};
ghost use Rattle.step_book.specs.Causes.{CloseCause, IdleCause, IsDueIn, EndsAsRecorded};
ghost use Rattle.step_book.specs.Causes.{IsReceiveFit, IsSendFit, ReceiveCause, SendCause};
ghost use Rattle.step_book.specs.Effects.{Closes, Drops, Idles, MakesCopy, Receives, Releases};
ghost use Rattle.step_book.specs.Effects.{Sends};
ghost use Rattle.step_book.specs.Flight.{IsFlight};
ghost use Rattle.step_book.specs.Log.{IsFlying, mark_in, opened, round_of, waiting_in};
ghost use Rattle.step_book.specs.Names.{IsName};
ghost use Rattle.step_book.specs.Buffers.{IsGenuine, names_in};
ghost use Rattle.step_journal.specs.Fits.{AreEmpty, Fits, place_among};
ghost use Rattle.step_journal.specs.HandedOut.{AreHandedOut};

use crate::fitting::{fits, place};
use round_check::Checked;
use round_meaning::Setup;
use run_events::{InFlight, Name, NoMemory};
use slot_plans::Plan;
use std::alloc::Global;
use std::marker::Model;
use step_book::{Book, Buffer, CloseFault, IdleFault, ReceiveFault, Refused, Waiting};
use step_machine::{Finished, Prepared, Sealed, SealedView};

/// What a receive handed out, in the order of the releases.
#[derive(Drop)]
pub struct Took {
    pub frames: Waiting,
}

/// A run in single steps: its record, and one buffer of frames for each node.
#[derive(Drop)]
pub struct Journal<P: Plan> {
    book: Book<P>,
    buffers: Vec<Buffer>,
}

impl<P: Plan> Model for Journal<P> {
    ghost use Rattle.round_lang.specs.contracts.formula.Formula as formula;
    ghost use Rattle.std.specs.Coded.{codes};
    ghost use Rattle.step_book.specs.Log.{Recorded};

    ghost Value = { Recorded P };

    ghost coded = { Prim.hlevel (codes, formula.the_row.coded) };

    ghost use Rattle.step_journal.specs.Fits.{Fits};

    ghost view = { λ s. s.book };

    ghost invariant = { λ s. Fits (P.start s.book.plan) s.book.log s.buffers.items };
}

/// An empty buffer for each node.
fn no_buffers(alloc: Global, program: &Checked, setup: &Setup) -> Result<Vec<Buffer>, NoMemory>
    ensures { IfOk result (λ buffers.
        AreEmpty program.now setup.now setup.now.nodes buffers.items) }
{
    let mut buffers = Vec::new(alloc);
    for _node in 0..setup.nodes {
        buffers.push(Buffer::new(alloc, program, setup)?)?;
    }
    Ok(buffers)
}

impl<P: Plan> Journal<P> {
    /// A journal with an empty trace.
    pub fn open(
        alloc: Global,
        program: &Checked,
        setup: &Setup,
        plan: P,
    ) -> Result<Journal<P>, NoMemory>
        requires lawful { IsLawful program.now.values setup.now }
        requires nodes { P.nodes plan ≡ setup.now.nodes }
        ensures { IfOk result (λ journal. journal
            ≡ record { plan = plan; log = opened program.now setup.now }) }
    {
        let buffers = no_buffers(alloc, program, setup)?;
        let book = Book::open(alloc, program, setup, plan)?;
        Ok(Journal { book, buffers })
    }

    /// Its book, and its buffers by node. Takes no memory.
    pub fn split(self) -> (Book<P>, Vec<Buffer>)
        ensures book { result.0 ≡ self }
        ensures fits { Fits (P.start self.plan) self.log result.1.items }
    {
        let Journal { book, buffers } = self;
        (book, buffers)
    }

    /// The journal of a book with its buffers, for which [`Journal::fits`] is the test. Takes no
    /// memory.
    pub fn join(book: Book<P>, buffers: Vec<Buffer>) -> Journal<P>
        requires { Fits (P.start book.plan) book.log buffers.items }
        ensures { result ≡ book }
    {
        Journal { book, buffers }
    }

    /// Whether the buffers are of the book's run, one for each node, and hold the frames that it
    /// names, each of its sender's recorded state. Takes no memory, and looks at each message of
    /// the run.
    pub fn fits(book: &Book<P>, buffers: &[Buffer]) -> bool
        ensures { IsTrue result ↔ Fits (P.start book.now.plan) book.now.log buffers.now }
    {
        fits(book, buffers)
    }

    /// Makes room for so many events more, so that recording them moves none of those before.
    pub fn reserve(&mut self, events: usize) -> Result<(), NoMemory>
        ensures { self.new ≡ self.old }
    {
        self.book.reserve(events)
    }

    /// What is recorded.
    pub fn book(&self) -> &Book<P>
        ensures { result.now ≡ self.now }
    {
        &self.book
    }

    /// Nothing at run time: what is recorded agrees with the run in rounds, which covers the
    /// messages, the states, the closed and due rounds, what is in flight, and what waits.
    pub fn agrees(&self)
        ensures { JournalAgrees (P.start self.now.plan) self.now.log
            (mark_in (P.start self.now.plan) self.now.log)
            (waiting_in (P.start self.now.plan) self.now.log) }
    {
        self.book.agrees_by_places();
    }

    /// The frames that wait for a node, in the order of their releases.
    pub fn waiting(&self, node: u32) -> &Waiting
        requires { node < self.now.log.setup.nodes }
        ensures names { names_in result.now.items
            ≡ waiting_in (P.start self.now.plan) self.now.log node }
        ensures said { All (IsSaid (P.start self.now.plan) self.now.log) result.now.items }
    {
        self.book.agrees();
        let buffer = &self.buffers[node as usize];
        buffer.waiting()
    }

    /// The frame in flight under a name.
    pub fn in_flight(&self, name: Name) -> Option<SealedView<'_>>
        requires { IsName self.now.log.setup name }
        ensures there { IsSome result ↔ IsFlying (P.start self.now.plan) self.now.log name }
        ensures named { IfSome result (λ frame. frame.name ≡ name) }
        ensures said { IfSome result
            (λ frame. IsSaid (P.start self.now.plan) self.now.log frame) }
    {
        self.book.agrees();
        let buffer = &self.buffers[name.to as usize];
        buffer.flying(name.round, self.place(name))
    }

    /// The copies in flight, by their messages' serials and then by their copy numbers.
    pub fn flight(&self, alloc: Global) -> Result<Vec<InFlight>, NoMemory>
        ensures { IfOk result (λ flight.
            IsFlight (P.start self.now.plan) self.now.log flight.items) }
    {
        self.book.flight(alloc)
    }

    /// The place of a copy of a message among those of its round to its receiver.
    fn place(&self, name: Name) -> usize
        requires { IsName self.now.log.setup name }
        ensures { result ≡ place_among self.now.log.setup.nodes name }
    {
        place(self.book.setup().nodes, name)
    }

    /// A send step: the message is in flight, or there was silence.
    pub fn send(&mut self, prepared: Prepared) -> Result<(), Refused>
        requires name { IsName self.old.log.setup prepared.name }
        requires work { IsPrepared (algorithm_of self.old.log.program self.old.log.setup) prepared }
        ensures ok { OnOk result (Sends P.start prepared self.old self.new) }
        ensures err { OnErr result (self.new ≡ self.old) }
        ensures cause { IfErr result
            (λ refused. SendCause (P.start self.old.plan) self.old.log prepared refused.fault) }
        ensures back { IfErr result (λ refused. refused.prepared ≡ prepared) }
    {
        if let Some(fault) = self.book.refuses_send(&prepared) {
            return Err(Refused { fault, prepared });
        }
        match self.record_send(prepared) {
            Ok(()) => Ok(()),
            Err(prepared) => Err(Refused::memory(prepared)),
        }
    }

    /// Records a send that isn't refused: the message is in flight, or there was silence. Where
    /// there is no memory, the work comes back.
    #[inline(always)]
    pub fn record_send(&mut self, prepared: Prepared) -> Result<(), Prepared>
        requires name { IsName self.old.log.setup prepared.name }
        requires work { IsPrepared (algorithm_of self.old.log.program self.old.log.setup) prepared }
        requires fit { IsSendFit (P.start self.old.plan) self.old.log prepared }
        ensures ok { OnOk result (Sends P.start prepared self.old self.new) }
        ensures err { OnErr result (self.new ≡ self.old) }
        ensures back { IfErr result (λ p. p ≡ prepared) }
    {
        let name = prepared.name();
        let place = self.place(name);
        let buffer = &mut self.buffers[name.to as usize];
        match buffer.reserve_flying(name.round, place) {
            Ok(()) => {}
            Err(_) => return Err(prepared),
        }
        match self.book.record_send(&prepared) {
            Ok(()) => {}
            Err(_) => return Err(prepared),
        }
        match prepared.into_sealed() {
            Some(frame) => {
                let buffer = &mut self.buffers[name.to as usize];
                buffer.put(name.round, place, frame);
                Ok(())
            }
            None => Ok(()),
        }
    }

    /// A receive step: every frame that was released to the node and not yet taken.
    pub fn receive(&mut self, node: u32) -> Result<Took, ReceiveFault>
        requires { node < self.old.log.setup.nodes }
        ensures ok { OnOk result (Receives P.start node self.old self.new) }
        ensures took { IfOk result (λ took.
            AreHandedOut (P.start self.old.plan) self.old.log node took.frames.items) }
        ensures err { OnErr result (self.new ≡ self.old) }
        ensures cause { IfErr result (ReceiveCause (P.start self.old.plan) self.old.log node) }
    {
        if let Some(fault) = self.book.refuses_receive(node) {
            return Err(fault);
        }
        Ok(self.record_receive(node)?)
    }

    /// Records a receive that isn't refused: every frame that was released to the node and not yet
    /// taken.
    #[inline(always)]
    pub fn record_receive(&mut self, node: u32) -> Result<Took, NoMemory>
        requires node { node < self.old.log.setup.nodes }
        requires fit { IsReceiveFit (P.start self.old.plan) self.old.log node }
        ensures ok { OnOk result (Receives P.start node self.old self.new) }
        ensures took { IfOk result (λ took.
            AreHandedOut (P.start self.old.plan) self.old.log node took.frames.items) }
        ensures err { OnErr result (self.new ≡ self.old) }
    {
        self.book.agrees();
        self.book.record_receive(node)?;
        let buffer = &mut self.buffers[node as usize];
        let frames = buffer.take();
        Ok(Took { frames })
    }

    /// A release: true if a copy went from flight to its buffer.
    #[inline(always)]
    pub fn release(&mut self, name: Name) -> Result<bool, NoMemory>
        requires { IsName self.old.log.setup name }
        ensures ok { IfOk result (λ moved. Releases P.start name moved self.old self.new) }
        ensures err { OnErr result (self.new ≡ self.old) }
    {
        let place = self.place(name);
        let buffer = &mut self.buffers[name.to as usize];
        buffer.reserve_waiting()?;
        let moved = self.book.release(name)?;
        if moved {
            let buffer = &mut self.buffers[name.to as usize];
            buffer.let_go(name.round, place);
            return Ok(true);
        }
        Ok(false)
    }

    /// A drop: true if a copy was in flight; its frame is gone.
    pub fn drop_frame(&mut self, name: Name) -> Result<bool, NoMemory>
        requires { IsName self.old.log.setup name }
        ensures ok { IfOk result (λ lost. Drops P.start name lost self.old self.new) }
        ensures err { OnErr result (self.new ≡ self.old) }
    {
        let place = self.place(name);
        let lost = self.book.drop_copy(name)?;
        if lost {
            let buffer = &mut self.buffers[name.to as usize];
            buffer.remove(name.round, place);
            return Ok(true);
        }
        Ok(false)
    }

    /// A copy: true if copy 0 was in flight and this one, 1 to 3, was never made; its frame, the
    /// same message, is in flight.
    pub fn copy_frame(&mut self, name: Name) -> Result<bool, NoMemory>
        requires name { IsName self.old.log.setup name }
        requires other { 0 < name.copy }
        ensures ok { IfOk result (λ made. MakesCopy P.start name made self.old self.new) }
        ensures err { OnErr result (self.new ≡ self.old) }
    {
        let Some(frame) = self.copy_of(name)? else {
            let made = self.book.make_copy(name)?;
            return Ok(made);
        };
        let place = self.place(name);
        let buffer = &mut self.buffers[name.to as usize];
        buffer.reserve_flying(name.round, place)?;
        let made = self.book.make_copy(name)?;
        if made {
            let buffer = &mut self.buffers[name.to as usize];
            buffer.put(name.round, place, frame);
            return Ok(true);
        }
        Ok(false)
    }

    /// The frame of a copy, if copy 0 is in flight.
    fn copy_of(&self, name: Name) -> Result<Option<Sealed>, NoMemory>
        requires { IsName self.now.log.setup name }
        ensures there { IfOk result (λ o. IsSome o
            ↔ IsFlying (P.start self.now.plan) self.now.log (original name)) }
        ensures named { IfOk result (λ o. IfSome o (λ frame. frame.name ≡ name)) }
        ensures genuine { IfOk result (λ o. IfSome o (λ frame. IsGenuine
            (algorithm_of self.now.log.program self.now.log.setup) self.now.log.rows frame)) }
    {
        let buffer = &self.buffers[name.to as usize];
        match buffer.flying(name.round, self.place(name.original())) {
            Some(frame) => Ok(Some(frame.copied(name.copy)?)),
            None => Ok(None),
        }
    }

    /// Closes the due round that a node of the run finished.
    pub fn close(&mut self, finished: &Finished<'_>) -> Result<(), CloseFault>
        requires program { finished.now.node.now.program ≡ self.old.log.program }
        requires setup { finished.now.node.now.setup ≡ self.old.log.setup }
        ensures ok { OnOk result (Closes P.start finished.now.node.now self.old self.new) }
        ensures err { OnErr result (self.new ≡ self.old) }
        ensures cause { IfErr result
            (CloseCause (P.start self.old.plan) self.old.log finished.now.node.now) }
    {
        self.book.agrees();
        // Nothing at run time: what is known of the node.
        let _node = finished.node();
        self.book.close(finished)?;
        Ok(())
    }

    /// Closes a round that isn't refused.
    pub fn record_close(&mut self, finished: &Finished<'_>) -> Result<(), NoMemory>
        requires program { finished.now.node.now.program ≡ self.old.log.program }
        requires setup { finished.now.node.now.setup ≡ self.old.log.setup }
        requires due { IsDueIn (P.start self.old.plan) self.old.log finished.now.node.now }
        requires ended { EndsAsRecorded (P.start self.old.plan) self.old.log finished.now.node.now }
        ensures ok { OnOk result (Closes P.start finished.now.node.now self.old self.new) }
        ensures err { OnErr result (self.new ≡ self.old) }
    {
        self.book.agrees();
        // Nothing at run time: what is known of the node.
        let _node = finished.node();
        let state = finished.stored_state()?;
        self.book.record_close(finished, state)?;
        Ok(())
    }

    /// A step after the last round.
    pub fn idle_step(&mut self, node: u32) -> Result<(), IdleFault>
        requires { node < self.old.log.setup.nodes }
        ensures ok { OnOk result (Idles P.start node self.old self.new) }
        ensures err { OnErr result (self.new ≡ self.old) }
        ensures cause { IfErr result (IdleCause self.old.log node) }
    {
        self.book.idle_step(node)?;
        Ok(())
    }

    /// Records an idle step, one after the last round, which the caller has shown to fit.
    pub fn record_idle_step(&mut self, node: u32) -> Result<(), NoMemory>
        requires node { node < self.old.log.setup.nodes }
        requires past { self.old.log.setup.rounds < round_of self.old.log node }
        ensures ok { OnOk result (Idles P.start node self.old self.new) }
        ensures err { OnErr result (self.new ≡ self.old) }
    {
        self.book.record_idle_step(node)?;
        Ok(())
    }
}
