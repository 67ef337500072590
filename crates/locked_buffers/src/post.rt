//! A run under locks.
ghost use Rattle.std.specs.Prelude.{◌≡◌, ◌+◌, ◌<◌, ◌∷◌, ◌++◌, ◌↔◌, [], All, EachIndex, IfErr, IfOk};
ghost use Rattle.std.specs.Prelude.{IfSome};
ghost use Rattle.std.specs.Prelude.{MatchResult, OnErr, OnOk, slice_index_or, vec_len};
ghost use Rattle.round_meaning.specs.Setups.{IsLawful};
ghost use Rattle.step_book.specs.Log.{end_state};
ghost use Rattle.step_book.specs.Names.{IsName};
ghost use Rattle.step_book.specs.Buffers.{IsMail, names_in};
ghost use Rattle.step_machine.specs.Sealed.{IsPrepared};
ghost use Rattle.run_events.specs.declared.event.Event.TheVariants as event;
ghost use Rattle.locked_buffers.specs.Accounts.{AccountsAgree};
ghost use Rattle.locked_buffers.specs.Acts.{event_of};
ghost use Rattle.locked_buffers.specs.Commits.{told_with, IsUnreadableInRun};
ghost use Rattle.locked_buffers.specs.Runs.{AddsSentInRun, IsBookOfRun, IsFlightInRun};
ghost use Rattle.locked_buffers.specs.Runs.{IsNextCopyInRun, algorithm_by};
ghost use Rattle.locked_buffers.specs.Seats.{Account, CloseBlame, MayClose, MayReceive, MaySend};
ghost use Rattle.locked_buffers.specs.Seats.{ReceiveBlame, SendBlame, opening};

use crate::account::joined;
use crate::act::Act;
use crate::commit::{commit_close, commit_receive, commit_send};
use crate::fault::{PostFault, RelayFault, Unmatched};
use crate::gate::{Gate, Point};
use crate::locking::{Turn, take_book, take_buffer, try_book};
use crate::network::commit_act;
use crate::node_buffer::NodeBuffer;
use crate::reading::{read_copy, read_flight, read_sent};
use crate::ready::{make_place, make_ready, note_names};
use crate::refusals::{may_close, refuses_receive, refuses_send};
use crate::run::Run;
use crate::seat::{Relay, Seat};
use round_check::Checked;
use round_meaning::Setup;
use run_events::{InFlight, Name, NoMemory};
use slot_plans::Plan;
use std::alloc::Global;
use std::marker::Model;
use std::sync::{Mutex, Wait};
use step_book::{Book, Buffer, CloseFault, Refused, SendFault};
use step_journal::{Journal, Took};
use step_machine::{Finished, Prepared};

/// A run's book and its buffers, each under a lock. A buffer's lock may be held when the book's is
/// taken, never the other way.
#[derive(Drop)]
pub struct Post<P: Plan> {
    alloc: Global,
    run: Run<P>,
    /// By itself, so that reading the run shares no cache line with what is written under the lock.
    book: Box<Mutex<Book<P>>>,
    buffers: Vec<Mutex<NodeBuffer>>,
    returned: Vec<Buffer>,
}

impl<P: Plan> Model for Post<P> {
    ghost use Rattle.std.specs.Prelude.{vec_capacity, vec_len};
    ghost use Rattle.round_lang.specs.contracts.formula.Formula as formula;
    ghost use Rattle.std.specs.Coded.{codes};
    ghost use Rattle.locked_buffers.specs.Runs.{Run};
    ghost use Rattle.locked_buffers.specs.Posted.{IsPosted};

    ghost Value = { Run P };

    ghost coded = { Prim.hlevel (codes, formula.the_row.coded) };

    ghost view = { λ s. s.run };

    ghost invariant = { λ s. IsPosted s.run.setup.nodes (vec_len s.buffers) (vec_len s.returned)
        (vec_capacity s.returned) };
}

/// A seat for each node.
fn opening_seats(alloc: Global, program: &Checked, setup: &Setup) -> Result<Vec<Seat>, NoMemory>
    ensures sized { IfOk result (λ seats. vec_len seats ≡ setup.now.nodes) }
    ensures each { IfOk result (λ seats. EachIndex seats.items (λ i. (d : Account) → slice_index_or
        seats.items i d ≡ opening program.now setup.now i)) }
{
    let mut seats = Vec::new(alloc);
    for node in 0..setup.nodes {
        seats.push(Seat::open(alloc, program, setup, node)?)?;
    }
    Ok(seats)
}

/// A lock round an empty buffer for each node.
fn opening_buffers(
    alloc: Global,
    program: &Checked,
    setup: &Setup,
) -> Result<Vec<Mutex<NodeBuffer>>, NoMemory>
    ensures { IfOk result (λ buffers. vec_len buffers ≡ setup.now.nodes) }
{
    let mut buffers = Vec::new(alloc);
    for node in 0..setup.nodes {
        let buffer = NodeBuffer::new(alloc, program, setup, node)?;
        buffers.push(Mutex::new(buffer))?;
    }
    Ok(buffers)
}

impl<P: Plan> Post<P> {
    /// An empty record and empty buffers under their locks, a seat for each node, and the network's
    /// relay.
    pub fn open(
        alloc: Global,
        program: &Checked,
        setup: &Setup,
        plan: P,
    ) -> Result<(Post<P>, Vec<Seat>, Relay), NoMemory>
        requires lawful { IsLawful program.now.values setup.now }
        requires nodes { P.nodes plan ≡ setup.now.nodes }
        ensures run { IfOk result (λ o. o.0 ≡ record {
          plan = plan;
          program = program.now;
          setup =
              setup.now;
        }) }
        ensures seats { IfOk result (λ o. vec_len o.1 ≡ setup.now.nodes) }
        ensures each { IfOk result (λ o. EachIndex o.1.items (λ i. (d : Account) → slice_index_or
            o.1.items i d ≡ opening program.now setup.now i)) }
        ensures relay { IfOk result (λ o. o.2 ≡ record { events = []; answers = [] }) }
    {
        let seats = opening_seats(alloc, program, setup)?;
        let buffers = opening_buffers(alloc, program, setup)?;
        let book = Book::open(alloc, program, setup, plan)?;
        let post = Post {
            alloc,
            run: Run::new(program, setup, plan)?,
            book: Box::new(alloc, Mutex::new(book))?,
            buffers,
            returned: Vec::with_capacity(alloc, setup.nodes as usize)?,
        };
        Ok((post, seats, Relay::new(alloc)))
    }

    /// A send step: the message is in flight, or there was silence.
    pub fn send<R: Wait, G: Gate>(
        &self,
        rt: &R,
        seat: &mut Seat,
        prepared: Prepared,
        gate: &G,
    ) -> Result<(), Refused>
        requires name { IsName self.now.setup prepared.name }
        requires work { IsPrepared (algorithm_by self.now) prepared }
        requires own { prepared.name.from ≡ seat.old.node }
        ensures ok { OnOk result (seat.new ≡ record seat.old { steps = seat.old.steps + 1 }) }
        ensures err { OnErr result (seat.new ≡ seat.old) }
        ensures back { IfErr result (λ refused. refused.prepared ≡ prepared) }
        ensures cause { MatchResult result
            (λ _done. MaySend (P.start self.now.plan) self.now.setup.rounds seat.old prepared.name)
            (λ refused. SendBlame (P.start self.now.plan) self.now.setup.rounds seat.old
            prepared.name refused.fault) }
    {
        let name = prepared.name();
        if let Some(fault) = refuses_send(&self.run, seat, name) {
            return Err(Refused { fault, prepared });
        }
        let mut turn = Turn::new();
        for _ in rt.forever() {
            let Some(mut buffer) = take_buffer(rt, &self.buffers, name.to) else {
                return Err(Refused {
                    fault: SendFault::Stranger,
                    prepared,
                });
            };
            if !turn.gave_way() {
                gate.pass(Point::Send(name));
            }
            let has_frame = match make_place(&self.run, &mut buffer, name) {
                Ok(has_frame) => has_frame,
                Err(fault) => {
                    return Err(Refused {
                        fault: SendFault::from(fault),
                        prepared,
                    });
                }
            };
            if let Some(mut book) = try_book(&self.book) {
                return commit_send(&self.run, seat, &mut buffer, &mut book, prepared, has_frame);
            }
            drop(buffer);
            turn.give_way(rt);
        }
        unreachable!()
    }

    /// A receive step: every frame that was released to the node and not yet taken.
    pub fn receive<R: Wait>(&self, rt: &R, seat: &mut Seat) -> Result<Took, PostFault>
        requires { seat.old.node < self.now.setup.nodes }
        ensures ok { IfOk result (λ took. seat.new ≡ record seat.old {
          steps = seat.old.steps + 1;
          handed = seat.old.handed ++ names_in took.frames.items ∷ [];
        }) }
        ensures err { OnErr result (seat.new ≡ seat.old) }
        ensures mail { IfOk result (λ took. All (IsMail (algorithm_by self.now) self.now.setup.nodes
            seat.old.node) took.frames.items) }
        ensures cause { MatchResult result
            (λ _took. MayReceive (P.start self.now.plan) self.now.setup.nodes self.now.setup.rounds
            seat.old)
            (ReceiveBlame (P.start self.now.plan) self.now.setup.nodes self.now.setup.rounds
            seat.old) }
    {
        if let Some(fault) = refuses_receive(&self.run, seat) {
            return Err(fault);
        }
        let node = seat.node();
        let mut turn = Turn::new();
        for _ in rt.forever() {
            let Some(mut buffer) = take_buffer(rt, &self.buffers, node) else {
                return Err(PostFault::Stranger);
            };
            note_names(&self.run, &buffer.frames, &mut seat.handed)?;
            if let Some(mut book) = try_book(&self.book) {
                let took = commit_receive(
                    &self.run,
                    node,
                    &mut seat.handed,
                    &mut buffer,
                    &mut book,
                )?;
                seat.steps += 1;
                return Ok(took);
            }
            drop(buffer);
            turn.give_way(rt);
        }
        unreachable!()
    }

    /// Closes the node's due round, which it finished.
    pub fn close<R: Wait>(
        &self,
        rt: &R,
        seat: &mut Seat,
        finished: &Finished<'_>,
    ) -> Result<(), CloseFault>
        requires program { finished.now.node.now.program ≡ self.now.program }
        requires setup { finished.now.node.now.setup ≡ self.now.setup }
        requires own { finished.now.node.now.me ≡ seat.old.node }
        ensures ok { OnOk result (seat.new ≡ record seat.old {
          states = seat.old.states ++ end_state
              finished.now.node.now ∷ [];
        }) }
        ensures err { OnErr result (seat.new ≡ seat.old) }
        ensures cause { MatchResult result
            (λ _done. MayClose (P.start self.now.plan) self.now.setup.rounds seat.old
            finished.now.node.now.round)
            (CloseBlame (P.start self.now.plan) self.now.setup.rounds seat.old
            finished.now.node.now.round) }
    {
        if !may_close(&self.run, seat, finished.round()) {
            return Err(CloseFault::NotDue);
        }
        let state = finished.stored_state()?;
        let mut book = take_book(rt, &self.book);
        commit_close(&self.run, seat, &mut book, finished, state)
    }

    /// A release: true if a copy went from flight to its buffer.
    pub fn release<R: Wait>(
        &self,
        rt: &R,
        relay: &mut Relay,
        name: Name,
    ) -> Result<bool, RelayFault>
        requires { IsName self.now.setup name }
        ensures ok { IfOk result (λ moved. relay.new ≡ told_with relay.old (event.Release name)
            moved) }
        ensures err { OnErr result (relay.new ≡ relay.old) }
    {
        self.act(rt, relay, Act::Release, name)
    }

    /// A drop: true if a copy was in flight; its frame is gone.
    pub fn drop_frame<R: Wait>(
        &self,
        rt: &R,
        relay: &mut Relay,
        name: Name,
    ) -> Result<bool, RelayFault>
        requires { IsName self.now.setup name }
        ensures ok { IfOk result (λ lost. relay.new ≡ told_with relay.old (event.Drop name) lost) }
        ensures err { OnErr result (relay.new ≡ relay.old) }
    {
        self.act(rt, relay, Act::Drop, name)
    }

    /// A copy: true if copy 0 was in flight and this one, 1 to 3, was never made; its frame is
    /// in flight.
    pub fn copy_frame<R: Wait>(
        &self,
        rt: &R,
        relay: &mut Relay,
        name: Name,
    ) -> Result<bool, RelayFault>
        requires name { IsName self.now.setup name }
        requires other { 0 < name.copy }
        ensures ok { IfOk result (λ made. relay.new ≡ told_with relay.old (event.Copy name) made) }
        ensures err { OnErr result (relay.new ≡ relay.old) }
    {
        self.act(rt, relay, Act::Copy, name)
    }

    /// An act of the network: true if a copy was let go, lost or made.
    fn act<R: Wait>(
        &self,
        rt: &R,
        relay: &mut Relay,
        act: Act,
        name: Name,
    ) -> Result<bool, RelayFault>
        requires name { IsName self.now.setup name }
        requires other { act ≡ Act.Copy → 0 < name.copy }
        ensures ok { IfOk result (λ done. relay.new ≡ told_with relay.old (event_of act name)
            done) }
        ensures err { OnErr result (relay.new ≡ relay.old) }
    {
        let mut turn = Turn::new();
        for _ in rt.forever() {
            let Some(mut buffer) = take_buffer(rt, &self.buffers, name.to) else {
                return Err(RelayFault::Stranger);
            };
            let found = make_ready(&self.run, &mut buffer, act, name)?;
            if let Some(mut book) = try_book(&self.book) {
                return commit_act(&self.run, relay, &mut buffer, &mut book, act, name, found);
            }
            drop(buffer);
            turn.give_way(rt);
        }
        unreachable!()
    }

    /// The copies in flight, in the order of their messages' serials and then of the copy numbers,
    /// and how many events are recorded: both of one moment, since they are read under one lock.
    /// Refused as [`RelayFault::Stranger`] if the book is of another run.
    pub fn flight<R: Wait>(&self, rt: &R) -> Result<(Vec<InFlight>, usize), RelayFault>
        ensures ok { IfOk result (λ o. IsFlightInRun P.start self.now o.0.items o.1) }
        ensures cause { IfErr result (IsUnreadableInRun self.now) }
    {
        let book = take_book(rt, &self.book);
        read_flight(&self.run, self.alloc, &book)
    }

    /// Adds to `sent` the names of all messages that were sent after the first `known`, in the
    /// order of their serials, and answers how many events are recorded: both of one moment, since
    /// they are read under one lock. Refused as [`RelayFault::Stranger`] if the book is of another
    /// run.
    pub fn sent_since<R: Wait>(
        &self,
        rt: &R,
        known: usize,
        sent: &mut Vec<Name>,
    ) -> Result<usize, RelayFault>
        ensures ok { IfOk result (AddsSentInRun P.start self.now known sent.old.items
            sent.new.items) }
        ensures err { OnErr result (sent.new.items ≡ sent.old.items) }
        ensures cause { IfErr result (IsUnreadableInRun self.now) }
    {
        let book = take_book(rt, &self.book);
        read_sent(&self.run, &book, known, sent)
    }

    /// The least copy of a message that the network can make. `None`: the name is that of a copy
    /// itself, copy 0 isn't in flight, or all copies were made. Refused as [`RelayFault::Stranger`]
    /// if the book is of another run.
    pub fn next_copy<R: Wait>(&self, rt: &R, name: Name) -> Result<Option<Name>, RelayFault>
        requires { IsName self.now.setup name }
        ensures ok { IfOk result (IsNextCopyInRun P.start self.now name) }
        ensures known { IfOk result (λ copied. IfSome copied (IsName self.now.setup)) }
        ensures cause { IfErr result (IsUnreadableInRun self.now) }
    {
        let book = take_book(rt, &self.book);
        read_copy(&self.run, &book, name)
    }

    /// The journal of the run, if the seats and the relay were told what is recorded of it, and
    /// the buffers hold the frames that are in flight or wait. Takes no memory. The calls above
    /// write only what is of this run, but no contract can say that of what stands under a lock; so
    /// it's compared again here.
    pub fn into_journal(self, seats: Vec<Seat>, relay: Relay) -> Result<Journal<P>, Unmatched>
        ensures run { IfOk result (IsBookOfRun self) }
        ensures agree { IfOk result (λ journal. AccountsAgree (P.start journal.plan) journal
            seats.items relay) }
    {
        let Post {
            alloc: _,
            run,
            book,
            buffers,
            mut returned,
        } = self;
        for buffer in buffers {
            returned.push_reserved(buffer.into_inner().frames);
        }
        let book = Box::into_inner(book).into_inner();
        joined(&run, book, returned, &seats, &relay)
    }
}
