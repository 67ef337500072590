//! Runs by threads.
ghost use Rattle.std.specs.Prelude.{◌≡◌, ◌≢◌, ◌+◌, ◌∷◌, ◌++◌, ◌⊎◌, ◌↔◌, [], All, Err, IfErr, IfOk};
ghost use Rattle.std.specs.Prelude.{IfSome, None, OnOk, Some};
ghost use Rattle.std.specs.Thread.{IsSend, IsSync};
ghost use Rattle.adversary.specs.Driving.{ClosedAreDue};
ghost use Rattle.locked_buffers.specs.Accounts.{IsTold};
ghost use Rattle.locked_buffers.specs.Runs.{IsBookOfRun};
ghost use Rattle.round_meaning.specs.Agreement.{AgreesIn, IsValidIn};
ghost use Rattle.round_meaning.specs.Setups.{IsLawful};
ghost use Rattle.step_book.specs.Agreed.{JournalAgrees};
ghost use Rattle.step_book.specs.Log.{mark_in, waiting_in};
ghost use Rattle.node_threads.specs.Bodies.{SeatsEnded};
ghost use Rattle.node_threads.specs.Ends.{AreBehind, HasAgreed, HasDecidedInputs, HaveEnded};
ghost use Rattle.node_threads.specs.Ends.{IsFitForThreads, omitted_by};
ghost use Rattle.node_threads.specs.Faults.{IsOfThreads, told_fault, with_least};
ghost use Rattle.node_threads.specs.Following.{FollowsPolicy};
ghost use Rattle.node_threads.specs.Turns.{HasRun, nothing_known};
ghost use Rattle.node_threads.specs.declared.ended.Ended.TheVariants as ended;

use crate::body::Halt;
use crate::clock::Clock;
use crate::ended::Ended;
use crate::fault::ThreadFault;
use crate::job::{Job, ThreadEnd};
use crate::network::Network;
use crate::promise::NetworkRun;
use crate::stops::{are_stops, stop_of};
use adversary::RunFault;
use locked_buffers::{Gate, Post, Relay, Seat};
use policies::Policy;
use round_check::Checked;
use round_meaning::Setup;
use run_events::NoMemory;
use schedule_text::{Pace, Stop};
use slot_plans::Plan;
use std::alloc::Global;
use std::sync::Wait;
use std::thread;
use std::thread::{PromisedHandle, Threads};
use step_journal::Journal;

/// What the threads gave back.
#[derive(Drop)]
struct Joined<P: Plan> {
    relay: Relay,
    thread_ends: Vec<ThreadEnd<P>>,
}

/// The jobs of all seats.
fn jobs<'a, P: Plan>(
    alloc: Global,
    post: &'a Post<P>,
    program: &Checked,
    setup: &Setup,
    plan: P,
    stops: &[Stop],
    seats: Vec<Seat>,
) -> Result<Vec<Job<'a, P>>, ThreadFault>
    requires run { post.now ≡ record {
      plan = plan;
      program = program.now;
      setup = setup.now;
    } }
    requires lawful { IsLawful program.now.values setup.now }
    requires nodes { P.nodes plan ≡ setup.now.nodes }
{
    let mut jobs = Vec::new(alloc);
    for seat in seats {
        let stop = stop_of(stops, seat.node() as usize);
        let job = Job::new(alloc, post, program, setup, plan, stop, seat)?;
        if jobs.push(job).is_err() {
            return Err(ThreadFault::NoMemory);
        }
    }
    Ok(jobs)
}

/// The fault that is told if another one comes up: the one that stands first in [`ThreadFault`].
fn with_fault(fault: Option<ThreadFault>, other: ThreadFault) -> Option<ThreadFault>
    ensures { result ≡ with_least fault other }
{
    match fault {
        Some(fault) => Some(fault.or(other)),
        None => Some(other),
    }
}

/// What the network's thread gives back once it's joined; if it wasn't started, nothing, and the
/// nodes go on without it.
fn join_network<R, P, Q>(
    rt: &R,
    clock: &Clock,
    handle: Option<PromisedHandle<(Relay, Option<Halt>), NetworkRun<P, Q>>>,
) -> Option<(Relay, Option<Halt>)>
where
    R: Threads + Wait,
    P: Plan,
    Q: Policy,
    ensures kept { IfSome handle (λ h. IfSome result (λ gave. gave.1 ≡ None → HasRun Q.chooses
        P.start (P.start h.promise.plan) h.promise.pace h.promise.policy.value nothing_known
        gave.0)) }
    ensures none { handle ≡ None → result ≡ None }
{
    match handle {
        Some(handle) => Some(handle.join(rt)),
        None => {
            clock.close(rt);
            None
        }
    }
}

/// Starts a thread for each job and one for the network, and joins them all. The network is one
/// that knows of no message.
fn run_all<'x, R, P, Q, G>(
    rt: &'x R,
    alloc: Global,
    clock: &'x Clock,
    gate: &'x G,
    jobs: Vec<Job<'x, P>>,
    network: Network<'x, P>,
    policy: Q,
) -> Result<Joined<P>, ThreadFault>
where
    R: Threads + Wait + Sync,
    P: Plan + Send + Sync,
    Q: Policy + Send + Drop,
    G: Gate + Sync,
    requires flight { network.flight ≡ [] }
    requires known { network.known ≡ 0 }
    requires relay { network.relay ≡ nothing_known.told }
    ensures { IfOk result (λ joined. HasRun Q.chooses P.start (P.start network.entry.plan)
        clock.now.pace policy nothing_known joined.relay) }
{
    thread::scope(
        thread::scope_env(),
        rt,
        move |scope| -> Result<Joined<P>, ThreadFault>
            requires crosses { IsSend P.row × IsSend Q.row × IsSync R.row × IsSync P.row
                × IsSync G.row }
            requires flight { network.flight ≡ [] }
            requires known { network.known ≡ 0 }
            requires relay { network.relay ≡ nothing_known.told }
            ensures { IfOk result (λ joined. HasRun Q.chooses P.start (P.start network.entry.plan)
                clock.entry.now.pace policy nothing_known joined.relay) }
        {
            let promise = network.promise(clock, &policy);
            let network = scope
                .spawn_with(promise, move || network.run(rt, clock, policy))
                .ok();
            let mut handles = Vec::new(alloc);
            let mut thread_ends = Vec::new(alloc);
            let mut fault = None;
            for job in jobs {
                let node = job.node();
                match scope.spawn(move || job.run(rt, gate, clock)) {
                    Ok(handle) => {
                        if handles.push(handle).is_err() {
                            fault = with_fault(fault, ThreadFault::NoMemory);
                        }
                    }
                    Err(_) => {
                        clock.leave(rt, node);
                        fault = with_fault(fault, ThreadFault::NoThread);
                    }
                }
            }
            let network = join_network(rt, clock, network);
            for handle in handles {
                if thread_ends.push(handle.join(rt)).is_err() {
                    fault = with_fault(fault, ThreadFault::NoMemory);
                }
            }
            told(fault, network, thread_ends)
        },
    )
}

/// What is told of joined threads, by the fault that came up meanwhile and by what the network gave
/// back if it was started: the least of all faults, if there is one.
fn told<P: Plan>(
    fault: Option<ThreadFault>,
    network: Option<(Relay, Option<Halt>)>,
    thread_ends: Vec<ThreadEnd<P>>,
) -> Result<Joined<P>, ThreadFault>
    ensures fault { IfErr result (λ least. told_fault fault network ≡ Some least) }
    ensures none { OnOk result (told_fault fault network ≡ None) }
    ensures relay { IfOk result (λ joined. network ≡ Some (joined.relay, None)) }
    ensures thread_ends { IfOk result (λ joined. joined.thread_ends ≡ thread_ends) }
{
    match (fault, network) {
        (None, Some((relay, None))) => Ok(Joined { relay, thread_ends }),
        (Some(fault), Some((_, None))) => Err(fault),
        (Some(fault), Some((_, Some(halt)))) => Err(fault.or(ThreadFault::from(halt))),
        (None, Some((_, Some(halt)))) => Err(ThreadFault::from(halt)),
        (Some(fault), None) => Err(fault.or(ThreadFault::NoThread)),
        (None, None) => Err(ThreadFault::NoThread),
    }
}

/// The seats, and how the thread of each ended.
fn seats_of<P: Plan>(
    alloc: Global,
    plan: P,
    rounds: u32,
    stops: &[Stop],
    thread_ends: Vec<ThreadEnd<P>>,
) -> Result<(Vec<Seat>, Vec<Ended>), ThreadFault>
    ensures ended { IfOk result (λ o. SeatsEnded (P.start plan) rounds stops.now o.0.items
        o.1.items) }
    ensures behind { IfOk result (λ o. AreBehind (P.start plan (rounds + 1)) stops.now o.1.items) }
{
    let mut seats = Vec::new(alloc);
    let mut ends = Vec::new(alloc);
    for thread_end in thread_ends {
        let stop = stop_of(stops, seats.len());
        let Some((seat, ended)) = thread_end.into_parts(plan, rounds, stop) else {
            return Err(ThreadFault::Unmatched);
        };
        add_both(&mut seats, &mut ends, seat, ended)?;
    }
    Ok((seats, ends))
}

fn add_both(
    seats: &mut Vec<Seat>,
    ends: &mut Vec<Ended>,
    seat: Seat,
    ended: Ended,
) -> Result<(), NoMemory>
    ensures seats { OnOk result (seats.new.items ≡ seats.old.items ++ seat ∷ []) }
    ensures ends { OnOk result (ends.new.items ≡ ends.old.items ++ ended ∷ []) }
{
    seats.push(seat)?;
    ends.push(ended)?;
    Ok(())
}

/// The journal of joined threads, and how each node's thread ended.
fn journal_of<P: Plan>(
    alloc: Global,
    post: Post<P>,
    plan: P,
    rounds: u32,
    stops: &[Stop],
    joined: Joined<P>,
) -> Result<(Journal<P>, Vec<Ended>), ThreadFault>
    requires plan { post.plan ≡ plan }
    requires rounds { post.setup.rounds ≡ rounds }
    ensures run { IfOk result (λ o. IsBookOfRun post o.0) }
    ensures told { IfOk result (λ o. IsTold (P.start post.plan) o.0.log joined.relay) }
    ensures ends { IfOk result (λ o. HaveEnded (P.start post.plan) o.0.log stops.now o.1.items) }
    ensures behind { IfOk result (λ o. AreBehind (P.start plan (rounds + 1)) stops.now o.1.items) }
    ensures agrees { IfOk result (λ o. JournalAgrees (P.start o.0.plan) o.0.log
        (mark_in (P.start o.0.plan) o.0.log) (waiting_in (P.start o.0.plan) o.0.log)) }
{
    let Joined { relay, thread_ends } = joined;
    let (seats, ends) = seats_of(alloc, plan, rounds, stops, thread_ends)?;
    match post.into_journal(seats, relay) {
        Ok(journal) => {
            journal.agrees();
            Ok((journal, ends))
        }
        Err(_) => Err(ThreadFault::Unmatched),
    }
}

/// A run by threads of a setup that is fit for them.
fn run_fit<R, P, Q, G>(
    rt: &R,
    alloc: Global,
    program: &Checked,
    setup: &Setup,
    plan: P,
    pace: Pace,
    stops: &[Stop],
    policy: Q,
    gate: &G,
) -> Result<(Journal<P>, Vec<Ended>), ThreadFault>
where
    R: Threads + Wait + Sync,
    P: Plan + Send + Sync,
    Q: Policy + Send + Drop,
    G: Gate + Sync,
    requires lawful { IsLawful program.now.values setup.now }
    requires nodes { P.nodes plan ≡ setup.now.nodes }
    ensures run { IfOk result (λ o. IsBookOfRun (record {
      plan = plan;
      program = program.now;
      setup = setup.now;
    }) o.0) }
    ensures ends { IfOk result (λ o. HaveEnded (P.start plan) o.0.log stops.now o.1.items) }
    ensures behind { IfOk result (λ o. AreBehind (P.start plan (setup.now.rounds + 1)) stops.now
        o.1.items) }
    ensures follows { IfOk result (λ o. FollowsPolicy Q.chooses P.start plan pace policy o.0.log) }
    ensures agrees { IfOk result (λ o. JournalAgrees (P.start o.0.plan) o.0.log
        (mark_in (P.start o.0.plan) o.0.log) (waiting_in (P.start o.0.plan) o.0.log)) }
{
    let (post, seats, relay) = Post::open(alloc, program, setup, plan)?;
    let jobs = jobs(alloc, &post, program, setup, plan, stops, seats)?;
    let clock = Clock::new(alloc, pace, setup.nodes)?;
    let network = Network::new(alloc, &post, setup, plan, relay);
    let joined = run_all(rt, alloc, &clock, gate, jobs, network, policy)?;
    journal_of(alloc, post, plan, setup.rounds, stops, joined)
}

/// The journal of a run in which a thread for each node takes its steps and another one is the
/// network, and how the thread of each node ended.
///
/// The network asks its policy at the beginning, and then in each tick, or under the free pace
/// whenever a node took a step or ended, until the policy chooses nothing or something that comes
/// to no event. `now` is the tick, or under the free pace the number of recorded events, as far as
/// the network knows them. The releases, drops and copies in the journal's trace are the events
/// that came of the policy's answers, in their order.
///
/// `stops` names for a node the number of steps after which its thread ends; the last entry for a
/// node counts. A gate sees the threads pass their points.
///
/// An unlawful setup, and a stop of a node that isn't one of the setup's, are refused as
/// `BadSetup`, before any memory is taken. `NoMemory`: there was no memory before the threads
/// started or after they ended, or for the network. `NoThread`: a thread couldn't be started.
/// `Unmatched`: what the threads were told isn't what is recorded. Of several causes the first of
/// these is answered, after all threads ended.
///
/// It waits for its threads, and needn't return: a policy may choose for ever, and a gate may hold
/// a thread.
pub fn run_threads<R, P, Q, G>(
    rt: &R,
    alloc: Global,
    program: &Checked,
    setup: &Setup,
    plan: P,
    pace: Pace,
    stops: &[Stop],
    policy: Q,
    gate: &G,
) -> Result<(Journal<P>, Vec<Ended>), RunFault>
where
    R: Threads + Wait + Sync,
    P: Plan + Send + Sync,
    Q: Policy + Send + Drop,
    G: Gate + Sync,
    requires { IsLawful program.now.values setup.now → P.nodes plan ≡ setup.now.nodes }
    ensures bad_setup { (result ≡ Err RunFault.BadSetup)
        ↔ (IsFitForThreads program.now.values setup.now stops.now → ⊥) }
    ensures cause { IfErr result (λ fault. (fault ≡ RunFault.BadSetup)
        ⊎ IsOfThreads fault) }
    ensures program { IfOk result (λ o. o.0.log.program ≡ program.now) }
    ensures setup { IfOk result (λ o. o.0.log.setup ≡ setup.now) }
    ensures plan { IfOk result (λ o. o.0.plan ≡ plan) }
    ensures ends { IfOk result (λ o. HaveEnded (P.start plan) o.0.log stops.now o.1.items) }
    ensures behind { IfOk result (λ o. AreBehind (P.start plan (setup.now.rounds + 1)) stops.now
        o.1.items) }
    ensures closed { IfOk result (λ o. All (λ e. e ≢ ended.NoMemory) o.1.items
        → ClosedAreDue (P.start plan) o.0.log) }
    ensures follows { IfOk result (λ o. FollowsPolicy Q.chooses P.start plan pace policy o.0.log) }
    ensures agreement { IfOk result (λ o. AgreesIn program.now setup.now
        (omitted_by (P.start plan) o.0.log) → HasAgreed o.0.log) }
    ensures validity { IfOk result (λ o. IsValidIn program.now setup.now
        (omitted_by (P.start plan) o.0.log) → HasDecidedInputs o.0.log) }
{
    if !setup.is_lawful(program) || !are_stops(setup.nodes, stops) {
        return Err(RunFault::BadSetup);
    }
    match run_fit(rt, alloc, program, setup, plan, pace, stops, policy, gate) {
        Ok(ended) => Ok(ended),
        Err(fault) => Err(RunFault::from(fault)),
    }
}
