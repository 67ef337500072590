//! One schedule's events, recorded by a journal and by a post.
ghost use Rattle.std.specs.Prelude.{◌≡◌, ◌<◌, ◌≤◌, All, IfOk};
ghost use Rattle.run_events.specs.Limits.{max_rounds};
ghost use Rattle.round_meaning.specs.Setups.{IsLawful, IsSetup};
ghost use Rattle.step_book.specs.Buffers.{IsMail};
ghost use Rattle.step_machine.specs.Nodes.{algorithm_in};

use crate::recorder::{Counter, Recorder};
use crate::reports::report;
use locked_buffers::{Post, PostFault, RelayFault, Unmatched};
use round_check::Checked;
use round_meaning::Setup;
use run_events::{Event, Name};
use schedule_text::Schedule;
use slot_plans::Plan;
use std::alloc::Global;
use std::sync::Wait;
use step_book::{CloseFault, SendFault, Waiting, is_name};
use step_journal::Journal;
use step_machine::Node;
use test_kit::Fault;

/// The nodes of a run before their first step.
fn all_nodes(alloc: Global, program: &Checked, setup: &Setup) -> Result<Vec<Node>, Fault>
    requires { IsSetup setup.now }
    ensures { IfOk result
        (λ nodes. All (λ n. (n.program ≡ program.now) × (n.setup ≡ setup.now)) nodes.items) }
{
    let mut nodes = Vec::new(alloc);
    for me in 0..setup.nodes {
        nodes.push(Node::new(alloc, program, setup, me)?)?;
    }
    Ok(nodes)
}

fn write_name(out: &mut String, name: Name) -> Result<(), Fault> {
    let Name {
        from,
        to,
        round,
        copy,
    } = name;
    write!(out, " {from}.{to}.{round}.{copy}")?;
    Ok(())
}

/// A send step.
pub fn send<C: Recorder>(
    recorder: &mut C,
    node: &mut Node,
    me: u32,
    dest: u32,
    out: &mut String,
) -> Result<(), Fault>
    requires program { node.old.program ≡ C.program recorder.old }
    requires setup { node.old.setup ≡ C.setup recorder.old }
    requires me { node.old.me ≡ me }
    requires within { me < node.old.setup.nodes }
    requires dest { dest < node.old.setup.nodes }
    requires first { 0 < node.old.round }
    requires last { node.old.round ≤ node.old.setup.rounds }
    ensures program { C.program recorder.new ≡ C.program recorder.old }
    ensures setup { C.setup recorder.new ≡ C.setup recorder.old }
    ensures node { node.new ≡ node.old }
{
    let prepared = node.prepare(dest)?;
    let answer = if prepared.is_silent() {
        "silent"
    } else {
        "sent"
    };
    match recorder.send(me, prepared) {
        Ok(()) => out.push_str(answer)?,
        Err(SendFault::NoMemory) => return Err(Fault::NoMemory),
        Err(fault) => write!(out, "{fault:?}")?,
    }
    Ok(())
}

/// The node takes frames, and each is told with what became of it.
fn take_all(node: &mut Node, frames: Waiting, out: &mut String) -> Result<(), Fault>
    requires { All (IsMail (algorithm_in node.old) node.old.setup.nodes node.old.me) frames.items }
    ensures program { node.new.program ≡ node.old.program }
    ensures setup { node.new.setup ≡ node.old.setup }
{
    out.push_str("took")?;
    let mut frames = frames.into_frames();
    while let Some(frame) = frames.next() {
        write_name(out, frame.name())?;
        let taken = node.take(frame);
        write!(out, " {taken:?}")?;
    }
    Ok(())
}

/// A receive step.
pub fn receive<C: Recorder>(
    recorder: &mut C,
    node: &mut Node,
    me: u32,
    out: &mut String,
) -> Result<(), Fault>
    requires program { node.old.program ≡ C.program recorder.old }
    requires setup { node.old.setup ≡ C.setup recorder.old }
    requires me { node.old.me ≡ me }
    requires within { me < node.old.setup.nodes }
    ensures program { C.program recorder.new ≡ C.program recorder.old }
    ensures setup { C.setup recorder.new ≡ C.setup recorder.old }
    ensures node_program { node.new.program ≡ node.old.program }
    ensures node_setup { node.new.setup ≡ node.old.setup }
{
    match recorder.receive(me) {
        Ok(frames) => take_all(node, frames, out),
        Err(PostFault::NoMemory) => Err(Fault::NoMemory),
        Err(fault) => {
            write!(out, "{fault:?}")?;
            Ok(())
        }
    }
}

/// The end of the node's due round.
pub fn close<C: Recorder>(
    recorder: &mut C,
    node: &mut Node,
    me: u32,
    out: &mut String,
) -> Result<(), Fault>
    requires program { node.old.program ≡ C.program recorder.old }
    requires setup { node.old.setup ≡ C.setup recorder.old }
    requires me { node.old.me ≡ me }
    requires last { node.old.round ≤ node.old.setup.rounds }
    ensures program { C.program recorder.new ≡ C.program recorder.old }
    ensures setup { C.setup recorder.new ≡ C.setup recorder.old }
    ensures node_program { node.new.program ≡ node.old.program }
    ensures node_setup { node.new.setup ≡ node.old.setup }
{
    let finished = node.finish();
    match recorder.close(me, &finished) {
        Ok(()) => {}
        Err(CloseFault::NoMemory) => return Err(Fault::NoMemory),
        Err(fault) => {
            write!(out, ", {fault:?}")?;
            return Ok(());
        }
    }
    node.settle();
    out.push_str(", closed")?;
    Ok(())
}

/// The node's next step, and the end of its round if that is due.
fn step<P: Plan, C: Recorder>(
    recorder: &mut C,
    plan: P,
    rounds: u32,
    node: &mut Node,
    out: &mut String,
) -> Result<(), Fault>
    requires nodes { P.nodes plan ≡ node.old.setup.nodes }
    requires rounds { rounds ≡ node.old.setup.rounds }
    requires few { rounds ≤ max_rounds }
    requires program { node.old.program ≡ C.program recorder.old }
    requires setup { node.old.setup ≡ C.setup recorder.old }
    ensures program { C.program recorder.new ≡ C.program recorder.old }
    ensures setup { C.setup recorder.new ≡ C.setup recorder.old }
    ensures node_program { node.new.program ≡ node.old.program }
    ensures node_setup { node.new.setup ≡ node.old.setup }
{
    let round = node.round();
    if round == 0 || round > rounds {
        out.push_str("past its last round")?;
        return Ok(());
    }
    let me = node.number();
    let offset = recorder
        .steps(me)
        .saturating_sub(u64::from(plan.start(round)));
    if offset < u64::from(plan.nodes()) {
        send(recorder, node, me, offset as u32, out)?;
    } else {
        receive(recorder, node, me, out)?;
    }
    let me = node.number();
    if node.round() <= rounds && recorder.steps(me) == u64::from(plan.start(round + 1)) {
        close(recorder, node, me, out)?;
    }
    Ok(())
}

/// An event of the network.
pub fn happen<C: Recorder>(
    recorder: &mut C,
    setup: &Setup,
    event: Event,
    out: &mut String,
) -> Result<(), Fault>
    requires { setup.now ≡ C.setup recorder.old }
    ensures program { C.program recorder.new ≡ C.program recorder.old }
    ensures setup { C.setup recorder.new ≡ C.setup recorder.old }
{
    let answer = match event {
        Event::Release(name) if is_name(setup, name) => recorder.release(name),
        Event::Drop(name) if is_name(setup, name) => recorder.lose(name),
        Event::Copy(name) if is_name(setup, name) && name.copy > 0 => recorder.copy(name),
        _ => return Err(Fault::Unreadable),
    };
    match answer {
        Ok(answer) => write!(out, "{answer}")?,
        Err(RelayFault::NoMemory) => return Err(Fault::NoMemory),
        Err(fault) => write!(out, "{fault:?}")?,
    }
    Ok(())
}

/// One event, and what it's answered.
fn act<P: Plan, C: Recorder>(
    recorder: &mut C,
    plan: P,
    setup: &Setup,
    nodes: &mut Vec<Node>,
    event: Event,
    out: &mut String,
) -> Result<(), Fault>
    requires plan { P.nodes plan ≡ setup.now.nodes }
    requires few { setup.now.rounds ≤ max_rounds }
    requires setup { setup.now ≡ C.setup recorder.old }
    requires nodes { All (λ n. (n.program ≡ C.program recorder.old) × (n.setup ≡ setup.now))
        nodes.old.items }
    ensures program { C.program recorder.new ≡ C.program recorder.old }
    ensures setup { C.setup recorder.new ≡ C.setup recorder.old }
    ensures nodes { All (λ n. (n.program ≡ C.program recorder.old) × (n.setup ≡ setup.now))
        nodes.new.items }
{
    match event {
        Event::Step(node) => {
            if node as usize >= nodes.len() {
                return Err(Fault::Unreadable);
            }
            let node = &mut nodes[node as usize];
            step(recorder, plan, setup.rounds, node, out)
        }
        _ => happen(recorder, setup, event, out),
    }
}

/// What is in flight after all events, each copy with its sender's step number and its serial.
fn tell_flight<C: Recorder>(alloc: Global, recorder: &C, out: &mut String) -> Result<(), Fault> {
    let (flight, events) = match recorder.flight(alloc) {
        Ok(flight) => flight,
        Err(RelayFault::NoMemory) => return Err(Fault::NoMemory),
        Err(fault) => {
            write!(out, "in flight: {fault:?}\n")?;
            return Ok(());
        }
    };
    write!(out, "in flight after {events}:")?;
    for copy in &flight {
        write_name(out, copy.name)?;
        write!(out, " {} {}", copy.sent_at, copy.serial)?;
    }
    out.push_str("\n")?;
    Ok(())
}

/// What a recorder answers to each event, a line for each, and what is in flight in the end.
fn answers<P: Plan, C: Recorder>(
    alloc: Global,
    recorder: &mut C,
    plan: P,
    program: &Checked,
    schedule: &Schedule,
) -> Result<String, Fault>
    requires plan { P.nodes plan ≡ schedule.now.setup.nodes }
    requires sized { IsSetup schedule.now.setup }
    requires program { program.now ≡ C.program recorder.old }
    requires setup { schedule.now.setup ≡ C.setup recorder.old }
{
    let setup = &schedule.setup;
    let mut nodes = all_nodes(alloc, program, setup)?;
    let mut out = String::new(alloc);
    for event in &schedule.events.to_vec(alloc)? {
        act(recorder, plan, setup, &mut nodes, *event, &mut out)?;
        out.push_str("\n")?;
    }
    tell_flight(alloc, recorder, &mut out)?;
    Ok(out)
}

/// What a journal answers to the events, and what it is in the end.
fn by_journal<P: Plan>(
    alloc: Global,
    program: &Checked,
    schedule: &Schedule,
    plan: P,
) -> Result<(String, Journal<P>), Fault>
    requires lawful { IsLawful program.now.values schedule.now.setup }
    requires nodes { P.nodes plan ≡ schedule.now.setup.nodes }
{
    let mut journal = Journal::open(alloc, program, &schedule.setup, plan)?;
    let out = answers(alloc, &mut journal, plan, program, schedule)?;
    Ok((out, journal))
}

/// What a post answers to them, and its journal in the end, none if its accounts don't agree.
fn by_post<R: Wait, P: Plan>(
    rt: &R,
    alloc: Global,
    program: &Checked,
    schedule: &Schedule,
    plan: P,
) -> Result<(String, Option<Journal<P>>), Fault>
    requires lawful { IsLawful program.now.values schedule.now.setup }
    requires nodes { P.nodes plan ≡ schedule.now.setup.nodes }
{
    let (post, seats, relay) = Post::open(alloc, program, &schedule.setup, plan)?;
    let mut counter = Counter {
        rt,
        post,
        seats,
        relay,
    };
    let out = answers(alloc, &mut counter, plan, program, schedule)?;
    let Counter {
        rt: _,
        post,
        seats,
        relay,
    } = counter;
    Ok((out, post.into_journal(seats, relay).ok()))
}

/// What a post answers to the events, and what another post of the same run answers when they come
/// to it with the seats and the relay of the first; then whether that one's accounts agree.
pub fn answer_of_strangers<R: Wait, P: Plan>(
    rt: &R,
    alloc: Global,
    program: &Checked,
    schedule: &Schedule,
    plan: P,
) -> Result<String, Fault>
    requires lawful { IsLawful program.now.values schedule.now.setup }
    requires nodes { P.nodes plan ≡ schedule.now.setup.nodes }
{
    let (post, seats, relay) = Post::open(alloc, program, &schedule.setup, plan)?;
    let (other, _seats, _relay) = Post::open(alloc, program, &schedule.setup, plan)?;
    let mut counter = Counter {
        rt,
        post,
        seats,
        relay,
    };
    let mut out = answers(alloc, &mut counter, plan, program, schedule)?;
    let Counter {
        rt: _,
        post: _,
        seats,
        relay,
    } = counter;
    let mut counter = Counter {
        rt,
        post: other,
        seats,
        relay,
    };
    out.push_str(answers(alloc, &mut counter, plan, program, schedule)?.as_str())?;
    let Counter {
        rt: _,
        post,
        seats,
        relay,
    } = counter;
    out.push_str(match post.into_journal(seats, relay) {
        Ok(_journal) => "MATCHED\n",
        Err(Unmatched) => "unmatched\n",
    })?;
    Ok(out)
}

/// The answers of a post, whether a journal answered the same, and the report of the post's
/// journal, which must be the other's.
fn compared<P: Plan>(
    alloc: Global,
    answered: String,
    wanted: &str,
    posted: Option<Journal<P>>,
    journal: &Journal<P>,
) -> Result<String, Fault> {
    let is_same = answered.as_str() == wanted;
    let mut out = answered;
    out.push_str(if is_same {
        "the journal answers the same\n"
    } else {
        "THE JOURNAL ANSWERS OTHERWISE\n"
    })?;
    let Some(posted) = posted else {
        out.push_str("UNMATCHED\n")?;
        return Ok(out);
    };
    add_report(alloc, &posted, journal, &mut out)?;
    Ok(out)
}

/// Adds the report of a post's journal, which must be the other's.
fn add_report<P: Plan>(
    alloc: Global,
    posted: &Journal<P>,
    journal: &Journal<P>,
    out: &mut String,
) -> Result<(), Fault> {
    let text = report(alloc, posted)?;
    out.push_str(text.as_str())?;
    if report(alloc, journal)? != text {
        out.push_str("THE JOURNAL REPORTS OTHERWISE\n")?;
    }
    Ok(())
}

/// What a post answers to the events of a schedule, beside a journal.
pub fn answer<R: Wait, P: Plan>(
    rt: &R,
    alloc: Global,
    program: &Checked,
    schedule: &Schedule,
    plan: P,
) -> Result<String, Fault>
    requires lawful { IsLawful program.now.values schedule.now.setup }
    requires nodes { P.nodes plan ≡ schedule.now.setup.nodes }
{
    let (wanted, journal) = by_journal(alloc, program, schedule, plan)?;
    let (answered, posted) = by_post(rt, alloc, program, schedule, plan)?;
    compared(alloc, answered, wanted.as_str(), posted, &journal)
}
