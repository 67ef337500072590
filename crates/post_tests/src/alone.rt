//! Nodes' bodies on one thread, one node after another, over calls of the test's own.
ghost use Rattle.std.specs.Prelude.{◌≡◌};
ghost use Rattle.round_meaning.specs.Setups.{IsLawful};

use crate::forwarding::Forwarding;
use crate::reports::{end_text, report};
use locked_buffers::{Mail, OpenGate, Post, Seat};
use node_threads::{Beat, Ended, run_steps};
use round_check::Checked;
use round_meaning::Setup;
use slot_plans::Plan;
use std::alloc::Global;
use std::sync::atomic::{AtomicBool, Ordering};
use std::sync::{Mutex, Wait};
use step_journal::Journal;
use step_machine::Node;
use test_kit::Fault;

/// Nodes that needn't wait.
struct NoBeat;

impl Beat for NoBeat {
    fn next(&self, steps: u64) {
        let _steps = steps;
    }

    fn sent(&self, round: u32) {
        let _round = round;
    }

    fn gather(&self, round: u32) {
        let _round = round;
    }

    fn leave(&self) {}
}

/// Runs a node that took no step up to its end.
fn run_alone<P: Plan, M: Mail<P>>(
    alloc: Global,
    mail: &M,
    program: &Checked,
    setup: &Setup,
    plan: P,
    seat: Seat,
) -> Result<(Seat, Option<Ended>), Fault>
    requires run { M.run mail.now ≡ record {
      plan = plan;
      program = program.now;
      setup = setup.now;
    } }
    requires lawful { IsLawful program.now.values setup.now }
    requires nodes { P.nodes plan ≡ setup.now.nodes }
{
    if seat.steps() != 0 || seat.round() != 1 || seat.node() >= setup.nodes {
        return Err(Fault::Unreadable);
    }
    let node = Node::new(alloc, program, setup, seat.node())?;
    Ok(run_steps(
        mail,
        &OpenGate,
        &NoBeat,
        plan,
        setup.rounds,
        None,
        seat,
        node,
    ))
}

/// Runs all nodes, one after another, and tells how each ended.
pub fn run_all<P: Plan, M: Mail<P>>(
    alloc: Global,
    mail: &M,
    program: &Checked,
    setup: &Setup,
    plan: P,
    seats: Vec<Seat>,
    out: &mut String,
) -> Result<Vec<Seat>, Fault>
    requires run { M.run mail.now ≡ record {
      plan = plan;
      program = program.now;
      setup = setup.now;
    } }
    requires lawful { IsLawful program.now.values setup.now }
    requires nodes { P.nodes plan ≡ setup.now.nodes }
{
    let mut after = Vec::new(alloc);
    for seat in seats {
        let (seat, ended) = run_alone(alloc, mail, program, setup, plan, seat)?;
        let told = ended.map_or("refused", end_text);
        writeln!(out, "{told}")?;
        after.push(seat)?;
    }
    Ok(after)
}

/// How each node ended, if it's asked for also in a second run with the seats of another post, and
/// the run's journal, none if its accounts don't agree.
fn ended<R: Wait, P: Plan>(
    rt: &R,
    alloc: Global,
    program: &Checked,
    setup: &Setup,
    plan: P,
    is_again: bool,
) -> Result<(String, Option<Journal<P>>), Fault>
    requires lawful { IsLawful program.now.values setup.now }
    requires nodes { P.nodes plan ≡ setup.now.nodes }
{
    let mut out = String::new(alloc);
    let (post, seats, relay) = Post::open(alloc, program, setup, plan)?;
    let relay = Mutex::new(relay);
    let has_failed = AtomicBool::new(false);
    let mail = Forwarding {
        rt,
        post: &post,
        relay: &relay,
        has_failed: &has_failed,
    };
    let seats = run_all(alloc, &mail, program, setup, plan, seats, &mut out)?;
    if is_again {
        let (_post, others, _relay) = Post::open(alloc, program, setup, plan)?;
        let _others = run_all(alloc, &mail, program, setup, plan, others, &mut out)?;
    }
    if has_failed.load(Ordering::SeqCst) {
        return Err(Fault::NoMemory);
    }
    Ok((out, post.into_journal(seats, relay.into_inner()).ok()))
}

/// How each node ended, and the report.
pub fn answer<R: Wait, P: Plan>(
    rt: &R,
    alloc: Global,
    program: &Checked,
    setup: &Setup,
    plan: P,
    is_again: bool,
) -> Result<String, Fault>
    requires lawful { IsLawful program.now.values setup.now }
    requires nodes { P.nodes plan ≡ setup.now.nodes }
{
    let (mut out, journal) = ended(rt, alloc, program, setup, plan, is_again)?;
    match journal {
        Some(journal) => out.push_str(report(alloc, &journal)?.as_str())?,
        None => out.push_str("UNMATCHED\n")?,
    }
    Ok(out)
}
