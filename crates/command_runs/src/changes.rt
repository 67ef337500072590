//! What words and lines change in a run in lockstep.
ghost use Rattle.std.specs.Prelude.{◌≡◌, ◌++◌, ◌≤◌, All, IfOk, OnOk, map};
ghost use Rattle.command_runs.specs.InChanges.{AreChanges, crash_stops, stop_below, terms_of};
ghost use Rattle.command_runs.specs.InChanges.{word_delay, word_stop};
ghost use Rattle.omission_texts.specs.Meaning.{IsKnown};
ghost use Rattle.run_events.specs.Limits.{max_rounds};

use crate::lockstep::Pacing;
use command_words::{NodeStop, OwnDelay};
use lockstep_runs::{Changes, MessageDelay};
use omission_texts::Omissions;
use round_meaning::Setup;
use run_events::NoMemory;
use schedule_text::Stop;
use slot_plans::Plan;
use std::alloc::Global;

/// The stops, omissions and delays of a run. Where both a line and the words stop a node, that of
/// the words holds.
pub(crate) fn changes_of<P: Plan>(
    alloc: Global,
    setup: &Setup,
    plan: P,
    omissions: &Omissions,
    pacing: Pacing<'_>,
) -> Result<Changes, NoMemory>
    requires nodes { P.nodes plan ≡ setup.now.nodes }
    requires rounds { setup.now.rounds ≤ max_rounds }
    requires known { All (IsKnown setup.now) omissions.now }
    ensures { IfOk result (AreChanges (P.start plan) setup.now omissions.now
        (terms_of pacing.entry)) }
{
    let mut stops = crash_stops(alloc, setup, plan, omissions)?;
    add_stops(&mut stops, pacing.stops)?;
    Ok(Changes {
        stops,
        omissions: omissions.table(alloc, setup)?,
        delays: own_delays(alloc, pacing.delays)?,
    })
}

/// The stops of the nodes that lines have crash.
fn crash_stops<P: Plan>(
    alloc: Global,
    setup: &Setup,
    plan: P,
    omissions: &Omissions,
) -> Result<Vec<Stop>, NoMemory>
    requires nodes { P.nodes plan ≡ setup.now.nodes }
    requires rounds { setup.now.rounds ≤ max_rounds }
    requires known { All (IsKnown setup.now) omissions.now }
    ensures { IfOk result (λ stops. stops.items
        ≡ crash_stops (P.start plan) setup.now omissions.now) }
{
    let steps = omissions.stops(alloc, setup, plan)?;
    let all = plan.start(setup.rounds + 1);
    let mut stops = Vec::new(alloc);
    for node in 0..setup.nodes {
        if let Some(stop) = stop_below(all, node, steps[node as usize]) {
            stops.push(stop)?;
        }
    }
    Ok(stops)
}

/// The stop of a node that takes fewer steps than all rounds have.
fn stop_below(all: u32, node: u32, steps: u32) -> Option<Stop>
    ensures { result ≡ stop_below all node steps }
{
    if steps < all {
        Some(Stop { node, steps })
    } else {
        None
    }
}

/// Adds the stops that words say.
fn add_stops(stops: &mut Vec<Stop>, words: &[NodeStop]) -> Result<(), NoMemory>
    ensures { OnOk result (stops.new.items ≡ stops.old.items ++ map word_stop words.now) }
{
    for word in words {
        stops.push(Stop {
            node: word.node,
            steps: word.tick,
        })?;
    }
    Ok(())
}

/// The delays that words say.
fn own_delays(alloc: Global, words: &[OwnDelay]) -> Result<Vec<MessageDelay>, NoMemory>
    ensures { IfOk result (λ delays. delays.items ≡ map word_delay words.now) }
{
    let mut delays = Vec::new(alloc);
    for word in words {
        delays.push(MessageDelay {
            sender: word.sender,
            receiver: word.receiver,
            round: word.round,
            delay: word.delay,
        })?;
    }
    Ok(delays)
}
