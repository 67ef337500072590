//! The schedule of an omission table.
ghost use Rattle.std.specs.Prelude.{◌≡◌, ◌<◌, ◌≤◌, ◌++◌, ◌+◌, IfOk, OnOk, length, replicate};
ghost use Rattle.std.specs.Prelude.{slice_index};
ghost use Rattle.round_meaning.specs.Omissions.{is_omitted};
ghost use Rattle.run_events.specs.Limits.{max_nodes, max_rounds};
ghost use Rattle.run_events.specs.declared.event.Event.TheVariants.{Step};
ghost use Rattle.omission_schedules.specs.Schedules.{all_step, each_below, release_of, releases};
ghost use Rattle.omission_schedules.specs.Schedules.{round_events, schedule_of};
ghost use Rattle.omission_schedules.specs.Schedules.{schedule_with_stops, until};

use round_meaning::{OmissionTable, Setup};
use run_events::{Event, Name, NoMemory, StoredEvent};
use slot_plans::Plan;
use std::alloc::Global;

/// The schedule in which each node takes all its steps, and exactly the messages of an omission
/// table are omitted: round by round, first each node's sends, then the releases, then each node's
/// receives.
pub fn schedule_of<P: Plan>(
    alloc: Global,
    setup: &Setup,
    plan: P,
    omissions: &OmissionTable,
) -> Result<Vec<StoredEvent>, NoMemory>
    requires nodes { setup.now.nodes ≤ max_nodes }
    requires rounds { setup.now.rounds ≤ max_rounds }
    ensures { IfOk result (λ events. events.items ≡ schedule_of setup.now.nodes (P.receives plan)
        (is_omitted omissions.now) setup.now.rounds) }
{
    let mut events = Vec::new(alloc);
    for before in 0..setup.rounds {
        let receives = plan.receives(before + 1);
        add_round(&mut events, setup.nodes, receives, omissions, before + 1)?;
    }
    Ok(events)
}

/// The schedule in which each node stops after so many steps, by node, and the messages of an
/// omission table are omitted, and those that aren't sent. Steps past the last round aren't taken.
pub fn schedule_with_stops<P: Plan>(
    alloc: Global,
    setup: &Setup,
    plan: P,
    omissions: &OmissionTable,
    stops: &[u32],
) -> Result<Vec<StoredEvent>, NoMemory>
    requires nodes { setup.now.nodes ≤ max_nodes }
    requires rounds { setup.now.rounds ≤ max_rounds }
    requires stops { setup.now.nodes ≤ length stops.now }
    ensures { IfOk result (λ events. events.items ≡ schedule_with_stops setup.now.nodes
        (P.receives plan) (P.start plan) (slice_index stops.now) (is_omitted omissions.now)
        setup.now.rounds) }
{
    let mut events = Vec::new(alloc);
    for before in 0..setup.rounds {
        let start = plan.start(before + 1);
        let receives = plan.receives(before + 1);
        add_round_until(
            &mut events,
            setup.nodes,
            receives,
            omissions,
            before + 1,
            stops,
            start,
        )?;
    }
    Ok(events)
}

/// Adds a round with so many receives, which starts at this step, but no step from where its node
/// stops.
fn add_round_until(
    events: &mut Vec<StoredEvent>,
    nodes: u32,
    receives: u32,
    omissions: &OmissionTable,
    round: u32,
    stops: &[u32],
    start: u32,
) -> Result<(), NoMemory>
    requires nodes { nodes ≤ max_nodes }
    requires round { round ≤ max_rounds }
    requires stops { nodes ≤ length stops.now }
    ensures { OnOk result (events.new.items ≡ events.old.items
        ++ round_events nodes (λ i. until (slice_index stops.now i) start nodes)
        (λ i. until (slice_index stops.now i) (start + nodes) receives)
        (is_omitted omissions.now) round) }
{
    let first = u64::from(start);
    let sent = first + u64::from(nodes);
    add_steps_until(events, nodes, stops, first, nodes)?;
    add_releases(events, nodes, omissions, round)?;
    add_steps_until(events, nodes, stops, sent, receives)?;
    Ok(())
}

/// Adds so many steps of each node from a step number on, but none from where it stops.
fn add_steps_until(
    events: &mut Vec<StoredEvent>,
    nodes: u32,
    stops: &[u32],
    from: u64,
    steps: u32,
) -> Result<(), NoMemory>
    requires nodes { nodes ≤ max_nodes }
    requires stops { nodes ≤ length stops.now }
    ensures { OnOk result (events.new.items ≡ events.old.items
        ++ all_step nodes (λ i. until (slice_index stops.now i) from steps)) }
{
    for node in 0..nodes {
        let left = left_of(stops[node as usize], from, steps);
        add_steps_of(events, node, left)?;
    }
    Ok(())
}

/// Of so many steps from a step number on, how many come before the stop.
fn left_of(stop: u32, from: u64, steps: u32) -> u64
    ensures { result ≡ until stop from steps }
{
    u64::from(steps).min(u64::from(stop).saturating_sub(from))
}

/// Adds a round with so many receives.
fn add_round(
    events: &mut Vec<StoredEvent>,
    nodes: u32,
    receives: u32,
    omissions: &OmissionTable,
    round: u32,
) -> Result<(), NoMemory>
    requires nodes { nodes ≤ max_nodes }
    requires round { round ≤ max_rounds }
    ensures { OnOk result (events.new.items ≡ events.old.items
        ++ round_events nodes (λ i. nodes) (λ i. receives) (is_omitted omissions.now) round) }
{
    add_steps(events, nodes, nodes)?;
    add_releases(events, nodes, omissions, round)?;
    add_steps(events, nodes, receives)
}

/// Adds so many steps of each node.
fn add_steps(events: &mut Vec<StoredEvent>, nodes: u32, steps: u32) -> Result<(), NoMemory>
    requires { nodes ≤ max_nodes }
    ensures { OnOk result (events.new.items ≡ events.old.items ++ all_step nodes (λ i. steps)) }
{
    for node in 0..nodes {
        add_steps_of(events, node, u64::from(steps))?;
    }
    Ok(())
}

/// Adds so many steps of a node.
fn add_steps_of(events: &mut Vec<StoredEvent>, node: u32, steps: u64) -> Result<(), NoMemory>
    requires { node < max_nodes }
    ensures { OnOk result (events.new.items ≡ events.old.items ++ replicate steps (Step node)) }
{
    for _step in 0..steps {
        events.push(StoredEvent::new(Event::Step(node)))?;
    }
    Ok(())
}

/// Adds the releases of a round.
fn add_releases(
    events: &mut Vec<StoredEvent>,
    nodes: u32,
    omissions: &OmissionTable,
    round: u32,
) -> Result<(), NoMemory>
    requires nodes { nodes ≤ max_nodes }
    requires round { round ≤ max_rounds }
    ensures { OnOk result (events.new.items ≡ events.old.items
        ++ releases nodes (is_omitted omissions.now) round) }
{
    for receiver in 0..nodes {
        add_releases_to(events, nodes, omissions, round, receiver)?;
    }
    Ok(())
}

/// Adds the releases of a round to a node.
fn add_releases_to(
    events: &mut Vec<StoredEvent>,
    nodes: u32,
    omissions: &OmissionTable,
    round: u32,
    receiver: u32,
) -> Result<(), NoMemory>
    requires nodes { nodes ≤ max_nodes }
    requires round { round ≤ max_rounds }
    requires receiver { receiver < nodes }
    ensures { OnOk result (events.new.items ≡ events.old.items
        ++ each_below nodes (release_of (is_omitted omissions.now) round receiver)) }
{
    for sender in 0..nodes {
        add_release(events, omissions, round, receiver, sender)?;
    }
    Ok(())
}

/// Adds the release of a message, unless it's omitted.
fn add_release(
    events: &mut Vec<StoredEvent>,
    omissions: &OmissionTable,
    round: u32,
    receiver: u32,
    sender: u32,
) -> Result<(), NoMemory>
    requires round { round ≤ max_rounds }
    requires receiver { receiver < max_nodes }
    requires sender { sender < max_nodes }
    ensures { OnOk result (events.new.items ≡ events.old.items
        ++ release_of (is_omitted omissions.now) round receiver sender) }
{
    if !omissions.is_omitted(receiver, round, sender) {
        let name = Name {
            from: sender,
            to: receiver,
            round,
            copy: 0,
        };
        events.push(StoredEvent::new(Event::Release(name)))?;
    }
    Ok(())
}
