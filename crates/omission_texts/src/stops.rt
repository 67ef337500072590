//! How many steps each node takes.
ghost use Rattle.std.specs.Prelude.{◌≡◌, ◌+◌, ◌≤◌, All, IfOk, map};
ghost use Rattle.std.specs.List.{range_with_len};
ghost use Rattle.run_events.specs.Limits.{max_rounds};
ghost use Rattle.omission_texts.specs.Meaning.{IsKnown};
ghost use Rattle.omission_texts.specs.Stops as spec;

use crate::line::OmissionLine;
use round_meaning::Setup;
use run_events::NoMemory;
use slot_plans::Plan;
use std::alloc::Global;

/// How many steps each node takes by what these lines say.
pub(crate) fn stops_of<P: Plan>(
    alloc: Global,
    setup: &Setup,
    lines: &[OmissionLine],
    plan: P,
) -> Result<Vec<u32>, NoMemory>
    requires rounds { setup.now.rounds ≤ max_rounds }
    requires known { All (IsKnown setup.now) lines.now }
    ensures { IfOk result (λ stops. stops.items
        ≡ map (spec.steps_of (P.nodes plan) (P.start plan) setup.now lines.now)
        (range_with_len 0 setup.now.nodes)) }
{
    let mut stops = Vec::new(alloc);
    for node in 0..setup.nodes {
        stops.push(steps_of(setup, lines, &plan, node))?;
    }
    Ok(stops)
}

fn steps_of<P: Plan>(setup: &Setup, lines: &[OmissionLine], plan: &P, node: u32) -> u32
    requires rounds { setup.now.rounds ≤ max_rounds }
    requires known { All (IsKnown setup.now) lines.now }
    ensures { result
        ≡ spec.steps_of (P.nodes plan.now) (P.start plan.now) setup.now lines.now node }
{
    let round = crash_round(setup, lines, node);
    if round <= setup.rounds {
        plan.start(round) + plan.nodes()
    } else {
        plan.start(setup.rounds + 1)
    }
}

/// The least round in which a line has a node crash, or the one past the run's last.
fn crash_round(setup: &Setup, lines: &[OmissionLine], node: u32) -> u32
    requires rounds { setup.now.rounds ≤ max_rounds }
    requires known { All (IsKnown setup.now) lines.now }
    ensures least { result ≡ spec.crash_round setup.now lines.now node }
    ensures first { 1 ≤ result }
{
    let mut first = setup.rounds + 1;
    for line in lines {
        if let Some(round) = crash_in(line, node) {
            first = first.min(round);
        }
    }
    first
}

/// The round in which a line has a node crash.
fn crash_in(line: &OmissionLine, node: u32) -> Option<u32>
    ensures { result ≡ spec.crash_in node line.now }
{
    match line {
        OmissionLine::Omit { .. } | OmissionLine::Cut { .. } => None,
        OmissionLine::Crash {
            node: crashed,
            round,
            ..
        } => { if *crashed == node { Some(*round) } else { None } }
    }
}
