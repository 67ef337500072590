//! How many steps each node takes in a run with failures.
ghost use Rattle.std.specs.Prelude.{◌≡◌, ◌≤◌, IfOk, map};
ghost use Rattle.std.specs.List.{range_with_len};
ghost use Rattle.exploration_texts.specs.Stops as spec;
ghost use Rattle.round_explorer.specs.Questions.{failure_of};
ghost use Rattle.run_events.specs.Limits.{max_rounds};

use round_explorer::Failure;
use round_meaning::Setup;
use run_events::NoMemory;
use slot_plans::Plan;
use std::alloc::Global;

/// How many steps each node takes if nodes fail so: one that crashes in one of the rounds stops
/// after its sends of that round, and the others take all steps of the run.
pub fn stops_of<P: Plan>(
    alloc: Global,
    setup: &Setup,
    pattern: &[Failure],
    plan: P,
) -> Result<Vec<u32>, NoMemory>
    requires { setup.now.rounds ≤ max_rounds }
    ensures { IfOk result (λ stops. stops.items ≡ map (spec.steps_of (P.nodes plan) (P.start plan)
        setup.now.rounds pattern.now) (range_with_len 0 setup.now.nodes)) }
{
    let mut stops = Vec::new(alloc);
    for node in 0..setup.nodes {
        let failure = failure_of(pattern, node);
        stops.push(steps_with(setup.rounds, failure, &plan))?;
    }
    Ok(stops)
}

fn failure_of(pattern: &[Failure], node: u32) -> Failure
    ensures { result ≡ failure_of pattern.now node }
{
    match pattern.get(node as usize) {
        Some(failure) => *failure,
        None => Failure::Never,
    }
}

fn steps_with<P: Plan>(rounds: u32, failure: Failure, plan: &P) -> u32
    requires { rounds ≤ max_rounds }
    ensures { result ≡ spec.steps_with (P.nodes plan.now) (P.start plan.now) rounds failure }
{
    match failure {
        Failure::Crashes(round) if 1 <= round && round <= rounds => {
            plan.start(round) + plan.nodes()
        }
        _ => plan.start(rounds + 1),
    }
}
