//! What the network's thread promises of its run.
ghost use Rattle.std.specs.Prelude.{◌≡◌, None};
ghost use Rattle.node_threads.specs.Turns.{HasRun, nothing_known};

use crate::body::Halt;
use locked_buffers::Relay;
use policies::Policy;
use schedule_text::Pace;
use slot_plans::Plan;
use std::snapshot::Snapshot;
use std::thread::Promise;

/// What the thread of the network gives back is what the network was told in all its turns, unless
/// it halts: under this plan and pace, from this policy on.
#[derive(Drop)]
pub(crate) struct NetworkRun<P, Q> {
    pub(crate) plan: P,
    pub(crate) pace: Pace,
    pub(crate) policy: Snapshot<Q>,
}

impl<P: Plan, Q: Policy> Promise<(Relay, Option<Halt>)> for NetworkRun<P, Q> {
    ghost kept_by = { λ promise gave. gave.1 ≡ None → HasRun Q.chooses P.start
        (P.start promise.plan) promise.pace promise.policy.value nothing_known gave.0 };
}
