//! After how many steps the threads of nodes stop.
ghost use Rattle.std.specs.Prelude.{◌≡◌, ◌↔◌, All, IsTrue, Some};
ghost use Rattle.node_threads.specs.Stops.{AreStops, stop_of};

use schedule_text::Stop;

/// Whether each stop is of one of so many nodes.
pub(crate) fn are_stops(nodes: u32, stops: &[Stop]) -> bool
    ensures { IsTrue result ↔ AreStops nodes stops.now }
{
    for stop in stops {
        if stop.node >= nodes {
            return false;
        }
    }
    true
}

/// The steps after which a node's thread stops; the last entry for it counts.
pub(crate) fn stop_of(stops: &[Stop], me: usize) -> Option<u32>
    ensures { result ≡ stop_of stops.now me }
{
    let mut found = None;
    for stop in stops {
        if stop.node as usize == me {
            found = Some(stop.steps);
        }
    }
    found
}

/// Whether a thread stops after so many steps.
pub(crate) fn is_stop(stop: Option<u32>, steps: u64) -> bool
    ensures { IsTrue result ↔ (stop ≡ Some steps) }
{
    match stop {
        None => false,
        Some(last) => u64::from(last) == steps,
    }
}
