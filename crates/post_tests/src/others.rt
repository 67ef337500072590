//! A round that is closed with the work of another node, and then with the node's own.
ghost use Rattle.std.specs.Prelude.{◌≡◌};
ghost use Rattle.round_meaning.specs.Setups.{IsLawful};

use crate::recorder::Counter;
use crate::row::{close, happen, receive, send};
use locked_buffers::Post;
use round_check::Checked;
use round_meaning::Setup;
use run_events::{Event, Name};
use slot_plans::Plan;
use std::alloc::Global;
use std::sync::Wait;
use step_machine::Node;
use test_kit::Fault;

/// What a post answers if node 0 sends to itself and hears it, and its round is closed with the
/// work of a node that heard nothing, and then with its own.
pub fn answer<R: Wait, P: Plan>(
    rt: &R,
    alloc: Global,
    program: &Checked,
    setup: &Setup,
    plan: P,
) -> Result<String, Fault>
    requires lawful { IsLawful program.now.values setup.now }
    requires nodes { P.nodes plan ≡ setup.now.nodes }
{
    if setup.nodes == 0 || setup.rounds == 0 {
        return Err(Fault::Unreadable);
    }
    let (post, seats, relay) = Post::open(alloc, program, setup, plan)?;
    let mut counter = Counter {
        rt,
        post,
        seats,
        relay,
    };
    let mut out = String::new(alloc);
    let own = Name {
        from: 0,
        to: 0,
        round: 1,
        copy: 0,
    };
    let mut node = Node::new(alloc, program, setup, 0)?;
    let mut other = Node::new(alloc, program, setup, 0)?;
    send(&mut counter, &mut node, 0, 0, &mut out)?;
    out.push_str(", ")?;
    happen(&mut counter, setup, Event::Release(own), &mut out)?;
    out.push_str(", ")?;
    receive(&mut counter, &mut node, 0, &mut out)?;
    close(&mut counter, &mut other, 0, &mut out)?;
    if node.number() != 0 || node.round() > setup.rounds {
        return Err(Fault::Unreadable);
    }
    close(&mut counter, &mut node, 0, &mut out)?;
    out.push_str("\n")?;
    Ok(out)
}
