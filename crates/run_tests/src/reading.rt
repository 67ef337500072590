//! Texts of numbers and plans.
ghost use Rattle.std.specs.Prelude.{◌≡◌, IfOk};
ghost use Rattle.slot_plans.specs.Known.{known_nodes};

use run_events::PlanKind;
use slot_plans::Known;
use std::alloc::Global;
use test_kit::{Fault, cut, number};

/// Two numbers with a blank between them.
pub fn two(text: &str) -> Result<(u32, u32), Fault> {
    let (one, other) = cut(text);
    Ok((number(one)?, number(other)?))
}

/// A plan's name: `growing`, or `known 3`.
pub fn kind(text: &str) -> Result<PlanKind, Fault> {
    match cut(text) {
        ("growing", "") => Ok(PlanKind::Growing),
        ("known", delta) => Ok(PlanKind::Known(number(delta)?)),
        _ => Err(Fault::Unreadable),
    }
}

/// The plan for so many nodes in which the bound on the delay is known.
pub fn known(nodes: u32, delta: u32) -> Result<Known, Fault>
    ensures { IfOk result (λ p. known_nodes p ≡ nodes) }
{
    Known::new(nodes, delta).ok_or(Fault::Unreadable)
}
