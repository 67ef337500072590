//! The plans by name.

/// A plan as texts name it.
#[derive(Clone, Copy, PartialEq, Eq, Debug)]
pub enum PlanKind {
    /// The bound on the delay is known: Δ, from 1 to `MAX_DELTA`.
    Known(u32),
    /// The bound is unknown, and the rounds grow longer.
    Growing,
}
