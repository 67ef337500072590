//! Why `judge` says what it says of a run: the step that breaks lockstep, the receive by which a
//! message should have been let in, and why no round is clear; and which decisions of a report
//! differ, or are taken back.
#![tactic(auto)]

mod bound;
mod correct;
mod decisions;
mod pace;
mod sought;
mod unclear;

pub use bound::{BoundBreak, bound_break};
pub use decisions::{Split, TakenBack, first_split, first_taken_back};
pub use pace::{PaceBreak, pace_break};
pub use unclear::{Unclear, why_unclear};
