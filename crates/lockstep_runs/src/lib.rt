//! Runs in which the correct nodes step in lockstep, and each message has its delay.
#![tactic(auto)]

mod changes;
mod course;
mod idle;
mod lockstep;
mod ticking;

pub use changes::{Changes, MessageDelay};
pub use course::Course;
pub use idle::run_until_idle;
pub use lockstep::{MAX_ENTRIES, run_changed_lockstep, run_lockstep};
pub use schedule_text::Stop;
