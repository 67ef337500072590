//! Runs in single steps, on one thread: of schedules, of texts that are read, and under policies.
#![tactic(auto)]

mod asking;
mod driver;
mod fault;
mod read;
mod running;

pub use asking::{are_nodes, run_policy};
pub use driver::Driver;
pub use fault::{ReadFault, RunFault};
pub use policies::{Bounded, Choice, Faulty, Hoard, Policy, Prompt, Script, Table};
pub use read::{refused_after, run_read};
pub use running::run_schedule;
pub use schedule_text::{
    MAX_TEXT, Pace, Schedule, ScheduleFault, Stop, ThreadSetup, read_header, read_schedule,
    read_threads, write_schedule,
};
