//! A run of a program by threads: one for each node, and one for the network.
#![tactic(auto)]

mod body;
mod clock;
mod ended;
mod fault;
mod flight;
mod job;
mod laws;
mod network;
mod progress;
mod promise;
mod run;
mod stops;

pub use body::{Beat, Halt, run_steps};
pub use ended::Ended;
pub use laws::run_again;
pub use run::run_threads;
pub use schedule_text::{Pace, Stop};
