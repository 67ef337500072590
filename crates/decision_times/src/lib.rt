//! By which round correct nodes have decided, in the report of a run that kept lockstep and the
//! bound on the delay.
#![tactic(auto)]

mod laws;

pub use laws::reports_are_in_time;
