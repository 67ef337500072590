//! A run of single steps explained as a run in rounds with omissions: the report and its text.
#![tactic(auto)]

mod deciding;
mod explaining;
mod judging;
mod lateness;
mod listed;
mod printed;
mod report;
mod spelt_set;
mod stored_decision;
mod summary;
mod variables;
mod writing;

pub use deciding::decided;
pub use explaining::explain;
pub use judging::{Verdict, judge};
pub use lateness::open_until;
pub use listed::Listed;
pub use printed::{omissions_give_inbox, sets_part_nodes};
pub use report::{Report, ReportRow};
pub use summary::Decided;
pub use variables::{variable_names, variable_types};
pub use writing::write_report;
