//! Schedules that realise omission tables, and the report of a run in rounds under one.
#![tactic(auto)]

mod laws;
mod report;
mod rounds;
mod schedule;

pub use laws::{
    each_run_has_an_order, each_table_has_a_run, each_table_has_a_run_with_stops,
    each_table_has_a_schedule, each_table_has_a_schedule_with_stops, runs_are_runs_in_rounds,
    schedules_show_rounds,
};
pub use report::rounds_report;
pub use schedule::{schedule_of, schedule_with_stops};
