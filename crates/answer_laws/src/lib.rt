//! What the answers of `explore` say of reports, how the parts of a search make a whole, and what
//! schedules and files of omissions say of runs in rounds.
#![tactic(auto)]

mod answered;
mod asked;
mod lines;
mod parts;
mod read;
mod reports;
mod shown;

pub use answered::answered_failures_are_found;
pub use asked::{
    clear_runs_are_asked, open_runs_are_asked, stopped_runs_are_asked, yes_is_of_asked_reports,
    yes_is_of_every_report,
};
pub use lines::answers_are_the_lines;
pub use parts::{one_question, parts_are_read, parts_tell_the_whole};
pub use read::{omissions_are_read, realised_omits_just_that, runs_report_rounds};
pub use reports::one_report;
pub use shown::failures_are_shown;
