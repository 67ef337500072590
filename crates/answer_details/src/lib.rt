//! What `explore` prints besides its answers: the run in which each property fails, in words and as
//! a table, and what is easily misread of the answers.
#![tactic(auto)]

mod decisions;
mod details;
mod failing_data;
mod failing_run;
mod missed;
mod notes;
mod table;
mod text;
mod writing;

pub use decisions::{write_split, write_taken_back};
pub use details::{Details, details_of};
pub use failing_run::SearchedRuns;
pub use writing::{write_detailed, write_detailed_data};
