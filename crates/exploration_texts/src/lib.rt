//! What the options of `explore` ask of all runs in rounds, and what is told of it.
#![tactic(auto)]

mod answering;
mod asking;
mod condition;
mod question;
mod stops;
mod told;
mod trace;

pub use answering::answer_all;
pub use asking::{inputs_of, question_of};
pub use condition::{ConditionFault, read_condition};
pub use question::question_digest;
pub use stops::stops_of;
pub use told::{Answered, Failed, Told, first_failure, write_answers, write_members};
pub use trace::commented;
