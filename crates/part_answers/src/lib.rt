//! The answers of the parts of a search, and the whole answer that they make together.
#![tactic(auto)]

mod answered;
mod cutting;
mod joining;
mod number;
mod part;
mod property;
mod question;
mod reading;
mod whole;
mod writing;

pub use answered::{Answered, Outcome};
pub use joining::{PartsFault, together};
pub use part::{MAX_COUNT, Part, PartAnswers, PartHead};
pub use property::Property;
pub use question::Question;
pub use reading::{PartFault, read_part};
pub use writing::{write_answers, write_head};
