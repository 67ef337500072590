//! Where a refused text is at fault: its lines and columns, what could stand there, and where its
//! program breaks a rule.
//!
//! What lines, columns and carets are is proved exactly, and so is which of the names and words
//! that may stand in a place is nearest to one that isn't declared. Of what `expected_at` and
//! `fault_place` find only safety is proved: it's compared with a second reading, `.ci/placing.py`,
//! on random texts.
#![tactic(auto)]

mod doubles;
mod earliest;
mod excerpt;
mod expected;
mod fault;
mod kind;
mod layout;
mod line;
mod meanings;
mod mistake;
mod nearest;
mod operands;
mod parts;
mod place;
mod previous;
mod recognition;
mod rules;
mod scope;
mod sites;
mod spelling;
mod spot;
mod telling;
mod trial;
mod types;
mod wants;

pub use excerpt::{Excerpt, excerpt_of};
pub use expected::{Expected, expected_at};
pub use fault::{Double, FaultPlace, Related, fault_place};
pub use kind::TokenKind;
pub use layout::NameAt;
pub use line::line_at;
pub use mistake::Mistake;
pub use place::{Place, place_of};
pub use rules::NotAllowed;
pub use wants::Wants;
