//! The words in which it's told why a message isn't heard and why an event did nothing, with the
//! lines of the schedule's text in the place of places in the trace.
#![tactic(auto)]

mod idle_text;
mod reason_text;
mod text_lines;

pub use idle_text::IdleText;
pub use reason_text::ReasonText;
pub use text_lines::{HEADER_LINES, TextLine, TextLines};
