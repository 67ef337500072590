//! Schedules, thread setups and headers as texts: what a text says, the readers, and the writer of
//! schedules.
#![tactic(auto)]

mod draft;
mod fault;
mod front;
mod intake;
mod kind;
mod last_round;
mod laws;
mod line;
mod line_reader;
mod number;
mod pace;
mod reading;
mod schedule_reader;
mod source;
mod writing;

pub use fault::ScheduleFault;
pub use intake::begin_utf8;
pub use laws::{one_meaning, one_reading};
pub use pace::{Pace, Stop};
pub use reading::{MAX_TEXT, Schedule, ThreadSetup, read_header, read_schedule, read_threads};
pub use schedule_reader::ScheduleReader;
pub use source::{SourceFault, TextFault, TextSource};
pub use writing::{write_schedule, write_stored_schedule};
