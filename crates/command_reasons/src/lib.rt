//! Why a command refuses, in words and with the place: what `roundc why` prints.
#![tactic(auto)]

mod asked;
mod before_threads;
mod byte_source;
mod columns;
mod condition;
mod condition_program;
mod decision_lines;
mod explain;
mod files;
mod header;
mod held_desk;
mod help;
mod library;
mod line_faults;
mod located;
mod named_faults;
mod nesting;
mod options;
mod parts;
mod program;
mod refusals;
mod report_reasons;
mod round_reasons;
mod run_causes;
mod run_reasons;
mod schedule_forms;
mod search_notes;
mod sentence;
mod source;
mod texts;
mod trace_faults;
mod verdict_lines;
mod word_fault;

pub use explain::{explain_words, run_or_explain};
pub use files::{TellingDesk, files_read_by};
