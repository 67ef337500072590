//! Transcripts: commands with what they print, run and compared. This is `roundc test`.
//!
//! A transcript is read into its entries ([`Transcript`]), each command runs on a desk in memory
//! that holds copies of the files that it reads, and what it prints is compared line by line. So a
//! test writes no file but, if it's asked to update, the transcript itself.
#![tactic(auto)]

mod case_desk;
mod common_lines;
mod difference;
mod finding;
mod options;
mod printed;
mod reporting;
mod running;
mod tested;
mod testing;
mod tests;
mod transcript;
mod updating;
mod words;

pub use finding::{FolderDesk, FolderEntry};
pub use testing::test_words;
