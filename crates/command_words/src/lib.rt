//! The words of the command line of `roundc`, read by `clap`.
//!
//! ```text
//! roundc check SOURCE [--format FORMAT]
//! roundc show SOURCE
//! roundc run SOURCE --schedule FILE [--decided] [--format FORMAT] [--by BY] [--vars LIST]
//!     [--changed]
//! roundc draw SOURCE --schedule FILE [--rounds RANGE] [--nodes LIST] [--html]
//! roundc threads SOURCE --setup FILE --trace FILE [--decided]
//! roundc judge SOURCE --schedule FILE --correct LIST --delta D --gst G [--format FORMAT]
//! roundc lockstep SOURCE --header FILE --correct LIST --delta D --gst G [--delays LIST]
//!     [--orders LIST] [--ticks T] [--stop I C].. [--omissions FILE] [--delay J I R W]..
//! roundc realise SOURCE --header FILE --omissions FILE
//! roundc rounds SOURCE --header FILE --omissions FILE [--decided] [--format FORMAT] [--by BY]
//!     [--vars LIST] [--changed]
//! roundc explore SOURCE --header FILE [--inputs INPUTS] [--faults FAULTS] [--clear C]
//!     [--hears M] [--part I/N] [--jobs J] [--sample COUNT] [--seed S] [--check LIST]
//!     [--always EXPR] [--trace FILE] [--format FORMAT] [--brief]
//! roundc together FILE..
//! ```
//!
//! SOURCE is a file's name, or `@NAME:VALUES`, a program of the library. FILE is a file's name, or
//! `-` for standard input: what `-` means is left to the caller, who opens the file; a header and
//! omissions can't both be `-`. LIST is numbers with commas, for `--check` names of properties, or
//! for `--vars` any text, which is to be names of variables. The FILE of a header may be
//! `@NODES:FAULTS:ROUNDS`, three numbers, which the caller takes for a header with inputs 0. INPUTS
//! are `header` or `any`, and for such a header `any` if they're left out. FAULTS are `none`,
//! `omission` or `crash`. D is a number of 1 to 1,024, J one of 1 to 256, and all others are
//! numbers of 32 bits, C of `--clear` and COUNT of 1 on. RANGE is `A-B`, two such numbers of 1 on
//! with A no larger than B, and I is one of 1 to N, which is 65,536 at most. EXPR is any text.
//! FORMAT is `text` or `json`, or for `run` and `rounds` also `table`, `summary` or `omissions`,
//! and BY is `round` or `node`. What two dots follow may be there several times.
#![tactic(auto)]

mod changes;
mod commands;
mod drawing;
mod exploring;
mod forms;
mod headers;
mod inputs;
mod negative;
mod searching;
mod values;
mod words;

pub use changes::{Changes, NodeStop, OwnDelay};
pub use drawing::{Drawing, RoundRange};
pub use exploring::{Checks, Exploring, FaultChoice, InputChoice};
pub use forms::{AnswerFormat, Blocks, Form, Format};
pub use headers::{HeaderNumbers, read_header_numbers};
pub use searching::{PartChoice, SampleChoice};
pub use values::Source;
pub use words::{Words, WordsFault, read_words};
