//! A report as data for other programs and as tables for people.
//!
//! The data is JSON, an object on each line ([`write_report_data`]). The tables have aligned
//! columns: all rows ([`write_table`]), or what the report comes to ([`write_summary`]). The
//! messages that it omits are also written as an omission file ([`write_omissions`]).
#![tactic(auto)]

mod cells;
mod fault;
mod line;
mod omissions;
mod report_lines;
mod summary;
mod table;
mod tables;
mod values;
mod writing;

pub use fault::DataFault;
pub use omissions::write_omissions;
pub use summary::write_summary;
pub use tables::{Grouping, TableOptions, write_table};
pub use writing::write_report_data;
