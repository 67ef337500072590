//! Texts that say which messages a run in rounds omits: what a text says, its reader, the table of
//! the messages, and how many steps each node takes.
#![tactic(auto)]

mod blocks;
mod fault;
mod known;
mod laws;
mod line;
mod line_reader;
mod nodes;
mod omissions;
mod reading;
mod stops;
mod table;
mod word;

pub use laws::one_reading;
pub use line::{OmissionLine, RoundRange};
pub use nodes::NodeList;
pub use omissions::Omissions;
pub use reading::read_omissions;
