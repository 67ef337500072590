//! The programs that come with the product: gathering the inputs, counting votes, and Algorithm 1
//! of Dwork, Lynch and Stockmeyer, consensus where fewer than half of the nodes fail.
#![tactic(auto)]

mod fault;
mod library;
mod source;
mod texts;

pub use fault::LibraryFault;
pub use library::{count_votes, count_votes_text, dls1, dls1_text, gather, gather_text};
