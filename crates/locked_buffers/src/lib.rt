//! A run that many threads share: its book under one lock, and the buffer of each node under one of
//! its own.
#![tactic(auto)]

mod account;
mod act;
mod commit;
mod fault;
mod gate;
mod locking;
mod mail;
mod names;
mod network;
mod node_buffer;
mod post;
mod reading;
mod ready;
mod refusals;
mod run;
mod seat;

pub use fault::{PostFault, RelayFault, Unmatched};
pub use gate::{Gate, OpenGate, Point};
pub use mail::{Mail, PostMail};
pub use post::Post;
pub use refusals::{may_close, refuses_receive, refuses_send};
pub use run::Run;
pub use seat::{Relay, Seat};
