//! The book of a run: its events, one after the other, what follows from them by the names of
//! messages, and the buffers with the frames of these names.
#![tactic(auto)]

mod book;
mod buffer;
mod fault;
mod frames;
mod growth;
mod mailbox;
mod mark;
mod marks;
mod naming;
mod notes;
mod opening;
mod round_frames;
mod spare_places;
mod tags;
mod waiting;

pub use book::Book;
pub use buffer::Buffer;
pub use fault::{CloseFault, IdleFault, ReceiveFault, Refused, SendFault};
pub use frames::Frames;
pub use growth::room;
pub use mailbox::Mailbox;
pub use mark::Mark;
pub use naming::is_name;
pub use run_events::{StoredEvent, StoredName, add_names, events_of};
pub use tags::{earliest, is_within};
pub use waiting::{Waiting, take_all};
