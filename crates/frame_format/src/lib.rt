//! Messages as bytes: the frames of a program, their one spelling, and the first fault of bytes
//! that are none.
#![tactic(auto)]

mod block;
mod checking;
mod decoding;
mod encoding;
mod fault;
mod frame;
mod header;
mod laws;
mod layout;
mod reading;
mod version;

pub use block::{size_of, width};
pub use checking::first_fault;
pub use decoding::decode;
pub use encoding::encode;
pub use fault::FrameFault;
pub use frame::Frame;
pub use header::write_header;
pub use laws::{one_spelling, spelled_is_read};
pub use layout::Layout;
pub use reading::{copy_of, fields_in, from_of, round_of, to_of, version_of};
pub use version::FrameVersion;
