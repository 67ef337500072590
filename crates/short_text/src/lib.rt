//! Texts that are made in place before they go out: bytes are collected in an array of fixed size,
//! which takes no memory of the heap, and handed on in pieces.
#![tactic(auto)]

mod number;
mod text;

pub use number::{push_digits, push_number, push_number_and};
pub use text::{ROOM, ShortText};
