//! Lines that are written to memory.
use run_events::NoMemory;
use std::alloc::Global;
use std::io;

/// A fault of a writer to memory, which fails only for want of it.
pub(crate) fn full(_error: io::Error) -> NoMemory {
    NoMemory
}

/// What was written, as a text.
pub(crate) fn text_of(alloc: Global, written: Vec<u8>) -> String {
    match String::from_utf8(written) {
        Ok(text) => text,
        Err(_) => String::new(alloc),
    }
}
