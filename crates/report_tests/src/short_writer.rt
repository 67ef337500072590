//! A writer that takes a bounded number of bytes.

use std::alloc::Global;
use std::io;
use std::io::{ErrorKind, Write};

/// Bytes in memory, up to a bound. A write that goes beyond it takes what there is room for; the
/// next one fails.
#[derive(Drop)]
pub(crate) struct ShortWriter {
    bytes: Vec<u8>,
    room: usize,
}

impl ShortWriter {
    pub(crate) fn new(alloc: Global, room: usize) -> ShortWriter {
        ShortWriter {
            bytes: Vec::new(alloc),
            room,
        }
    }

    pub(crate) fn as_slice(&self) -> &[u8] {
        self.bytes.as_slice()
    }
}

impl Write for ShortWriter {
    fn write(&mut self, buf: &[u8]) -> io::Result<usize> {
        let left = self.room.saturating_sub(self.bytes.len());
        if left == 0 && !buf.is_empty() {
            return Err(io::Error::new(ErrorKind::StorageFull, "no room"));
        }
        let (taken, _) = buf.split_at(if left < buf.len() { left } else { buf.len() });
        self.bytes.extend_from_slice(taken)?;
        Ok(taken.len())
    }

    fn flush(&mut self) -> io::Result<()> {
        Ok(())
    }
}
