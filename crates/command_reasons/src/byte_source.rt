//! The bytes of a file that was read, as a schedule's reader takes them.
use schedule_text::{SourceFault, TextSource};

/// Bytes in memory, and how many of them were taken.
#[derive(Drop)]
pub(crate) struct ByteSource<'a> {
    bytes: &'a [u8],
    taken: usize,
}

impl<'a> ByteSource<'a> {
    /// All of the bytes.
    pub(crate) fn new(bytes: &'a [u8]) -> ByteSource<'a> {
        ByteSource { bytes, taken: 0 }
    }
}

impl TextSource for ByteSource<'_> {
    fn add_next(&mut self, most: usize, bytes: &mut Vec<u8>) -> Result<(), SourceFault> {
        let start = self.taken.min(self.bytes.len());
        let end = start + most.min(self.bytes.len() - start);
        match bytes.extend_from_slice(&self.bytes[start..end]) {
            Ok(()) => {
                self.taken = end;
                Ok(())
            }
            Err(_) => Err(SourceFault::NoMemory),
        }
    }
}
