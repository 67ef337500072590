//! Writers that take nothing, fail once, or can't hand on what they took.
use std::io;
use std::io::Write;

/// A writer that takes nothing.
#[derive(Drop)]
pub struct Full;

impl Write for Full {
    fn write(&mut self, _bytes: &[u8]) -> io::Result<usize> {
        Ok(0)
    }

    fn flush(&mut self) -> io::Result<()> {
        Ok(())
    }
}

/// A writer that takes all and can't hand it on.
#[derive(Drop)]
pub struct Stuck;

impl Write for Stuck {
    fn write(&mut self, bytes: &[u8]) -> io::Result<usize> {
        Ok(bytes.len())
    }

    fn flush(&mut self) -> io::Result<()> {
        Err(io::Error::from_raw_os_error(5))
    }
}

/// A writer that takes so many bytes, then fails once, and takes all after that. Whoever writes on
/// after a failure is seen by what it took.
#[derive(Drop)]
pub struct Once {
    pub room: usize,
    pub has_failed: bool,
    pub taken: Vec<u8>,
}

impl Write for Once {
    fn write(&mut self, bytes: &[u8]) -> io::Result<usize> {
        if self.room == 0 && !self.has_failed {
            self.has_failed = true;
            return Err(io::Error::from_raw_os_error(28));
        }
        let room = if self.has_failed {
            usize::MAX
        } else {
            self.room
        };
        let count = bytes.len().min(room);
        self.taken.extend_from_slice(&bytes[..count])?;
        self.room = self.room.saturating_sub(count);
        Ok(count)
    }

    fn flush(&mut self) -> io::Result<()> {
        Ok(())
    }
}
