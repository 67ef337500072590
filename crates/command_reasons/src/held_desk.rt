//! The files of a command as a desk, on which the command is carried out.
ghost use Rattle.std.specs.Prelude.{◌≡◌};

use crate::byte_source::ByteSource;
use crate::files::{CommandFiles, ReadFile};
use command_runs::{Desk, DeskFault, Unwatched, Written};
use run_events::NoMemory;
use std::alloc::Global;

/// The files that were read for a command. A command that reads a file twice finds what each of the
/// two readings found: standard input, for example, is empty the second time.
///
/// What is written on this desk is lost.
#[derive(Drop)]
pub(crate) struct HeldDesk<'a> {
    files: &'a [ReadFile<'a>],
    given: Vec<bool>,
    written: Written,
}

impl<'a> HeldDesk<'a> {
    pub(crate) fn new(
        alloc: Global,
        files: &'a CommandFiles<'a>,
    ) -> Result<HeldDesk<'a>, NoMemory> {
        let files = files.as_slice();
        Ok(HeldDesk {
            files,
            given: vec![in alloc; false; files.len()]?,
            written: Written::new(alloc),
        })
    }

    /// The bytes of the next file of a name, if it could be read.
    fn next_bytes(&mut self, name: &str) -> Option<&'a [u8]>
        ensures { self.new.written ≡ self.old.written }
    {
        for (file, given) in self.files.iter().zip(self.given.iter_mut()) {
            if file.name == name && !*given {
                *given = true;
                return file.bytes.as_deref();
            }
        }
        None
    }
}

/// The bytes up to one more than the limit.
fn first_bytes(bytes: &[u8], limit: usize) -> &[u8] {
    if limit < bytes.len() {
        &bytes[..limit + 1]
    } else {
        bytes
    }
}

impl<'a> Desk for HeldDesk<'a> {
    type File = ByteSource<'a>;

    type Watch = Unwatched;

    ghost written = { λ desk. desk.written };

    fn watch(&self) -> Unwatched {
        Unwatched
    }

    fn read(&mut self, alloc: Global, name: &str, limit: usize) -> Result<Vec<u8>, DeskFault> {
        match self.next_bytes(name) {
            Some(bytes) => match first_bytes(bytes, limit).to_vec(alloc) {
                Ok(bytes) => Ok(bytes),
                Err(_) => Err(DeskFault::NoMemory),
            },
            None => Err(DeskFault::Failed),
        }
    }

    fn open(&mut self, _alloc: Global, name: &str) -> Result<ByteSource<'a>, DeskFault> {
        match self.next_bytes(name) {
            Some(bytes) => Ok(ByteSource::new(bytes)),
            None => Err(DeskFault::Failed),
        }
    }

    fn try_write(&mut self, _name: &str) -> Result<(), DeskFault> {
        Ok(())
    }

    fn overwrites(&self, target: &str, input: &str) -> bool {
        target == input
    }

    fn write(&mut self, name: &str, _bytes: &[u8]) -> Result<(), DeskFault> {
        self.written.note(name)
    }
}
