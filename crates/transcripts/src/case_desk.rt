//! The files of a test, in memory.
ghost use Rattle.std.specs.Prelude.{◌≡◌};

use command_reasons::TellingDesk;
use command_runs::{Desk, DeskFault, SourceFault, TextSource, Unwatched, Written};
use run_events::NoMemory;
use std::alloc::Global;
use std::collections::BTreeMap;
use std::io::ErrorKind;

/// Copies of files by the names that commands have for them, and why others couldn't be read. What
/// a command writes on this desk is there for the commands after it.
#[derive(Drop)]
pub(crate) struct CaseDesk {
    alloc: Global,
    held: BTreeMap<String, Vec<u8>>,
    unread: BTreeMap<String, ErrorKind>,
    failure: Option<ErrorKind>,
    written: Written,
}

impl CaseDesk {
    pub(crate) fn new(alloc: Global) -> CaseDesk {
        CaseDesk {
            alloc,
            held: BTreeMap::new(alloc),
            unread: BTreeMap::new(alloc),
            failure: None,
            written: Written::new(alloc),
        }
    }

    /// Whether it has a file of this name.
    pub(crate) fn has(&self, name: &str) -> bool {
        self.held.contains_key(name)
    }

    /// Puts a file on the desk, in the place of one of the same name.
    pub(crate) fn give(&mut self, name: &str, bytes: Vec<u8>) -> Result<(), NoMemory>
        ensures { self.new.written ≡ self.old.written }
    {
        let name = String::from_str(self.alloc, name)?;
        match self.held.insert(name, bytes) {
            Ok(_) => Ok(()),
            Err(_) => Err(NoMemory),
        }
    }

    /// Remembers why a file can't be read.
    pub(crate) fn miss(&mut self, name: &str, why: ErrorKind) -> Result<(), NoMemory> {
        let name = String::from_str(self.alloc, name)?;
        match self.unread.insert(name, why) {
            Ok(_) => Ok(()),
            Err(_) => Err(NoMemory),
        }
    }

    /// A copy of a file's bytes, up to so many.
    fn copy(&mut self, alloc: Global, name: &str, most: usize) -> Result<Vec<u8>, DeskFault>
        ensures { self.new.written ≡ self.old.written }
    {
        match self.held.get(name) {
            Some(bytes) => {
                let most = most.min(bytes.len());
                match bytes[..most].to_vec(alloc) {
                    Ok(bytes) => Ok(bytes),
                    Err(_) => Err(DeskFault::NoMemory),
                }
            }
            None => {
                self.failure = match self.unread.get(name) {
                    Some(why) => Some(*why),
                    None => Some(ErrorKind::NotFound),
                };
                Err(DeskFault::Failed)
            }
        }
    }
}

/// A copy of a file, and how many of its bytes were taken.
#[derive(Drop)]
pub(crate) struct CaseFile {
    bytes: Vec<u8>,
    taken: usize,
}

impl TextSource for CaseFile {
    fn add_next(&mut self, most: usize, bytes: &mut Vec<u8>) -> Result<(), SourceFault> {
        let start = self.taken.min(self.bytes.len());
        let end = start + most.min(self.bytes.len() - start);
        match bytes.extend_from_slice(&self.bytes[start..end]) {
            Ok(()) => {
                self.taken = end;
                Ok(())
            }
            Err(_) => Err(SourceFault::NoMemory),
        }
    }
}

impl Desk for CaseDesk {
    type File = CaseFile;

    type Watch = Unwatched;

    ghost written = { λ desk. desk.written };

    fn watch(&self) -> Unwatched {
        Unwatched
    }

    fn read(&mut self, alloc: Global, name: &str, limit: usize) -> Result<Vec<u8>, DeskFault> {
        self.copy(alloc, name, limit.saturating_add(1))
    }

    fn open(&mut self, alloc: Global, name: &str) -> Result<CaseFile, DeskFault> {
        let bytes = self.copy(alloc, name, usize::MAX)?;
        Ok(CaseFile { bytes, taken: 0 })
    }

    fn try_write(&mut self, _name: &str) -> Result<(), DeskFault> {
        Ok(())
    }

    fn overwrites(&self, target: &str, input: &str) -> bool {
        target == input
    }

    fn write(&mut self, name: &str, bytes: &[u8]) -> Result<(), DeskFault> {
        self.written.note(name)?;
        let Ok(bytes) = bytes.to_vec(self.alloc) else {
            return Err(DeskFault::NoMemory);
        };
        match self.give(name, bytes) {
            Ok(()) => Ok(()),
            Err(NoMemory) => Err(DeskFault::NoMemory),
        }
    }
}

impl TellingDesk for CaseDesk {
    fn failure(&self) -> Option<ErrorKind> {
        self.failure
    }
}
